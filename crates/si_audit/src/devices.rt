//! The devices: where a text is read from, and where a report is written to.
ghost use Rattle.std.specs.Prelude.{◌≡◌, ◌↔◌, ◌⊎◌, ℕ, ◌<◌, ◌≤◌, List, length, Bool, ◌||◌, Option, Ok, IfOk, OnOk, IsErr, IsTrue, IsFalse};
ghost use Rattle.std.specs.Io.KnownBytes.{ReadConsumes, WriteAppends, Keeps};
ghost use Rattle.si_audit.specs.Devices.{device_of, given_of, IsSound, reads_after, or_first};

use std::io::{Read, Write};

/// A call on a device failed.
#[derive(Clone, Copy, PartialEq, Eq)]
pub struct Failed;

/// What a text is read from.
pub trait Source {
    /// The bytes still to come, where the device tells them.
    ghost remaining: { Self → Option (List ℕ) };
    /// Whether a call has failed.
    ghost has_failed: { Self → Bool };
    /// How many reads gave bytes, which is counted up to 2^64 - 1.
    ghost reads: { Self → ℕ };

    /// Reads into the front of `into`, and answers how many bytes it read. A read that gives no byte into room for some is
    /// the end.
    fn read(&mut self, into: &mut [u8]) -> Result<usize, Failed>
        ensures bound { IfOk result (λ n. n ≤ length into.new) }
        ensures bytes { ReadConsumes (remaining self.old) (remaining self.new) result into.new }
        ensures failed { IsTrue (has_failed self.new) ↔ (IsTrue (has_failed self.old) ⊎ IsErr result) }
        ensures counted { reads self.new ≡ reads_after (reads self.old) result };

    fn failed(&self) -> bool
        ensures { result ≡ has_failed self.now };
}

/// What a report is written to.
pub trait Sink {
    /// The bytes taken, where the device tells them.
    ghost taken: { Self → Option (List ℕ) };
    /// Whether a call has failed, or a write has taken nothing of some bytes.
    ghost has_failed: { Self → Bool };
    /// Whether a write has failed, or taken nothing of some bytes.
    ghost has_refused: { Self → Bool };
    /// Whether a flush has succeeded and no write came after it.
    ghost is_flushed: { Self → Bool };
    /// A write that was refused is a failure.
    ghost refused_fails: { (s : Self) → IsTrue (has_refused s) → IsTrue (has_failed s) };

    /// Takes some bytes from the front of `bytes`, and answers how many.
    fn write(&mut self, bytes: &[u8]) -> Result<usize, Failed>
        ensures bound { IfOk result (λ n. n ≤ length bytes.now) }
        ensures bytes { WriteAppends (taken self.old) (taken self.new) result bytes.now }
        ensures failed { IsTrue (has_failed self.new)
            ↔ (IsTrue (has_failed self.old) ⊎ IsErr result ⊎ ((result ≡ Ok 0) × (0 < length bytes.now))) }
        ensures refused { IsTrue (has_refused self.new)
            ↔ (IsTrue (has_refused self.old) ⊎ IsErr result ⊎ ((result ≡ Ok 0) × (0 < length bytes.now))) }
        ensures unflushed { IsFalse (is_flushed self.new) };

    /// Hands on what was taken.
    fn flush(&mut self) -> Result<(), Failed>
        ensures bytes { Keeps (taken self.old) (taken self.new) }
        ensures failed { IsTrue (has_failed self.new) ↔ (IsTrue (has_failed self.old) ⊎ IsErr result) }
        ensures refused { has_refused self.new ≡ has_refused self.old }
        ensures flushed { OnOk result (IsTrue (is_flushed self.new)) };

    /// Whether a call has failed, or a write has taken nothing of some bytes. It stays true.
    fn failed(&self) -> bool
        ensures { result ≡ has_failed self.now };
}

/// One of std's readers or writers. Each call is passed on, and any error is a failure, an interrupted call included.
#[derive(Drop)]
pub struct FromStd<D> {
    /// The reader or writer itself.
    pub(crate) device: D,
    refused: bool,
    flush_failed: bool,
    flushed: bool,
    reads: u64,
}

impl<D> FromStd<D> {
    pub fn new(device: D) -> FromStd<D>
        ensures device { device_of result ≡ device }
        ensures sound { IsSound result }
        ensures given { given_of result ≡ 0 }
    {
        FromStd {
            device,
            refused: false,
            flush_failed: false,
            flushed: false,
            reads: 0,
        }
    }
}

impl<D: Read> Source for FromStd<D> {
    ghost remaining = { λ s. D.remaining s.device };

    ghost has_failed = { λ s. s.refused };

    ghost reads = { λ s. s.reads };

    fn read(&mut self, into: &mut [u8]) -> Result<usize, Failed> {
        let Ok(n) = self.device.read(into) else {
            self.refused = true;
            return Err(Failed);
        };
        if n > 0 {
            self.reads = self.reads.saturating_add(1);
        }
        Ok(n)
    }

    fn failed(&self) -> bool {
        self.refused
    }
}

impl<D: Write> Sink for FromStd<D> {
    ghost taken = { λ s. D.contents s.device };

    ghost has_failed = { λ s. s.refused || s.flush_failed };

    ghost has_refused = { λ s. s.refused };

    ghost is_flushed = { λ s. s.flushed };

    ghost refused_fails = { λ s e. or_first s.refused s.flush_failed e };

    fn write(&mut self, bytes: &[u8]) -> Result<usize, Failed> {
        self.flushed = false;
        let Ok(n) = self.device.write(bytes) else {
            self.refused = true;
            return Err(Failed);
        };
        if n == 0 && !bytes.is_empty() {
            self.refused = true;
        }
        Ok(n)
    }

    fn flush(&mut self) -> Result<(), Failed> {
        if self.device.flush().is_err() {
            self.flush_failed = true;
            return Err(Failed);
        }
        self.flushed = true;
        Ok(())
    }

    fn failed(&self) -> bool {
        self.refused || self.flush_failed
    }
}
