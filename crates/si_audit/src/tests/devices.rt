// Readers and writers of std that give and take little, and fail. They don't tell their bytes, as a file or a pipe doesn't.
use std::alloc::{AllocError, Global};
use std::io::{self, ErrorKind, Read, Write};

/// Gives the bytes of a slice, at most so many a call, and counts the calls. It fails once, in place of giving more than so
/// many in all, and then goes on.
#[derive(Drop)]
pub(crate) struct Giving<'a> {
    pub(crate) rest: &'a [u8],
    pub(crate) a_call: usize,
    /// How many bytes it gives before it fails, while it is yet to fail.
    pub(crate) before: Option<usize>,
    pub(crate) kind: ErrorKind,
    pub(crate) calls: u32,
}

impl Read for Giving<'_> {
    fn read(&mut self, into: &mut [u8]) -> io::Result<usize> {
        self.calls = self.calls.saturating_add(1);
        if self.before == Some(0) {
            self.before = None;
            return Err(self.kind.into());
        }
        let n = self.rest.len().min(self.a_call).min(into.len());
        let n = n.min(self.before.unwrap_or(n));
        into[..n].copy_from_slice(&self.rest[..n]);
        self.rest = &self.rest[n..];
        if let Some(before) = self.before {
            self.before = Some(before.saturating_sub(n));
        }
        Ok(n)
    }
}

/// Takes at most so many bytes a call, and no more than so many in all, where it fails if `then_fails`, and else takes none.
/// It counts the calls.
#[derive(Drop)]
pub(crate) struct Taking {
    pub(crate) taken: Vec<u8>,
    pub(crate) a_call: usize,
    pub(crate) room: usize,
    pub(crate) then_fails: bool,
    pub(crate) flush_fails: bool,
    pub(crate) writes: u32,
    pub(crate) flushes: u32,
}

impl Taking {
    /// Takes all bytes, into memory for 256 of them.
    pub(crate) fn new(alloc: Global) -> Result<Taking, AllocError> {
        Ok(Taking {
            taken: Vec::with_capacity(alloc, 256)?,
            a_call: usize::MAX,
            room: usize::MAX,
            then_fails: true,
            flush_fails: false,
            writes: 0,
            flushes: 0,
        })
    }
}

impl Write for Taking {
    fn write(&mut self, bytes: &[u8]) -> io::Result<usize> {
        self.writes = self.writes.saturating_add(1);
        let n = bytes.len().min(self.a_call).min(self.room);
        if n == 0 && self.then_fails {
            return Err(ErrorKind::Other.into());
        }
        self.taken.extend_from_slice(&bytes[..n])?;
        self.room -= n;
        Ok(n)
    }

    fn flush(&mut self) -> io::Result<()> {
        self.flushes = self.flushes.saturating_add(1);
        if self.flush_fails {
            return Err(ErrorKind::Other.into());
        }
        Ok(())
    }
}
