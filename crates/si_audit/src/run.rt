//! A run is two loops: a text is read to its end, or past the limit, and its report is written out whole.
ghost use Rattle.std.specs.Prelude.{◌≡◌, ◌≢◌, ◌↔◌, ◌+◌, ◌≤◌, ℕ, List, ◌++◌, IfOk, IfErr, IfSome, OnOk, Err, IsTrue, IsFalse, OnErr, IsErr};
ghost use Rattle.std.specs.Io.KnownBytes.{Appends, Keeps};
ghost use Rattle.si_audit.specs.Report.{IsReport};
ghost use Rattle.si_audit.specs.Outcomes.{IsOutcome, status_of};
ghost use Rattle.si_audit.specs.Engine.{HasText, IsFed};
ghost use Rattle.si_audit.specs.Left.{IsYet};
ghost use Rattle.si_audit.specs.declared.run.RunFault.TheVariants.{NoMemory as no_memory};

use crate::answer::{Answer, Report};
use crate::devices::{Failed, Sink, Source};
use crate::engine::{Auditor, Outcome};
use crate::options::Options;
use sia_events::NoMemory;
use std::alloc::Global;
use std::sync::Wait;
use std::thread::Threads;
use thiserror::Error;

/// How many bytes a piece of the text mostly has.
const PIECE: usize = 65_536;

/// Why a run ended before its report was written.
#[derive(Clone, Copy, Debug, PartialEq, Eq, Error)]
pub enum RunFault {
    #[error("read failed")]
    Read,
    #[error("write failed")]
    Write,
    #[error("no memory")]
    NoMemory,
}

impl From<NoMemory> for RunFault {
    ghost from_gives = { λ _ e. e ≡ no_memory };

    fn from(_refused: NoMemory) -> RunFault {
        RunFault::NoMemory
    }
}

/// Reads a history's text to its end, or past the most bytes that the options allow, writes its report in the form asked
/// for, and flushes once.
///
/// All memory is taken before the first byte is written. Neither device may have failed before. The call
/// joins its workers and may wait for them.
pub fn run<T: Threads + Wait + Sync, R: Source, W: Sink>(
    rt: &T,
    alloc: Global,
    reader: &mut R,
    writer: &mut W,
    o: &Options,
) -> Result<Outcome, RunFault>
    requires reader { IsFalse (R.has_failed reader.old) }
    requires writer { IsFalse (W.has_failed writer.old) }
    // What is written is the report of the text that the reader gives, in the form of the options, and not a byte more. The
    // outcome is that of the options' level.
    ensures report { IfOk result (λ outcome. IfSome (R.remaining reader.old) (λ text.
        IsOutcome o.now.limits o.now.level text outcome × (bytes : List ℕ)
        × IsReport o.now.limits o.now.form text bytes
        × Appends (W.taken writer.old) (W.taken writer.new) bytes)) }
    ensures flushed { OnOk result (IsTrue (W.is_flushed writer.new)) }

    // At most so many reads gave bytes.
    ensures reads { R.reads reader.new ≤ R.reads reader.old + o.now.limits.bytes + 1 }

    // Each fault comes exactly where its device failed.
    ensures read { (result ≡ Err RunFault.Read) ↔ IsTrue (R.has_failed reader.new) }
    ensures write { (result ≡ Err RunFault.Write) ↔ IsTrue (W.has_failed writer.new) }

    // What was written before a fault: nothing, or a front of the report, which is whole where no write was refused.
    ensures nothing { IfErr result (λ e. e ≢ RunFault.Write
        → Keeps (W.taken writer.old) (W.taken writer.new)) }
    ensures front { result ≡ Err RunFault.Write → IfSome (R.remaining reader.old) (λ text.
        (bytes : List ℕ) × (rest : List ℕ) × IsReport o.now.limits o.now.form text (bytes ++ rest)
        × Appends (W.taken writer.old) (W.taken writer.new) bytes) }
    ensures whole { result ≡ Err RunFault.Write → IsFalse (W.has_refused writer.new)
        → IfSome (R.remaining reader.old) (λ text.
        (bytes : List ℕ) × IsReport o.now.limits o.now.form text bytes
        × Appends (W.taken writer.old) (W.taken writer.new) bytes) }
{
    let auditor = read_text(alloc, reader, o)?;
    let audited = auditor.finish(rt, alloc)?;
    write_report(alloc, writer, &audited)
}

/// The program's status: 0 for a history that meets the level, 1 for one that falls short of it, 3 for a refused text and 4 for a fault.
pub fn status(r: &Result<Outcome, RunFault>) -> u8
    ensures { result ≡ status_of r.now }
{
    match r {
        Ok(Outcome::Clean) => 0,
        Ok(Outcome::Faulty) => 1,
        Ok(Outcome::Refused) => 3,
        Err(_) => 4,
    }
}

/// Feeds an auditor with all that comes, or until the text is past the most bytes; what follows then is left unread.
fn read_text<'a, R: Source>(
    alloc: Global,
    source: &mut R,
    o: &'a Options,
) -> Result<Auditor<'a>, RunFault>
    requires { IsFalse (R.has_failed source.old) }
    ensures text { IfOk result (λ auditor. IfSome (R.remaining source.old)
        (IsFed o.now.limits o.now auditor)) }
    ensures failed { (result ≡ Err RunFault.Read) ↔ IsTrue (R.has_failed source.new) }
    ensures reads { R.reads source.new ≤ R.reads source.old + o.now.limits.bytes + 1 }
    ensures no_write { result ≡ Err RunFault.Write → ⊥ }
{
    let mut auditor = Auditor::new(alloc, o);
    let mut piece = [0u8; PIECE];
    let most = o.limits().bytes();
    let mut count = 0;
    'reading: while count <= most {
        let Ok(n) = source.read(&mut piece) else {
            return Err(RunFault::Read);
        };
        if n == 0 {
            break;
        }
        auditor.feed(&piece[..n])?;
        count += n as u64;
    }
    Ok(auditor)
}

/// Writes the report of what a text came to, and answers how its run ends. Where memory is refused nothing is written.
fn write_report<W: Sink>(alloc: Global, writer: &mut W, a: &Answer) -> Result<Outcome, RunFault>
    requires { IsFalse (W.has_failed writer.old) }
    ensures outcome { IfOk result (λ outcome. outcome ≡ a.now.outcome) }
    ensures flushed { OnOk result (IsTrue (W.is_flushed writer.new)) }
    ensures read { result ≢ Err RunFault.Read }
    ensures write { (result ≡ Err RunFault.Write) ↔ IsTrue (W.has_failed writer.new) }
    ensures nothing { IfErr result (λ e. e ≢ RunFault.Write
        → Keeps (W.taken writer.old) (W.taken writer.new)) }
    ensures front { result ≡ Err RunFault.Write → (bytes : List ℕ) → HasText a.now bytes
        → (front : List ℕ) × (rest : List ℕ) × (bytes ≡ front ++ rest)
        × Appends (W.taken writer.old) (W.taken writer.new) front }
    ensures whole { result ≢ Err RunFault.NoMemory → IsFalse (W.has_refused writer.new)
        → (bytes : List ℕ) → HasText a.now bytes
        → Appends (W.taken writer.old) (W.taken writer.new) bytes }
{
    let written = write_whole(writer, &mut a.report(alloc)?);
    match written {
        Ok(()) => Ok(a.outcome),
        Err(Failed) => Err(RunFault::Write),
    }
}

fn write_bytes<W: Sink>(writer: &mut W, bytes: &[u8]) -> Result<(), Failed>
    requires { IsFalse (W.has_failed writer.old) }
    ensures ok { OnOk result (Appends (W.taken writer.old) (W.taken writer.new) bytes.now) }
    ensures err { OnErr result ((front : List ℕ) × (rest : List ℕ) × (bytes.now ≡ front ++ rest)
        × Appends (W.taken writer.old) (W.taken writer.new) front) }
    ensures failed { IsTrue (W.has_failed writer.new) ↔ IsErr result }
    ensures refused { IsTrue (W.has_refused writer.new) ↔ IsErr result }
{
    let mut rest = bytes;
    'writing: while !rest.is_empty() {
        let taken = writer.write(rest)?;
        if taken == 0 {
            return Err(Failed);
        }
        rest = &rest[taken..];
    }
    Ok(())
}

/// Writes the report, piece by piece, and flushes once.
fn write_whole<W: Sink>(writer: &mut W, report: &mut Report) -> Result<(), Failed>
    requires { IsFalse (W.has_failed writer.old) }
    ensures front { OnErr result ((bytes : List ℕ) → IsYet report.old bytes
        → (front : List ℕ) × (rest : List ℕ) × (bytes ≡ front ++ rest)
        × Appends (W.taken writer.old) (W.taken writer.new) front) }
    ensures whole { IsFalse (W.has_refused writer.new) → (bytes : List ℕ) → IsYet report.old bytes
        → Appends (W.taken writer.old) (W.taken writer.new) bytes }
    ensures failed { IsTrue (W.has_failed writer.new) ↔ IsErr result }
    ensures flushed { OnOk result (IsTrue (W.is_flushed writer.new)) }
{
    'giving: while report.advance() {
        write_bytes(writer, report.piece())?;
    }
    writer.flush()
}
