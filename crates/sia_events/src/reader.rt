//! Reading a history from its text, whole or in pieces.
ghost use Rattle.std.specs.Prelude.{◌≡◌, ◌⊎◌, ◌+◌, ◌<◌, ◌≤◌, ◌++◌, ℕ, length, List, [], true, false, Err, IsOk, IsErr, IsSome, IsNone, OnOk, OnErr};
ghost use Rattle.std.specs.Option.{option_map};
ghost use Rattle.sia_events.specs.declared.fault.TextFault.TheVariants.{NoMemory as OutOfMemory};
ghost use Rattle.sia_events.specs.Judging.{HasText};
ghost use Rattle.sia_events.specs.Drafts.{Knows};
ghost use Rattle.sia_events.specs.LogTables.{AreTables, events_of};
ghost use Rattle.sia_events.specs.Limits.{Limits, standard};
ghost use Rattle.sia_events.specs.Reading.{ReadsAs};
ghost use Rattle.sia_events.specs.Refusals.{IsWellFormed};
ghost use Rattle.sia_events.specs.Streaming.{StandsForRead, Progress};

use crate::fault::{NoMemory, Reason, Refusal, TextFault};
use crate::history::History;
use crate::judge::Judge;
use crate::limits::Limits;
use crate::log::Log;
use std::alloc::Global;
use std::marker::Model;

/// Reads a text that comes in pieces. It keeps the events so far and the bytes of the token that no separator has ended
/// yet, and of other parts of the text only how keys were listed last.
///
/// A token's fault is kept, and told by `finish`. The bytes go on being counted, since a text that is too long is refused
/// for that, whatever else it holds.
#[derive(Drop)]
pub struct TextReader {
    limits: Limits,
    judge: Judge,
    count: u64,
    fault: Option<(u32, Reason)>,
    unfinished: Vec<u8>,
    lost: bool,
}

impl Model for TextReader {
    ghost Value = { Progress };

    ghost view = { λ r. record {
      limits = r.limits;
      count = r.count;
      fault = r.fault;
      events = events_of r.judge.draft.tables;
      unfinished = r.unfinished.items;
      lost = r.lost;
    } };

    ghost invariant = { λ r. r.lost ≡ false → IsNone r.fault → r.count ≤ r.limits.bytes
        → Knows r.judge.draft × HasText r.limits r.count
        (events_of r.judge.draft.tables) r.unfinished.items };
}

impl TextReader {
    /// A reader that has been fed nothing, under the standard limits. It keeps the allocator for its later calls, and takes
    /// no memory yet.
    pub fn new(alloc: Global) -> Self
        ensures stands { StandsForRead standard result [] }
        ensures not_lost { result.lost ≡ false }
    {
        TextReader::with_limits(alloc, Limits::standard())
    }

    /// The same for a text within these limits.
    pub fn with_limits(alloc: Global, limits: Limits) -> Self
        ensures stands { StandsForRead limits result [] }
        ensures not_lost { result.lost ≡ false }
    {
        limits.law();
        TextReader {
            limits,
            judge: Judge::new(alloc),
            count: 0,
            fault: None,
            unfinished: Vec::new(alloc),
            lost: false,
        }
    }

    /// Takes the next piece of the text, cut anywhere. After an `Err` every later call answers that memory ran out.
    pub fn feed(&mut self, piece: &[u8]) -> Result<(), NoMemory>
        ensures stands { OnOk result ((limits : Limits) (text : List ℕ) → StandsForRead limits self.old text
            → StandsForRead limits self.new (text ++ piece.now)) }
        ensures ok { OnOk result (self.new.lost ≡ false) }
        ensures err { OnErr result (self.new.lost ≡ true) }
        ensures lost { self.old.lost ≡ true → IsErr result }

        // Once a token was refused, or the text is too long, no memory is wanted.
        ensures decided { self.old.lost ≡ false
            → (IsSome self.old.fault ⊎ (self.old.limits.bytes < self.old.count + length piece.now))
            → IsOk result }
    {
        if self.lost {
            return Err(NoMemory);
        }
        let limits = self.limits;
        let most = limits.bytes();
        self.count = self.count.saturating_add(piece.len() as u64).min(most + 1);
        if self.fault.is_some() {
            return Ok(());
        }
        if self.count > most {
            return Ok(());
        }
        match self.judge.take_piece(limits, &mut self.unfinished, piece) {
            Ok(()) => Ok(()),
            Err(Refusal::NoMemory) => {
                self.lost = true;
                Err(NoMemory)
            }
            Err(Refusal::Bad(reason)) => {
                self.fault = Some((self.judge.next_token(), reason));
                Ok(())
            }
        }
    }

    /// The number of the token that was refused, if one was.
    pub fn refused(&self) -> Option<u32>
        ensures { result ≡ option_map (λ fault. fault.0) self.now.fault }
    {
        Some(self.fault?.0)
    }

    /// The history that the text stands for, or why there is none.
    pub fn finish(self) -> Result<History, TextFault>
        ensures reads { (limits : Limits) (text : List ℕ) → StandsForRead limits self text
            → ReadsAs limits text result }
        ensures lost { self.lost ≡ true → result ≡ Err OutOfMemory }
    {
        let alloc = self.judge.alloc;
        let log = self.finish_log()?;
        History::of(alloc, log).map_err(|_| TextFault::NoMemory)
    }

    /// The log of the history that the text stands for, or why there is none.
    pub fn finish_log(self) -> Result<Log, TextFault>
        ensures reads { (limits : Limits) (text : List ℕ) → StandsForRead limits self text
            → ReadsAs limits text result }
        ensures lost { self.lost ≡ true → result ≡ Err OutOfMemory }
    {
        let limits = self.limits;
        limits.law();
        if self.lost {
            return Err(TextFault::NoMemory);
        }
        if self.count > limits.bytes() {
            return Err(TextFault::TextTooLong);
        }
        if let Some((token, reason)) = self.fault {
            return Err(TextFault::Refused { token, reason });
        }
        let mut judge = self.judge;
        match judge.take_some(limits, &self.unfinished) {
            Ok(()) => Ok(Log {
                tables: judge.draft.tables,
            }),
            Err(Refusal::NoMemory) => Err(TextFault::NoMemory),
            Err(Refusal::Bad(reason)) => Err(TextFault::Refused {
                token: judge.next_token(),
                reason,
            }),
        }
    }
}

/// The history that the text stands for, or why there is none: what a `TextReader` answers that is fed all of the text.
pub fn read_history(alloc: Global, text: &[u8]) -> Result<History, TextFault>
    ensures { ReadsAs standard text.now result }
{
    let mut reader = TextReader::new(alloc);
    // Where memory ran out, the reader answers that at the end too.
    let _ = reader.feed(text);
    reader.finish()
}
