ghost use Rattle.std.specs.Prelude.{◌≡◌, IfOk, length, List};
ghost use Rattle.std.specs.Option.{option_copied};
ghost use Rattle.sia_events.specs.Numbering.{names_of, event_of, IsWithin};
ghost use Rattle.sia_events.specs.Places.{at_place};
ghost use Rattle.sia_events.specs.Refusals.{IsWellFormed};
ghost use Rattle.sia_events.specs.Telling.{listing};
ghost use Rattle.sia_events.specs.declared.event.Event.{Event};

use crate::event::{Event, Key, Listed, Version};
use crate::fault::NoMemory;
use crate::log::{Log, Row};
use std::alloc::Global;
use std::marker::Model;

/// A well-formed history: its events, in the order in which they were recorded.
#[derive(Drop)]
pub struct History {
    pub(crate) events: Vec<Event>,
    pub(crate) log: Log,
}

impl Model for History {
    ghost Value = { List Event };

    ghost view = { λ h. h.events.items };

    ghost invariant = { λ h. (h.log ≡ h.events.items) × IsWellFormed h.events.items };
}

impl History {
    /// The history that the log is of, which keeps the log.
    pub fn of(alloc: Global, log: Log) -> Result<History, NoMemory>
        ensures { IfOk result (λ h. h ≡ log) }
    {
        log.law();
        let mut events = Vec::with_capacity(alloc, log.len() as usize)?;
        for before in 0..log.len() {
            if let Some(row) = log.row(before + 1) {
                let mut pairs = Vec::new(alloc);
                if let Row::Range { range, .. } = row {
                    for pair in log.listed(range) {
                        pairs.push(log.pair(*pair))?;
                    }
                }
                events.push(event_from(&log, row, Listed::new(pairs)))?;
            }
        }
        Ok(History { events, log })
    }

    /// A law of every history, and nothing else: it is well-formed.
    pub fn law(&self)
        ensures { IsWellFormed self.now }
    {
        let _ = &self.events;
    }

    /// How many events there are.
    pub fn len(&self) -> u32
        ensures len { result ≡ length self.now }
        ensures well_formed { IsWellFormed self.now }
    {
        self.events.len() as u32
    }

    /// The same history, by numbers.
    pub fn log(&self) -> &Log
        ensures { result.now ≡ self.now }
    {
        &self.log
    }

    /// The event at a place, counted from 1. There is none at 0 and above the length.
    pub fn event(&self, place: u32) -> Option<&Event>
        ensures { option_copied result ≡ at_place self.now place }
    {
        self.events.get((place as usize).checked_sub(1)?)
    }
}

/// The event that a row stands for, with these listed pairs if it is a range read.
pub(crate) fn event_from(log: &Log, row: Row, listed: Listed<(Key, Version)>) -> Event
    requires { IsWithin (names_of log.now) row }
    ensures { result ≡ listing listed (event_of (names_of log.now) row) }
{
    match row {
        Row::Begin { txn, start } => Event::Begin {
            txn: log.txn(txn).name,
            start,
        },
        Row::Read { txn, key, saw } | Row::OwnRead { txn, key, saw } => Event::Read {
            txn: log.txn(txn).name,
            key: log.key(key),
            saw: log.version(saw),
        },
        Row::Range { txn, range, .. } => {
            let (lo, hi) = log.range(range);
            Event::Range {
                txn: log.txn(txn).name,
                lo,
                hi,
                listed,
            }
        }
        Row::Write { txn, key, .. } => Event::Write {
            txn: log.txn(txn).name,
            key: log.key(key),
        },
        Row::Commit { txn } => Event::Commit {
            txn: log.txn(txn).name,
        },
        Row::Abort { txn } => Event::Abort {
            txn: log.txn(txn).name,
        },
    }
}
