//! A log: a well-formed history as rows of numbers.
ghost use Rattle.std.specs.Prelude.{◌≡◌, All, Some, ◌<◌, ◌≤◌, ◌-◌, length, map, IfSome, slice_get, take, List, ◌+◌, ◌*◌, ◌^◌};
ghost use Rattle.std.specs.Option.{option_map};
ghost use Rattle.sia_events.specs.LogTables.{events_of, AreTables};
ghost use Rattle.sia_events.specs.Numbering.{names_of, txns_of, keys_of, writes_of, ranges_of, event_of, pair_at, txn_at, key_at, version_at, range_at, AscendByKey, IsPair, IsSeen, IsWithin, IsMarked, Ends};
ghost use Rattle.sia_events.specs.Places.{at_place};
ghost use Rattle.sia_events.specs.Refusals.{IsWellFormed};
ghost use Rattle.sia_events.specs.Transactions.{StartsAt};
ghost use Rattle.sia_events.specs.declared.event.Event.{Event};

use crate::event::{Key, TxnId, Version};
use crate::finder::Named;
use std::marker::Model;
use std::mem::size_of;

/// What stands at the mark and above it among listed pairs is a key that was seen at version 0.
const MARK: u32 = 2_147_483_648;

/// The number of a listed pair: its write's, or the mark and its key's where version 0 was seen.
#[inline(always)]
pub(crate) fn pair_number(key: u32, write: u32) -> u32
    requires { key < 2 ^ 29 }
    ensures some { 0 < write → result ≡ write }
    ensures none { write ≡ 0 → result ≡ 2147483648 + key }
{
    if write == 0 { MARK + key } else { write }
}

/// A well-formed history, in which transactions, keys, first writes and ranges are numbered as they first appear.
#[derive(Drop)]
pub struct Log {
    pub(crate) tables: Tables,
}

impl Model for Log {
    ghost Value = { List Event };

    ghost view = { λ l. events_of l.tables };

    ghost invariant = { λ l. AreTables l.tables × IsWellFormed (events_of l.tables) };
}

impl Log {
    /// A law of every log, and nothing else: it is well-formed.
    pub fn law(&self)
        ensures { IsWellFormed self.now }
    {
        let _ = &self.tables;
    }

    /// How many events there are.
    pub fn len(&self) -> u32
        ensures len { result ≡ length self.now }
        ensures well_formed { IsWellFormed self.now }
    {
        self.tables.events.len() as u32
    }

    /// All events by numbers, in order.
    pub fn rows(&self) -> &[Row]
        ensures events { map (event_of (names_of self.now)) result.now ≡ self.now }
        ensures within { All (IsWithin (names_of self.now)) result.now }
    {
        &self.tables.events
    }

    /// The event at a place, counted from 1, by numbers. There is none at 0 and above the length.
    pub fn row(&self, place: u32) -> Option<Row>
        ensures event { option_map (event_of (names_of self.now)) result ≡ at_place self.now place }
        ensures within { IfSome result (IsWithin (names_of self.now)) }
        ensures marked { IfSome result (IsMarked (names_of self.now) (take (place - 1) self.now)) }
    {
        if place == 0 {
            return None;
        }
        self.tables.events.get(place as usize - 1).copied()
    }

    /// How many transactions there are.
    pub fn txn_count(&self) -> u32
        ensures { result ≡ length (txns_of self.now) }
    {
        self.tables.txns.len() as u32
    }

    /// What is known of a transaction.
    pub fn txn(&self, number: u32) -> TxnRow
        requires { number < length (txns_of self.now) }
        ensures name { slice_get (txns_of self.now) number ≡ Some result.name }
        ensures starts { StartsAt self.now result.name result.start }
        ensures ends { Ends self.now result.name result.end }
    {
        self.tables.txns[number as usize]
    }

    /// How many keys were read, listed or written.
    pub fn key_count(&self) -> u32
        ensures { result ≡ length (keys_of self.now) }
    {
        self.tables.keys.len() as u32
    }

    pub fn key(&self, number: u32) -> Key
        requires { number < length (keys_of self.now) }
        ensures { slice_get (keys_of self.now) number ≡ Some result }
    {
        self.tables.keys[number as usize]
    }

    /// How many first writes there are. They are numbered from 1.
    pub fn write_count(&self) -> u32
        ensures { result ≡ length (writes_of self.now) }
    {
        self.tables.writes.len() as u32
    }

    /// The transaction and the key of a write.
    pub fn write(&self, number: u32) -> WriteRow
        requires above { 0 < number }
        requires bound { number ≤ length (writes_of self.now) }
        ensures txn { result.txn < length (txns_of self.now) }
        ensures key { result.key < length (keys_of self.now) }
        ensures write { slice_get (writes_of self.now) (number - 1)
            ≡ Some (key_at (names_of self.now) result.key, txn_at (names_of self.now) result.txn) }
    {
        self.tables.writes[number as usize - 1]
    }

    /// The version that a write made: write 0 stands for version 0.
    pub fn version(&self, write: u32) -> Version
        requires { write ≤ length (writes_of self.now) }
        ensures { result ≡ version_at (names_of self.now) write }
    {
        if write == 0 {
            return 0;
        }
        self.txn(self.write(write).txn).name
    }

    /// The first and the last key of a range.
    pub fn range(&self, number: u32) -> (Key, Key)
        requires { number < length (ranges_of self.now) }
        ensures lo { result.0 ≡ (range_at (names_of self.now) number).0 }
        ensures hi { result.1 ≡ (range_at (names_of self.now) number).1 }
    {
        let range = &self.tables.ranges[number as usize];
        (range.lo, range.hi)
    }

    /// The pairs that a range listed, each as a number that `pair` and `pair_numbers` understand.
    pub fn listed(&self, number: u32) -> &[u32]
        requires { number < length (ranges_of self.now) }
        ensures pairs { map (pair_at (names_of self.now)) result.now
            ≡ (range_at (names_of self.now) number).2 }
        ensures within { All (IsPair (names_of self.now)) result.now }
        ensures ascend { AscendByKey self.now result.now }
    {
        let range = &self.tables.ranges[number as usize];
        &self.tables.pairs[range.from as usize..range.to as usize]
    }

    /// The key and the version of a listed pair.
    pub fn pair(&self, pair: u32) -> (Key, Version)
        requires { IsPair (names_of self.now) pair }
        ensures { result ≡ pair_at (names_of self.now) pair }
    {
        let (key, write) = self.pair_numbers(pair);
        (self.key(key), self.version(write))
    }

    /// The number of a pair, by those of its key and of its write: `pair_numbers` turned round.
    #[inline(always)]
    pub fn pair_of(&self, key: u32, write: u32) -> u32
        requires key { key < length (keys_of self.now) }
        requires seen { IsSeen (names_of self.now) (key_at (names_of self.now) key)
            (version_at (names_of self.now) write) write }
        ensures number { IsPair (names_of self.now) result }
        ensures pair { pair_at (names_of self.now) result
            ≡ (key_at (names_of self.now) key, version_at (names_of self.now) write) }
    {
        let _ = &self.tables;
        pair_number(key, write)
    }

    /// The numbers of the key and of the write of a listed pair.
    #[inline(always)]
    pub fn pair_numbers(&self, pair: u32) -> (u32, u32)
        requires { IsPair (names_of self.now) pair }
        ensures key { result.0 < length (keys_of self.now) }
        ensures write { result.1 ≤ length (writes_of self.now) }
        ensures seen { IsSeen (names_of self.now) (key_at (names_of self.now) result.0)
            (version_at (names_of self.now) result.1) result.1 }
        ensures pair { pair_at (names_of self.now) pair
            ≡ (key_at (names_of self.now) result.0, version_at (names_of self.now) result.1) }
    {
        if pair < MARK {
            (self.write(pair).key, pair)
        } else {
            (pair - MARK, 0)
        }
    }
}

/// How a transaction ended, with the place of its end.
#[derive(Clone, Copy, PartialEq, Eq, Debug)]
pub enum TxnEnd {
    Open,
    Committed(u32),
    Aborted(u32),
}

/// What is known of a transaction.
#[derive(Clone, Copy, PartialEq, Eq, Debug)]
pub struct TxnRow {
    pub name: TxnId,
    /// How many events were recorded before its start: those before its first event, or as many as this one names.
    pub start: u32,
    pub end: TxnEnd,
}

/// The first write of a key by a transaction, by their numbers.
#[derive(Clone, Copy, PartialEq, Eq, Debug)]
pub struct WriteRow {
    pub txn: u32,
    pub key: u32,
}

/// A key, the version of it that was seen or made last, and the write that made it.
#[derive(Clone, Copy)]
pub(crate) struct SeenRow {
    pub(crate) key: Key,
    pub(crate) version: Version,
    pub(crate) write: u32,
}

/// A range, and where in the list of all listed pairs its own begin and end.
#[derive(Clone, Copy)]
pub(crate) struct RangeRow {
    pub(crate) lo: Key,
    pub(crate) hi: Key,
    pub(crate) from: u32,
    pub(crate) to: u32,
}

/// An event by numbers: of transactions, keys and ranges from 0, of writes from 1. Write 0 stands for version 0.
#[derive(Clone, Copy, PartialEq, Eq, Debug)]
pub enum Row {
    Begin {
        txn: u32,
        start: Option<u32>,
    },
    Read {
        txn: u32,
        key: u32,
        /// The write that made the version that was seen.
        saw: u32,
    },
    /// A read of a key that the reader had written before.
    OwnRead {
        txn: u32,
        key: u32,
        saw: u32,
    },
    Range {
        txn: u32,
        range: u32,
        /// How many first writes stand before it.
        writes: u32,
    },
    Write {
        txn: u32,
        key: u32,
        /// The transaction's first write of the key.
        write: u32,
    },
    Commit {
        txn: u32,
    },
    Abort {
        txn: u32,
    },
}

/// All rows of a log. The event that a row stands for is found by the other tables.
#[derive(Drop)]
pub(crate) struct Tables {
    pub(crate) txns: Vec<TxnRow>,
    pub(crate) keys: Vec<Key>,
    pub(crate) writes: Vec<WriteRow>,
    pub(crate) ranges: Vec<RangeRow>,
    pub(crate) pairs: Vec<u32>,
    pub(crate) events: Vec<Row>,
}

impl Named for TxnRow {
    ghost named = { λ row. row.name };

    fn name(&self) -> u64 {
        u64::from(self.name)
    }
}

impl Named for SeenRow {
    ghost named = { λ row. row.key };

    fn name(&self) -> u64 {
        self.key
    }
}

impl Named for WriteRow {
    ghost named = { λ row. row.txn * 4294967296 + row.key };

    fn name(&self) -> u64 {
        u64::from(self.txn) * 4_294_967_296 + u64::from(self.key)
    }
}

const _: () = prove!(size_of::<Row>() == 16);
