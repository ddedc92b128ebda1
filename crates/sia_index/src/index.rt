//! An index of a history, and what it answers.
ghost use Rattle.std.specs.Prelude.{◌≡◌, ◌<◌, ℕ, MatchOption, ◌↔◌, IsTrue, List, Some, length, slice_get};
ghost use Rattle.sia_events.specs.declared.event.Event.{Event};
ghost use Rattle.sia_events.specs.Lists.{ListsAscending};
ghost use Rattle.sia_events.specs.Numbering.{names_of, txns_of, txn_at};
ghost use Rattle.sia_events.specs.Refusals.{IsWellFormed};
ghost use Rattle.sia_events.specs.Transactions.{HasEvent, IsCommitted, Wrote, Overlap, WroteBefore};
ghost use Rattle.sia_index.specs.Info.{IsInfo, IsKeyAt, HasKeyAt, AreVersions, AreWrittenKeys, IsFirstWrite, IsReader};
ghost use Rattle.sia_index.specs.Lifetimes.{AreLifetimes, IsLifetime};
ghost use Rattle.sia_index.specs.Numbers.{IsCommittedAt};
ghost use Rattle.sia_index.specs.Positions.{AreAllVersions};
ghost use Rattle.sia_index.specs.Rows.{IsKeyStretch, PassesNone};
ghost use Rattle.sia_index.specs.declared.info.KeyVersion.{KeyVersion};
ghost use Rattle.sia_index.specs.Tables.{AreTables};
ghost use Rattle.sia_events.specs.Reads.{IsDue};
ghost use Rattle.sia_index.specs.Counting.{AreCounts};

use crate::info::{Counts, Fate, Lifetime, Made, Reader, TxnInfo, overlap};
use crate::keyed::{ByKey, ByPlace, find, place_above, place_from};
use crate::lists::end_at;
use crate::minima::next_below;
use crate::names::Keys;
use crate::txns::Txns;
use crate::versions::Versions;
use crate::writes::Writes;
use sia_events::{Key, Log, TxnEnd, TxnId, Version};
use std::marker::Model;
use std::snapshot::Snapshot;

/// A history, as what is asked of it needs it. No answer takes memory.
#[derive(Drop)]
pub struct Index {
    pub(crate) of: Snapshot<Log>,
    pub(crate) txns: Txns,
    pub(crate) keys: Keys,
    pub(crate) versions: Versions,
    pub(crate) writes: Writes,
}

impl Model for Index {
    ghost Value = { List Event };

    ghost view = { λ ix. ix.of.value };

    ghost invariant = { λ ix. AreTables ix.of.value ix.txns ix.keys ix.versions ix.writes };
}

impl Index {
    /// A law of every index, and nothing else: its history is well-formed.
    pub fn law(&self)
        ensures { IsWellFormed self.now }
    {
        let _ = &self.of;
    }

    /// A law of every index, and nothing else: its written keys make a list.
    pub fn keys_law(&self)
        ensures { (keys : List ℕ) × AreWrittenKeys self.now keys }
    {
        let _ = &self.keys;
    }

    /// The number of a transaction in the log.
    pub fn txn_number(&self, t: TxnId) -> Option<u32>
        ensures { MatchOption result (¬ HasEvent self.now t) (λ n. slice_get (txns_of self.now) n ≡ Some t) }
    {
        self.txns.finder.find(&self.txns.known, u64::from(t))
    }

    /// What is known of a transaction.
    pub fn txn(&self, t: TxnId) -> Option<TxnInfo>
        ensures { MatchOption result (¬ HasEvent self.now t) (IsInfo self.now t) }
    {
        let number = self.txn_number(t)?;
        let known = self.txns.known[number as usize];
        let start = known.start;
        let (ended, fate) = match known.end {
            TxnEnd::Open => (None, Fate::Unfinished),
            TxnEnd::Committed(place) => (Some(place), Fate::Committed),
            TxnEnd::Aborted(place) => (Some(place), Fate::Aborted),
        };
        Some(TxnInfo { start, ended, fate })
    }

    /// When a transaction starts and commits, if it commits.
    pub fn lifetime_of(&self, t: TxnId) -> Option<Lifetime>
        ensures { MatchOption result (¬ IsCommitted self.now t) (IsLifetime self.now t) }
    {
        self.law();
        let info = self.txn(t)?;
        let commit = info.commit()?;
        Some(Lifetime {
            start: info.start,
            commit,
        })
    }

    /// Whether both committed, and each started before the other committed.
    pub fn overlap(&self, t: TxnId, u: TxnId) -> bool
        ensures { IsTrue result ↔ Overlap self.now t u }
    {
        self.law();
        match (self.lifetime_of(t), self.lifetime_of(u)) {
            (Some(first), Some(second)) => overlap(first, second),
            _ => false,
        }
    }

    /// The committed transactions, ascending. The number of one is its place among them, counted from 0.
    pub fn committed(&self) -> &[TxnId]
        ensures { ListsAscending (IsCommitted self.now) result.now }
    {
        &self.txns.committed
    }

    /// When each of these starts and commits.
    pub fn lifetimes(&self) -> &[Lifetime]
        ensures { (txns : List ℕ) → ListsAscending (IsCommitted self.now) txns
            → AreLifetimes self.now txns result.now }
    {
        &self.txns.lifetimes
    }

    /// The number of the log's transaction among the committed ones, if it committed.
    pub fn committed_number(&self, txn: u32) -> Option<u32>
        requires { txn < length (txns_of self.now) }
        ensures { (i : ℕ) → (result ≡ Some i) ↔ IsCommittedAt self.now i (txn_at (names_of self.now) txn) }
    {
        let number = self.txns.committed_numbers[txn as usize];
        ((number as usize) < self.txns.committed.len()).then_some(number)
    }

    /// The versions that committed transactions made of a key, by commit. Version 0 isn't among them.
    pub fn versions(&self, k: Key) -> &[Made]
        ensures { AreVersions self.now k result.now }
    {
        match find::<Key, ByKey>(&self.keys.keys, k) {
            Some(i) => self.versions_at(i),
            None => &[],
        }
    }

    /// The versions of number `i` of the written keys, counted from 0: no search is needed.
    pub fn versions_at(&self, i: usize) -> &[Made]
        requires { HasKeyAt self.now i }
        ensures { (k : ℕ) → IsKeyAt self.now i k → AreVersions self.now k result.now }
    {
        let (from, to) = self.group(i);
        &self.versions.made[from + 1..to]
    }

    /// Where the versions of number `i` of the written keys begin, with version 0, and where they end.
    pub(crate) fn group(&self, i: usize) -> (usize, usize)
        requires { HasKeyAt self.now i }
        ensures { (k : ℕ) (versions : List KeyVersion) → IsKeyAt self.now i k
            → AreAllVersions self.now versions → IsKeyStretch versions k result.0 result.1 }
    {
        let (firsts, count) = (&self.versions.firsts, self.versions.made.len());
        (firsts[i] as usize, end_at(firsts, i, count))
    }

    /// Each key that some write event names, committed or not, ascending.
    pub fn written_keys(&self) -> &[Key]
        ensures { AreWrittenKeys self.now result.now }
    {
        &self.keys.keys
    }

    /// The place where a transaction wrote a key first.
    pub fn first_write(&self, t: TxnId, k: Key) -> Option<u32>
        ensures { MatchOption result (¬ Wrote self.now t k) (IsFirstWrite self.now t k) }
    {
        let number = self.txn_number(t)?;
        self.first_write_at(t, number, k)
    }

    /// The same of a transaction whose number in the log is known.
    pub(crate) fn first_write_at(&self, t: TxnId, txn: u32, k: Key) -> Option<u32>
        requires { slice_get (txns_of self.now) txn ≡ Some t }
        ensures { MatchOption result (¬ Wrote self.now t k) (IsFirstWrite self.now t k) }
    {
        let (from, to) = self
            .writes
            .by_key
            .span(find::<Key, ByKey>(&self.keys.keys, k)?);
        let (first, end) = self.writes.by_txn.span(txn as usize);
        let own = &self.writes.by_txn.rows()[first..end];
        let at = place_from::<u32, ByPlace>(own, from as u64);
        let stands = *own.get(at)? as usize;
        if stands >= to {
            return None;
        }
        Some(self.writes.own_places[first + at])
    }
}

impl Index {
    /// What is known of a transaction that reads at the place.
    pub fn reader(&self, t: TxnId, place: u32) -> Reader
        requires { HasEvent self.now t }
        ensures { IsReader self.now t place result }
    {
        let _ = &self.of;
        let number = self.txn_number(t).unwrap_or(0);
        self.reader_at(number, place)
    }

    /// The same of the log's transaction: no search is needed.
    pub fn reader_at(&self, txn: u32, place: u32) -> Reader
        requires { txn < length (txns_of self.now) }
        ensures { IsReader self.now (txn_at (names_of self.now) txn) place result }
    {
        let known = self.txns.known[txn as usize];
        Reader {
            txn: known.name,
            number: txn,
            place,
            start: known.start,
            has_written: !self.writes.by_txn.at(txn as usize).is_empty(),
        }
    }

    /// The version due to a read of the key by the transaction at the place.
    pub fn due(&self, t: TxnId, place: u32, k: Key) -> Version
        requires { HasEvent self.now t }
        ensures { IsDue self.now t place k result }
    {
        let _ = &self.of;
        let reader = self.reader(t, place);
        if self.wrote_before(reader, k) {
            return t;
        }
        let versions = self.versions(k);
        let within = place_above::<Made, ByPlace>(versions, u64::from(reader.start));
        if within == 0 {
            return 0;
        }
        versions[within - 1].txn
    }

    /// Whether the reader wrote the key before its place.
    pub fn wrote_before(&self, reader: Reader, k: Key) -> bool
        requires { IsReader self.now reader.txn reader.place reader }
        ensures { IsTrue result ↔ WroteBefore self.now reader.txn k reader.place }
    {
        let first = self.first_write_at(reader.txn, reader.number, k);
        first.is_some_and(|first| first < reader.place)
    }

    /// The least key from `lo` to `hi` that the reader wrote before its place.
    pub fn next_own(&self, reader: Reader, lo: Key, hi: Key) -> Option<Key>
        requires { IsReader self.now reader.txn reader.place reader }
        ensures { PassesNone (λ k. WroteBefore self.now reader.txn k reader.place) lo hi result }
    {
        if !reader.has_written {
            return None;
        }
        let keys = &self.keys.keys;
        let writes = &self.writes;
        let (from, to) = writes.by_txn.span(reader.number as usize);
        let own = &writes.by_txn.rows()[from..to];
        // Where the first key and what is behind the last one begin among the writes by key.
        let low = writes.by_key.start(place_from::<Key, ByKey>(keys, lo)) as u64;
        let high = writes.by_key.start(place_above::<Key, ByKey>(keys, hi)) as u64;
        let first = from + place_from::<u32, ByPlace>(own, low);
        let last = from + place_from::<u32, ByPlace>(own, high);
        let place = u64::from(reader.place);
        let next = next_below::<u32, ByPlace>(
            &writes.own_places,
            &writes.minima,
            first,
            last,
            place,
        )?;
        let write = writes.by_key.rows()[writes.by_txn.rows()[next] as usize];
        Some(keys[self.versions.writes[write as usize].key as usize])
    }
}

/// The counts of the history that the log is of.
pub fn counted(log: &Log) -> Counts
    ensures { AreCounts log.now result }
{
    log.law();
    let mut counts = Counts {
        events: log.len(),
        committed: 0,
        aborted: 0,
        unfinished: 0,
    };
    for number in 0..log.txn_count() {
        match log.txn(number).end {
            TxnEnd::Open => counts.unfinished += 1,
            TxnEnd::Committed(_) => counts.committed += 1,
            TxnEnd::Aborted(_) => counts.aborted += 1,
        }
    }
    counts
}
