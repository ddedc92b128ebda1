//! A log as it is made, event by event.
ghost use Rattle.std.specs.Prelude.{◌≡◌, ◌≢◌, ◌+◌, ◌^◌, ◌≤◌, ◌<◌, ◌++◌, ◌∷◌, [], ℕ, Some, true, false, length, not, nat_lt, slice_get, IfOk, IfErr, IfSome, IfNone, MatchOption, OnOk, IsOk};
ghost use Rattle.std.specs.List.{list_any};
ghost use Rattle.sia_events.specs.declared.event.Event.TheVariants as an_event;
ghost use Rattle.sia_events.specs.Drafts.{AreFound, Knows, CanTake, SameButTxns, SameButWrites, IsNew, new_txn, Acts, HasKey, HasPair, HasWrite, IsReadRow, IsWriteOr, Lists, ListsOne, StopsListing, StopsAtPair, StopsActing, Takes, mentioned};
ghost use Rattle.sia_events.specs.Known.{ends, goes_up, least_after};
ghost use Rattle.sia_events.specs.LogTables.{events_of, names_in, txn_names};
ghost use Rattle.sia_events.specs.Numbering.{IsSeen, same_pair};
ghost use Rattle.sia_events.specs.OwnWrites.{new_write};

use crate::event::{Key, TxnId, Version};
use crate::fault::{Reason, Refusal};
use crate::finder::{Finder, IN_ORDER, MOST_ROWS, SPREAD};
use crate::log::{RangeRow, Row, SeenRow, Tables, TxnEnd, TxnRow, WriteRow, pair_number};
use crate::own_writes::OwnWrites;
use std::alloc::{AllocError, Global};

/// The tables of the events so far, with what finds their rows by names.
#[derive(Drop)]
pub(crate) struct Draft {
    pub(crate) tables: Tables,
    txns: Finder,
    keys: Finder,
    writes: OwnWrites,
    last_seen: Vec<SeenRow>,
}

/// A listed key with its version, and the number that the key may well have.
#[derive(Clone, Copy)]
pub(crate) struct Mention {
    pub(crate) key: Key,
    pub(crate) saw: Version,
    pub(crate) number: u32,
}

/// Whether the listed keys lie from `lo` to `hi`, each greater than the one before it.
fn is_good_list(lo: Key, hi: Key, listed: &[Mention]) -> bool
    ensures { result ≡ goes_up lo hi (mentioned listed.now) }
{
    let mut before: Option<Key> = None;
    for mention in listed {
        if before.map_or(mention.key < lo, |before| mention.key <= before) {
            return false;
        }
        before = Some(mention.key);
    }
    before.is_none_or(|last| last <= hi)
}

impl Draft {
    /// No events, and room for so many rows of each kind, but for twelve times as many pairs. No room takes no memory.
    pub(crate) fn new(alloc: Global, rows: usize) -> Result<Self, AllocError>
        ensures none { IfOk result (λ d. events_of d.tables ≡ []) }
        ensures knows { IfOk result (λ d. Knows d) }
        ensures no_room { rows ≡ 0 → IsOk result }
    {
        Ok(Draft {
            tables: Tables {
                events: Vec::with_capacity(alloc, rows)?,
                txns: Vec::with_capacity(alloc, rows)?,
                keys: Vec::with_capacity(alloc, rows)?,
                writes: Vec::with_capacity(alloc, rows)?,
                ranges: Vec::with_capacity(alloc, rows)?,
                pairs: Vec::with_capacity(alloc, rows.saturating_mul(12))?,
            },
            txns: Finder::new(alloc, IN_ORDER),
            keys: Finder::new(alloc, SPREAD),
            writes: OwnWrites::new(alloc, rows)?,
            last_seen: Vec::with_capacity(alloc, rows)?,
        })
    }

    /// The number of a new transaction.
    fn new_txn(&mut self, name: TxnId, start: u32) -> Result<u32, AllocError>
        requires found { AreFound self.old }
        requires new { IsNew (txn_names self.old.tables.txns.items) name }
        ensures found { OnOk result (AreFound self.new) }
        ensures same { OnOk result (SameButTxns self.old.tables self.new.tables) }
        ensures rows { OnOk result (self.new.tables.txns.items
            ≡ self.old.tables.txns.items ++ new_txn name start ∷ []) }
        ensures is { IfOk result (λ n. slice_get (txn_names self.new.tables.txns.items) n ≡ Some name) }
    {
        let number = self.tables.txns.len();
        if number >= MOST_ROWS {
            return Err(AllocError);
        }
        self.writes.add_txn()?;
        self.tables.txns.push(TxnRow {
            name,
            start,
            end: TxnEnd::Open,
        })?;
        self.txns.add_from(&self.tables.txns, number)?;
        Ok(number as u32)
    }

    /// The number of the transaction, if it has an event.
    #[inline(always)]
    fn find_txn(&self, name: TxnId) -> Option<u32>
        requires { AreFound self.now }
        ensures { MatchOption result (IsNew (txn_names self.now.tables.txns.items) name)
            (λ n. slice_get (txn_names self.now.tables.txns.items) n ≡ Some name) }
    {
        self.txns.find(&self.tables.txns, u64::from(name))
    }

    /// Whether the transaction has not ended.
    fn is_open(&self, txn: u32) -> bool
        requires knows { Knows self.now }
        requires within { txn < length self.now.tables.txns.items }
        ensures { (name : ℕ) → slice_get (txn_names self.now.tables.txns.items) txn ≡ Some name
            → list_any (ends name) (events_of self.now.tables) ≡ not result }
    {
        matches!(self.tables.txns[txn as usize].end, TxnEnd::Open)
    }

    /// The number of a transaction that acts and hasn't ended. It starts here if it has no event yet.
    fn actor(&mut self, name: TxnId) -> Result<u32, Refusal>
        requires { CanTake self.old }
        ensures found { OnOk result (AreFound self.new) }
        ensures acts { IfOk result (λ n. Acts self.old.tables self.new.tables name n) }
        ensures refused { IfErr result (StopsActing self.old self.new name) }
    {
        match self.find_txn(name) {
            Some(txn) => {
                if self.is_open(txn) {
                    return Ok(txn);
                }
                Err(Refusal::Bad(Reason::AlreadyEnded))
            }
            None => {
                let start = self.tables.events.len() as u32;
                Ok(self.new_txn(name, start)?)
            }
        }
    }

    /// The number of the key, if it was read, listed or written. It may well be the guess.
    #[inline(always)]
    pub(crate) fn find_key(&self, guess: u32, name: Key) -> Option<u32>
        ensures some { AreFound self.now
            → IfSome result (λ n. slice_get self.now.tables.keys.items n ≡ Some name) }
        ensures none { AreFound self.now → IfNone result (IsNew self.now.tables.keys.items name) }
    {
        match self.last_seen.get(guess as usize) {
            Some(row) if row.key == name => Some(guess),
            _ => self.keys.find(&self.last_seen, name),
        }
    }

    #[inline(always)]
    fn key(&mut self, guess: u32, name: Key) -> Result<u32, AllocError>
        requires { AreFound self.old }
        ensures found { OnOk result (AreFound self.new) }
        ensures has { IfOk result (λ n. HasKey self.old.tables self.new.tables name n) }
    {
        match self.find_key(guess, name) {
            Some(number) => Ok(number),
            None => self.new_key(name),
        }
    }

    fn new_key(&mut self, name: Key) -> Result<u32, AllocError>
        requires found { AreFound self.old }
        requires new { IsNew self.old.tables.keys.items name }
        ensures found { OnOk result (AreFound self.new) }
        ensures has { IfOk result (λ n. HasKey self.old.tables self.new.tables name n) }
    {
        let number = self.tables.keys.len();
        if number >= MOST_ROWS {
            return Err(AllocError);
        }
        self.last_seen.push(SeenRow {
            key: name,
            version: 0,
            write: 0,
        })?;
        self.tables.keys.push(name)?;
        self.keys.add_from(&self.last_seen, number)?;
        Ok(number as u32)
    }

    fn write_by(&self, txn: u32, key: u32) -> u32
        requires found { AreFound self.now }
        ensures { (t k : ℕ) → slice_get (txn_names self.now.tables.txns.items) txn ≡ Some t
            → slice_get self.now.tables.keys.items key ≡ Some k
            → IsWriteOr (names_in self.now.tables) (k, t) result }
    {
        match self.writes.find(&self.tables.writes, txn, key) {
            Some(number) => number + 1,
            None => 0,
        }
    }

    fn seen_last(&self, number: u32, key: Key, saw: Version) -> Option<u32>
        requires { AreFound self.now }
        ensures key { IfSome result (λ w. slice_get self.now.tables.keys.items number ≡ Some key) }
        ensures seen { IfSome result (IsSeen (names_in self.now.tables) key saw) }
    {
        match self.last_seen.get(number as usize) {
            Some(row) if row.key == key && row.version == saw => Some(row.write),
            _ => None,
        }
    }

    /// The write that made the version of the key: 0 made version 0.
    fn seen(&mut self, number: u32, key: Key, saw: Version) -> Option<u32>
        requires found { AreFound self.old }
        requires key { slice_get self.old.tables.keys.items number ≡ Some key }
        ensures same { self.new.tables ≡ self.old.tables }
        ensures found { AreFound self.new }
        ensures some { IfSome result (IsSeen (names_in self.old.tables) key saw) }
        ensures none { IfNone result ((saw ≢ 0) × (list_any (same_pair (key, saw))
            (names_in self.old.tables).writes ≡ false)) }
    {
        if let Some(write) = self.seen_last(number, key, saw) {
            return Some(write);
        }
        if saw == 0 {
            return Some(0);
        }
        let txn = self.find_txn(saw)?;
        let write = self.write_by(txn, number);
        if write == 0 {
            return None;
        }
        self.see(number, saw, write);
        Some(write)
    }

    /// The version of the key with the number is the one that was seen or made last.
    fn see(&mut self, number: u32, version: Version, write: u32)
        requires found { AreFound self.old }
        requires seen { (k : ℕ) → slice_get self.old.tables.keys.items number ≡ Some k
            → IsSeen (names_in self.old.tables) k version write }
        ensures same { self.new.tables ≡ self.old.tables }
        ensures found { AreFound self.new }
    {
        if let Some(row) = self.last_seen.get_mut(number as usize) {
            row.version = version;
            row.write = write;
        }
    }

    #[tactic(auto, unfolding(crate::specs::Drafts::Takes))]
    pub(crate) fn begin(&mut self, txn: TxnId, start: Option<u32>) -> Result<(), Refusal>
        requires { CanTake self.old }
        ensures { Takes self.old self.new (an_event.Begin txn start) result }
    {
        if let Some(number) = self.find_txn(txn) {
            if self.is_open(number) {
                return Err(Refusal::Bad(Reason::AlreadyBegun));
            }
            return Err(Refusal::Bad(Reason::AlreadyEnded));
        }
        let count = self.tables.events.len() as u32;
        let at = start.unwrap_or(count);
        if count < at {
            return Err(Refusal::Bad(Reason::BadStart));
        }
        let txn = self.new_txn(txn, at)?;
        self.tables.events.push(Row::Begin { txn, start })?;
        Ok(())
    }

    #[tactic(auto, unfolding(crate::specs::Drafts::Takes))]
    pub(crate) fn read(&mut self, txn: TxnId, name: Key, saw: Version) -> Result<(), Refusal>
        requires { CanTake self.old }
        ensures { Takes self.old self.new (an_event.Read txn name saw) result }
    {
        let txn = self.actor(txn)?;
        let key = self.key(NO_KEY, name)?;
        let Some(saw) = self.seen(key, name, saw) else {
            return Err(Refusal::Bad(Reason::NotWritten));
        };
        let row = match self.write_by(txn, key) {
            0 => Row::Read { txn, key, saw },
            _ => Row::OwnRead { txn, key, saw },
        };
        self.tables.events.push(row)?;
        Ok(())
    }

    #[tactic(auto, unfolding(crate::specs::Drafts::Takes))]
    pub(crate) fn range(
        &mut self,
        txn: TxnId,
        lo: Key,
        hi: Key,
        listed: &[Mention],
    ) -> Result<(), Refusal>
        requires { CanTake self.old }
        ensures { Takes self.old self.new (an_event.Range txn lo hi (mentioned listed.now)) result }
    {
        let txn = self.actor(txn)?;
        if hi < lo {
            return Err(Refusal::Bad(Reason::EmptyRange));
        }
        if !is_good_list(lo, hi, listed) {
            return Err(Refusal::Bad(Reason::BadList));
        }
        let from = self.tables.pairs.len();
        self.list(listed)?;
        let to = self.tables.pairs.len();
        let range = self.tables.ranges.len();
        if range >= MOST_ROWS {
            return Err(Refusal::NoMemory);
        }
        self.tables.ranges.push(RangeRow {
            lo,
            hi,
            from: from as u32,
            to: to as u32,
        })?;
        let writes = self.tables.writes.len() as u32;
        self.tables.events.push(Row::Range {
            txn,
            range: range as u32,
            writes,
        })?;
        Ok(())
    }

    /// Takes in the listed pairs.
    fn list(&mut self, listed: &[Mention]) -> Result<(), Refusal>
        requires { AreFound self.old }
        ensures found { OnOk result (AreFound self.new) }
        ensures lists { OnOk result (Lists self.old.tables self.new.tables (mentioned listed.now)) }
        ensures refused { IfErr result (StopsListing self.old self.new (mentioned listed.now)) }
    {
        if listed.len() > MOST_PAIRS - self.tables.pairs.len() {
            return Err(Refusal::NoMemory);
        }
        for mention in listed {
            let pair = match self.seen_last(mention.number, mention.key, mention.saw) {
                Some(write) => pair_number(mention.number, write),
                None => self.other_pair(mention)?,
            };
            self.tables.pairs.push(pair)?;
        }
        Ok(())
    }

    #[inline(never)]
    fn other_pair(&mut self, mention: &Mention) -> Result<u32, Refusal>
        requires { AreFound self.old }
        ensures found { OnOk result (AreFound self.new) }
        ensures has { IfOk result (HasPair self.old.tables self.new.tables mention.now.key mention.now.saw) }
        ensures refused { IfErr result (StopsAtPair self.old self.new mention.now.key mention.now.saw) }
    {
        let number = self.key(mention.number, mention.key)?;
        let Some(write) = self.seen(number, mention.key, mention.saw) else {
            return Err(Refusal::Bad(Reason::NotWritten));
        };
        Ok(pair_number(number, write))
    }

    #[tactic(auto, unfolding(crate::specs::Drafts::Takes))]
    pub(crate) fn write(&mut self, txn: TxnId, key: Key) -> Result<(), Refusal>
        requires { CanTake self.old }
        ensures { Takes self.old self.new (an_event.Write txn key) result }
    {
        let txn = self.actor(txn)?;
        let key = self.key(NO_KEY, key)?;
        let write = self.first_write(txn, key)?;
        self.tables.events.push(Row::Write { txn, key, write })?;
        Ok(())
    }

    fn first_write(&mut self, txn: u32, key: u32) -> Result<u32, AllocError>
        requires found { AreFound self.old }
        requires txn { txn < length self.old.tables.txns.items }
        requires key { key < length self.old.tables.keys.items }
        ensures found { OnOk result (AreFound self.new) }
        ensures has { (t k : ℕ) → slice_get (txn_names self.old.tables.txns.items) txn ≡ Some t
            → slice_get self.old.tables.keys.items key ≡ Some k
            → IfOk result (HasWrite self.old.tables self.new.tables (k, t)) }
    {
        let write = self.write_by(txn, key);
        if write != 0 {
            return Ok(write);
        }
        let number = self.tables.writes.len();
        if number >= MOST_ROWS {
            return Err(AllocError);
        }
        self.tables.writes.push(WriteRow { txn, key })?;
        self.writes.add(&self.tables.writes, txn)?;
        let version = self.tables.txns[txn as usize].name;
        self.see(key, version, number as u32 + 1);
        Ok(number as u32 + 1)
    }

    #[tactic(auto, unfolding(crate::specs::Drafts::Takes))]
    pub(crate) fn commit(&mut self, txn: TxnId) -> Result<(), Refusal>
        requires { CanTake self.old }
        ensures { Takes self.old self.new (an_event.Commit txn) result }
    {
        let txn = self.actor(txn)?;
        let place = self.tables.events.len() as u32 + 1;
        self.tables.txns[txn as usize].end = TxnEnd::Committed(place);
        self.tables.events.push(Row::Commit { txn })?;
        Ok(())
    }

    #[tactic(auto, unfolding(crate::specs::Drafts::Takes))]
    pub(crate) fn abort(&mut self, txn: TxnId) -> Result<(), Refusal>
        requires { CanTake self.old }
        ensures { Takes self.old self.new (an_event.Abort txn) result }
    {
        let txn = self.actor(txn)?;
        let place = self.tables.events.len() as u32 + 1;
        self.tables.txns[txn as usize].end = TxnEnd::Aborted(place);
        self.tables.events.push(Row::Abort { txn })?;
        Ok(())
    }
}

/// No more pairs are listed.
const MOST_PAIRS: usize = 2_147_483_648;

/// No key has this number.
pub(crate) const NO_KEY: u32 = u32::MAX;
