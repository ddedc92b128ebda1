//! Which snapshots fit a transaction that its recorded start doesn't fit: what its reads and writes ask for and bar.
ghost use Rattle.std.specs.Prelude.{◌≡◌, ◌≢◌, ◌↔◌, ◌+◌, ◌-◌, ◌<◌, ◌≤◌, ℕ, List, None, Some, IfOk, IsTrue, length};
ghost use Rattle.sia_events.specs.Events.{actor};
ghost use Rattle.sia_events.specs.NarrowDependencies.{IsAsOf};
ghost use Rattle.sia_events.specs.Numbering.{IsWithin, event_of, names_of, range_at, ranges_of, version_at, write_at, writes_of};
ghost use Rattle.sia_events.specs.Places.{at_place};
ghost use Rattle.sia_events.specs.Reads.{SawAt};
ghost use Rattle.sia_events.specs.Refusals.{IsWellFormed};
ghost use Rattle.sia_events.specs.Transactions.{HasEvent};
ghost use Rattle.sia_events.specs.declared.event.Event.{Event};
ghost use Rattle.sia_events.specs.declared.event.Event.TheVariants as events;
ghost use Rattle.sia_index.specs.Info.{HasKeyAt, IsKeyAt};
ghost use Rattle.sia_index.specs.Positions.{HasPosition, IsAtPosition};
ghost use Rattle.sia_index.specs.declared.info.KeyVersion.{KeyVersion};
ghost use Rattle.sia_graph.specs.Judgements.{IsJudgement};
ghost use Rattle.si_audit.specs.Bounds.{EachTxn, IsBound, IsKnownOf, IsKnownTo, IsLow, Sees};
ghost use Rattle.si_audit.specs.Snapshots.{IsGeneralized, IsSnapshot, ReadAsks};

use sia_events::{Key, Log, NoMemory, Row, TxnId};
use sia_graph::Judgement;
use sia_index::Index;
use sia_index::keyed::{ByKey, ByTxn, place_above, place_from};
use sia_parts::txn_of;
use std::alloc::Global;

/// A commit that a snapshot has to have, or must not have, and the first place and key that say so: place 0 where there is none.
#[derive(Clone, Copy)]
pub(crate) struct Bound {
    pub commit: u32,
    pub place: u32,
    pub key: Key,
}

/// What is known of the snapshots that fit a transaction.
#[derive(Clone, Copy)]
pub(crate) struct Bounds {
    /// Whether its recorded start is none of them. Where it is one, nothing more is known.
    pub misfit: bool,
    /// The place and the key of its first read that no snapshot has.
    pub never: Option<(u32, Key)>,
    /// The latest commit that its snapshot has to have.
    pub low: Bound,
    /// The first one that it must not have.
    pub high: Bound,
    /// The place of its first read or write.
    pub first: u32,
}

/// Of a transaction nothing is known yet.
const UNKNOWN: Bounds = Bounds {
    misfit: false,
    never: None,
    low: Bound {
        commit: 0,
        place: 0,
        key: 0,
    },
    high: Bound {
        commit: u32::MAX,
        place: 0,
        key: 0,
    },
    first: 0,
};

impl Bounds {
    /// Whether some snapshot fits the transaction.
    pub(crate) fn fits(&self) -> bool
        ensures { (h : List Event) (t : ℕ) → IsWellFormed h → HasEvent h t → IsKnownOf h t self.now
            → IsTrue result ↔ ((n : ℕ) × IsSnapshot h t n) }
    {
        let end = self.high.commit.min(self.first);
        !self.misfit || self.never.is_none() && self.low.commit < end
    }

    /// The version at the position was seen.
    fn see(&mut self, ix: &Index, position: u32, place: u32, key: Key)
        requires { HasPosition ix.now position }
        ensures { (t m v : ℕ) (version : KeyVersion) → IsAtPosition ix.now position version
            → version.key ≡ key → IsKeyAt ix.now m key → IsAsOf ix.now v version.commit → v ≢ t
            → SawAt ix.now place t key v → Sees ix.now t place m place (m + 1) self.old self.new }
    {
        ix.law();
        let commit = ix.commit_at(position);
        if self.low.commit < commit {
            self.low = Bound { commit, place, key };
        }
        if let Some(next) = ix.next_position(position) {
            let commit = ix.commit_at(next);
            if commit < self.high.commit {
                self.high = Bound { commit, place, key };
            }
        }
    }

    /// Version 0 was seen of the written keys from one number to before another.
    fn pass(&mut self, ix: &Index, from: u32, to: u32, place: u32)
        requires keys { (i : ℕ) → i < to → HasKeyAt ix.now i }
        requires forward { from ≤ to }
        ensures { (t : ℕ) → HasEvent ix.now t → ((i k : ℕ) → from ≤ i → i < to → IsKeyAt ix.now i k
            → SawAt ix.now place t k 0) → Sees ix.now t place from place to self.old self.new }
    {
        ix.law();
        let mut next = from;
        while let Some(number) = ix.next_visible(next, to, self.high.commit.saturating_sub(1)) {
            let key = ix.written_keys()[number as usize];
            self.see(ix, ix.first_position(number), place, key);
            next = number + 1;
        }
    }

    /// A version was seen of a written key. Write 0 made version 0.
    fn put(&mut self, log: &Log, ix: &Index, txn: TxnId, place: u32, number: u32, write: u32)
        requires index { ix.now ≡ log.now }
        requires key { HasKeyAt log.now number }
        requires write { write ≤ length (writes_of log.now) }
        ensures { (k : ℕ) → IsKeyAt log.now number k
            → (0 < write → (write_at (names_of log.now) (write - 1)).0 ≡ k)
            → SawAt log.now place txn k (version_at (names_of log.now) write)
            → Sees log.now txn place number place (number + 1) self.old self.new }
    {
        ix.law();
        let position = if write == 0 {
            Some(ix.first_position(number))
        } else if log.version(write) == txn {
            None
        } else {
            ix.write_at(write).position
        };
        if let Some(position) = position {
            self.see(ix, position, place, ix.written_keys()[number as usize]);
        }
    }

    fn put_range(&mut self, log: &Log, ix: &Index, txn: TxnId, place: u32, range: u32)
        requires index { ix.now ≡ log.now }
        requires range { range < length (ranges_of log.now) }
        requires event { at_place log.now place ≡ Some (events.Range txn (range_at (names_of log.now) range).0
            (range_at (names_of log.now) range).1 (range_at (names_of log.now) range).2) }
        ensures { Sees log.now txn place 0 (place + 1) 0 self.old self.new }
    {
        ix.law();
        let keys = ix.written_keys();
        let (lo, hi) = log.range(range);
        let listed = log.listed(range);
        let end = place_above::<Key, ByKey>(keys, hi) as u32;
        let mut next = place_from::<Key, ByKey>(keys, lo) as u32;
        for pair in listed {
            let (key, write) = log.pair_numbers(*pair);
            if let Some(number) = ix.written_number(key) {
                self.pass(ix, next, number, place);
                self.put(log, ix, txn, place, number, write);
                next = number + 1;
            }
        }
        self.pass(ix, next, end, place);
    }

    /// What an event of the transaction tells.
    fn put_row(&mut self, log: &Log, ix: &Index, txn: TxnId, place: u32, row: Row)
        requires index { ix.now ≡ log.now }
        requires within { IsWithin (names_of log.now) row }
        requires event { at_place log.now place ≡ Some (event_of (names_of log.now) row) }
        requires actor { actor (event_of (names_of log.now) row) ≡ txn }
        ensures { IsKnownTo log.now txn place self.old → IsKnownTo log.now txn (place + 1) self.new }
    {
        log.law();
        match row {
            Row::Read { key, saw, .. } | Row::OwnRead { key, saw, .. } => {
                if let Some(number) = ix.written_number(key) {
                    self.put(log, ix, txn, place, number, saw);
                }
            }
            Row::Range { range, .. } => self.put_range(log, ix, txn, place, range),
            Row::Write { .. } => {}
            Row::Begin { .. } | Row::Commit { .. } | Row::Abort { .. } => return,
        }
        if self.first == 0 {
            self.first = place;
        }
    }

    /// What its writes ask for, if it committed.
    fn put_writes(&mut self, ix: &Index, txn: TxnId)
        ensures low { IsBound (λ c d. d ≤ c) 0 (ReadAsks ix.now txn) self.old.low → IsLow ix.now txn self.new.low }
        ensures rest { self.new ≡ record self.old { low = self.new.low } }
    {
        ix.law();
        if ix.lifetime_of(txn).is_none() {
            return;
        }
        let number = place_from::<TxnId, ByTxn>(ix.committed(), u64::from(txn));
        let mut low = UNKNOWN.low;
        let _positions = ix.position_count();
        for position in ix.made_by(number) {
            let key = ix.written_keys()[ix.key_at(*position) as usize];
            let commit = ix.commit_at(ix.position_before(*position).unwrap_or(0));
            let place = ix.first_write(txn, key).unwrap_or(0);
            if low.commit < commit || low.commit == commit && place < low.place {
                low = Bound { commit, place, key };
            }
        }
        if self.low.commit < low.commit {
            self.low = low;
        }
    }
}

/// Which transactions their recorded starts don't fit, and which reads of theirs no snapshot has.
fn misfits_of(alloc: Global, log: &Log, ix: &Index, j: &Judgement) -> Result<Vec<Bounds>, NoMemory>
    requires index { ix.now ≡ log.now }
    requires judgement { IsJudgement log.now j.now }
    ensures { IfOk result (λ all. EachTxn (λ t. IsKnownTo log.now t 1) log.now all.items) }
{
    log.law();
    let mut all = vec![in alloc; UNKNOWN; log.txn_count() as usize]?;
    for b in &j.bad_reads {
        let number = ix.txn_number(b.txn).unwrap_or(0) as usize;
        let is_lost = b.due == b.txn || b.saw != 0 && ix.lifetime_of(b.saw).is_none();
        let lost = is_lost.then_some((b.place, b.key));
        all[number].misfit = true;
        all[number].never = all[number].never.or(lost);
    }
    for b in &j.bad_writes {
        let number = ix.txn_number(b.second).unwrap_or(0) as usize;
        all[number].misfit = true;
    }
    Ok(all)
}

/// What is known of the snapshots of each transaction, by its number in the log.
pub(crate) fn bounds_of(
    alloc: Global,
    log: &Log,
    ix: &Index,
    j: &Judgement,
) -> Result<Vec<Bounds>, NoMemory>
    requires index { ix.now ≡ log.now }
    requires judgement { IsJudgement log.now j.now }
    ensures { IfOk result (λ all. EachTxn (IsKnownOf log.now) log.now all.items) }
{
    log.law();
    let mut all = misfits_of(alloc, log, ix, j)?;
    for before in 0..log.len() {
        let place = before + 1;
        if let Some(row) = log.row(place) {
            let number = txn_of(row);
            if all[number as usize].misfit {
                let name = log.txn(number).name;
                all[number as usize].put_row(log, ix, name, place, row);
            }
        }
    }
    for number in 0..log.txn_count() {
        if all[number as usize].misfit {
            let name = log.txn(number).name;
            all[number as usize].put_writes(ix, name);
        }
    }
    Ok(all)
}

/// Whether some snapshot fits each transaction.
pub(crate) fn is_generalized(
    alloc: Global,
    log: &Log,
    ix: &Index,
    j: &Judgement,
) -> Result<bool, NoMemory>
    requires index { ix.now ≡ log.now }
    requires judgement { IsJudgement log.now j.now }
    ensures { IfOk result (λ fits. IsTrue fits ↔ IsGeneralized log.now) }
{
    log.law();
    let all = bounds_of(alloc, log, ix, j)?;
    for number in 0..log.txn_count() {
        if !all[number as usize].fits() {
            return Ok(false);
        }
    }
    Ok(true)
}
