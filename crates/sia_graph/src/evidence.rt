//! What the verdict on a history rests on: its index, and what committed transactions saw and passed over.
ghost use Rattle.std.specs.Prelude.{◌≡◌, ◌↔◌, ℕ, Some, Contains, OnOk};
ghost use Rattle.sia_index.specs.Positions.{HasPosition};
ghost use Rattle.sia_graph.specs.Evidence.{IsEvidence};
ghost use Rattle.sia_graph.specs.Makers.{IsFirstMaker, IsNextMaker};
ghost use Rattle.sia_graph.specs.Passed.{IsSizeFor, IsHeldBy, IsOwnPassed, IsPassed};
ghost use Rattle.std.specs.List.Sorted.{IsNonDecreasing};
ghost use Rattle.sia_index.specs.Numbers.{IsCommittedAt};
ghost use Rattle.sia_parts.specs.declared.accesses.RangeMiss.{RangeMiss};

use sia_events::NoMemory;
use sia_index::Index;
use sia_index::ordering::put_in_order;
use sia_parts::{Accesses, RangeMiss};
use std::alloc::Global;

/// An index, and what the committed transactions of its history saw.
#[derive(Clone, Copy)]
pub struct Evidence<'a> {
    pub index: &'a Index,
    pub accesses: &'a Accesses,
}

/// How many keys blocks are to be over: none where nobody passed over one.
pub(crate) fn size_for(evidence: &Evidence) -> u32
    requires { IsEvidence evidence.now }
    ensures { IsSizeFor result evidence.now.index.now evidence.now.accesses.now }
{
    if evidence.accesses.missed.rows().is_empty() {
        return 0;
    }
    evidence.index.written_keys().len() as u32
}

/// The number of who made the next version of the same key.
pub(crate) fn next_maker(index: &Index, position: u32) -> Option<u32>
    requires { HasPosition index.now position }
    ensures { (i : ℕ) → (result ≡ Some i) ↔ IsNextMaker index.now position i }
{
    index.maker_at(index.next_position(position)?)
}

/// The keys that one transaction passed over: those of which it made the first version itself, and stretches of the others.
#[derive(Drop)]
pub(crate) struct Passed {
    pub own: Vec<u32>,
    pub stretches: Vec<RangeMiss>,
    /// All range misses, in order.
    misses: Vec<RangeMiss>,
    /// The keys of which it made the first version, passed over or not.
    firsts: Vec<u32>,
}

/// The keys of which the transaction made the first version.
fn put_firsts(index: &Index, txn: u32, firsts: &mut Vec<u32>) -> Result<(), NoMemory>
    requires txn { (t : ℕ) × IsCommittedAt index.now txn t }
    ensures rise { OnOk result (IsNonDecreasing firsts.new.items) }
    ensures each { OnOk result ((j : ℕ) → Contains firsts.new.items j ↔ IsFirstMaker index.now j txn) }
{
    let _positions = index.position_count();
    firsts.clear();
    for position in index.made_by(txn as usize) {
        let key = index.key_at(*position);
        if next_maker(index, index.first_position(key)) == Some(txn) {
            firsts.push(key)?;
        }
    }
    Ok(put_in_order(firsts)?)
}

impl Passed {
    pub(crate) fn none(alloc: Global) -> Passed {
        Passed {
            own: Vec::new(alloc),
            stretches: Vec::new(alloc),
            misses: Vec::new(alloc),
            firsts: Vec::new(alloc),
        }
    }

    /// Goes over to another transaction.
    #[inline(always)]
    pub(crate) fn fill(&mut self, evidence: &Evidence, txn: u32) -> Result<(), NoMemory>
        requires evidence { IsEvidence evidence.now }
        requires txn { (t : ℕ) × IsCommittedAt evidence.now.index.now txn t }
        ensures own { OnOk result ((j : ℕ) → Contains self.new.own.items j
            ↔ IsOwnPassed evidence.now.index.now evidence.now.accesses.now txn j) }
        ensures stretches { OnOk result ((j : ℕ)
            → IsHeldBy self.new.stretches.items j
            ↔ IsPassed evidence.now.index.now evidence.now.accesses.now txn j) }
    {
        self.own.clear();
        self.stretches.clear();
        self.misses.clear();
        let misses = evidence.accesses.missed.at(txn as usize);
        if misses.is_empty() {
            return Ok(());
        }
        self.misses.extend_from_slice(misses)?;
        self.misses
            .sort_unstable_by_key(|miss| (miss.from, miss.to));
        put_firsts(evidence.index, txn, &mut self.firsts)?;
        let mut reached = 0;
        for miss in &self.misses {
            let mut from = miss.from.max(reached);
            while from < miss.to {
                let place = self.firsts.partition_point(|key| *key < from);
                let own = self.firsts.get(place);
                let next = own.copied().unwrap_or(miss.to).min(miss.to);
                self.stretches.push(RangeMiss { from, to: next })?;
                if next < miss.to {
                    self.own.push(next)?;
                }
                from = next + 1;
            }
            reached = reached.max(miss.to);
        }
        Ok(())
    }
}
