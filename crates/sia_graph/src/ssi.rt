//! The test of serializable snapshot isolation, and the dangerous structure that is told where it fails.
ghost use Rattle.std.specs.Prelude.{◌≡◌, ◌↔◌, ◌<◌, [], ℕ, ⊤, All, IfOk, IsTrue, List, MatchOption, ◌⊎◌, ◌*◌, ◌+◌, ◌≤◌, Contains, OnOk, length, max, slice_index, slice_set};
ghost use Rattle.sia_events.specs.declared.event.Event.{Event};
ghost use Rattle.sia_events.specs.DangerousStructures.{IsFirst, NoFirst, PassesSsi};
ghost use Rattle.sia_events.specs.Isolation.{IsolationKept};
ghost use Rattle.sia_events.specs.Transactions.{CommitsAt, IsCommitted};
ghost use Rattle.sia_index.specs.Numbers.{IsCommittedAt};
ghost use Rattle.sia_index.specs.Positions.{ArePositions, HasPosition};
ghost use Rattle.sia_parts.specs.Findings.{AreFindings, ListsBadReads, ListsBadWrites};
ghost use Rattle.sia_graph.specs.Dangerous.{HasFirst, IsDangerous, IsLeast, MayBeFirst};
ghost use Rattle.sia_graph.specs.EarlyVersions.{HasEarly, IsLimit};
ghost use Rattle.sia_graph.specs.Evidence.{IsEvidence};
ghost use Rattle.sia_graph.specs.Pivots.{ArePivots};
ghost use Rattle.sia_events.specs.Lists.{ListsAscending};
ghost use Rattle.sia_graph.specs.Late.{AreLate, Enters, IsLastOf, IsLookAt, IsMarkedOver, IsRaised, StandsAt};
ghost use Rattle.sia_graph.specs.Passed.{IsOwnPassed};

use crate::cycle::least_rw;
use crate::evidence::{Evidence, Passed, size_for};
use crate::pivot::Pivot;
use crate::sparse::put_all_blocks;
use sia_events::{Key, NoMemory, TxnId};
use sia_index::Index;
use sia_parts::{BadRead, BadWrite, Findings};
use std::alloc::Global;

/// Whether an rw edge leads from the transaction to one that commits up to the place, which is before its own commit.
fn has_early(evidence: &Evidence, txn: u32, place: u32) -> bool
    requires evidence { IsEvidence evidence.now }
    requires txn { (t : ℕ) × (c : ℕ) × IsCommittedAt evidence.now.index.now txn t
        × CommitsAt evidence.now.index.now t c × (place < c) }
    ensures { (t : ℕ) → IsCommittedAt evidence.now.index.now txn t
        → IsTrue result ↔ HasEarly evidence.now.index.now t place }
{
    let index = evidence.index;
    for position in evidence.accesses.saw.at(txn as usize) {
        if let Some(next) = index.next_position(*position) {
            if index.commit_at(next) <= place {
                return true;
            }
        }
    }
    for miss in evidence.accesses.missed.at(txn as usize) {
        if index.next_visible(miss.from, miss.to, place).is_some() {
            return true;
        }
    }
    false
}

/// The least number whose transaction has a first, and its limit.
fn least_pivot(alloc: Global, evidence: &Evidence) -> Result<Option<(u32, u32)>, NoMemory>
    requires evidence { IsEvidence evidence.now }
    requires kept { IsolationKept evidence.now.index.now }
    ensures { IfOk result (λ found. MatchOption found (NoFirst evidence.now.index.now)
        (λ (pivot, limit). (t : ℕ) × IsCommittedAt evidence.now.index.now pivot t
        × IsLeast (HasFirst evidence.now.index.now) t × IsLimit evidence.now.index.now t limit)) }
{
    let txns = evidence.index.committed();
    let lifetimes = evidence.index.lifetimes();
    let commits: Vec<u32> = lifetimes
        .iter()
        .map(|lifetime| lifetime.commit)
        .collect(alloc)?;
    let late = late_of(alloc, evidence, &commits)?;
    for txn in 0..txns.len() as u32 {
        let last = lifetimes[txn as usize].commit - 1;
        let limit = greatest_entering(evidence.index, &late, txn).min(last);
        if has_early(evidence, txn, limit) {
            return Ok(Some((txn, limit)));
        }
    }
    Ok(None)
}

/// Whether there is no bad read, no bad write, and no dangerous structure whose last transaction commits first, as `ssi_pass`
/// tells it of all findings: whether no version commits before one who saw what was before it, and no later than one that in turn
/// saw a version before the reader's own. The bad reads and the bad writes are those of the history at all keys.
pub fn passes(
    alloc: Global,
    evidence: &Evidence,
    bad_reads: &[BadRead],
    bad_writes: &[BadWrite],
) -> Result<bool, NoMemory>
    requires evidence { IsEvidence evidence.now }
    requires bad_reads { ListsBadReads evidence.now.index.now (λ _. ⊤) bad_reads.now }
    requires bad_writes { ListsBadWrites evidence.now.index.now (λ _. ⊤) bad_writes.now }
    ensures { IfOk result (λ passes. IsTrue passes ↔ PassesSsi evidence.now.index.now) }
{
    if !bad_reads.is_empty() || !bad_writes.is_empty() {
        return Ok(false);
    }
    Ok(least_pivot(alloc, evidence)?.is_none())
}

/// Whether there is no bad read, no bad write, and no dangerous structure whose last transaction commits first. The pivots
/// are those of the findings.
pub fn ssi_pass(f: &Findings, p: &[Pivot]) -> bool
    requires { (h : List Event) × AreFindings h f.now × ArePivots h p.now }
    ensures empty { IsTrue result ↔ ((f.now.bad_reads.items ≡ []) × (f.now.bad_writes.items ≡ [])
        × All (λ pivot. pivot.firsts ≡ []) p.now) }
    ensures passes { (h : List Event) → AreFindings h f.now → ArePivots h p.now
        → IsTrue result ↔ PassesSsi h }
{
    p.iter().all(|pivot| pivot.firsts.as_slice().is_empty())
        && f.bad_reads.is_empty()
        && f.bad_writes.is_empty()
}

/// A dangerous structure whose last transaction commits first: an rw edge leads from the first to the pivot, and one on to the last.
#[derive(Clone, Copy)]
pub struct Dangerous {
    pub first: TxnId,
    pub first_key: Key,
    pub pivot: TxnId,
    pub last_key: Key,
    pub last: TxnId,
}

/// The least number to which an rw edge leads from the pivot and that commits up to the limit. There is one.
fn least_last(alloc: Global, evidence: &Evidence, pivot: u32, limit: u32) -> Result<u32, NoMemory>
    requires evidence { IsEvidence evidence.now }
    requires kept { IsolationKept evidence.now.index.now }
    requires pivot { (t : ℕ) × IsCommittedAt evidence.now.index.now pivot t
        × HasFirst evidence.now.index.now t × IsLimit evidence.now.index.now t limit }
    ensures { IfOk result (λ last. (t : ℕ) → IsCommittedAt evidence.now.index.now pivot t
        → (u : ℕ) × IsCommittedAt evidence.now.index.now last u
        × IsLeast (IsFirst evidence.now.index.now t) u) }
{
    let count = evidence.index.committed().len();
    let lifetimes = evidence.index.lifetimes();
    let mut values = vec![in alloc; 0u32; count]?;
    values[pivot as usize] = 1;
    let late = late_of(alloc, evidence, &values)?;
    for txn in 0..count as u32 {
        let is_early = lifetimes[txn as usize].commit <= limit;
        if is_early && greatest_entering(evidence.index, &late, txn) > 0 {
            return Ok(txn);
        }
    }
    Ok(pivot)
}

/// The least number with an rw edge to the pivot that commits at the place or after it. There is one.
fn least_first(alloc: Global, evidence: &Evidence, pivot: u32, place: u32) -> Result<u32, NoMemory>
    requires evidence { IsEvidence evidence.now }
    requires kept { IsolationKept evidence.now.index.now }
    requires pivot { (t : ℕ) × (last : ℕ) × IsCommittedAt evidence.now.index.now pivot t
        × CommitsAt evidence.now.index.now last place × IsFirst evidence.now.index.now t last }
    ensures { IfOk result (λ first. (t last : ℕ) → IsCommittedAt evidence.now.index.now pivot t
        → CommitsAt evidence.now.index.now last place → IsFirst evidence.now.index.now t last
        → (u : ℕ) × IsCommittedAt evidence.now.index.now first u
        × IsLeast (MayBeFirst evidence.now.index.now t last) u) }
{
    let txns = evidence.index.committed();
    let lifetimes = evidence.index.lifetimes();
    let mut values = Vec::with_capacity(alloc, lifetimes.len())?;
    // The lesser the number, the greater its value.
    for txn in 0..lifetimes.len() {
        let left = (lifetimes.len() - txn) as u32;
        let commit = lifetimes[txn].commit;
        values.push(if place <= commit { left } else { 0 })?;
    }
    let late = late_of(alloc, evidence, &values)?;
    Ok(txns.len() as u32 - greatest_entering(evidence.index, &late, pivot))
}

/// The dangerous structure that is told of a history that keeps isolation: that of the least pivot that has a first. None, if the
/// history passes the test of serializable snapshot isolation.
pub fn dangerous_of(alloc: Global, evidence: &Evidence) -> Result<Option<Dangerous>, NoMemory>
    requires evidence { IsEvidence evidence.now }
    requires kept { IsolationKept evidence.now.index.now }
    ensures { IfOk result (λ found. MatchOption found (NoFirst evidence.now.index.now)
        (IsDangerous evidence.now.index.now)) }
{
    let Some((pivot, limit)) = least_pivot(alloc, evidence)? else {
        return Ok(None)
    };
    let last = least_last(alloc, evidence, pivot, limit)?;
    let place = evidence.index.lifetimes()[last as usize].commit;
    let first = least_first(alloc, evidence, pivot, place)?;
    let txns = evidence.index.committed();
    let keys = evidence.index.written_keys();
    let into = least_rw(evidence, first, pivot);
    let out = least_rw(evidence, pivot, last);
    Ok(Some(Dangerous {
        first: txns[first as usize],
        first_key: keys[into as usize],
        pivot: txns[pivot as usize],
        last_key: keys[out as usize],
        last: txns[last as usize],
    }))
}

/// Raises the number at the place to another one.
fn raise(table: &mut [u32], place: u32, to: u32)
    requires { place < length table.old }
    ensures { table.new ≡ slice_set table.old place (max (slice_index table.old place) to) }
{
    let at = place as usize;
    table[at] = table[at].max(to);
}

fn raise_all(table: &mut [u32], places: &[u32], to: u32)
    requires { All (λ place. place < length table.old) places.now }
    ensures long { length table.new ≡ length table.old }
    ensures raised { (q x : ℕ) → (x ≤ slice_index table.new q)
        ↔ ((x ≤ slice_index table.old q) ⊎ (Contains places.now q × (x ≤ to))) }
{
    for place in places {
        raise(table, *place, to);
    }
}

/// Where the transaction stands that looked at the version at a position: there, or where it made the next version.
fn stand_of(index: &Index, txn: u32, position: u32) -> u32
    requires { HasPosition index.now position }
    ensures { StandsAt index.now txn position result }
{
    match index.next_position(position) {
        Some(next) if index.maker_at(next) == Some(txn) => next,
        _ => position,
    }
}

/// Raises the table where the transaction stands by what it saw, and by the keys that it passed over and made the first version of.
fn raise_stands(evidence: &Evidence, txn: u32, own: &[u32], table: &mut [u32], to: u32)
    requires evidence { IsEvidence evidence.now }
    requires txn { (t : ℕ) × IsCommittedAt evidence.now.index.now txn t }
    requires own { (j : ℕ) → Contains own.now j
        ↔ IsOwnPassed evidence.now.index.now evidence.now.accesses.now txn j }
    requires table { ArePositions evidence.now.index.now (length table.old) }
    ensures { IsRaised evidence.now.index.now txn (IsLookAt evidence.now.index.now evidence.now.accesses.now txn)
        table.old table.new to }
{
    let index = evidence.index;
    for position in evidence.accesses.saw.at(txn as usize) {
        raise(table, stand_of(index, txn, *position), to);
    }
    for key in own {
        raise(table, stand_of(index, txn, index.first_position(*key)), to);
    }
}

/// The greatest mark that is with a block over the key.
fn top_of(size: u32, most: &[u32], key: u32) -> u32
    requires long { length most.now ≡ 2 * size }
    requires within { (size ≡ 0) ⊎ (key < size) }
    ensures { (x : ℕ) → 0 < x → (x ≤ result) ↔ IsMarkedOver size most.now key x }
{
    if size == 0 {
        return 0;
    }
    let mut top = 0u32;
    let mut block = size as usize + key as usize;
    while block > 0 {
        top = top.max(most[block]);
        block /= 2;
    }
    top
}

/// For each position but those of version 0 the greatest value of those with an rw edge to who made the version, at its key.
fn late_of(alloc: Global, evidence: &Evidence, values: &[u32]) -> Result<Vec<u32>, NoMemory>
    requires evidence { IsEvidence evidence.now }
    requires kept { IsolationKept evidence.now.index.now }
    requires values { (txns : List ℕ) × ListsAscending (IsCommitted evidence.now.index.now) txns
        × (length values.now ≡ length txns) }
    ensures { IfOk result (λ late. AreLate evidence.now.index.now values.now late.items) }
{
    let size = size_for(evidence);
    let mut late = vec![in alloc; 0u32; evidence.index.position_count() as usize]?;
    let mut block_marks = vec![in alloc; 0u32; 2 * size as usize]?;
    let seen = late.as_mut_slice();
    let most = block_marks.as_mut_slice();
    let mut passed = Passed::none(alloc);
    let mut places = Vec::new(alloc);
    for txn in 0..values.len() {
        passed.fill(evidence, txn as u32)?;
        raise_stands(evidence, txn as u32, &passed.own, seen, values[txn]);
        places.clear();
        put_all_blocks(size, &passed.stretches, &mut places)?;
        raise_all(most, &places, values[txn]);
    }
    let index = evidence.index;
    // Each mark gives way to the greatest of those before it.
    let mut last = 0;
    for position in 0..index.position_count() {
        if index.commit_at(position) == 0 {
            last = top_of(size, most, index.key_at(position));
        }
        let mark = seen[position as usize];
        seen[position as usize] = last;
        last = last.max(mark);
    }
    Ok(late)
}

/// The greatest value of those with an rw edge to the transaction, or 0.
fn greatest_entering(index: &Index, late: &[u32], txn: u32) -> u32
    requires late { (values : List ℕ) × AreLate index.now values late.now }
    requires txn { (t : ℕ) × IsCommittedAt index.now txn t }
    ensures { (values : List ℕ) (t : ℕ) → AreLate index.now values late.now → IsCommittedAt index.now txn t
        → IsLastOf (Enters index.now values t) result }
{
    let mut greatest = 0u32;
    for position in index.made_by(txn as usize) {
        greatest = greatest.max(late[*position as usize]);
    }
    greatest
}
