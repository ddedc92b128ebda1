//! The neighbours of pivots, found one pivot at a time: none is kept.
ghost use Rattle.std.specs.Prelude.{◌≡◌, ◌≢◌, ◌<◌, ◌≤◌, ◌+◌, ◌-◌, ◌*◌, ⊤, ℕ, All, IfOk, OnOk, count_by, length, vec_capacity};
ghost use Rattle.sia_index.specs.Numbers.{IsCommittedAt};
ghost use Rattle.sia_index.specs.Positions.{HasPosition};
ghost use Rattle.sia_parts.specs.EdgeRows.{AreOrdered, AreSeen, IsOfKey, noted_between};
ghost use Rattle.sia_parts.specs.Sights.{FromSome};
ghost use Rattle.sia_graph.specs.declared.neighbours.Role.TheVariants.{In, Out, First};
ghost use Rattle.sia_graph.specs.Evidence.{IsEvidence};
ghost use Rattle.sia_graph.specs.Found.{AreEnds, AreFirstStarts, AreLastCommits, ArePassings, BeginUpTo, CanFind, HasRoom, InCommits, IsLookerRow, IsPasserRow, OverlapAt, PutsMore, is_out, most_found, most_ins, most_outs};
ghost use Rattle.sia_graph.specs.Links.{EndsBehind, IsVulnerableAt, OverlapsBehind};
ghost use Rattle.sia_graph.specs.Late.{IsLastOf};
ghost use Rattle.sia_graph.specs.Neighbours.{AreNeighbours, HasRole};

use crate::evidence::Evidence;
use sia_events::NoMemory;
use sia_index::keyed::{By, ByKey, ByTxn, place_above};
use sia_index::lists::Lists;
use sia_index::minima::{minima_of, next_below};
use sia_index::ordering::Sorter;
use sia_index::{Index, overlap};
use sia_parts::Ordered;
use std::alloc::Global;

/// What a transaction is to a pivot.
#[derive(Clone, Copy, PartialEq, Eq, PartialOrd, Ord)]
pub enum Role {
    /// A vulnerable edge leads from it to the pivot.
    In,
    /// A vulnerable edge leads to it from the pivot.
    Out,
    /// It commits first in a dangerous structure around the pivot.
    First,
}

/// A transaction at an end of a pivot's vulnerable edge, by its number among the committed ones.
#[derive(Clone, Copy, PartialEq, Eq, PartialOrd, Ord)]
pub struct Neighbour {
    pub role: Role,
    pub txn: u32,
}

impl By<Neighbour> for ByTxn {
    ghost by = { λ n. n.txn };

    fn number(row: &Neighbour) -> u64 {
        u64::from(row.txn)
    }
}

/// A range miss, and the number of who has it.
#[derive(Clone, Copy)]
pub(crate) struct Passing {
    pub(crate) from: u32,
    pub(crate) to: u32,
    pub(crate) reader: u32,
}

impl By<Passing> for ByKey {
    ghost by = { λ p. p.from };

    fn number(p: &Passing) -> u64 {
        u64::from(p.from)
    }
}

/// By how far it reaches, the farthest first.
struct ByReach;

impl By<Passing> for ByReach {
    ghost by = { λ p. 4294967295 - p.to };

    fn number(p: &Passing) -> u64 {
        u64::from(u32::MAX - p.to)
    }
}

/// What the neighbours of each transaction are found by.
#[derive(Drop)]
pub struct Neighbours<'a> {
    /// What each saw and passed over is in order.
    pub evidence: Evidence<'a>,
    /// For each position who saw the version there.
    pub(crate) looks: &'a Lists<u32>,
    /// All range misses, by their first keys, and a tree over how far they reach.
    pub(crate) passings: Vec<Passing>,
    pub(crate) reaches: Vec<u64>,
    /// For each position the least start of who made the version there or a later one of its key.
    pub(crate) starts: Vec<u32>,
    /// For each position the last commit of who saw the version there or an earlier one of its key.
    pub(crate) ends: Vec<u32>,
}

impl<'a> Neighbours<'a> {
    /// Takes all the memory that they need.
    pub fn of(
        alloc: Global,
        index: &'a Index,
        ordered: &'a Ordered,
    ) -> Result<Neighbours<'a>, NoMemory>
        requires { AreOrdered index.now (λ _. ⊤) ordered.now }
        ensures can { IfOk result CanFind }
        ensures index { IfOk result (λ found. found.evidence.index.now ≡ index.now) }
    {
        index.law();
        let accesses = &ordered.accesses;
        let evidence = Evidence { index, accesses };
        let passings = passings_of(alloc, &evidence)?;
        let reaches = minima_of::<Passing, ByReach>(alloc, &passings)?;
        Ok(Neighbours {
            evidence,
            looks: &ordered.seen,
            passings,
            reaches,
            starts: starts_of(alloc, index)?,
            ends: ends_of(alloc, &evidence, &ordered.seen)?,
        })
    }

    /// How many rows the neighbours of a transaction take at most.
    pub fn most_rows(&self) -> usize
        requires { CanFind self.now }
        ensures { result ≡ most_found self.now }
    {
        let positions = self.evidence.index.position_count() as usize;
        4 * positions + self.looks.rows().len() + self.passings.len()
    }

    /// Puts the neighbours of the transaction into the list, which has room for them, in place of what it held: all, if it is a
    /// pivot, and else none.
    pub fn put_of(&self, number: u32, rows: &mut Vec<Neighbour>, sorter: &mut Sorter<Neighbour>)
        requires can { CanFind self.now }
        requires number { (t : ℕ) × IsCommittedAt self.now.evidence.index.now number t }
        requires room { most_found self.now ≤ vec_capacity rows.old }
        ensures found { AreNeighbours self.now.evidence.index.now number rows.new.items }
        ensures room { vec_capacity rows.new ≡ vec_capacity rows.old }
    {
        rows.clear();
        // No edge leads to who made no version.
        if self.evidence.index.made_by(number as usize).is_empty() {
            return;
        }
        self.put_outs(number, rows);
        if rows.is_empty() {
            return;
        }
        self.put_ins(number, rows);
        let last = self.last_in(rows);
        if last == 0 {
            rows.clear();
            return;
        }
        // Each out may be a first too, so it stands there once.
        sorter.sort::<ByTxn>(rows);
        self.put_firsts(number, last, rows);
        // The firsts stand behind the outs and in their order, so nothing moves.
        sorter.sort::<ByTxn>(rows);
    }

    /// Adds those to whom the transaction has a vulnerable edge.
    fn put_outs(&self, number: u32, rows: &mut Vec<Neighbour>)
        requires can { CanFind self.now }
        requires number { (t : ℕ) × IsCommittedAt self.now.evidence.index.now number t }
        requires room { HasRoom (most_outs self.now) rows.old }
        ensures { PutsMore (λ n. (n.role ≡ Out) × IsVulnerableAt self.now.evidence.index.now number n.txn)
            (most_outs self.now) rows.old rows.new }
    {
        let index = self.evidence.index;
        let mut end = 0;
        for position in self.evidence.accesses.saw.at(number as usize) {
            // Of each key the oldest version has them all.
            if *position >= end {
                end = self.put_makers(number, *position, rows);
            }
        }
        let mut reached = 0;
        for miss in self.evidence.accesses.missed.at(number as usize) {
            let mut from = miss.from.max(reached);
            while let Some(key) = index.next_visible(from, miss.to, u32::MAX) {
                self.put_makers(number, index.first_position(key), rows);
                from = key + 1;
            }
            reached = miss.to.max(reached);
        }
    }

    /// Adds those who overlap the transaction and made a version of the key behind the position. Answers where its positions end.
    fn put_makers(&self, number: u32, position: u32, rows: &mut Vec<Neighbour>) -> u32
        requires can { CanFind self.now }
        requires number { (t : ℕ) × IsCommittedAt self.now.evidence.index.now number t }
        requires position { HasPosition self.now.evidence.index.now position }
        requires room { HasRoom (length self.now.looks.now - position) rows.old }
        ensures end { EndsBehind self.now.evidence.index.now position result }
        ensures puts { PutsMore (λ n. (n.role ≡ Out)
            × OverlapsBehind self.now.evidence.index.now number position n.txn) (result - position)
            rows.old rows.new }
    {
        let index = self.evidence.index;
        let makers = index.makers_behind(position);
        let end = position + 1 + makers.len() as u32;
        let commit = index.lifetimes()[number as usize].commit;
        for i in 0..makers.len() {
            // This maker and those of all later versions start too late.
            if commit <= self.starts[position as usize + 1 + i] {
                return end;
            }
            self.put_if_overlaps(number, makers[i], Role::Out, rows);
        }
        end
    }

    /// Adds those who have a vulnerable edge to the transaction.
    fn put_ins(&self, number: u32, rows: &mut Vec<Neighbour>)
        requires can { CanFind self.now }
        requires number { (t : ℕ) × IsCommittedAt self.now.evidence.index.now number t }
        requires room { HasRoom (most_ins self.now) rows.old }
        ensures { PutsMore (λ n. (n.role ≡ In) × IsVulnerableAt self.now.evidence.index.now n.txn number)
            (most_ins self.now) rows.old rows.new }
    {
        let index = self.evidence.index;
        index.keys_law();
        let mut passed = 0;
        for position in index.made_by(number as usize) {
            let key = index.key_at(*position);
            self.put_lookers(number, index.first_position(key), *position, rows);
            passed = self.put_passers(number, key, passed, rows);
        }
    }

    /// Adds those who overlap the transaction and saw a version from the one position to before the other.
    fn put_lookers(&self, number: u32, from: u32, to: u32, rows: &mut Vec<Neighbour>)
        requires can { CanFind self.now }
        requires number { (t : ℕ) × IsCommittedAt self.now.evidence.index.now number t }
        requires from { from ≤ to }
        requires key { (j : ℕ) × IsOfKey self.now.evidence.index.now j from × IsOfKey self.now.evidence.index.now j to }
        requires room { HasRoom (noted_between self.now.looks.now from to) rows.old }
        ensures { PutsMore (IsLookerRow self.now number from to) (noted_between self.now.looks.now from to)
            rows.old rows.new }
    {
        let start = self.evidence.index.lifetimes()[number as usize].start;
        for position in (from..to).rev() {
            // Who saw this version and all earlier ones commit too early.
            if self.ends[position as usize] <= start {
                return;
            }
            for look in self.looks.at(position as usize) {
                self.put_if_overlaps(number, *look, Role::In, rows);
            }
        }
    }

    /// Adds those who overlap the transaction and passed over the key, but for range misses before place `from`: those that hold the
    /// key hold the transaction's key before it, and are found there. Answers the place of the first that begins behind the key.
    fn put_passers(&self, number: u32, key: u32, from: usize, rows: &mut Vec<Neighbour>) -> usize
        requires can { CanFind self.now }
        requires number { (t : ℕ) × IsCommittedAt self.now.evidence.index.now number t }
        requires from { BeginUpTo self.now key from }
        requires room { HasRoom (length self.now.passings.items - from) rows.old }
        ensures end { BeginUpTo self.now key result }
        ensures behind { from ≤ result }
        ensures puts { PutsMore (IsPasserRow self.now number key from (length self.now.passings.items))
            (result - from) rows.old rows.new }
    {
        let to = place_above::<Passing, ByKey>(&self.passings, u64::from(key));
        let limit = u64::from(u32::MAX - key);
        let (passings, reaches) = (&self.passings, &self.reaches);
        let mut at = from;
        while let Some(next) = next_below::<Passing, ByReach>(passings, reaches, at, to, limit) {
            self.put_if_overlaps(number, passings[next].reader, Role::In, rows);
            at = next + 1;
        }
        to
    }

    /// Adds the other in the role, if it is another and overlaps the transaction. There is room for it.
    fn put_if_overlaps(&self, number: u32, other: u32, role: Role, rows: &mut Vec<Neighbour>)
        requires evidence { IsEvidence self.now.evidence }
        requires number { (t : ℕ) × IsCommittedAt self.now.evidence.index.now number t }
        requires other { (u : ℕ) × IsCommittedAt self.now.evidence.index.now other u }
        requires room { HasRoom 1 rows.old }
        ensures { PutsMore (λ n. (n ≡ record { role = role; txn = other }) × (other ≢ number)
            × OverlapAt self.now.evidence.index.now number other) 1 rows.old rows.new }
    {
        let lifetimes = self.evidence.index.lifetimes();
        if other != number && overlap(lifetimes[number as usize], lifetimes[other as usize]) {
            rows.push_reserved(Neighbour { role, txn: other });
        }
    }

    /// When the last of the ins commits: 0 where there are none.
    fn last_in(&self, rows: &[Neighbour]) -> u32
        requires evidence { IsEvidence self.now.evidence }
        requires rows { All (λ n. (u : ℕ) × IsCommittedAt self.now.evidence.index.now n.txn u) rows.now }
        ensures { IsLastOf (FromSome (InCommits self.now.evidence.index.now) rows.now) result }
    {
        let lifetimes = self.evidence.index.lifetimes();
        let mut last = 0u32;
        for row in rows {
            if row.role == Role::In {
                last = last.max(lifetimes[row.txn as usize].commit);
            }
        }
        last
    }

    /// Adds those of the outs that commit first in a dangerous structure, where the last of the ins commits at this place.
    fn put_firsts(&self, number: u32, last: u32, rows: &mut Vec<Neighbour>)
        requires evidence { IsEvidence self.now.evidence }
        requires number { (t : ℕ) × IsCommittedAt self.now.evidence.index.now number t }
        requires ends { AreEnds self.now.evidence.index.now number rows.old.items }
        requires last { IsLastOf (FromSome (InCommits self.now.evidence.index.now) rows.old.items) last }
        requires room { HasRoom (count_by is_out rows.old.items) rows.old }
        ensures { PutsMore (λ n. (n.role ≡ First) × HasRole self.now.evidence.index.now number First n.txn)
            (count_by is_out rows.old.items) rows.old rows.new }
    {
        let lifetimes = self.evidence.index.lifetimes();
        let last = last.min(lifetimes[number as usize].commit - 1);
        for i in 0..rows.len() {
            let Neighbour { role, txn } = rows[i];
            if role == Role::Out && lifetimes[txn as usize].commit <= last {
                let role = Role::First;
                rows.push_reserved(Neighbour { role, txn });
            }
        }
    }
}

/// All range misses, by their first keys.
fn passings_of(alloc: Global, evidence: &Evidence) -> Result<Vec<Passing>, NoMemory>
    requires { IsEvidence evidence.now }
    ensures { IfOk result (λ passings. ArePassings evidence.now.accesses.now passings.items) }
{
    let mut passings = Vec::new(alloc);
    for reader in 0..evidence.index.committed().len() as u32 {
        for miss in evidence.accesses.missed.at(reader as usize) {
            let (from, to) = (miss.from, miss.to);
            passings.push(Passing { from, to, reader })?;
        }
    }
    passings.sort_unstable_by_key(|p| p.from);
    Ok(passings)
}

/// For each position the least start of who made the version there or a later one of its key, and 0 for those of version 0.
fn starts_of(alloc: Global, index: &Index) -> Result<Vec<u32>, NoMemory>
    ensures { IfOk result (λ starts. AreFirstStarts index.now starts.items) }
{
    let lifetimes = index.lifetimes();
    let count = index.position_count();
    let mut starts = vec![in alloc; 0u32; count as usize]?;
    let mut least = u32::MAX;
    for position in (0..count).rev() {
        let Some(maker) = index.maker_at(position) else {
            least = u32::MAX;
            continue;
        };
        least = least.min(lifetimes[maker as usize].start);
        starts[position as usize] = least;
    }
    Ok(starts)
}

/// For each position the last commit of who saw the version there or an earlier one of its key.
fn ends_of(alloc: Global, evidence: &Evidence, looks: &Lists<u32>) -> Result<Vec<u32>, NoMemory>
    requires evidence { IsEvidence evidence.now }
    requires looks { AreSeen evidence.now.index.now evidence.now.accesses.now looks.now }
    ensures { IfOk result (λ ends. AreLastCommits evidence.now.index.now looks.now ends.items) }
{
    let lifetimes = evidence.index.lifetimes();
    let count = evidence.index.position_count();
    let mut ends = Vec::with_capacity(alloc, count as usize)?;
    let mut last = 0u32;
    for position in 0..count {
        if evidence.index.commit_at(position) == 0 {
            last = 0;
        }
        for look in looks.at(position as usize) {
            last = last.max(lifetimes[*look as usize].commit);
        }
        ends.push(last)?;
    }
    Ok(ends)
}
