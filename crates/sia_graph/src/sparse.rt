//! Few steps with the closure of all edges: between committed transactions, and through blocks of keys.
ghost use Rattle.std.specs.Prelude.{◌≡◌, ◌↔◌, ◌⊎◌, ◌*◌, ◌%◌, ◌+◌, ◌++◌, ◌∷◌, ◌<◌, ◌≤◌, ◌≢◌, [], ℕ, Contains, IfOk, List, OnOk, Some};
ghost use Rattle.sia_events.specs.Lists.{ListsAscending};
ghost use Rattle.sia_events.specs.Transactions.{IsCommitted};
ghost use Rattle.sia_index.specs.Numbers.{IsCommittedAt};
ghost use Rattle.sia_parts.specs.Sights.{Adds};
ghost use Rattle.sia_graph.specs.Evidence.{IsEvidence};
ghost use Rattle.sia_graph.specs.KeyBlocks.{IsUnderSome};
ghost use Rattle.sia_graph.specs.NarrowSteps.{node_of};
ghost use Rattle.sia_graph.specs.Passed.{IsHeldBy, IsPassed, IsSizeFor};
ghost use Rattle.sia_graph.specs.SparseGraphs.{AreMemberTargets, AreSourcesOf, IsSparse};

use crate::evidence::{Evidence, Passed, next_maker};
use crate::order::Graph;
use sia_events::NoMemory;
use sia_index::lists::Lists;
use sia_parts::RangeMiss;
use std::alloc::Global;

/// Adds blocks that are over the keys of the stretches, and over no others of `size` keys: for each stretch at most two of each
/// height.
#[inline(always)]
pub(crate) fn put_all_blocks(
    size: u32,
    stretches: &[RangeMiss],
    blocks: &mut Vec<u32>,
) -> Result<(), NoMemory>
    requires { size ≤ 1000000000 }
    ensures over { OnOk result ((j : ℕ) → j < size
        → IsUnderSome size blocks.new.items j
        ↔ (IsUnderSome size blocks.old.items j ⊎ IsHeldBy stretches.now j)) }
    ensures keeps { OnOk result ((b : ℕ) → Contains blocks.old.items b → Contains blocks.new.items b) }
    ensures within { OnOk result ((b : ℕ) → Contains blocks.new.items b
        → Contains blocks.old.items b ⊎ ((0 < b) × (b < 2 * size))) }
{
    for stretch in stretches {
        let (from, to) = (stretch.from.min(size), stretch.to.min(size));
        let (mut low, mut high) = (size + from, size + to);
        while low < high {
            if low % 2 == 1 {
                blocks.push(low)?;
            }
            if high % 2 == 1 {
                blocks.push(high - 1)?;
            }
            low = (low + 1) / 2;
            high /= 2;
        }
    }
    Ok(())
}

/// Adds the node of another transaction, if there is one. What a transaction saw of keys side by side mostly gives the same two
/// again and again, which are added once.
fn put_other(size: u32, txn: u32, other: Option<u32>, row: &mut Vec<u32>) -> Result<(), NoMemory>
    requires { (size ≤ 536870912) × ((i : ℕ) → other ≡ Some i → i < 1073741824) }
    ensures { OnOk result (Adds (λ n. (i : ℕ) × (other ≡ Some i) × (i ≢ txn)
        × (n ≡ node_of size i)) row.old.items row.new.items) }
{
    let Some(other) = other else { return Ok(()) };
    let node = 2 * size + other;
    match row.as_slice() {
        [.., first, last] if *first == node || *last == node => Ok(()),
        _ if other == txn => Ok(()),
        _ => Ok(row.push(node)?),
    }
}

/// Adds the steps of a transaction: what it waits for to `sources`, and what it is before to `targets`.
fn put_member_steps(
    evidence: &Evidence,
    size: u32,
    txn: u32,
    passed: &Passed,
    sources: &mut Vec<u32>,
    targets: &mut Vec<u32>,
) -> Result<(), NoMemory>
    requires evidence { IsEvidence evidence.now }
    requires size { IsSizeFor size evidence.now.index.now evidence.now.accesses.now }
    requires txn { (t : ℕ) × IsCommittedAt evidence.now.index.now txn t }
    requires passed { (j : ℕ) → IsHeldBy passed.now.stretches.items j
        ↔ IsPassed evidence.now.index.now evidence.now.accesses.now txn j }
    requires none { (sources.old.items ≡ []) × (targets.old.items ≡ []) }
    ensures sources { OnOk result (AreSourcesOf evidence.now.index.now evidence.now.accesses.now size
        (node_of size txn) sources.new.items) }
    ensures targets { OnOk result (AreMemberTargets evidence.now.index.now evidence.now.accesses.now size txn
        targets.new.items) }
{
    let index = evidence.index;
    for seen in evidence.accesses.saw.at(txn as usize) {
        put_other(size, txn, index.maker_at(*seen), sources)?;
        put_other(size, txn, next_maker(index, *seen), targets)?;
    }
    for made in index.made_by(txn as usize) {
        // Nobody made version 0.
        if let Some(before) = index.position_before(*made) {
            put_other(size, txn, index.maker_at(before), sources)?;
        }
    }
    put_all_blocks(size, &passed.stretches, targets)?;
    Ok(())
}

pub(crate) fn put_row(lists: &mut Lists<u32>, row: &[u32]) -> Result<(), NoMemory>
    ensures { OnOk result (lists.new ≡ lists.old ++ (row.now ∷ [])) }
{
    lists.open()?;
    for node in row {
        lists.put(*node)?;
    }
    Ok(())
}

/// The graph of few steps, where blocks are over so many keys.
pub(crate) fn graph_of(alloc: Global, evidence: &Evidence, size: u32) -> Result<Graph, NoMemory>
    requires evidence { IsEvidence evidence.now }
    requires size { IsSizeFor size evidence.now.index.now evidence.now.accesses.now }
    ensures { IfOk result (λ g. (txns : List ℕ) → ListsAscending (IsCommitted evidence.now.index.now) txns
        → IsSparse evidence.now.index.now size txns g) }
{
    let nodes = 2 * size as usize + evidence.index.committed().len();
    let seen = evidence.accesses.saw.rows().len();
    let positions = evidence.index.position_count() as usize;
    let mut graph = Graph {
        targets: Lists::with_capacity(alloc, nodes, seen + 3 * size as usize)?,
        sources: Lists::with_capacity(alloc, nodes, seen + positions)?,
    };
    let mut passed = Passed::none(alloc);
    let mut sources = Vec::new(alloc);
    let mut targets = Vec::new(alloc);
    for block in 0..2 * size {
        targets.clear();
        // A block leads to its halves, and a leaf to who made the first version of its key.
        if block >= size {
            let zero = evidence.index.first_position(block - size);
            let first = next_maker(evidence.index, zero);
            put_other(size, u32::MAX, first, &mut targets)?;
        } else if block > 0 {
            targets.push(2 * block)?;
            targets.push(2 * block + 1)?;
        }
        put_row(&mut graph.targets, &targets)?;
        put_row(&mut graph.sources, &[])?;
    }
    for txn in 0..evidence.index.committed().len() as u32 {
        passed.fill(evidence, txn)?;
        sources.clear();
        targets.clear();
        put_member_steps(evidence, size, txn, &passed, &mut sources, &mut targets)?;
        put_row(&mut graph.targets, &targets)?;
        put_row(&mut graph.sources, &sources)?;
    }
    Ok(graph)
}
