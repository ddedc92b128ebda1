//! The least order that keeps every step, by Kahn's algorithm: always the least node that is ready is taken.
ghost use Rattle.std.specs.Prelude.{◌≡◌, ◌≢◌, ◌<◌, ◌+◌, ◌*◌, [], ℕ, Bool, IfOk, MatchOption, OnOk, length, slice_index_or, List};
ghost use Rattle.sia_graph.specs.Graphs.{IsGraph};
ghost use Rattle.sia_graph.specs.Taken.{AreTakenNodes};
ghost use Rattle.sia_graph.specs.declared.order.Graph.{Graph};
ghost use Rattle.sia_graph.specs.UnderWay.{AreBehind, IsDone, IsOneFewer, IsReadyIn, IsTaken, IsTaking, WaitsAt, none_pending, times};

use sia_events::{Listed, NoMemory, TxnId};
use sia_index::lists::Lists;
use std::alloc::Global;
use std::cmp::Reverse;
use std::collections::{BinaryHeap, VecDeque};

/// A list of transactions.
pub type Txns = Listed<TxnId>;

/// Which nodes lead to which: a node leads to its targets, and is led to from its sources. Each step is told once, at its target or
/// at its source.
#[derive(Drop)]
pub struct Graph {
    pub(crate) targets: Lists<u32>,
    pub(crate) sources: Lists<u32>,
}

/// No number of a node, a transaction or a key.
pub(crate) const NONE: u32 = u32::MAX;

/// Nodes that are taken one after another, each once all that lead to it are done.
///
/// Steps that are told at their sources' lists of targets are counted. Those told at a target's list of sources are waited for: a
/// node that nothing else holds back passes its sources, and waits at the first that isn't done.
#[derive(Drop)]
struct Taking {
    /// What holds each node back: steps that are counted, and one more until its sources are passed.
    counts: Vec<u32>,
    /// How many of its sources each node passed.
    passed: Vec<u32>,
    /// The first of those that wait at each node, and for each that waits the next.
    first_waiting: Vec<u32>,
    next_waiting: Vec<u32>,
    /// What is ready before `end`: a run that ascends, as most of it comes, and others. From there on, that is told by the counts.
    run: VecDeque<usize>,
    others: BinaryHeap<Reverse<usize>>,
    end: usize,
}

impl Taking {
    /// Nothing is taken, and each node is to be released once.
    fn of(alloc: Global, graph: &Graph, nodes: usize) -> Result<Taking, NoMemory>
        requires { IsGraph nodes graph.now }
        ensures long { IfOk result (λ taking. length taking.counts.items ≡ nodes) }
        ensures is { IfOk result (λ taking. (done : List Bool) → length done ≡ nodes
            → ((s : ℕ) → ¬ IsDone done s) → IsTaking graph.now done taking (λ t. 1) nodes) }
    {
        // For each node how many steps to it are told at their sources, and two.
        let mut counts = vec![in alloc; 2u32; nodes]?;
        for node in 0..nodes {
            for target in graph.targets.at(node) {
                let target = *target as usize;
                counts[target] = counts[target].checked_add(1).ok_or(NoMemory)?;
            }
        }
        Ok(Taking {
            counts,
            passed: vec![in alloc; 0u32; nodes]?,
            first_waiting: vec![in alloc; NONE; nodes]?,
            next_waiting: vec![in alloc; NONE; nodes]?,
            run: VecDeque::new(alloc),
            others: BinaryHeap::new(alloc),
            end: 0,
        })
    }

    /// One less holds the node back. Once its sources alone do it passes those that are done, and waits or is ready.
    #[inline(always)]
    fn release(&mut self, graph: &Graph, done: &[bool], node: usize) -> Result<(), NoMemory>
        requires graph { IsGraph (length self.old.counts.items) graph.now }
        requires node { (node < length self.old.counts.items) × (length self.old.counts.items < 4294967295) }
        requires is { (pending : ℕ → ℕ) × (waking : ℕ) × IsTaking graph.now done.now self.old pending waking
            × (0 < pending node) }
        ensures is { OnOk result ((pending less : ℕ → ℕ) (waking : ℕ)
            → IsTaking graph.now done.now self.old pending waking → IsOneFewer node pending less
            → IsTaking graph.now done.now self.new less waking) }
        ensures long { OnOk result (length self.new.counts.items ≡ length self.old.counts.items) }
        ensures others { OnOk result ((t s : ℕ)
            → WaitsAt graph.now.sources self.new.counts.items self.new.passed.items t s → IsDone done.now s
            → WaitsAt graph.now.sources self.old.counts.items self.old.passed.items t s × (t ≢ node)) }
    {
        self.counts[node] -= 1;
        if self.counts[node] > 1 {
            return Ok(());
        }
        let sources = graph.sources.at(node);
        let mut place = self.passed[node] as usize;
        while place < sources.len() && done[sources[place] as usize] {
            place += 1;
        }
        if place < sources.len() {
            self.passed[node] = u32::try_from(place).ok().ok_or(NoMemory)?;
            let at = sources[place] as usize;
            self.next_waiting[node] = self.first_waiting[at];
            self.first_waiting[at] = node as u32;
            return Ok(());
        }
        self.counts[node] = 0;
        if node < self.end {
            if self.run.back().copied().unwrap_or(0) < node {
                self.run.push_back(node)?;
            } else {
                self.others.push(Reverse(node))?;
            }
        }
        Ok(())
    }

    /// The node is done: those that wait at it are looked at, and its targets are released.
    fn finish(&mut self, graph: &Graph, done: &[bool], node: usize) -> Result<(), NoMemory>
        requires graph { IsGraph (length self.old.counts.items) graph.now }
        requires node { (node < length self.old.counts.items) × (length self.old.counts.items < 4294967295) }
        requires done { IsDone done.now node }
        requires is { IsTaking graph.now done.now self.old
            (λ t. times t (slice_index_or graph.now.targets node [])) node }
        ensures is { OnOk result (IsTaking graph.now done.now self.new none_pending
            (length self.new.counts.items)) }
        ensures long { OnOk result (length self.new.counts.items ≡ length self.old.counts.items) }
    {
        'waiting: while self.first_waiting[node] != NONE {
            // The first that waits waits there no more, but is to be released.
            let first = self.first_waiting[node] as usize;
            self.first_waiting[node] = self.next_waiting[first];
            self.counts[first] += 1;
            self.release(graph, done, first)?;
        }
        for target in graph.targets.at(node) {
            self.release(graph, done, *target as usize)?;
        }
        Ok(())
    }

    /// Takes the least ready place: the least of those behind `end`, or the first from there on, which is then passed. Only those
    /// that become ready behind `end`, below the run's last, cost a search.
    fn take(&mut self) -> Option<usize>
        requires { AreBehind self.old }
        ensures { MatchOption result ((i : ℕ) → ¬ IsReadyIn self.old i) (IsTaken self.old self.new) }
    {
        let first = self.run.front().copied().unwrap_or(usize::MAX);
        let Reverse(other) = self.others.peek().copied().unwrap_or(Reverse(usize::MAX));
        if first < other {
            return self.run.pop_front();
        }
        let Some(Reverse(place)) = self.others.pop() else {
            let left = &self.counts[self.end..];
            self.end += left.iter().position(|count| *count == 0)? + 1;
            return Some(self.end - 1);
        };
        Some(place)
    }
}

/// How taking one transaction after another ends.
#[derive(Drop)]
pub(crate) enum Taken {
    /// The least order that keeps every edge.
    Whole(Vec<TxnId>),
    /// Where no order does, for each committed transaction, by its number, whether it is left.
    Rest(Vec<bool>),
}

/// The least order of the transactions that keeps every step of a graph of blocks over `size` keys and transactions, or those that
/// are left where none does. The least node to which no step leads from one that is left is taken, again and again, while there is
/// one.
pub(crate) fn take_nodes(
    alloc: Global,
    size: u32,
    txns: &[TxnId],
    graph: &Graph,
) -> Result<Taken, NoMemory>
    requires few { 2 * size + length txns.now < 4294967295 }
    requires graph { IsGraph (2 * size + length txns.now) graph.now }
    ensures { IfOk result (AreTakenNodes size txns.now graph.now) }
{
    let floor = 2 * size as usize;
    let nodes = floor + txns.len();
    let mut taking = Taking::of(alloc, graph, nodes)?;
    let mut done = vec![in alloc; false; nodes]?;
    for node in 0..nodes {
        taking.release(graph, &done, node)?;
    }
    let mut order = Vec::with_capacity(alloc, txns.len())?;
    while let Some(node) = taking.take() {
        if node >= floor {
            order.push(txns[node - floor])?;
        }
        done[node] = true;
        taking.finish(graph, &done, node)?;
    }
    if done.iter().all(|is_done| *is_done) {
        return Ok(Taken::Whole(order));
    }
    let members = &done[floor..];
    Ok(Taken::Rest(members.iter().map(|is_done| !*is_done).collect(alloc)?))
}
