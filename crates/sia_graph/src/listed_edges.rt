//! The least order of transactions that keeps a list of edges, or where none does a cycle of these.
ghost use Rattle.std.specs.Prelude.{◌≢◌, ◌<◌, All, AllPairs, Contains, IfOk, OnOk, length};
ghost use Rattle.std.specs.List.Sorted.{IsNonDecreasingBy, IsStrictlyIncreasing};
ghost use Rattle.sia_events.specs.Lists.{Precedes};
ghost use Rattle.sia_parts.specs.Entries.{edge_rank};
ghost use Rattle.sia_graph.specs.ListedGraphs.{IsGraphOf};
ghost use Rattle.sia_graph.specs.Verdicts.{IsVerdict};

use crate::cycle::{EdgesIn, Steps, cycle_of};
use crate::judgement::Verdict;
use crate::order::{Graph, Taken, Txns, take_nodes};
use crate::sparse::put_row;
use sia_events::{NoMemory, TxnId};
use sia_index::keyed::{By, ByTxn, between, place_from};
use sia_index::lists::Lists;
use sia_parts::Edge;
use std::alloc::Global;

/// By the transaction from which it leads.
struct BySource;

impl By<Edge> for BySource {
    ghost by = { λ edge. edge.src };

    fn number(edge: &Edge) -> u64 {
        u64::from(edge.src)
    }
}

/// The ids as nodes, by their places, and the edges as steps. There is no memory for as many as 32 bits number.
fn graph_of(alloc: Global, ids: &[TxnId], edges: &[Edge]) -> Result<Graph, NoMemory>
    requires ascending { IsStrictlyIncreasing ids.now }
    requires joins { All (λ e. Contains ids.now e.src × Contains ids.now e.dst × (e.src ≢ e.dst)) edges.now }
    requires sorted { IsNonDecreasingBy (λ e. e.src) edges.now }
    ensures few { OnOk result (length ids.now < 4294967295) }
    ensures made { IfOk result (IsGraphOf ids.now edges.now) }
{
    if ids.len() >= u32::MAX as usize {
        return Err(NoMemory);
    }
    let mut targets = Lists::with_capacity(alloc, ids.len(), edges.len())?;
    let mut sources = Lists::with_capacity(alloc, ids.len(), 0)?;
    let mut row = Vec::new(alloc);
    for id in ids {
        let source = u64::from(*id);
        row.clear();
        for edge in between::<Edge, BySource>(edges, source, source) {
            row.push(place_from::<TxnId, ByTxn>(ids, u64::from(edge.dst)) as u32)?;
        }
        put_row(&mut targets, &row)?;
        sources.open()?;
    }
    Ok(Graph { targets, sources })
}

/// The least order of the ids that keeps the edges, or where none does the cycle that is printed.
pub fn settle(alloc: Global, ids: &[TxnId], edges: &[Edge]) -> Result<Verdict, NoMemory>
    requires ids { IsStrictlyIncreasing ids.now }
    requires joins { All (λ e. Contains ids.now e.src × Contains ids.now e.dst × (e.src ≢ e.dst)) edges.now }
    requires sorted { AllPairs (λ d e. Precedes (edge_rank d) (edge_rank e)) edges.now }
    ensures { IfOk result (IsVerdict (Contains ids.now) (Contains edges.now)) }
{
    let graph = graph_of(alloc, ids, edges)?;
    match take_nodes(alloc, 0, ids, &graph)? {
        Taken::Whole(order) => Ok(Verdict::Order(Txns::new(order))),
        Taken::Rest(left) => {
            let left = left.as_slice();
            // The least place that is left and leads to each. What has none leads to itself.
            let mut previous: Vec<usize> = (0..left.len()).collect(alloc)?;
            for source in (0..left.len()).rev() {
                if left[source] {
                    for target in graph.targets.at(source) {
                        previous[*target as usize] = source;
                    }
                }
            }
            let cycle = cycle_of(alloc, &EdgesIn::Listed(edges), ids, left, &previous)?;
            Ok(Verdict::Cycle(Steps::new(cycle)))
        }
    }
}
