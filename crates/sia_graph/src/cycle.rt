//! The cycle that is printed where no order keeps every edge, and the least edge from one transaction to another.
ghost use Rattle.std.specs.Prelude.{◌≡◌, ◌<◌, ◌≤◌, ℕ, IfOk, List, Contains, length, slice_index, ◌↔◌};
ghost use Rattle.std.specs.List.Sorted.{IsStrictlyIncreasing};
ghost use Rattle.sia_parts.specs.Entries.{IsEdge};
ghost use Rattle.sia_graph.specs.Cycles.{IsPrintedCycle, IsStuckSet, TakesLeastEdge};
ghost use Rattle.sia_graph.specs.Evidence.{IsEvidence};
ghost use Rattle.sia_graph.specs.Orders.{Leads};
ghost use Rattle.sia_graph.specs.Previous.{IsLeftIn};
ghost use Rattle.sia_graph.specs.Searched.{CanFind, IsEdgeIn, IsMemberIn};
ghost use Rattle.sia_graph.specs.Walks.{AreLeastSources, AreLeft};
ghost use Rattle.sia_graph.specs.declared.cycle.Step.{Step};
ghost use Rattle.sia_events.specs.Dependencies.{RwEdge};
ghost use Rattle.sia_index.specs.Info.{IsKeyAt};
ghost use Rattle.sia_index.specs.Numbers.{IsCommittedAt};
ghost use Rattle.sia_index.specs.Positions.{HasPosition};
ghost use Rattle.sia_parts.specs.Sights.{FromSome};
ghost use Rattle.sia_graph.specs.Dangerous.{IsLeast};
ghost use Rattle.sia_graph.specs.Extremes.{HasRwEdge};
ghost use Rattle.sia_graph.specs.LeastEdges.{AreMade, IsKeyOf, IsLeastEdgeBetween, IsMadeWithin, IsMet, Meets};
ghost use Rattle.sia_graph.specs.Twos.{HaveOneKey, IsLeastNumber};

use crate::evidence::Evidence;
use crate::order::NONE;
use sia_events::{Key, Listed, NoMemory, TxnId};
use sia_index::Index;
use sia_index::keyed::{ByPlace, place_from};
use sia_parts::{Edge, Kind, first_or_end};
use std::alloc::Global;

/// A step of a cycle: from a transaction by an edge to the next.
#[derive(Clone, Copy, PartialEq, Eq)]
pub struct Step {
    pub txn: TxnId,
    pub kind: Kind,
    pub key: Key,
}

/// The steps of a cycle.
pub type Steps = Listed<Step>;

/// Where the least edge from one transaction to another is found.
#[derive(Clone, Copy)]
pub(crate) enum EdgesIn<'a> {
    /// In a list, which is in order.
    Listed(&'a [Edge]),
    /// In what was written and seen.
    Seen(&'a Evidence<'a>),
}

/// The step by the least edge from one transaction to another, by their places.
fn least_step(edges: &EdgesIn, ids: &[TxnId], before: usize, at: usize) -> Step
    requires can { CanFind ids.now edges.now }
    requires within { (before < length ids.now) × (at < length ids.now) }
    requires leads { Leads (IsEdgeIn edges.now) (slice_index ids.now before) (slice_index ids.now at) }
    ensures from { result.txn ≡ slice_index ids.now before }
    ensures least { TakesLeastEdge (IsEdgeIn edges.now) result (slice_index ids.now at) }
{
    let (kind, key) = match edges {
        EdgesIn::Listed(list) => {
            let (src, dst) = (ids[before], ids[at]);
            let i = list.partition_point(|e| e.src < src || e.src == src && e.dst < dst);
            let e = &list[i];
            (e.kind, e.key)
        }
        EdgesIn::Seen(evidence) => {
            let (kind, key) = least_edge(evidence, before as u32, at as u32);
            (kind, evidence.index.written_keys()[key as usize])
        }
    };
    let txn = ids[before];
    Step { txn, kind, key }
}

/// The cycle that going back from the least transaction that is left reaches, where what is left is stuck.
pub(crate) fn cycle_of(
    alloc: Global,
    edges: &EdgesIn,
    ids: &[TxnId],
    left: &[bool],
    previous: &[usize],
) -> Result<Vec<Step>, NoMemory>
    requires can { CanFind ids.now edges.now }
    requires ascending { IsStrictlyIncreasing ids.now }
    requires long { (length left.now ≡ length ids.now) × (length previous.now ≡ length ids.now) }
    requires some { (i : ℕ) × (i < length left.now) × IsLeftIn left.now i }
    requires stuck { (stuck : List ℕ) × IsStuckSet (IsMemberIn ids.now edges.now) (IsEdgeIn edges.now) stuck
        × AreLeft ids.now (IsLeftIn left.now) stuck }
    requires least { AreLeastSources ids.now (IsEdgeIn edges.now) (IsLeftIn left.now) previous.now }
    ensures { IfOk result (λ steps. IsPrintedCycle (IsMemberIn ids.now edges.now)
        (IsEdgeIn edges.now) steps.items) }
{
    let mut place = left.iter().position(|is_left| *is_left).unwrap_or(0);
    // As many steps back as there are positions end on the cycle.
    for _ in 0..previous.len() {
        place = previous[place];
    }
    // As many more go round it.
    let mut home = place;
    'round: for _ in 0..previous.len() {
        place = previous[place];
        home = home.min(place);
    }
    let mut steps = Vec::with_capacity(alloc, previous.len())?;
    let mut at = home;
    'walk: loop {
        let before = previous[at];
        steps.push(least_step(edges, ids, before, at))?;
        if before == home {
            break;
        }
        at = before;
    }
    steps.reverse();
    Ok(steps)
}

/// From where to before where a version is to stand to make an edge of this kind with the one at the position.
fn span_met(index: &Index, kind: Kind, position: u32) -> (u32, u32)
    requires { HasPosition index.now position }
    ensures { (q i : ℕ) → IsKeyOf index.now q i → ((result.0 ≤ q) × (q < result.1))
        ↔ (HaveOneKey index.now q position × Meets kind q position) }
{
    index.law();
    let key = index.key_at(position);
    let (start, end) = (first_or_end(index, key), first_or_end(index, key + 1));
    match kind {
        Kind::Ww => (start, position),
        Kind::Wr => (start, position + 1),
        Kind::Rw => (position + 1, end),
    }
}

/// The number of the least key of which a version is made at a position from one to before another.
fn least_made(index: &Index, made: &[u32], from: u32, to: u32) -> u32
    requires { AreMade index.now made.now }
    ensures { IsLeastNumber (IsMadeWithin index.now made.now from to) result }
{
    match made.get(place_from::<u32, ByPlace>(made, u64::from(from))) {
        Some(position) if *position < to => index.key_at(*position),
        _ => NONE,
    }
}

/// The number of the least key of which a version is made that makes an edge of this kind with one of the others.
fn least_met(kind: Kind, index: &Index, made: &[u32], others: &[u32]) -> u32
    requires made { AreMade index.now made.now }
    requires others { (p : ℕ) → Contains others.now p → HasPosition index.now p }
    ensures { IsLeastNumber (FromSome (IsMet index.now kind made.now) others.now) result }
{
    let mut least = NONE;
    for other in others {
        let (from, to) = span_met(index, kind, *other);
        least = least.min(least_made(index, made, from, to));
    }
    least
}

/// The number of the least key at which an rw edge leads from one transaction to another, by their numbers.
pub(crate) fn least_rw(evidence: &Evidence, t: u32, u: u32) -> u32
    requires is { IsEvidence evidence.now }
    requires leads { (a b : ℕ) × IsCommittedAt evidence.now.index.now t a
        × IsCommittedAt evidence.now.index.now u b × HasRwEdge evidence.now.index.now a b }
    ensures { (a b : ℕ) → IsCommittedAt evidence.now.index.now t a → IsCommittedAt evidence.now.index.now u b
        → (k : ℕ) × IsKeyAt evidence.now.index.now result k × IsLeast (RwEdge evidence.now.index.now a b) k }
{
    let index = evidence.index;
    // That keys and positions make lists is asked for the proof alone, here and below.
    index.keys_law();
    let _count = index.position_count();
    let made = index.made_by(u as usize);
    let mut least = least_met(Kind::Rw, index, made, evidence.accesses.saw.at(t as usize));
    for miss in evidence.accesses.missed.at(t as usize) {
        let (from, to) = (first_or_end(index, miss.from), first_or_end(index, miss.to));
        least = least.min(least_made(index, made, from, to));
    }
    least
}

/// The kind of the least edge from one transaction to another, by their numbers, and the number of its key.
fn least_edge(evidence: &Evidence, t: u32, u: u32) -> (Kind, u32)
    requires is { IsEvidence evidence.now }
    requires leads { (a b : ℕ) × IsCommittedAt evidence.now.index.now t a
        × IsCommittedAt evidence.now.index.now u b × Leads (IsEdge evidence.now.index.now) a b }
    ensures { (a b : ℕ) → IsCommittedAt evidence.now.index.now t a → IsCommittedAt evidence.now.index.now u b
        → (k : ℕ) × IsKeyAt evidence.now.index.now result.1 k
        × IsLeastEdgeBetween evidence.now.index.now a b result.0 k }
{
    let index = evidence.index;
    index.keys_law();
    let _count = index.position_count();
    let made = index.made_by(t as usize);
    let ww = least_met(Kind::Ww, index, made, index.made_by(u as usize));
    if ww < NONE {
        return (Kind::Ww, ww);
    }
    let wr = least_met(Kind::Wr, index, made, evidence.accesses.saw.at(u as usize));
    if wr < NONE {
        return (Kind::Wr, wr);
    }
    (Kind::Rw, least_rw(evidence, t, u))
}
