//! What follows from what was found in a history: the least order that keeps its dependencies or a cycle of these, and whether it is
//! serializable.
ghost use Rattle.std.specs.Prelude.{◌≡◌, ◌↔◌, [], ⊤, IfOk, IsTrue, MatchOption};
ghost use Rattle.sia_events.specs.DangerousStructures.{NoFirst};
ghost use Rattle.sia_events.specs.Isolation.{IsolationKept};
ghost use Rattle.sia_index.specs.Counting.{AreCounts};
ghost use Rattle.sia_parts.specs.Gathering.{IsGathering};
ghost use Rattle.sia_parts.specs.Accesses.{AreAccesses};
ghost use Rattle.sia_graph.specs.Dangerous.{IsDangerous};
ghost use Rattle.sia_graph.specs.Judgements.{IsJudgement};
ghost use Rattle.sia_graph.specs.Verdicts.{IsOrderVerdict, IsVerdict};
ghost use Rattle.sia_events.specs.Transactions.{IsCommitted};
ghost use Rattle.sia_parts.specs.Entries.{IsEdge};
ghost use Rattle.sia_graph.specs.Evidence.{IsEvidence};

use crate::cycle::{EdgesIn, Steps, cycle_of};
use crate::evidence::{Evidence, size_for};
use crate::laws::{replay_law, ssi_law};
use crate::order::{NONE, Taken, Txns, take_nodes};
use crate::sparse::graph_of;
use crate::ssi::{Dangerous, dangerous_of, passes};
use crate::twos::Earlier;
use sia_events::NoMemory;
use sia_index::{Counts, Index};
use sia_parts::{Accesses, BadRead, BadWrite, Gathering, Unexplained};
use std::alloc::Global;

/// All that the audit of a history found, but for its edges and its pivots.
#[derive(Drop)]
pub struct Judgement {
    pub counts: Counts,
    pub bad_reads: Vec<BadRead>,
    pub bad_writes: Vec<BadWrite>,
    pub unexplained: Vec<Unexplained>,
    pub pass: bool,
    pub serializable: bool,
    pub verdict: Verdict,
}

impl Judgement {
    /// Whether isolation was kept.
    pub fn is_kept(&self) -> bool
        ensures { IsTrue result ↔ ((self.now.bad_reads.items ≡ []) × (self.now.bad_writes.items ≡ [])) }
    {
        self.bad_reads.is_empty() && self.bad_writes.is_empty()
    }
}

/// Judges a history by what was found at all its keys. Beside the judgement stands what its edges are told by.
pub fn judge(
    alloc: Global,
    counts: Counts,
    ix: &Index,
    found: Gathering,
) -> Result<(Judgement, Accesses), NoMemory>
    requires counts { AreCounts ix.now counts }
    requires found { IsGathering ix.now found }
    ensures exact { IfOk result (λ (j, accesses). IsJudgement ix.now j) }
    ensures pass { IfOk result (λ (j, accesses). IsTrue j.pass
        → IsTrue j.serializable × IsOrderVerdict j.verdict) }
    ensures accesses { IfOk result (λ (j, accesses). AreAccesses ix.now (λ _. ⊤) accesses) }
{
    ix.law();
    let evidence = Evidence {
        index: ix,
        accesses: &found.accesses,
    };
    let pass = passes(alloc, &evidence, &found.bad_reads, &found.bad_writes)?;
    let verdict = settle_accesses(alloc, &evidence)?;
    let serializable = matches!(verdict, Verdict::Order(_)) && found.unexplained.is_empty();
    replay_law();
    ssi_law();
    let judgement = Judgement {
        counts,
        bad_reads: found.bad_reads,
        bad_writes: found.bad_writes,
        unexplained: found.unexplained,
        pass,
        serializable,
        verdict,
    };
    Ok((judgement, found.accesses))
}

/// The dangerous structure that is told of the history of which this is the judgement, if isolation was kept and the test of
/// serializable snapshot isolation fails.
pub fn danger_of(
    alloc: Global,
    ix: &Index,
    accesses: &Accesses,
    j: &Judgement,
) -> Result<Option<Dangerous>, NoMemory>
    requires accesses { AreAccesses ix.now (λ _. ⊤) accesses.now }
    requires judgement { IsJudgement ix.now j.now }
    ensures { IfOk result (λ found. MatchOption found (IsolationKept ix.now → NoFirst ix.now)
        (λ d. IsolationKept ix.now × IsDangerous ix.now d)) }
{
    ix.law();
    if j.pass || !j.is_kept() {
        return Ok(None);
    }
    let evidence = Evidence {
        index: ix,
        accesses,
    };
    dangerous_of(alloc, &evidence)
}

/// How the dependencies are settled.
#[derive(Drop)]
pub enum Verdict {
    /// The least order that keeps every edge.
    Order(Txns),
    /// A cycle of edges, where no order keeps every edge.
    Cycle(Steps),
}

/// The least order of the committed transactions that keeps every edge of the history, or where none does the cycle that is
/// printed, as `settle` tells it of a list of edges. No edge is made: a few steps lead wherever the edges lead.
pub fn settle_accesses(alloc: Global, evidence: &Evidence) -> Result<Verdict, NoMemory>
    requires evidence { IsEvidence evidence.now }
    ensures { IfOk result (IsVerdict (IsCommitted evidence.now.index.now) (IsEdge evidence.now.index.now)) }
{
    let size = size_for(evidence);
    let graph = graph_of(alloc, evidence, size)?;
    let txns = evidence.index.committed();
    match take_nodes(alloc, size, txns, &graph)? {
        Taken::Whole(order) => Ok(Verdict::Order(Txns::new(order))),
        Taken::Rest(left) => {
            drop(graph);
            let earlier = Earlier::of(alloc, evidence, &left)?;
            let mut previous = Vec::with_capacity(alloc, left.len())?;
            for txn in 0..left.len() {
                let source = earlier.least_source(evidence, txn as u32);
                previous.push(if source == NONE { txn } else { source as usize })?;
            }
            let steps = cycle_of(alloc, &EdgesIn::Seen(&*evidence), txns, &left, &previous)?;
            Ok(Verdict::Cycle(Steps::new(steps)))
        }
    }
}
