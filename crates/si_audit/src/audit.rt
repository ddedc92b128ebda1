//! How a history is audited.
ghost use Rattle.std.specs.Prelude.{◌≡◌, ◌<◌, ◌≤◌, ⊤, ℕ, List, length, IfOk, IsTrue};
ghost use Rattle.sia_parts.specs.Accesses.{AreAccesses};
ghost use Rattle.sia_parts.specs.Gathering.{IsGathering};
ghost use Rattle.sia_parts.specs.Parts.{IsCutting};
ghost use Rattle.sia_graph.specs.Judgements.{IsJudgement};
ghost use Rattle.sia_graph.specs.Verdicts.{IsOrderVerdict};
ghost use Rattle.si_audit.specs.Account.{IsAccount, account_of};

use crate::account::Audit;
use crate::crew::{Auditing, Crew, InThreads};
use crate::options::Options;
use sia_events::{History, Log, NoMemory};
use sia_graph::{Judgement, judge, pivots};
use sia_index::make::index_log;
use sia_index::{Index, counted};
use sia_parts::{Accesses, Findings, Gathering, Part, Reads, edges_at, even_cutting};
use std::alloc::Global;
use std::sync::Wait;
use std::thread::Threads;

/// The parts that the options name, or where they name no cut, even ones for several workers.
pub fn parts_for(alloc: Global, log: &Log, o: &Options, workers: u8) -> Result<Vec<Part>, NoMemory>
    ensures cutting { IfOk result (λ parts. (points : List ℕ) × IsCutting points parts.items) }
    ensures few { IfOk result (λ parts. length parts.items ≤ 1024) }
{
    if o.parts().len() > 1 || workers == 1 {
        return Ok(Vec::from_slice(alloc, o.parts())?);
    }
    even_cutting(alloc, log, u16::from(workers))
}

/// What a crew finds at all keys in the history of a log, by its index.
pub(crate) fn found_in<C: Crew>(
    crew: &C,
    alloc: Global,
    log: &Log,
    ix: &Index,
    parts: &[Part],
) -> Result<Gathering, NoMemory>
    requires ready { C.ready crew.now }
    requires index { ix.now ≡ log.now }
    requires cutting { (points : List ℕ) × IsCutting points parts.now }
    requires few { length parts.now ≤ 1024 }
    ensures { IfOk result (λ found. IsGathering ix.now found) }
{
    log.law();
    let reads = Reads::of(alloc, log, parts)?;
    let job = Auditing {
        alloc,
        log,
        index: ix,
        parts,
        reads: &reads,
    };
    let count = parts.len() as u32;
    let Ok(parts) = crew.find(alloc, count, &job) else {
        return Err(NoMemory);
    };
    Ok(Gathering::of(alloc, ix, parts)?)
}

/// Audits a history by workers, and waits for them. What it answers depends on the history alone.
pub fn audit<R: Threads + Wait + Sync>(
    rt: &R,
    alloc: Global,
    h: &History,
    o: &Options,
) -> Result<Audit, NoMemory>
    ensures exact { IfOk result (λ a. IsAccount h.now (account_of a)) }
    ensures pass { IfOk result (λ a. IsTrue a.pass → IsTrue a.serializable × IsOrderVerdict a.verdict) }
{
    let log = h.log();
    let ix = index_log(alloc, log)?;
    let workers = o.workers();
    let crew = InThreads { rt, workers };
    let found = found_in(&crew, alloc, log, &ix, o.parts())?;
    let (j, accesses) = judge(alloc, counted(log), &ix, found)?;
    audit_of(alloc, &ix, j, &accesses)
}

/// The judgement, with all edges and pivots.
fn audit_of(alloc: Global, ix: &Index, j: Judgement, accesses: &Accesses) -> Result<Audit, NoMemory>
    requires judgement { IsJudgement ix.now j }
    requires pass { IsTrue j.pass → IsTrue j.serializable × IsOrderVerdict j.verdict }
    requires accesses { AreAccesses ix.now (λ _. ⊤) accesses.now }
    ensures exact { IfOk result (λ a. IsAccount ix.now (account_of a)) }
    ensures pass { IfOk result (λ a. IsTrue a.pass → IsTrue a.serializable × IsOrderVerdict a.verdict) }
{
    let edges = edges_at(alloc, ix, accesses, None)?;
    let findings = Findings {
        bad_reads: j.bad_reads,
        bad_writes: j.bad_writes,
        unexplained: j.unexplained,
        edges,
    };
    let pivots = pivots(alloc, &findings, ix)?;
    Ok(Audit {
        events: j.counts.events,
        committed: j.counts.committed,
        aborted: j.counts.aborted,
        unfinished: j.counts.unfinished,
        findings,
        pivots,
        pass: j.pass,
        serializable: j.serializable,
        verdict: j.verdict,
    })
}
