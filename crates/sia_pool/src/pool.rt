//! The call that runs a job on all parts, and answers in their order.
ghost use Rattle.std.specs.Prelude.{◌≡◌, ℕ, ◌<◌, ◌≤◌, [], length, IfOk, All, IsPermutation};
ghost use Rattle.std.specs.List.{range_with_len, concat};
ghost use Rattle.std.specs.List.Sorted.{IsStrictlyIncreasing};
ghost use Rattle.sia_pool.specs.Core.{Reached};
ghost use Rattle.sia_pool.specs.Answers.{lists_of, AnswersEach};

use crate::fault::NoMemory;
use crate::job::{Gate, Job};
use crate::line::line_up;
use crate::threads::{Worked, run_all, work};
use std::alloc::Global;
use std::sync::Wait;
use std::thread::Threads;

/// What the workers did.
#[derive(Drop)]
pub struct Crew<Out> {
    /// One answer for each part, in the order of the parts.
    pub outs: Vec<Out>,
    /// One list for each worker: the parts that it took, in the order in which it took them.
    pub shares: Vec<Vec<u32>>,
}

/// Runs the job once on each part below `count`, by up to `workers` threads, of which the calling thread is worker 0.
///
/// A worker whose thread cannot be started takes nothing, and the others take the parts. All workers have ended when the
/// call answers. It answers `NoMemory` where a growth was refused or a run of the job answered it, and then keeps no answer.
/// The call waits for its threads, so nothing promises that it returns.
pub fn work_off<J: Job + Sync, G: Gate + Sync, R: Threads + Wait + Sync>(
    rt: &R,
    alloc: Global,
    count: u32,
    workers: u32,
    job: &J,
    gate: &G,
) -> Result<Crew<J::Out>, NoMemory>
where
    J::Out: Send + Drop,
    requires bounds { (count ≤ 1024) × (0 < workers) × (workers ≤ 64) }
    requires takes { (p : ℕ) → p < count → J.takes job.now p }

    // One answer for each part, in order, each owed to its part.
    ensures len { IfOk result (λ c. length c.outs.items ≡ count) }
    ensures owed { IfOk result (λ c. AnswersEach (J.owes job.now) count c.outs.items) }

    // With nothing left, the shares are a state of the core, so each part stands in them once.
    ensures reached { IfOk result (λ c. Reached count workers [] (lists_of c.shares.items)) }
    ensures workers { IfOk result (λ c. length c.shares.items ≡ workers) }
    ensures once { IfOk result (λ c. IsPermutation (range_with_len 0 count)
        (concat (lists_of c.shares.items))) }
    ensures ascending { IfOk result (λ c. All IsStrictlyIncreasing (lists_of c.shares.items)) }
{
    let takers = line_up(alloc, count, workers)?;
    let Worked {
        mut taker,
        mut answers,
    } = run_all(rt, alloc, takers, job, gate)?;
    // The owner, which has all views back, takes what is left. Its last pop shows that nothing is.
    work(rt, &mut taker, &mut answers, job, gate)?;
    // No two answers are to one part, so there is nothing to keep stable.
    answers.sort_unstable_by_key(|answer| answer.0);
    let outs = answers.into_iter().map(|(_, out)| out).collect(alloc)?;
    Ok(Crew {
        outs,
        shares: taker.into_shares(),
    })
}
