//! The workers, each in a thread, and the views that come back.
ghost use Rattle.std.specs.Prelude.{ℕ, ◌<◌, [], IfOk, OnOk};
ghost use denote.Param.Send.{IsSync, IsSend};
ghost use Rattle.sia_pool.specs.Taker.{taker_view, taker_deque};
ghost use Rattle.sia_pool.specs.Work.{HasWorked, WorkedOff};
ghost use Rattle.sia_pool.specs.Threads.{IsReady, count_of, AllDone};
ghost use Rattle.sia_pool.specs.Answers.{Owed};

use crate::fault::NoMemory;
use crate::job::{Gate, Job};
use crate::taker::{Taken, Taker};
use std::alloc::Global;
use std::sync::Wait;
use std::sync::atomic::{AtomicBool, Ordering};
use std::thread;
use std::thread::Threads;

/// `work` from the start, for a worker that takes nothing once those before it have ended.
///
/// Where no thread can be started `join` runs this last, on the calling thread. Those workers have then taken what they
/// will, and this one has no part in it, also where they stopped for want of memory and left some.
pub(crate) fn work_in_time<J: Job, G: Gate, R: Wait>(
    rt: &R,
    alloc: Global,
    taker: Taker,
    ended: &AtomicBool,
    job: &J,
    gate: &G,
) -> Result<Worked<J::Out>, NoMemory>
where
    J::Out: Drop,
    requires takes { (p : ℕ) → p < (taker_view taker).count → J.takes job.now p }
    ensures { IfOk result (λ w. HasWorked (J.owes job.now) (taker_deque taker) (taker_view taker)
        [] w.taker w.answers.items) }
{
    let mut taker = taker;
    let mut answers = Vec::new(alloc);
    if !ended.load(Ordering::SeqCst) {
        work(rt, &mut taker, &mut answers, job, gate)?;
    }
    Ok(Worked { taker, answers })
}

/// Runs each stealer in a thread of its own and the owner in this one, and takes the views back. The last taker's thread
/// is started first, so all run before the owner does, and the views come back in the order in which they were given out.
#[cycle(run_all)]
pub(crate) fn run_all<
    Out: Send + Drop,
    J: Job<Out = Out> + Sync,
    G: Gate + Sync,
    R: Threads + Wait + Sync,
>(rt: &R, alloc: Global, mut takers: Vec<Taker>, job: &J, gate: &G) -> Result<Worked<Out>, NoMemory>
    requires ready { IsReady takers.items }
    requires takes { (p : ℕ) → p < count_of takers.items → J.takes job.now p }
    ensures { IfOk result (λ r. AllDone (J.owes job.now) takers.items r.taker r.answers.items) }
{
    let last = takers.pop().unwrap();
    let flag = AtomicBool::new(false);
    let ended = &flag;
    if takers.is_empty() {
        return work_in_time(rt, alloc, last, ended, job, gate);
    }
    let there = move || -> Result<Worked<Out>, NoMemory>
        requires { (p : ℕ) → p < (taker_view last).count → J.takes job.now p }
        ensures { IfOk result (λ w. HasWorked (J.owes job.entry.now) (taker_deque last) (taker_view last)
            [] w.taker w.answers.items) }
    { work_in_time(rt, alloc, last, ended, job, gate) };
    let here = move || -> Result<Worked<Out>, NoMemory>
        requires { IsSync R.row × IsSync J.row × IsSync G.row × IsSend Out.row × IsReady takers.items
            × ((p : ℕ) → p < count_of takers.items → J.takes job.now p) }
        ensures { IfOk result (λ r. AllDone (J.owes job.entry.now) takers.items r.taker r.answers.items) }
    {
        let done = run_all(rt, alloc, takers, job, gate);
        ended.store(true, Ordering::SeqCst);
        done
    };
    // All workers have ended before an answer is looked at, so a refusal is told when none runs any more.
    let (worked, done) = thread::join(rt, there, here);
    let mut done = done?;
    let Worked { taker, mut answers } = worked?;
    done.taker.take_back(taker);
    done.answers.append(&mut answers)?;
    Ok(done)
}

/// A taker whose worker has ended, and the answers to the parts that it took, each beside its part.
#[derive(Drop)]
pub(crate) struct Worked<Out> {
    pub(crate) taker: Taker,
    pub(crate) answers: Vec<(u32, Out)>,
}

/// Takes parts until nothing is left, and adds an answer for each.
pub(crate) fn work<J: Job, G: Gate, R: Wait>(
    rt: &R,
    taker: &mut Taker,
    answers: &mut Vec<(u32, J::Out)>,
    job: &J,
    gate: &G,
) -> Result<(), NoMemory>
where
    J::Out: Drop,
    requires takes { (p : ℕ) → p < (taker_view taker.old).count → J.takes job.now p }
    requires owed { Owed (J.owes job.now) answers.old.items }
    ensures { OnOk result (WorkedOff (J.owes job.now) (taker_deque taker.old)
        (taker_view taker.old) answers.old.items taker.new answers.new.items) }
{
    let number = taker.number();
    'taking: for _ in rt.forever() {
        match taker.next_part() {
            Taken::Part(part) => {
                gate.pass(number, part, taker);
                let out = job.run(part)?;
                answers.push((part, out))?;
            }
            Taken::Nothing => return Ok(()),
            // A race was lost, and something may be left. How often is not bounded, as with any wait for other threads.
            Taken::Lost => {}
        }
    }
    unreachable!()
}
