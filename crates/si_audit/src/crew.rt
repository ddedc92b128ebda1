//! The jobs of an audit, and who works them off: the calling thread alone, or threads.
ghost use Rattle.std.specs.Prelude.{◌≡◌, ◌<◌, ⊤, length, IfOk, ◌≤◌};
ghost use Rattle.sia_parts.specs.Dealing.{AreReads};
ghost use Rattle.si_audit.specs.Found.{IsFoundAt};
ghost use Rattle.sia_pool.specs.Answers.{AnswersEach};
ghost use denote.Param.Send.{IsSync};

use sia_events::Log;
use sia_index::Index;
use sia_parts::{Part, PartFound, Reads, find_in_part};
use sia_pool::{Job, NoMemory, OpenGate, work_off};
use std::alloc::Global;
use std::sync::Wait;
use std::thread::Threads;

/// The audit of the parts, of which the workers take one after another.
#[derive(Drop)]
pub(crate) struct Auditing<'a> {
    pub(crate) alloc: Global,
    pub(crate) log: &'a Log,
    pub(crate) index: &'a Index,
    pub(crate) parts: &'a [Part],
    pub(crate) reads: &'a Reads,
}

impl Job for Auditing<'_> {
    type Out = PartFound;

    ghost takes = { λ job number. (job.index.now ≡ job.log.now)
        × AreReads job.log.now job.parts.now job.reads.now × (number < length job.parts.now) };

    ghost owes = { λ job. IsFoundAt job.log.now job.parts.now };

    fn run(&self, number: u32) -> Result<PartFound, NoMemory> {
        let number = number as usize;
        let places = self.reads.of_part(number);
        let part = self.parts[number];
        find_in_part(self.alloc, self.log, self.index, part, places).map_err(|_| NoMemory)
    }
}

/// Those who work off the jobs of an audit. They answer each part once, in order.
pub(crate) trait Crew {
    /// What the calls ask of those who work.
    ghost ready: { Self → Type 0 };

    /// How many they are.
    fn workers(&self) -> u8;

    /// What is found at the keys of each of the first parts.
    fn find(&self, alloc: Global, count: u32, job: &Auditing) -> Result<Vec<PartFound>, NoMemory>
        requires ready { ready self.now }
        requires few { count ≤ 1024 }
        requires index { job.now.index.now ≡ job.now.log.now }
        requires reads { AreReads job.now.log.now job.now.parts.now job.now.reads.now }
        requires parts { count ≤ length job.now.parts.now }
        ensures len { IfOk result (λ found. length found.items ≡ count) }
        ensures owed { IfOk result (λ found. AnswersEach
            (IsFoundAt job.now.log.now job.now.parts.now) count found.items) };
}

/// The calling thread, which waits for nobody.
#[derive(Clone, Copy)]
pub(crate) struct Alone;

impl Crew for Alone {
    ghost ready = { λ _. ⊤ };

    fn workers(&self) -> u8 {
        1
    }

    fn find(&self, alloc: Global, count: u32, job: &Auditing) -> Result<Vec<PartFound>, NoMemory> {
        let mut found = Vec::new(alloc);
        for part in 0..count {
            found.push(job.run(part)?)?;
        }
        Ok(found)
    }
}

/// Up to so many threads, for which the calls wait.
#[derive(Drop)]
pub(crate) struct InThreads<'a, R: Threads + Wait + Sync> {
    pub(crate) rt: &'a R,
    pub(crate) workers: u8,
    ghost bounds: { (0 < workers) × (workers ≤ 64) },
}

impl<R: Threads + Wait + Sync> Crew for InThreads<'_, R> {
    ghost ready = { λ _. IsSync R.row };

    fn workers(&self) -> u8 {
        self.workers
    }

    fn find(&self, alloc: Global, count: u32, job: &Auditing) -> Result<Vec<PartFound>, NoMemory> {
        let workers = u32::from(self.workers).min(count.max(1));
        Ok(work_off(self.rt, alloc, count, workers, job, &OpenGate)?.outs)
    }
}
