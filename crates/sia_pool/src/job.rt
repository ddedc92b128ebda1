//! What the workers do with a part, and what each part passes before that.
ghost use Rattle.std.specs.Prelude.{ℕ, IfOk};
ghost use Rattle.sia_pool.specs.Taker.{taker_view};
ghost use Rattle.sia_pool.specs.Gate.{EndsWith};

use crate::fault::NoMemory;
use crate::taker::Taker;

/// Work that falls into parts, which go by their numbers. Workers in several threads share one job.
pub trait Job {
    /// The answer to one part.
    type Out;

    /// The parts that the job may be run on.
    ghost takes: { Self → ℕ → Type 0 };

    /// What an answer owes to its part.
    ghost owes: { Self → ℕ → Self.Out → Type 0 };

    /// Answers one part. At `NoMemory` this worker stops, and the call of `work_off` answers `NoMemory` once all have ended.
    fn run(&self, part: u32) -> Result<Self::Out, NoMemory>
        requires { takes self.now part }
        ensures { IfOk result (λ out. owes self.now part out) };
}

/// Is told of each part between its take and its run, by the worker that took it, as a test or a log wants it.
///
/// The part is the last of the share of the taker that is lent, so it was taken from the deque and not by other means.
/// `worker` is the number of the worker, from 0. No clause speaks of it.
pub trait Gate {
    fn pass(&self, worker: u32, part: u32, taker: &Taker)
        requires { EndsWith (taker_view taker.now).share part };
}

/// The gate that lets each part pass at once.
#[derive(Clone, Copy)]
pub struct OpenGate;

impl Gate for OpenGate {
    fn pass(&self, _worker: u32, _part: u32, _taker: &Taker) {}
}
