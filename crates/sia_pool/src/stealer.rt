//! A taker that steals from the deque.
ghost use Rattle.std.specs.Prelude.{◌≡◌, false, ◌<◌, ◌≤◌, vec_capacity};
ghost use Rattle.crossbeam_deque.specs.Handles.{view, IsPassOf, stealer_deque, stealer_flavor};

use crate::rule::{PartTaken, StealerEnd, StealerPass};
use crate::taker::Taken;
use crossbeam_deque::Steal;

/// An end to steal from, a port with the stealer's view, and what it took, as the view records it.
#[derive(Drop)]
pub(crate) struct Stealer {
    pub(crate) end: StealerEnd,
    pub(crate) pass: StealerPass,
    pub(crate) share: Vec<u32>,
    pub(crate) number: u32,
    ghost fifo: { stealer_flavor end ≡ 0 },
    ghost tied: { IsPassOf (stealer_deque end) pass },
    ghost later: { 0 < (view pass).number },
    ghost one: { (view pass).number < (view pass).workers },
    ghost live: { (view pass).spent ≡ false },
    ghost recorded: { share.items ≡ (view pass).share },
    ghost room: { (view pass).count ≤ vec_capacity share },
}

impl Stealer {
    ghost use Rattle.sia_pool.specs.Steps.{Stepped};

    /// One steal.
    pub(crate) fn next_part(&mut self) -> Taken
        ensures same { stealer_deque self.new.end ≡ stealer_deque self.old.end }
        ensures step { Stepped (view self.old.pass) result (view self.new.pass) }
    {
        match self.end.steal_as::<PartTaken>(&mut self.pass) {
            Steal::Success(part) => {
                self.share.push(part).unwrap();
                Taken::Part(part)
            }
            Steal::Empty => Taken::Nothing,
            Steal::Retry => Taken::Lost,
        }
    }
}
