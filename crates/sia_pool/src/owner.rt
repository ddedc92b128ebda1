//! The taker that owns the deque.
ghost use Rattle.std.specs.Prelude.{◌≡◌, [], ◌∷◌, false, ◌≤◌, vec_capacity};
ghost use Rattle.crossbeam_deque.specs.Handles.{view, worker_view, worker_deque, stealer_deque, worker_flavor};
ghost use Rattle.sia_pool.specs.Answers.{lists_of};

use crate::rule::{OwnerEnd, PartTaken, ViewBack};
use crate::stealer::Stealer;
use crate::taker::Taken;

/// The owner's end of the deque, what it took, and the shares of the stealers whose views it has back, as its view records
/// them. The room for all of that is there from the start, so that no take needs memory.
#[derive(Drop)]
pub(crate) struct Owner {
    pub(crate) end: OwnerEnd,
    pub(crate) share: Vec<u32>,
    pub(crate) later: Vec<Vec<u32>>,
    ghost fifo: { worker_flavor end ≡ 0 },
    ghost number: { (worker_view end).number ≡ 0 },
    ghost live: { (worker_view end).spent ≡ false },
    ghost recorded: { share.items ≡ (worker_view end).share },
    ghost returned: { lists_of later.items ≡ (worker_view end).back },
    ghost room: { (worker_view end).count ≤ vec_capacity share },
    ghost shelf: { (worker_view end).workers ≤ vec_capacity later },
}

impl Owner {
    ghost use Rattle.sia_pool.specs.Threads.{with_back, IsNext};
    ghost use Rattle.sia_pool.specs.Steps.{Stepped};

    /// One pop.
    pub(crate) fn next_part(&mut self) -> Taken
        ensures same { worker_deque self.new.end ≡ worker_deque self.old.end }
        ensures step { Stepped (worker_view self.old.end) result (worker_view self.new.end) }
    {
        match self.end.pop_as::<PartTaken>() {
            Some(part) => {
                self.share.push(part).unwrap();
                Taken::Part(part)
            }
            None => Taken::Nothing,
        }
    }

    /// Takes the view of the next stealer back, and keeps its share.
    pub(crate) fn take_back(&mut self, stealer: Stealer)
        requires deque { stealer_deque stealer.end ≡ worker_deque self.old.end }
        requires next { IsNext (worker_view self.old.end) (view stealer.pass) }
        ensures deque { worker_deque self.new.end ≡ worker_deque self.old.end }
        ensures view { worker_view self.new.end
            ≡ with_back (worker_view self.old.end) ((view stealer.pass).share ∷ []) }
    {
        let Stealer {
            end,
            pass,
            share,
            number: _,
        } = stealer;
        drop(end);
        self.later.push(share).unwrap();
        self.end.absorb::<ViewBack>(pass);
    }
}
