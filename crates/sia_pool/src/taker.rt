//! One who takes parts: the owner of the deque, which pops, or a stealer.
ghost use Rattle.std.specs.Prelude.{◌≡◌, suc, [], ◌∷◌, length};
ghost use Rattle.sia_pool.specs.Steps.{Stepped};
ghost use Rattle.sia_pool.specs.Taker.{taker_view, taker_deque};
ghost use Rattle.sia_pool.specs.Threads.{with_back, IsNext};
ghost use Rattle.sia_pool.specs.Answers.{lists_of};

use crate::owner::Owner;
use crate::stealer::Stealer;

/// The answer of one pop or one steal.
#[derive(Clone, Copy, PartialEq, Eq)]
pub enum Taken {
    /// The front of what was left. It is now the last of the taker's share.
    Part(u32),
    /// Nothing was left, at one moment of the call.
    Nothing,
    /// Another taker was faster. This one took nothing, and something may be left.
    Lost,
}

/// The two ends of the deque.
#[derive(Drop)]
pub(crate) enum Side {
    Owner(Owner),
    Stealer(Stealer),
}

/// One who takes parts from the deque, and keeps those that it took. It is used by one thread at a time, and may move to
/// another.
#[derive(Drop)]
pub struct Taker {
    pub(crate) side: Side,
}

impl Taker {
    /// One pop of the owner, or one steal of another taker. It waits for nobody and does not try again: at `Lost` it is the
    /// caller who does. The owner never answers `Lost`.
    pub fn next_part(&mut self) -> Taken
        ensures same { taker_deque self.new ≡ taker_deque self.old }
        ensures step { Stepped (taker_view self.old) result (taker_view self.new) }
    {
        match &mut self.side {
            Side::Owner(owner) => owner.next_part(),
            Side::Stealer(stealer) => stealer.next_part(),
        }
    }

    /// The parts that this taker took, in the order in which it took them.
    pub fn share(&self) -> &[u32]
        ensures { result.now ≡ (taker_view self.now).share }
    {
        match &self.side {
            Side::Owner(owner) => owner.share.as_slice(),
            Side::Stealer(stealer) => stealer.share.as_slice(),
        }
    }

    /// The owner takes the view of the next stealer back, and keeps its share.
    pub(crate) fn take_back(&mut self, other: Taker)
        requires owner { (taker_view self.old).number ≡ 0 }
        requires deque { taker_deque other ≡ taker_deque self.old }
        requires next { IsNext (taker_view self.old) (taker_view other) }
        ensures deque { taker_deque self.new ≡ taker_deque self.old }
        ensures view { taker_view self.new ≡ with_back (taker_view self.old) ((taker_view other).share ∷ []) }
    {
        let Side::Owner(owner) = &mut self.side else {
            unreachable!()
        };
        let Side::Stealer(stealer) = other.side else {
            unreachable!()
        };
        owner.take_back(stealer);
    }

    /// The shares of all takers, of an owner that has all views back.
    pub(crate) fn into_shares(self) -> Vec<Vec<u32>>
        requires owner { (taker_view self).number ≡ 0 }
        requires all { suc (length (taker_view self).back) ≡ (taker_view self).workers }
        ensures { lists_of result.items ≡ (taker_view self).share ∷ (taker_view self).back }
    {
        let Side::Owner(owner) = self.side else {
            unreachable!()
        };
        let Owner {
            end,
            share,
            mut later,
        } = owner;
        drop(end);
        later.insert(0, share).unwrap();
        later
    }

    /// The number of the worker, for the gate.
    pub(crate) fn number(&self) -> u32 {
        match &self.side {
            Side::Owner(_) => 0,
            Side::Stealer(stealer) => stealer.number,
        }
    }
}
