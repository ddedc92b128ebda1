//! The rule of the deque, what proofs know of a taker, the kinds of step that keep the rule, and the laws on which the pool rests.
ghost use Rattle.sia_pool.specs.Laws.{CoreLaw, RuleLaw};

use crossbeam_deque::protocol::{Join, Outcome, Protocol, Split};
use crossbeam_deque::{Pass, Stealer, Worker};
use std::alloc::Global;
use std::collections::LinkedList;
use std::marker::{Brand, PhantomData};

/// What the deque holds and what was taken are always a state that the core reaches.
pub struct PoolRule;

impl Protocol<u32, View> for PoolRule {
    ghost use Rattle.std.specs.Prelude.{[]};
    ghost use Rattle.sia_pool.specs.View.{owner_view, spent_view};
    ghost use Rattle.sia_pool.specs.Rule.{Holds};

    ghost holds = { Holds };

    ghost first = { owner_view 0 1 [] 0 [] };

    ghost guest = { spent_view };
}

/// A part is placed: the owner's view counts one more.
pub struct PartPlaced;

impl Outcome<u32, View> for PartPlaced {
    ghost use Rattle.std.specs.Prelude.{◌≡◌, [], ◌+◌, length};
    ghost use Rattle.sia_pool.specs.View.{owner_view};

    ghost then = { λ v xs w. w ≡ owner_view (v.count + length xs) 1 [] 0 [] };
}

/// A pop or a steal: one take of the core, or nothing was left.
pub struct PartTaken;

impl Outcome<u32, View> for PartTaken {
    ghost use Rattle.sia_pool.specs.Steps.{Took, NothingLeft};

    ghost then = { Took };

    ghost empty = { NothingLeft };
}

/// How many takers there are to be. A call picks the number, which is known only when it runs.
pub trait LineSize {
    ghost use Rattle.std.specs.Prelude.{ℕ};

    ghost workers: { ℕ };
}

impl LineSize for Brand {
    ghost workers = { 1 };
}

/// A view is given out, with an empty share.
pub struct ViewGiven<K>(PhantomData<K>);

impl<K: LineSize> Split<View> for ViewGiven<K> {
    ghost use Rattle.std.specs.Prelude.{[], ◌+◌};
    ghost use Rattle.sia_pool.specs.View.{owner_view, stealer_view};

    ghost left = { λ v. owner_view v.count K.workers v.share (v.given + 1) v.back };

    ghost right = { λ v. stealer_view (v.given + 1) v.count K.workers [] };
}

/// A view is taken back: the owner keeps its share, and the view is spent.
pub struct ViewBack;

impl Join<View> for ViewBack {
    ghost use Rattle.std.specs.Prelude.{[], ◌∷◌, ◌++◌};
    ghost use Rattle.sia_pool.specs.View.{owner_view, spent_view};

    ghost both = { λ v w. owner_view v.count v.workers v.share v.given (v.back ++ w.share ∷ []) };

    ghost spent = { spent_view };
}

/// The owner's end of the deque, at which it places parts and pops.
pub type OwnerEnd = Worker<u32, Global, View, PoolRule>;

/// The end that stealers steal from.
pub type StealerEnd = Stealer<u32, Global, View, PoolRule>;

/// A port of the deque, with the view of the stealer that has it.
pub type StealerPass = Pass<u32, View>;

/// Does nothing. Each clause is a law.
pub fn laws_hold()
    // What the states look like that the core reaches, of which `work_off` and `Taker::next_part` speak.
    ensures core_law { CoreLaw }
    // That each kind of step of the deque keeps its rule, and that a state which meets the rule is one that the core reaches.
    ensures rule_law { RuleLaw }
{}

/// The view of a taker: what its port of the deque records. It is for proofs, and no value of it is made.
///
/// `number` is the worker's, and the place of its share in the core. A view that was taken back is `spent`. `count` is how
/// many parts there are, and `workers` how many takers, which the owner says as it gives the first view out: until then it
/// is the only one. `given` and `back` are the owner's alone: how many views it gave out, and the shares of those that it
/// took back, in order.
pub struct View {
    pub number: u64,
    pub spent: bool,
    pub count: u64,
    pub workers: u64,
    pub share: LinkedList<u32>,
    pub given: u64,
    pub back: LinkedList<LinkedList<u32>>,
}
