//! The two least of the transactions that are left and made a version, saw one or passed over its key.
ghost use Rattle.std.specs.Prelude.{◌≡◌, ◌≢◌, ◌<◌, ◌++◌, ◌*◌, ℕ, Bool, All, IfOk, List, Some, Contains, length, map};
ghost use Rattle.sia_events.specs.Lists.{CountsAll};
ghost use Rattle.sia_events.specs.Refusals.{IsWellFormed};
ghost use Rattle.sia_events.specs.Transactions.{IsCommitted};
ghost use Rattle.sia_index.specs.Numbers.{IsCommittedAt};
ghost use Rattle.sia_index.specs.Positions.{ArePositions, HasPosition};
ghost use Rattle.sia_parts.specs.declared.accesses.Accesses.{Accesses};
ghost use Rattle.sia_graph.specs.Evidence.{IsEvidence};
ghost use Rattle.sia_graph.specs.Twos.{AreEarlier, AreTwosOf, IsBeforeVersion, IsLeastNumber, IsLeftSource, IsUpTo, IsWith};

use crate::evidence::{Evidence, size_for};
use crate::order::NONE;
use crate::sparse::put_all_blocks;
use sia_events::NoMemory;
use sia_index::Index;
use sia_parts::Accesses;
use std::alloc::Global;

/// The least of some numbers, and the least other. `NONE` where there is none.
#[derive(Clone, Copy)]
pub struct Two {
    pub least: u32,
    pub next: u32,
}

/// Of no numbers.
const NO_TWO: Two = Two {
    least: NONE,
    next: NONE,
};

/// The two least of these and of one more number.
fn with(two: Two, number: u32) -> Two
    ensures { IsWith two number result }
{
    let (least, next) = if number < two.least {
        (number, two.least)
    } else if number == two.least {
        (number, two.next)
    } else {
        (two.least, two.next.min(number))
    };
    Two { least, next }
}

/// The least but `me`.
fn other(two: Two, me: u32) -> u32
    ensures own { two.least ≡ me → result ≡ two.next }
    ensures another { two.least ≢ me → result ≡ two.least }
{
    if two.least == me { two.next } else { two.least }
}

/// Puts the number with those at each of the places.
fn put_at(places: &[u32], number: u32, twos: &mut [Two])
    requires within { All (λ place. place < length twos.old) places.now }
    requires few { number < 4294967295 }
    ensures { (entries : List (ℕ × ℕ)) → ((place r : ℕ) → Contains entries (place, r) → r < 4294967295)
        → AreTwosOf (λ place r. Contains entries (place, r)) twos.old
        → AreTwosOf (λ place r. Contains (entries ++ map (λ p. (p, number)) places.now) (place, r)) twos.new }
{
    for place in places {
        let at = *place as usize;
        twos[at] = with(twos[at], number);
    }
}

/// Puts those at each position with those at the later ones of its key.
fn run_up(index: &Index, twos: &mut [Two])
    requires { ArePositions index.now (length twos.old) }
    ensures { (entries : List (ℕ × ℕ)) → ((place r : ℕ) → Contains entries (place, r) → r < 4294967295)
        → AreTwosOf (λ place r. Contains entries (place, r)) twos.old
        → AreTwosOf (IsUpTo index.now (λ place r. Contains entries (place, r))) twos.new }
{
    index.law();
    for position in 0..index.position_count() {
        let Some(before) = index.position_before(position) else {
            continue
        };
        let earlier = twos[before as usize];
        let at = position as usize;
        twos[at] = with(with(twos[at], earlier.least), earlier.next);
    }
}

/// Who made a version or saw one, by position, and who passed over keys, by blocks of these: of each the two least that are left.
#[derive(Drop)]
pub(crate) struct Earlier {
    makers: Vec<Two>,
    readers: Vec<Two>,
    passed: Vec<Two>,
    size: u32,
}

impl Earlier {
    pub(crate) fn of(alloc: Global, evidence: &Evidence, left: &[bool]) -> Result<Earlier, NoMemory>
        requires is { IsEvidence evidence.now }
        requires left { CountsAll (IsCommitted evidence.now.index.now) (length left.now) }
        ensures { IfOk result (AreEarlier evidence.now.index.now evidence.now.accesses.now left.now) }
    {
        let size = size_for(evidence);
        let count = evidence.index.position_count() as usize;
        let mut makers = vec![in alloc; NO_TWO; count]?;
        let mut readers = vec![in alloc; NO_TWO; count]?;
        let mut passed = vec![in alloc; NO_TWO; 2 * size as usize]?;
        let mut blocks = Vec::new(alloc);
        for txn in 0..left.len() {
            if !left[txn] {
                continue;
            }
            let number = txn as u32;
            put_at(evidence.index.made_by(txn), number, &mut makers);
            put_at(evidence.accesses.saw.at(txn), number, &mut readers);
            blocks.clear();
            put_all_blocks(size, evidence.accesses.missed.at(txn), &mut blocks)?;
            put_at(&blocks, number, &mut passed);
        }
        run_up(evidence.index, &mut makers);
        run_up(evidence.index, &mut readers);
        Ok(Earlier {
            makers,
            readers,
            passed,
            size,
        })
    }

    /// Of those who made a version up to the position, saw one below it or passed over its key the least but `me`.
    fn least_before(&self, index: &Index, position: u32, me: u32) -> u32
        requires position { HasPosition index.now position }
        requires is { (a : Accesses) × (left : List Bool) × IsWellFormed index.now
            × AreEarlier index.now a left self.now }
        ensures { (a : Accesses) (left : List Bool) → AreEarlier index.now a left self.now
            → IsLeastNumber (λ r. IsBeforeVersion index.now a left position r × (r ≢ me)) result }
    {
        let made = other(self.makers[position as usize], me);
        let key = index.key_at(position);
        // Nobody passed over a key that blocks aren't over.
        let mut block = if key < self.size {
            self.size as usize + key as usize
        } else {
            0
        };
        let mut passed = NONE;
        while block > 0 {
            passed = passed.min(other(self.passed[block], me));
            block /= 2;
        }
        let seen = match index.position_before(position) {
            Some(before) => other(self.readers[before as usize], me),
            None => NONE,
        };
        made.min(passed).min(seen)
    }

    /// The least that is left and has an edge to `me`.
    pub(crate) fn least_source(&self, evidence: &Evidence, me: u32) -> u32
        requires is { IsEvidence evidence.now }
        requires me { (t : ℕ) × IsCommittedAt evidence.now.index.now me t }
        requires earlier { (left : List Bool)
            × AreEarlier evidence.now.index.now evidence.now.accesses.now left self.now }
        ensures { (left : List Bool)
            → AreEarlier evidence.now.index.now evidence.now.accesses.now left self.now
            → IsLeastNumber (IsLeftSource evidence.now.index.now left me) result }
    {
        let mut least = NONE;
        for position in evidence.index.made_by(me as usize) {
            least = least.min(self.least_before(evidence.index, *position, me));
        }
        for position in evidence.accesses.saw.at(me as usize) {
            least = least.min(other(self.makers[*position as usize], me));
        }
        least
    }
}
