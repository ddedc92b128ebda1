//! Numbers of rows by their names.
ghost use Rattle.std.specs.Prelude.{◌≡◌, ◌≢◌, ◌+◌, ◌^◌, ◌<◌, ℕ, List, [], Some, map, length, slice_get, OnOk, IfSome, IfNone, true, false};
ghost use Rattle.sia_events.specs.Finding.{home, Finds, FindsBelow, Reaches};

use std::alloc::{AllocError, Global};
use std::collections::BTreeMap;

/// A row that is found by a name.
pub trait Named {
    ghost named: { Self → ℕ };

    fn name(&self) -> u64
        ensures { result ≡ named self.now };
}

/// So many slots are looked at, from a name's home on.
const WAYS: usize = 8;

/// The least table has room for so many rows, and the greatest for so many. Each has a power of two of homes.
const LEAST_ROWS: usize = 512;

/// No table of a log has more rows.
pub(crate) const MOST_ROWS: usize = 536_870_912;

/// For names that follow one another, as most are: so do their homes. It is 2^32.
pub const IN_ORDER: u64 = 4_294_967_296;

/// For names that anyone may choose, it spreads their bits, and homes lie near where names do: 2^32 by the golden ratio and one.
pub(crate) const SPREAD: u64 = 6_949_403_065;

/// A hash table of numbers of rows. A row stands in the first slot that was free from its name's home on, or in a tree where
/// none of `WAYS` was free, so that no choice of names makes a look-up slow.
#[derive(Drop)]
pub struct Finder {
    alloc: Global,
    /// 2^32 keeps the low bits of names, and an odd number spreads all.
    factor: u64,
    mask: u32,
    /// One more than the number of a row, or 0.
    slots: Vec<u32>,
    tree: BTreeMap<u64, u32>,
}

fn is_named<R: Named>(rows: &[R], number: u32, name: u64) -> bool
    ensures yes { result ≡ true → slice_get (map R.named rows.now) number ≡ Some name }
    ensures no { result ≡ false → slice_get (map R.named rows.now) number ≢ Some name }
{
    match rows.get(number as usize) {
        Some(row) => row.name() == name,
        None => false,
    }
}

impl Finder {
    /// One that finds none. `IN_ORDER` is a good factor for the names of transactions.
    pub fn new(alloc: Global, factor: u64) -> Self
        ensures { Finds result [] }
    {
        Finder {
            alloc,
            factor,
            mask: 0,
            slots: Vec::new(alloc),
            tree: BTreeMap::new(alloc),
        }
    }

    #[tactic(auto, unfolding(crate::specs::Finding::home))]
    fn home(&self, name: u64) -> usize
        ensures home { result ≡ home self.now name }
        ensures bound { result < 2 ^ 32 }
    {
        ((name.wrapping_mul(self.factor) >> 32) & u64::from(self.mask)) as usize
    }

    /// The number of a row with the name. The rows are those that were taken in.
    pub fn find<R: Named>(&self, rows: &[R], name: u64) -> Option<u32>
        ensures some { IfSome result (λ n. slice_get (map R.named rows.now) n ≡ Some name) }
        ensures none { Finds self.now (map R.named rows.now)
            → IfNone result ((n : ℕ) → slice_get (map R.named rows.now) n ≢ Some name) }
        ensures none_below { (end : ℕ) → FindsBelow self.now (map R.named rows.now) end
            → IfNone result ((n : ℕ) → n < end → slice_get (map R.named rows.now) n ≢ Some name) }
    {
        let home = self.home(name);
        for step in 0..WAYS {
            match self.slots.get(home + step).copied() {
                Some(0) => return None,
                Some(slot) if is_named(rows, slot - 1, name) => return Some(slot - 1),
                _ => {}
            }
        }
        let number = *self.tree.get(&name)?;
        if is_named(rows, number, name) {
            return Some(number);
        }
        None
    }

    /// Takes in the rows from a number on. Where the table is crowded, all are taken in anew, into a greater one.
    #[inline(always)]
    pub fn add_from<R: Named>(&mut self, rows: &[R], first: usize) -> Result<(), AllocError>
        requires { length rows.now < 2 ^ 32 }
        ensures { FindsBelow self.old (map R.named rows.now) first
            → OnOk result (Finds self.new (map R.named rows.now)) }
    {
        if self.slots.len() / 2 < rows.len() {
            self.restart(rows.len(), first)?;
            return self.put_from(rows, 0);
        }
        self.put_from(rows, first)
    }

    /// An empty table with room for so many rows, or where there were some before for several times as many.
    fn restart(&mut self, rows: usize, before: usize) -> Result<(), AllocError> {
        let room = if before == 0 { 2 } else { 4 };
        let homes = (rows.clamp(LEAST_ROWS, MOST_ROWS) * room).next_power_of_two();
        self.slots = vec![in self.alloc; 0u32; homes + WAYS]?;
        self.mask = (homes - 1) as u32;
        self.tree = BTreeMap::new(self.alloc);
        Ok(())
    }

    /// Takes in the rows from a number on.
    fn put_from<R: Named>(&mut self, rows: &[R], first: usize) -> Result<(), AllocError>
        requires { length rows.now < 2 ^ 32 }
        ensures { FindsBelow self.old (map R.named rows.now) first
            → OnOk result (Finds self.new (map R.named rows.now)) }
    {
        for number in first..rows.len() {
            self.put(rows[number].name(), number as u32)?;
        }
        Ok(())
    }

    /// Takes in the row with the name and the number.
    fn put(&mut self, name: u64, number: u32) -> Result<(), AllocError>
        requires { number + 1 < 2 ^ 32 }
        ensures taken { (names : List ℕ) → slice_get names number ≡ Some name
            → OnOk result (Reaches self.new names name) }
        ensures kept { (names : List ℕ) (other : ℕ) → slice_get names number ≡ Some name
            → Reaches self.old names other → OnOk result (Reaches self.new names other) }
    {
        let home = self.home(name);
        for step in 0..WAYS {
            if self.slots.get(home + step).copied() == Some(0) {
                self.slots[home + step] = number + 1;
                return Ok(());
            }
        }
        self.tree.insert(name, number)?;
        Ok(())
    }
}
