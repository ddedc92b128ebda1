//! Rows in the order of a number, and what is found in a list of them by that number.
ghost use Rattle.std.specs.Prelude.{◌≡◌, ◌≤◌, true, false, length, leb, ltb, ◌≢◌, ◌<◌, All, AllPairs, IsTrue, MatchOption, slice_index_or, ℕ};
ghost use Rattle.std.specs.List.Sorted.{IsNonDecreasingBy, IsPartitionPoint};
ghost use Rattle.sia_index.specs.Between.{IsBetween};

use crate::info::Made;
use sia_events::{Key, TxnId};

/// The number that a list of rows goes by.
pub trait By<T> {
    ghost by: { T → ℕ };

    fn number(row: &T) -> u64
        ensures { result ≡ by row.now };
}

/// By key, and ranges by their first one.
pub struct ByKey;

impl By<Key> for ByKey {
    ghost by = { λ key. key };

    fn number(key: &Key) -> u64 {
        *key
    }
}

/// By transaction.
pub struct ByTxn;

impl By<TxnId> for ByTxn {
    ghost by = { λ id. id };

    fn number(id: &TxnId) -> u64 {
        u64::from(*id)
    }
}

/// By the place of an event: that of the write, or of the commit.
pub struct ByPlace;

impl By<u32> for ByPlace {
    ghost by = { λ place. place };

    fn number(place: &u32) -> u64 {
        u64::from(*place)
    }
}

impl By<Made> for ByPlace {
    ghost by = { λ made. made.commit };

    fn number(made: &Made) -> u64 {
        u64::from(made.commit)
    }
}

/// The first place of a row that is at least at `from`.
pub fn place_from<T, O: By<T>>(rows: &[T], from: u64) -> usize
    requires { IsNonDecreasingBy O.by rows.now }
    ensures bound { result ≤ length rows.now }
    ensures point { IsPartitionPoint (λ row. ltb (O.by row) from ≡ true)
        (λ row. ltb (O.by row) from ≡ false) rows.now result }
{
    rows.partition_point(|row| O::number(row) < from)
}

/// The first place of a row that is above `to`.
pub fn place_above<T, O: By<T>>(rows: &[T], to: u64) -> usize
    requires { IsNonDecreasingBy O.by rows.now }
    ensures bound { result ≤ length rows.now }
    ensures point { IsPartitionPoint (λ row. leb (O.by row) to ≡ true)
        (λ row. leb (O.by row) to ≡ false) rows.now result }
{
    rows.partition_point(|row| O::number(row) <= to)
}

/// The first place of a row that is at least at `from`. Where it is the one that is near, two looks tell.
pub fn place_from_near<T, O: By<T>>(rows: &[T], from: u64, near: usize) -> usize
    requires { IsNonDecreasingBy O.by rows.now }
    ensures bound { result ≤ length rows.now }
    ensures point { IsPartitionPoint (λ row. ltb (O.by row) from ≡ true)
        (λ row. ltb (O.by row) from ≡ false) rows.now result }
{
    let is_behind = near <= rows.len() && (near == 0 || O::number(&rows[near - 1]) < from);
    if is_behind && (near == rows.len() || from <= O::number(&rows[near])) {
        return near;
    }
    place_from::<T, O>(rows, from)
}

/// The rows from `lo` to `hi`.
pub fn between<T, O: By<T>>(rows: &[T], lo: u64, hi: u64) -> &[T]
    requires { IsNonDecreasingBy O.by rows.now }
    ensures { IsBetween O.by rows.now lo hi result.now }
{
    let from = place_from::<T, O>(rows, lo);
    let to = place_above::<T, O>(rows, hi).max(from);
    &rows[from..to]
}

/// The place of the row of the number.
pub(crate) fn find<T, O: By<T>>(rows: &[T], number: u64) -> Option<usize>
    requires { AllPairs (λ x y. O.by x < O.by y) rows.now }
    ensures { MatchOption result (All (λ row. O.by row ≢ number) rows.now)
        (λ i. (i < length rows.now) × ((d : T) → O.by (slice_index_or rows.now i d) ≡ number)) }
{
    let at = place_from::<T, O>(rows, number);
    if O::number(rows.get(at)?) != number {
        return None;
    }
    Some(at)
}
