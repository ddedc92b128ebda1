//! The least numbers of rows in blocks, and of blocks in a tree. A search for a low number passes all rows below a node at once.
ghost use Rattle.std.specs.Prelude.{◌<◌, ◌≤◌, ◌+◌, ◌*◌, ◌/◌, ℕ, IfOk, MatchOption, length};
ghost use Rattle.std.specs.List.{AllWithin};
ghost use Rattle.sia_index.specs.Minima.{AreMinima, Covers, IsNextBelow, PassesBlocks};

use crate::keyed::By;
use std::alloc::{AllocError, Global};

/// How many rows a block has.
const BLOCK: usize = 16;

/// The least number below each node of a tree: the nodes below node `n` are `2 * n` and `2 * n + 1`, the root is node 1, and the
/// second half of all nodes are the blocks of rows in a row.
pub fn minima_of<T, O: By<T>>(alloc: Global, rows: &[T]) -> Result<Vec<u64>, AllocError>
    ensures { IfOk result (λ minima. AreMinima O.by rows.now minima.items) }
{
    // The least power of 2 that is enough blocks.
    let size = rows.len().div_ceil(BLOCK).next_power_of_two();
    let mut minima = vec![in alloc; u64::MAX; 2 * size]?;
    for (i, row) in rows.iter().enumerate() {
        let leaf = size + i / BLOCK;
        minima[leaf] = minima[leaf].min(O::number(row));
    }
    for node in (1..size).rev() {
        minima[node] = minima[2 * node].min(minima[2 * node + 1]);
    }
    Ok(minima)
}

/// The first place, from `from` to below `to`, of a row whose number is below the limit.
pub fn next_below<T, O: By<T>>(
    rows: &[T],
    minima: &[u64],
    from: usize,
    to: usize,
    limit: u64,
) -> Option<usize>
    requires within { to ≤ length rows.now }
    requires minima_are { AreMinima O.by rows.now minima.now }
    ensures { MatchOption result (AllWithin (λ row. limit ≤ O.by row) rows.now from to)
        (IsNextBelow O.by rows.now from to limit) }
{
    let mut i = from;
    while i < to {
        if O::number(&rows[i]) < limit {
            return Some(i);
        }
        let block = next_block(minima, 1, 0, minima.len() / 2, (i + 1) / BLOCK, limit);
        i = (i + 1).max(block * BLOCK);
    }
    None
}

/// Of the `width` blocks below a node, from `low` on, the first from `from` on that has a number below the limit, or the one behind them.
fn next_block(
    minima: &[u64],
    node: usize,
    low: usize,
    width: usize,
    from: usize,
    limit: u64,
) -> usize
    requires { Covers minima.now node low width }
    ensures first { low ≤ result }
    ensures last { result ≤ low + width }
    ensures passed { (at : ℕ) → low ≤ at → from ≤ at → PassesBlocks minima.now limit at result }
{
    let half = width / 2;
    if low + width <= from {
        low + width
    } else if limit <= minima[node] {
        low + width
    } else if half == 0 {
        low
    } else {
        let next = next_block(minima, 2 * node, low, half, from, limit);
        if next < low + half {
            next
        } else {
            next_block(minima, 2 * node + 1, low + half, half, from, limit)
        }
    }
}
