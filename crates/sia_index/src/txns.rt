//! The tables of transactions.
ghost use Rattle.std.specs.Prelude.{◌≡◌, All, IfOk, Some, map, slice_get};
ghost use Rattle.sia_events.specs.Lists.{ListsAscending};
ghost use Rattle.sia_events.specs.Numbering.{txns_of};
ghost use Rattle.sia_events.specs.Transactions.{HasEvent};
ghost use Rattle.sia_index.specs.Tables.{AreTxns};

use crate::info::Lifetime;
use crate::names::{ByName, Numbered, places_of};
use crate::ordering::Sorter;
use sia_events::{Finder, IN_ORDER, Log, TxnEnd, TxnId, TxnRow};
use std::alloc::{AllocError, Global};

/// What is known of each transaction, by its number in the log, with what finds that number by name. Every committed one once,
/// ascending, with its lifetime beside it, and by each number its place among these, or one behind them all.
#[derive(Drop)]
pub struct Txns {
    pub known: Vec<TxnRow>,
    pub finder: Finder,
    pub committed: Vec<TxnId>,
    pub lifetimes: Vec<Lifetime>,
    pub committed_numbers: Vec<u32>,
}

/// The transactions of the log.
pub fn txns_of(alloc: Global, log: &Log) -> Result<Txns, AllocError>
    ensures { IfOk result (λ txns. AreTxns log.now txns) }
{
    log.law();
    let count = log.txn_count();
    let mut known = Vec::with_capacity(alloc, count as usize)?;
    let mut rows = Vec::with_capacity(alloc, count as usize)?;
    for number in 0..count {
        let row = log.txn(number);
        if let TxnEnd::Committed(_) = row.end {
            let name = row.name;
            rows.push(Numbered { name, number })?;
        }
        known.push(row)?;
    }
    // Mostly the numbers are in the order of the names.
    Sorter::with_capacity(alloc, rows.len())?.sort::<ByName>(&mut rows);
    let mut committed = Vec::with_capacity(alloc, rows.len())?;
    let mut lifetimes = Vec::with_capacity(alloc, rows.len())?;
    for row in &rows {
        let txn = log.txn(row.number);
        if let TxnEnd::Committed(commit) = txn.end {
            let start = txn.start;
            committed.push(txn.name)?;
            lifetimes.push(Lifetime { start, commit })?;
        }
    }
    let committed_numbers = places_of(alloc, count, &rows)?;
    let mut finder = Finder::new(alloc, IN_ORDER);
    finder.add_from(&known, 0)?;
    Ok(Txns {
        known,
        finder,
        committed,
        lifetimes,
        committed_numbers,
    })
}

/// All transactions of the log by name, each with its number.
pub fn txns_in_order(alloc: Global, log: &Log) -> Result<Vec<Numbered<TxnId>>, AllocError>
    ensures names { IfOk result (λ rows. ListsAscending (HasEvent log.now) (map (λ row. row.name) rows.items)) }
    ensures numbers { IfOk result (λ rows. All (λ row. slice_get (txns_of log.now) row.number
        ≡ Some row.name) rows.items) }
{
    let mut rows = Vec::with_capacity(alloc, log.txn_count() as usize)?;
    for number in 0..log.txn_count() {
        let name = log.txn(number).name;
        rows.push(Numbered { name, number })?;
    }
    Sorter::with_capacity(alloc, rows.len())?.sort::<ByName>(&mut rows);
    Ok(rows)
}
