//! Names by their numbers in a log, where the row of each number stands, and the table of written keys.
ghost use Rattle.std.specs.Prelude.{◌≢◌, ◌<◌, All, AllPairs, IfOk};
ghost use Rattle.sia_index.specs.Tables.{AreKeys, ArePlaces};

use crate::keyed::By;
use crate::ordering::Sorter;
use sia_events::{Key, Log, TxnId};
use std::alloc::{AllocError, Global};

/// The name of a transaction or of a key, and its number in the log.
#[derive(Clone, Copy, PartialEq, Eq, PartialOrd, Ord)]
pub struct Numbered<N> {
    pub name: N,
    pub number: u32,
}

/// By name.
pub struct ByName;

impl By<Numbered<Key>> for ByName {
    ghost by = { λ row. row.name };

    fn number(row: &Numbered<Key>) -> u64 {
        row.name
    }
}

impl By<Numbered<TxnId>> for ByName {
    ghost by = { λ row. row.name };

    fn number(row: &Numbered<TxnId>) -> u64 {
        u64::from(row.name)
    }
}

/// For each number below the count the place of the row that has it, or the greatest number where none has it.
pub fn places_of<N>(alloc: Global, count: u32, rows: &[Numbered<N>]) -> Result<Vec<u32>, AllocError>
    requires apart { AllPairs (λ x y. x.number ≢ y.number) rows.now }
    requires within { All (λ row. row.number < count) rows.now }
    ensures { IfOk result (λ places. ArePlaces (λ row. row.number) rows.now count places.items) }
{
    let mut places = vec![in alloc; u32::MAX; count as usize]?;
    for (i, row) in rows.iter().enumerate() {
        places[row.number as usize] = i as u32;
    }
    Ok(places)
}

/// Every written key once, ascending, and for each number in the log the place of the key among these, or one behind them all.
#[derive(Drop)]
pub struct Keys {
    pub keys: Vec<Key>,
    pub numbers: Vec<u32>,
}

/// The written keys of the log.
pub fn keys_of(alloc: Global, log: &Log) -> Result<Keys, AllocError>
    ensures { IfOk result (λ keys. AreKeys log.now keys) }
{
    let count = log.key_count();
    let mut rows = Vec::with_capacity(alloc, count as usize)?;
    let mut known = vec![in alloc; false; count as usize]?;
    for before in 0..log.write_count() {
        let number = log.write(before + 1).key;
        if !known[number as usize] {
            known[number as usize] = true;
            let name = log.key(number);
            rows.push(Numbered { name, number })?;
        }
    }
    Sorter::with_capacity(alloc, rows.len())?.sort::<ByName>(&mut rows);
    let mut keys = Vec::with_capacity(alloc, rows.len())?;
    for row in &rows {
        keys.push(row.name)?;
    }
    let numbers = places_of(alloc, count, &rows)?;
    Ok(Keys { keys, numbers })
}
