//! The writes of each transaction, found by their keys.
ghost use Rattle.std.specs.Prelude.{◌≡◌, ◌+◌, ◌*◌, ◌^◌, ◌<◌, ◌≤◌, ◌++◌, ◌∷◌, [], ℕ, List, Some, length, map, slice_get, IfOk, IfSome, IfNone, IsOk, OnOk};
ghost use Rattle.sia_events.specs.declared.log.WriteRow.{WriteRow as AWriteRow};
ghost use Rattle.sia_events.specs.OwnWrites.{Tracks, IsNoneOf, no_writes, new_write, write_code};

use crate::finder::{Finder, SPREAD};
use crate::log::WriteRow;
use std::alloc::{AllocError, Global};

/// So many writes of a transaction are looked through one after another.
const FEW: u32 = 12;

/// What is known of a transaction's writes.
#[derive(Clone, Copy, Default)]
struct Writer {
    /// From 1, or 0 where there is none.
    newest: u32,
    count: u32,
}

/// A transaction's writes are looked through from the newest back, or where it has many, found by a table. The table lags
/// behind until it is needed.
#[derive(Drop)]
pub(crate) struct OwnWrites {
    writers: Vec<Writer>,
    /// By write, the one of its transaction before it, from 1, or 0.
    before: Vec<u32>,
    table: Finder,
    in_table: usize,
}

impl OwnWrites {
    /// No writes, and room for so many transactions and so many writes.
    pub(crate) fn new(alloc: Global, rows: usize) -> Result<Self, AllocError>
        ensures none { IfOk result (λ own. Tracks own []) }
        ensures no_room { rows ≡ 0 → IsOk result }
    {
        Ok(OwnWrites {
            writers: Vec::with_capacity(alloc, rows)?,
            before: Vec::with_capacity(alloc, rows)?,
            table: Finder::new(alloc, SPREAD),
            in_table: 0,
        })
    }

    /// Makes place for one more transaction.
    pub(crate) fn add_txn(&mut self) -> Result<(), AllocError>
        ensures longer { OnOk result (self.new.writers.items ≡ self.old.writers.items ++ no_writes ∷ []) }
        ensures kept { (rows : List AWriteRow) → Tracks self.old rows → OnOk result (Tracks self.new rows) }
    {
        self.writers.push(Writer::default())?;
        Ok(())
    }

    /// Takes in the last of the rows, which is of the transaction.
    pub(crate) fn add(&mut self, rows: &[WriteRow], txn: u32) -> Result<(), AllocError>
        requires few { length rows.now ≤ 2 ^ 29 }
        requires place { txn < length self.old.writers.items }
        ensures same { OnOk result (length self.new.writers.items ≡ length self.old.writers.items) }
        ensures tracks { (before : List AWriteRow) (key : ℕ) → rows.now ≡ before ++ new_write txn key ∷ []
            → Tracks self.old before → OnOk result (Tracks self.new rows.now) }
    {
        let writer = &mut self.writers[txn as usize];
        self.before.push(writer.newest)?;
        writer.newest = rows.len() as u32;
        writer.count = writer.count.saturating_add(1);
        if writer.count > FEW {
            self.table.add_from(rows, self.in_table)?;
            self.in_table = rows.len();
        }
        Ok(())
    }

    /// The number of the row of the transaction's write of the key.
    pub(crate) fn find(&self, rows: &[WriteRow], txn: u32, key: u32) -> Option<u32>
        requires few { length rows.now ≤ 2 ^ 29 }
        requires tracks { Tracks self.now rows.now }
        ensures some { IfSome result (λ n. slice_get (map write_code rows.now) n
            ≡ Some (txn * 4294967296 + key)) }
        ensures none { IfNone result (IsNoneOf rows.now txn key) }
    {
        let Writer { newest, count } = self.writers.get(txn as usize).copied()?;
        if count > FEW {
            let code = u64::from(txn) * 4_294_967_296 + u64::from(key);
            return self.table.find(rows, code);
        }
        let mut at = newest as usize;
        while at > 0 {
            if rows[at - 1].key == key {
                return Some(at as u32 - 1);
            }
            at = self.before[at - 1] as usize;
        }
        None
    }
}
