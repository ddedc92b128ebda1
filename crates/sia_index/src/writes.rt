//! The first writes of the log, counted from 0: by key, of each transaction, and where they stand.
ghost use Rattle.std.specs.Prelude.{◌<◌, All, IfOk, length, slice_index};
ghost use Rattle.sia_events.specs.Numbering.{writes_of};
ghost use Rattle.sia_index.specs.Lists.{joined};
ghost use Rattle.sia_index.specs.Rows.{IsColumn};
ghost use Rattle.sia_index.specs.Tables.{AreKeys, AreWritePlaces, AreWriteTables};
ghost use Rattle.sia_index.specs.VersionRows.{AreUnplaced};

use crate::keyed::{By, ByKey, ByPlace, ByTxn};
use crate::lists::Lists;
use crate::minima::minima_of;
use crate::names::Keys;
use sia_events::{Log, Row, TxnId};
use std::alloc::{AllocError, Global};

/// Of a write its key, and the position of its version, or the greatest number where it has none.
#[derive(Clone, Copy)]
pub struct Written {
    pub key: u32,
    pub position: u32,
}

impl By<Written> for ByKey {
    ghost by = { λ write. write.key };

    fn number(write: &Written) -> u64 {
        u64::from(write.key)
    }
}

/// The writes of each key, in the order of the log; of each transaction where its own stand among these, so that they are by key;
/// and their places in the history, transaction by transaction, with the least of them in a row.
#[derive(Drop)]
pub struct Writes {
    pub by_key: Lists<u32>,
    pub by_txn: Lists<u32>,
    pub own_places: Vec<u32>,
    pub minima: Vec<u64>,
}

/// The writes of the log, and the key of each. None has a position yet.
pub fn writes_of(
    alloc: Global,
    log: &Log,
    keys: &Keys,
) -> Result<(Vec<Written>, Writes), AllocError>
    requires keys_are { AreKeys log.now keys.now }
    ensures written { IfOk result (λ (written, writes). AreUnplaced log.now keys.now.keys.items
        (length (writes_of log.now)) written.items) }
    ensures tables { IfOk result (λ (written, writes). AreWriteTables log.now keys.now.keys.items writes) }
{
    let count = log.write_count();
    let mut written = Vec::with_capacity(alloc, count as usize)?;
    for before in 0..count {
        written.push(Written {
            key: keys.numbers[log.write(before + 1).key as usize],
            position: u32::MAX,
        })?;
    }
    let by_key = Lists::<u32>::places::<Written, ByKey>(alloc, keys.keys.len(), &written)?;
    let mut txns = Vec::with_capacity(alloc, count as usize)?;
    for write in by_key.rows() {
        txns.push(log.write(*write + 1).txn)?;
    }
    let by_txn = Lists::<u32>::places::<TxnId, ByTxn>(alloc, log.txn_count() as usize, &txns)?;
    let places = places_of(alloc, log)?;
    let own_places = own_places_of(alloc, &by_key, &by_txn, &places)?;
    let writes = Writes {
        by_key,
        by_txn,
        minima: minima_of::<u32, ByPlace>(alloc, &own_places)?,
        own_places,
    };
    Ok((written, writes))
}

/// The place of each write: that of its first event, which comes last where the events are gone through from their end.
fn places_of(alloc: Global, log: &Log) -> Result<Vec<u32>, AllocError>
    ensures { IfOk result (λ places. AreWritePlaces log.now 0 places.items) }
{
    let rows = log.rows();
    let mut places = vec![in alloc; 0u32; log.write_count() as usize]?;
    for before in (0..log.len()).rev() {
        if let Row::Write { write, .. } = rows[before as usize] {
            places[write as usize - 1] = before + 1;
        }
    }
    Ok(places)
}

/// The places of the writes of each transaction, one after another.
fn own_places_of(
    alloc: Global,
    by_key: &Lists<u32>,
    by_txn: &Lists<u32>,
    places: &[u32],
) -> Result<Vec<u32>, AllocError>
    requires own { All (λ at. at < length (joined by_key.now)) (joined by_txn.now) }
    requires writes { All (λ write. write < length places.now) (joined by_key.now) }
    ensures { IfOk result (λ own. IsColumn (λ at. slice_index places.now (slice_index (joined by_key.now) at))
        (joined by_txn.now) (length (joined by_txn.now)) own.items) }
{
    let writes = by_key.rows();
    let mut own = Vec::with_capacity(alloc, by_txn.rows().len())?;
    for at in by_txn.rows() {
        own.push(places[writes[*at as usize] as usize])?;
    }
    Ok(own)
}
