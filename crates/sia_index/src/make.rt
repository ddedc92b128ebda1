//! How an index is made of a history.
ghost use Rattle.std.specs.Prelude.{◌≡◌, IfOk};

use crate::index::Index;
use crate::names::keys_of;
use crate::txns::txns_of;
use crate::versions::versions_of;
use crate::writes::writes_of;
use sia_events::{History, Log, NoMemory};
use std::alloc::Global;
use std::snapshot::Snapshot;

/// An index of the history.
pub fn index(alloc: Global, h: &History) -> Result<Index, NoMemory>
    ensures { IfOk result (λ ix. ix ≡ h.now) }
{
    index_log(alloc, h.log())
}

/// An index of the history that the log is of.
pub fn index_log(alloc: Global, log: &Log) -> Result<Index, NoMemory>
    ensures { IfOk result (λ ix. ix ≡ log.now) }
{
    log.law();
    let txns = txns_of(alloc, log)?;
    let keys = keys_of(alloc, log)?;
    let (written, writes) = writes_of(alloc, log, &keys)?;
    let versions = versions_of(alloc, log, &txns, &keys, &writes, written)?;
    Ok(Index {
        of: Snapshot::of(log),
        txns,
        keys,
        versions,
        writes,
    })
}
