//! The words of transactions and keys in lines, each made once.
ghost use Rattle.std.specs.Prelude.{IfOk};
ghost use Rattle.si_audit.specs.Spelled.{AreSpelled};

use crate::sheet::Word;
use sia_events::NoMemory;
use sia_index::Index;
use std::alloc::Global;

/// The words of the committed transactions and the written keys, by their numbers.
#[derive(Drop)]
pub(crate) struct Spelled {
    pub(crate) txns: Vec<Word<16>>,
    pub(crate) keys: Vec<Word<24>>,
}

impl Spelled {
    pub(crate) fn of(alloc: Global, index: &Index) -> Result<Spelled, NoMemory>
        ensures { IfOk result (AreSpelled index.now) }
    {
        let committed = index.committed();
        let mut txns = Vec::with_capacity(alloc, committed.len())?;
        for txn in committed {
            txns.push(Word::of(b" ", u64::from(*txn), b""))?;
        }
        let written = index.written_keys();
        let mut keys = Vec::with_capacity(alloc, written.len())?;
        for key in written {
            keys.push(Word::of(b" ", *key, b"\n"))?;
        }
        Ok(Spelled { txns, keys })
    }
}
