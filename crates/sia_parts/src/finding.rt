//! What is found wrong in a history, and its edges; and the findings of all parts together.
ghost use Rattle.std.specs.Prelude.{ℕ, List, IfOk};
ghost use Rattle.std.specs.List.{AllZip};
ghost use Rattle.sia_events.specs.declared.event.Event.{Event};
ghost use Rattle.sia_events.specs.Refusals.{IsWellFormed};
ghost use Rattle.sia_parts.specs.declared.cutting.Part.{Part};
ghost use Rattle.sia_parts.specs.Findings.{AreFindings, ArePartFindings};
ghost use Rattle.sia_parts.specs.Gathering.{IsGathering, IsPartFound};
ghost use Rattle.sia_parts.specs.Parts.{IsCutting, IsInPart};

use crate::accesses::{Accesses, ByReader, RangeMiss, accesses_at};
use sia_events::{Key, NoMemory, TxnId, Version};
use sia_index::Index;
use sia_index::ordering::put_in_order;
use std::alloc::Global;

/// A read of `key` by `txn` at `place`, which saw another version than the one due.
#[derive(Clone, Copy, PartialEq, Eq, PartialOrd, Ord)]
pub struct BadRead {
    pub place: u32,
    pub txn: TxnId,
    pub key: Key,
    pub saw: Version,
    pub due: Version,
}

/// Two committed writers of `key`: `first` committed after `second` had started and before it committed, so that by
/// first-committer-wins `second` had to abort.
#[derive(Clone, Copy, PartialEq, Eq, PartialOrd, Ord)]
pub struct BadWrite {
    pub key: Key,
    pub first: TxnId,
    pub second: TxnId,
}

/// A read of `key` by the committed `txn` at `place`, whose version no serial order explains.
#[derive(Clone, Copy, PartialEq, Eq, PartialOrd, Ord)]
pub struct Unexplained {
    pub place: u32,
    pub txn: TxnId,
    pub key: Key,
    pub saw: Version,
}

/// The kinds of dependency, in the order in which edges are listed.
#[derive(Clone, Copy, PartialEq, Eq, PartialOrd, Ord)]
pub enum Kind {
    /// Both wrote the key, the source's version first.
    Ww,
    /// The target read the source's version or a later one.
    Wr,
    /// The source read a version before the target's.
    Rw,
}

/// A dependency of `dst` on `src`, two committed transactions, by `key`.
#[derive(Clone, Copy, PartialEq, Eq, PartialOrd, Ord)]
pub struct Edge {
    pub src: TxnId,
    pub dst: TxnId,
    pub kind: Kind,
    pub key: Key,
}

/// What was found at all keys.
#[derive(Drop)]
pub struct Findings {
    pub bad_reads: Vec<BadRead>,
    pub bad_writes: Vec<BadWrite>,
    pub unexplained: Vec<Unexplained>,
    pub edges: Vec<Edge>,
}

/// What was found at the keys of one part.
pub type PartFindings = Findings;

/// The findings at all keys, of those of the parts in order.
pub fn gather(alloc: Global, parts: Vec<PartFindings>) -> Result<Findings, NoMemory>
    requires { (h : List Event) × (points : List ℕ) × (cutting : List Part)
        × IsWellFormed h × IsCutting points cutting × AllZip (ArePartFindings h) cutting parts.items }
    ensures { IfOk result (λ found. (h : List Event) (points : List ℕ) (cutting : List Part)
        → IsWellFormed h → IsCutting points cutting → AllZip (ArePartFindings h) cutting parts.items
        → AreFindings h found) }
{
    let mut all = Findings {
        bad_reads: Vec::new(alloc),
        bad_writes: Vec::new(alloc),
        unexplained: Vec::new(alloc),
        edges: Vec::new(alloc),
    };
    for part in &parts {
        all.bad_reads.extend_from_slice(&part.bad_reads)?;
        all.bad_writes.extend_from_slice(&part.bad_writes)?;
        all.unexplained.extend_from_slice(&part.unexplained)?;
        all.edges.extend_from_slice(&part.edges)?;
    }
    put_in_order(&mut all.bad_reads)?;
    put_in_order(&mut all.bad_writes)?;
    put_in_order(&mut all.unexplained)?;
    put_in_order(&mut all.edges)?;
    Ok(all)
}

/// What was found at the keys of one part, with what the committed transactions saw there instead of edges.
#[derive(Drop)]
pub struct PartFound {
    pub bad_reads: Vec<BadRead>,
    pub bad_writes: Vec<BadWrite>,
    pub unexplained: Vec<Unexplained>,
    /// The positions of the versions that they saw, their own left out.
    pub saw: ByReader<u32>,
    pub missed: ByReader<RangeMiss>,
}

/// What was found at all keys.
#[derive(Drop)]
pub struct Gathering {
    pub bad_reads: Vec<BadRead>,
    pub bad_writes: Vec<BadWrite>,
    pub unexplained: Vec<Unexplained>,
    pub accesses: Accesses,
}

impl Gathering {
    /// What the parts found, in order of the parts.
    pub fn of(alloc: Global, ix: &Index, parts: Vec<PartFound>) -> Result<Gathering, NoMemory>
        requires { (points : List ℕ) × (cutting : List Part) × IsCutting points cutting
            × AllZip (λ part found. IsPartFound ix.now (IsInPart part) found) cutting parts.items }
        ensures { IfOk result (IsGathering ix.now) }
    {
        ix.law();
        let mut all = PartFound {
            bad_reads: Vec::new(alloc),
            bad_writes: Vec::new(alloc),
            unexplained: Vec::new(alloc),
            saw: ByReader::new(alloc),
            missed: ByReader::new(alloc),
        };
        for part in parts {
            all.bad_reads.extend_from_slice(&part.bad_reads)?;
            all.bad_writes.extend_from_slice(&part.bad_writes)?;
            all.unexplained.extend_from_slice(&part.unexplained)?;
            all.saw.append(part.saw)?;
            all.missed.append(part.missed)?;
        }
        put_in_order(&mut all.bad_reads)?;
        put_in_order(&mut all.bad_writes)?;
        put_in_order(&mut all.unexplained)?;
        Ok(Gathering {
            bad_reads: all.bad_reads,
            bad_writes: all.bad_writes,
            unexplained: all.unexplained,
            accesses: accesses_at(alloc, ix, None, all.saw, all.missed)?,
        })
    }
}
