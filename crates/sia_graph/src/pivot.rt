//! The pivots among the transactions, of their vulnerable edges.
ghost use Rattle.std.specs.Prelude.{◌≡◌, ◌<◌, ℕ, All, IfOk, length, map, slice_index};
ghost use Rattle.sia_events.specs.DangerousStructures.{IsFirst};
ghost use Rattle.sia_events.specs.Lists.{ListsAscending};
ghost use Rattle.sia_parts.specs.Findings.{AreFindings};
ghost use Rattle.sia_index.specs.Numbers.{IsCommittedAt};
ghost use Rattle.sia_graph.specs.Links.{IsVulnerableAt, ListsLinks};
ghost use Rattle.sia_graph.specs.Pivots.{ArePivots};

use crate::allowed::is_rw_overlap;
use crate::order::Txns;
use sia_events::{NoMemory, TxnId};
use sia_index::Index;
use sia_index::keyed::{By, ByTxn, place_from};
use sia_index::lists::Lists;
use sia_index::ordering::put_in_order;
use sia_parts::Findings;
use std::alloc::{AllocError, Global};

/// The transaction in the middle of a dangerous structure, with all the transactions at its other ends.
#[derive(Drop)]
pub struct Pivot {
    pub txn: TxnId,
    /// The overlapping transactions that have an rw edge to it.
    pub ins: Txns,
    /// The overlapping transactions to which it has an rw edge.
    pub outs: Txns,
    /// Those of `outs` that commit first in some dangerous structure around it.
    pub firsts: Txns,
}

/// A vulnerable edge, by the numbers of its ends among the committed transactions.
#[derive(Clone, Copy, PartialEq, Eq, PartialOrd, Ord)]
pub(crate) struct Link {
    pub at: u32,
    pub other: u32,
}

/// By the end from which the edge leads.
struct BySource;

impl By<Link> for BySource {
    ghost by = { λ link. link.at };

    fn number(link: &Link) -> u64 {
        u64::from(link.at)
    }
}

/// By the end to which it leads.
struct ByTarget;

impl By<Link> for ByTarget {
    ghost by = { λ link. link.other };

    fn number(link: &Link) -> u64 {
        u64::from(link.other)
    }
}

/// The names of the ends.
fn names<E: By<Link>>(alloc: Global, txns: &[TxnId], of: &[Link]) -> Result<Vec<TxnId>, AllocError>
    requires { All (λ link. E.by link < length txns.now) of.now }
    ensures { IfOk result (λ names. names.items ≡ map (λ link. slice_index txns.now (E.by link)) of.now) }
{
    let mut names = Vec::with_capacity(alloc, of.len())?;
    for link in of {
        names.push(txns[E::number(link) as usize])?;
    }
    Ok(names)
}

/// Of the ends of `outs` those that commit before the transaction, and no later than some end of `ins`.
fn firsts(
    alloc: Global,
    ix: &Index,
    txn: usize,
    ins: &[Link],
    outs: &[Link],
) -> Result<Vec<TxnId>, AllocError>
    requires ins { ListsLinks (λ i j. (j ≡ txn) × IsVulnerableAt ix.now i j) ins.now }
    requires outs { ListsLinks (λ i j. (i ≡ txn) × IsVulnerableAt ix.now i j) outs.now }
    requires txn { (t : ℕ) × IsCommittedAt ix.now txn t }
    ensures { IfOk result (λ firsts. (t : ℕ) → IsCommittedAt ix.now txn t
        → ListsAscending (IsFirst ix.now t) firsts.items) }
{
    ix.law();
    let txns = ix.committed();
    let lifetimes = ix.lifetimes();
    let mut last = 0u32;
    for into in ins {
        last = last.max(lifetimes[into.at as usize].commit);
    }
    let last = last.min(lifetimes[txn].commit - 1);
    let mut firsts = Vec::new(alloc);
    for out in outs {
        if lifetimes[out.other as usize].commit <= last {
            firsts.push(txns[out.other as usize])?;
        }
    }
    Ok(firsts)
}

/// Every pivot, ascending, with its neighbours. The findings are those of the index's history, at all keys.
pub fn pivots(alloc: Global, f: &Findings, ix: &Index) -> Result<Vec<Pivot>, NoMemory>
    requires { AreFindings ix.now f.now }
    ensures { IfOk result (λ found. ArePivots ix.now found.items) }
{
    ix.law();
    let txns = ix.committed();
    let mut links = Vec::new(alloc);
    for e in &f.edges {
        if is_rw_overlap(ix, e) {
            let at = place_from::<TxnId, ByTxn>(txns, u64::from(e.src)) as u32;
            let other = place_from::<TxnId, ByTxn>(txns, u64::from(e.dst)) as u32;
            links.push(Link { at, other })?;
        }
    }
    put_in_order(&mut links)?;
    let into = Lists::<Link>::deal::<ByTarget>(alloc, txns.len(), &links)?;
    let out = Lists::<Link>::deal::<BySource>(alloc, txns.len(), &links)?;
    let mut found = Vec::new(alloc);
    for txn in 0..txns.len() {
        let (ins, outs) = (into.at(txn), out.at(txn));
        if !ins.is_empty() && !outs.is_empty() {
            found.push(Pivot {
                txn: txns[txn],
                ins: Txns::new(names::<BySource>(alloc, txns, ins)?),
                outs: Txns::new(names::<ByTarget>(alloc, txns, outs)?),
                firsts: Txns::new(firsts(alloc, ix, txn, ins, outs)?),
            })?;
        }
    }
    Ok(found)
}
