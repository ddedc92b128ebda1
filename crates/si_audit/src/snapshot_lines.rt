//! The lines of the snapshots that fit transactions which their recorded starts don't fit.
ghost use Rattle.std.specs.Prelude.{◌≡◌, ◌++◌, List, ℕ, IsTrue, OnOk};
ghost use Rattle.si_audit.specs.Bounds.{EachTxn, IsKnownOf};
ghost use Rattle.si_audit.specs.Explained.{TellsSnapshots};
ghost use Rattle.si_audit.specs.SnapshotLines.{TellsNone, bound_words};
ghost use Rattle.si_audit.specs.Snapshots.{IsSnapshot};

use crate::snapshots::{Bound, Bounds};
use sia_events::{Log, NoMemory, Row, push_number};
use sia_index::txns_in_order;
use sia_parts::push_event;
use std::alloc::Global;

/// Some words, a commit, and the event by which the snapshot has to have it, or must not have it.
fn push_bound(out: &mut Vec<u8>, before: &[u8], h: &Log, b: &Bound) -> Result<(), NoMemory>
    ensures { OnOk result (out.new.items ≡ out.old.items
        ++ bound_words before.now h.now b.now.commit b.now.place b.now.key) }
{
    push_event(out, before, h, b.key, b.commit)?;
    push_event(out, b": ", h, b.key, b.place)?;
    Ok(out.extend_from_slice(b"\n")?)
}

/// Why no snapshot fits the transaction. Of a range none of the pairs that it listed is shown.
fn push_none(out: &mut Vec<u8>, h: &Log, b: &Bounds) -> Result<(), NoMemory>
    ensures { (t : ℕ) → IsKnownOf h.now t b.now → IsTrue b.now.misfit → ((n : ℕ) → ¬ IsSnapshot h.now t n)
        → OnOk result ((why : List ℕ) × TellsNone h.now t why × (out.new.items ≡ out.old.items ++ why)) }
{
    h.law();
    if let Some((place, key)) = b.never {
        push_event(out, b"  in no snapshot: ", h, key, place)?;
        return Ok(out.extend_from_slice(b"\n")?);
    }
    push_bound(out, b"  not without ", h, &b.low)?;
    if b.high.commit < b.first {
        return push_bound(out, b"  not with ", h, &b.high);
    }
    let Some(Row::Range { txn, range, .. }) = h.row(b.first) else {
        push_event(out, b"  not after ", h, 0, b.first)?;
        return Ok(out.extend_from_slice(b"\n")?);
    };
    let (lo, hi) = h.range(range);
    push_number(out, b"  not after event ", u64::from(b.first), b" r")?;
    push_number(out, b"", u64::from(h.txn(txn).name), b"[")?;
    push_number(out, b"", lo, b"..")?;
    Ok(push_number(out, b"", hi, b"]\n")?)
}

/// The lines of all transactions, of which so much is known.
pub(crate) fn push_snapshots(
    alloc: Global,
    out: &mut Vec<u8>,
    h: &Log,
    all: &[Bounds],
) -> Result<(), NoMemory>
    requires { EachTxn (IsKnownOf h.now) h.now all.now }
    ensures { OnOk result ((bytes : List ℕ) × TellsSnapshots h.now bytes
        × (out.new.items ≡ out.old.items ++ bytes)) }
{
    h.law();
    for row in &txns_in_order(alloc, h)? {
        let (name, b) = (u64::from(row.name), &all[row.number as usize]);
        if b.misfit && b.fits() {
            push_number(out, b"snapshot ", name, b" from ")?;
            push_number(out, b"", u64::from(b.low.commit), b" to ")?;
            push_number(out, b"", u64::from(b.high.commit.min(b.first) - 1), b"\n")?;
        } else if b.misfit {
            push_number(out, b"snapshot ", name, b" none\n")?;
            push_none(out, h, b)?;
        }
    }
    Ok(())
}
