//! Pivots, the test of serializable snapshot isolation, and the dangerous structure that is told, of histories worked out by
//! hand.
ghost use Rattle.std.specs.Prelude.{◌≡◌, [], IfOk, IsTrue};
ghost use Rattle.sia_parts.specs.Findings.{AreFindings};
ghost use Rattle.sia_parts.specs.Gathering.{IsGathering};

use sia_events::{History, Key, Log, NoMemory, TxnId, read_history};
use sia_graph::{Evidence, Pivot, dangerous_of, pivots, ssi_pass};
use sia_index::{Index, make};
use sia_parts::{Findings, Gathering, Part, Reads, audit_part, find_in_part, gather};
use std::alloc::Global;
use std::test::Fail;

/// A pivot with its ins, outs and firsts.
type Around<'a> = (TxnId, &'a [TxnId], &'a [TxnId], &'a [TxnId]);

/// A dangerous structure: the first transaction, a key, the pivot, a key, and the last transaction.
type Structure = (TxnId, Key, TxnId, Key, TxnId);

/// A text, its pivots, whether it passes, and the dangerous structure that is told.
type Row = (
    &'static [u8],
    &'static [Around<'static>],
    bool,
    Option<Structure>,
);

/// What is found at all keys.
fn findings(alloc: Global, h: &History, ix: &Index) -> Result<Findings, NoMemory>
    requires { ix.now ≡ h.now }
    ensures { IfOk result (AreFindings ix.now) }
{
    ix.law();
    let whole = Part {
        lo: 0,
        hi: Key::MAX,
    };
    let mut parts = Vec::new(alloc);
    parts.push(audit_part(alloc, h, ix, whole)?)?;
    let found = gather(alloc, parts)?;
    Ok(found)
}

/// The same, with what was seen in place of edges.
fn gathered(alloc: Global, log: &Log, ix: &Index) -> Result<Gathering, NoMemory>
    requires { ix.now ≡ log.now }
    ensures { IfOk result (IsGathering ix.now) }
{
    let whole = Part {
        lo: 0,
        hi: Key::MAX,
    };
    let reads = Reads::of(alloc, log, &[whole])?;
    let mut parts = Vec::new(alloc);
    parts.push(find_in_part(alloc, log, ix, whole, reads.of_part(0))?)?;
    Gathering::of(alloc, ix, parts)
}

/// Whether no read and no write is bad.
fn are_none(found: &Gathering) -> bool
    ensures { IsTrue result → (found.now.bad_reads.items ≡ []) × (found.now.bad_writes.items ≡ []) }
{
    found.bad_reads.is_empty() && found.bad_writes.is_empty()
}

/// The dangerous structure that is told of a history. None either where isolation is broken.
fn dangerous(alloc: Global, log: &Log, ix: &Index) -> Result<Option<Structure>, NoMemory>
    requires { ix.now ≡ log.now }
{
    ix.law();
    let found = gathered(alloc, log, ix)?;
    if !are_none(&found) {
        return Ok(None);
    }
    let evidence = Evidence {
        index: ix,
        accesses: &found.accesses,
    };
    match dangerous_of(alloc, &evidence)? {
        Some(it) => Ok(Some((it.first, it.first_key, it.pivot, it.last_key, it.last))),
        None => Ok(None),
    }
}

fn are(found: &[Pivot], wanted: &[Around<'_>]) -> bool {
    let mut rest = wanted.iter();
    for pivot in found {
        let (ins, outs, firsts) = (
            pivot.ins.as_slice(),
            pivot.outs.as_slice(),
            pivot.firsts.as_slice(),
        );
        if rest.next() != Some(&(pivot.txn, ins, outs, firsts)) {
            return false;
        }
    }
    rest.next().is_none()
}

/// Whether what is told of the history is what the row says.
fn is_told(alloc: Global, h: &History, row: &Row) -> Result<bool, NoMemory> {
    let ix = make::index(alloc, h)?;
    let structure = dangerous(alloc, h.log(), &ix)?;
    let f = findings(alloc, h, &ix)?;
    let found = pivots(alloc, &f, &ix)?;
    Ok(are(&found, row.1) && ssi_pass(&f, &found) == row.2 && structure == row.3)
}

const HISTORIES: &[Row] = &[
    (b"", &[], true, None),
    // 2 read both keys before 1 wrote them: two edges, and none back.
    (
        b"r1[1:0] w1[1] r2[1:0] r2[2:0] c2 r1[2:0] w1[2] c1",
        &[],
        true,
        None,
    ),
    // Write skew: each has an edge to the other, and 1 commits first. It is on both sides of 2.
    (
        b"r1[1:0] r1[2:0] r2[1:0] r2[2:0] w1[2] w2[1] c1 c2",
        &[(1, &[2], &[2], &[]), (2, &[1], &[1], &[1])],
        false,
        Some((1, 1, 2, 2, 1)),
    ),
    // The same by range reads that listed nothing.
    (
        b"b1 b2 r1[10..20] r2[10..20] w1[12] w2[15] c1 c2",
        &[(1, &[2], &[2], &[]), (2, &[1], &[1], &[1])],
        false,
        Some((1, 15, 2, 12, 1)),
    ),
    // 3 read key 1 before 2 wrote it, and 2 read key 2 before 1 wrote it; 1 commits first. 3 starts after that.
    (
        b"r2[1:0] r2[2:0] r1[2:0] w1[2] c1 r3[1:0] r3[2:1] c3 w2[1] c2",
        &[(2, &[3], &[1], &[1])],
        false,
        Some((3, 1, 2, 2, 1)),
    ),
    // A lost update: both read key 1 before the other wrote it.
    (
        b"r1[1:0] r2[1:0] w1[1] w2[1] c1 c2",
        &[(1, &[2], &[2], &[]), (2, &[1], &[1], &[1])],
        false,
        None,
    ),
    // No read, so no pivot; a bad write.
    (b"w1[1] w2[1] c1 c2", &[], false, None),
    // A bad read of an own write, and no pivot.
    (b"w1[1] r1[1:0] c1", &[], false, None),
    // Transaction 1 comes after both commits and is on no side.
    (
        b"r2[1:0] r2[2:0] r3[1:0] r3[2:0] w2[2] w3[1] c2 c3 r1[1:3] c1",
        &[(2, &[3], &[3], &[]), (3, &[2], &[2], &[2])],
        false,
        Some((2, 1, 3, 2, 2)),
    ),
    // 3 commits before 2 and before 1.
    (
        b"r1[1:0] r2[2:0] w2[1] w3[2] c3 c2 c1",
        &[(2, &[1], &[3], &[3])],
        false,
        Some((1, 1, 2, 2, 3)),
    ),
    // 3 commits after 2.
    (
        b"r1[1:0] r2[2:0] w2[1] w3[2] c1 c2 c3",
        &[(2, &[1], &[3], &[])],
        true,
        None,
    ),
    // 3 commits before 2, but after 1.
    (
        b"r1[1:0] r2[2:0] w2[1] w3[2] c1 c3 c2",
        &[(2, &[1], &[3], &[])],
        true,
        None,
    ),
    // The same, and 5 commits after 3.
    (
        b"r1[1:0] r5[1:0] r2[2:0] w2[1] w3[2] c1 c3 c2 c5",
        &[(2, &[1, 5], &[3], &[3])],
        false,
        Some((5, 1, 2, 2, 3)),
    ),
    // 3 had committed when 2 started, so the edge from 2 to 3 is between transactions that don't overlap.
    (b"w3[1] c3 r2[1:0] r1[2:0] w2[2] c2 c1", &[], false, None),
    // Two on each side.
    (
        b"r1[1:0] r4294967295[1:0] r2[2:0] r2[3:0] w2[1] w3[2] w4[3] c3 c4 c2 c1 c4294967295",
        &[(2, &[1, 4294967295], &[3, 4], &[3, 4])],
        false,
        Some((1, 1, 2, 2, 3)),
    ),
    // Two keys on each side.
    (
        b"r1[7:0] r1[4:0] r2[9:0] r2[8:0] w2[4] w2[7] w3[8] w3[9] c3 c2 c1",
        &[(2, &[1], &[3], &[3])],
        false,
        Some((1, 4, 2, 8, 3)),
    ),
    // The pivots 4 and 9.
    (
        b"r6[1:0] r9[2:0] r4[3:0] w9[1] w4[2] w3[3] c3 c4 c9 c6",
        &[(4, &[9], &[3], &[3]), (9, &[6], &[4], &[4])],
        false,
        Some((9, 2, 4, 3, 3)),
    ),
    // The pivots 7 and 8; 3 and 4 both commit first, and 8 and 9 both come before 7.
    (
        b"r9[1:0] r7[2:0] r7[3:0] w7[1] w4[2] w3[3] r8[0..4] r5[8:0] w8[8] c4 c3 c7 c9 c8 c5",
        &[
            (7, &[8, 9], &[3, 4], &[3, 4]),
            (8, &[5], &[3, 4, 7], &[3, 4, 7]),
        ],
        false,
        Some((8, 1, 7, 3, 3)),
    ),
];

#[test]
fn histories(rt: HostRuntime) -> Result<(), Fail> {
    for row in HISTORIES {
        let h = read_history(rt.alloc(), row.0)?;
        // Want of memory leaves the history as it was, and the calls can be made again.
        let is_right = match is_told(rt.alloc(), &h, row) {
            Err(NoMemory) => is_told(rt.alloc(), &h, row)?,
            Ok(told) => told,
        };
        assert!(rt; is_right);
    }
    Ok(())
}
