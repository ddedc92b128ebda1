//! Orders and cycles worked out by hand, and graphs of the greatest sizes.
ghost use Rattle.std.specs.Prelude.{◌≢◌, ◌<◌, All, AllPairs, Contains, IsTrue};
ghost use Rattle.std.specs.List.Sorted.{IsStrictlyIncreasing};
ghost use Rattle.sia_events.specs.Lists.{Precedes};
ghost use Rattle.sia_parts.specs.Entries.{edge_rank};

use sia_events::{Key, NoMemory, TxnId};
use sia_graph::{Step, Verdict, settle};
use sia_parts::{Edge, Kind};
use std::alloc::{AllocError, Global};
use std::cmp::Ordering;
use std::test::Fail;

mod histories;
mod replays;

macro_rules! edge {
    ($src:expr, $kind:ident, $dst:expr, $key:expr) => {
        Edge {
            src: $src,
            kind: Kind::$kind,
            dst: $dst,
            key: $key,
        }
    };
}

macro_rules! step {
    ($txn:expr, $kind:ident, $key:expr) => {
        Step {
            txn: $txn,
            kind: Kind::$kind,
            key: $key,
        }
    };
}

/// Whether the ids ascend without repeats.
fn ascends(ids: &[TxnId]) -> bool
    ensures { IsTrue result → IsStrictlyIncreasing ids.now }
{
    for i in 1..ids.len() {
        if ids[i - 1] >= ids[i] {
            return false;
        }
    }
    true
}

/// Whether the list holds the id, where the ids ascend.
fn holds(ids: &[TxnId], txn: TxnId) -> bool
    ensures { IsTrue result → Contains ids.now txn }
{
    match ids.binary_search(&txn) {
        Ok(i) => ids[i] == txn,
        Err(_) => false,
    }
}

/// Whether the edge joins two different ids of the list.
fn is_joined(ids: &[TxnId], e: &Edge) -> bool
    ensures { IsTrue result → Contains ids.now e.now.src × Contains ids.now e.now.dst × (e.now.src ≢ e.now.dst) }
{
    holds(ids, e.src) && holds(ids, e.dst) && e.src != e.dst
}

fn joins(ids: &[TxnId], edges: &[Edge]) -> bool
    ensures { IsTrue result → All (λ e. Contains ids.now e.src × Contains ids.now e.dst × (e.src ≢ e.dst)) edges.now }
{
    for e in edges {
        if !is_joined(ids, e) {
            return false;
        }
    }
    true
}

/// Whether the edges ascend by source, target, kind and key.
fn in_order(edges: &[Edge]) -> bool
    ensures { IsTrue result → AllPairs (λ d e. Precedes (edge_rank d) (edge_rank e)) edges.now }
{
    for i in 1..edges.len() {
        if edges[i - 1].cmp(&edges[i]) != Ordering::Less {
            return false;
        }
    }
    true
}

/// Whether the ids and the edges are as `settle` wants them, and it answers with the order or with the steps of the cycle.
fn is_settled(
    alloc: Global,
    ids: &[TxnId],
    edges: &[Edge],
    wanted: Result<&[TxnId], &[Step]>,
) -> Result<bool, NoMemory> {
    if !ascends(ids) || !joins(ids, edges) || !in_order(edges) {
        return Ok(false);
    }
    match settle(alloc, ids, edges)? {
        Verdict::Order(found) => Ok(wanted == Ok(found.as_slice())),
        Verdict::Cycle(found) => Ok(wanted == Err(found.as_slice())),
    }
}

/// Ids, edges, and the order that keeps these, or the cycle that is printed.
const GRAPHS: &[(&[TxnId], &[Edge], Result<&[TxnId], &[Step]>)] = &[
    // No transaction.
    (&[], &[], Ok(&[])),
    // Without edges the ids ascend.
    (&[1, 2, 3], &[], Ok(&[1, 2, 3])),
    // 1 waits for 3, and 2 for none.
    (&[1, 2, 3], &[edge!(3, Ww, 1, 5)], Ok(&[2, 3, 1])),
    // A chain against the ids.
    (
        &[1, 2, 3],
        &[edge!(2, Rw, 1, 9), edge!(3, Wr, 2, 1)],
        Ok(&[3, 2, 1]),
    ),
    // 4 frees 1, which stands before 5 then; with 5 taken first the order would keep the edges too.
    (&[1, 4, 5], &[edge!(4, Ww, 1, 1)], Ok(&[4, 1, 5])),
    // Two sources: 2 waits for both of them, 3 for none.
    (
        &[2, 3, 7, 9],
        &[edge!(7, Ww, 2, 1), edge!(9, Wr, 2, 1)],
        Ok(&[3, 7, 9, 2]),
    ),
    // Three edges between two transactions count as three and are let go as three.
    (
        &[1, 2],
        &[edge!(2, Ww, 1, 4), edge!(2, Ww, 1, 8), edge!(2, Rw, 1, 4)],
        Ok(&[2, 1]),
    ),
    // A diamond: 6 before 1 and 2, both before 4.
    (
        &[1, 2, 4, 6],
        &[
            edge!(1, Ww, 4, 0),
            edge!(2, Ww, 4, 1),
            edge!(6, Wr, 1, 0),
            edge!(6, Wr, 2, 0),
        ],
        Ok(&[6, 1, 2, 4]),
    ),
    // 1 waits for 2, which waits for 4 itself: 3 is free before them.
    (
        &[1, 2, 3, 4],
        &[edge!(2, Ww, 1, 3), edge!(4, Rw, 2, 3)],
        Ok(&[3, 4, 2, 1]),
    ),
    // Ten wait for the last.
    (
        &[1, 2, 3, 4, 5, 6, 7, 8, 9, 10, 11],
        &[
            edge!(11, Ww, 1, 1),
            edge!(11, Ww, 2, 1),
            edge!(11, Ww, 3, 1),
            edge!(11, Ww, 4, 1),
            edge!(11, Ww, 5, 1),
            edge!(11, Ww, 6, 1),
            edge!(11, Ww, 7, 1),
            edge!(11, Ww, 8, 1),
            edge!(11, Ww, 9, 1),
            edge!(11, Ww, 10, 1),
        ],
        Ok(&[11, 1, 2, 3, 4, 5, 6, 7, 8, 9, 10]),
    ),
    // The greatest name and the greatest key.
    (
        &[1, 4294967295],
        &[edge!(4294967295, Rw, 1, 18446744073709551615)],
        Ok(&[4294967295, 1]),
    ),
    // More far ones than a table of guesses keeps, since all of them share a slot: 1 waits for 1590, and 1519 for 1.
    (
        &[
            1, 152, 223, 294, 365, 436, 507, 578, 649, 800, 871, 942, 1013, 1084, 1155, 1226, 1297,
            1368, 1519, 1590,
        ],
        &[edge!(1, Ww, 1519, 0), edge!(1590, Wr, 1, 0)],
        Ok(&[
            152, 223, 294, 365, 436, 507, 578, 649, 800, 871, 942, 1013, 1084, 1155, 1226, 1297,
            1368, 1590, 1, 1519,
        ]),
    ),
    // Each waits for the other.
    (
        &[1, 2],
        &[edge!(1, Rw, 2, 1), edge!(2, Rw, 1, 2)],
        Err(&[step!(1, Rw, 1), step!(2, Rw, 2)]),
    ),
    // 1 is stuck behind the cycle and isn't on it.
    (
        &[1, 2, 3],
        &[edge!(2, Rw, 3, 1), edge!(3, Wr, 1, 1), edge!(3, Rw, 2, 2)],
        Err(&[step!(2, Rw, 1), step!(3, Rw, 2)]),
    ),
    // The least edge by kind comes first, then by key: ww on 6, not rw on 2 and not ww on 7.
    (
        &[1, 2],
        &[
            edge!(1, Ww, 2, 6),
            edge!(1, Ww, 2, 7),
            edge!(1, Rw, 2, 2),
            edge!(2, Wr, 1, 3),
        ],
        Err(&[step!(1, Ww, 6), step!(2, Wr, 3)]),
    ),
    // 3 waits for 1 and 2. The least is 1, so the way back from 1 is 2, 3, 1 and the steps go 1, 3, 2.
    (
        &[1, 2, 3],
        &[
            edge!(1, Ww, 3, 5),
            edge!(2, Wr, 1, 4),
            edge!(2, Rw, 3, 1),
            edge!(3, Ww, 2, 8),
        ],
        Err(&[step!(1, Ww, 5), step!(3, Ww, 8), step!(2, Wr, 4)]),
    ),
    // Two cycles: going back from 1 reaches 1 and 4, and never 2 and 3.
    (
        &[1, 2, 3, 4],
        &[
            edge!(1, Ww, 4, 1),
            edge!(2, Ww, 3, 1),
            edge!(3, Rw, 2, 1),
            edge!(4, Rw, 1, 1),
        ],
        Err(&[step!(1, Ww, 1), step!(4, Rw, 1)]),
    ),
    // 1 can be taken first, so that it is no source of 2.
    (
        &[1, 2, 3],
        &[edge!(1, Ww, 2, 1), edge!(2, Ww, 3, 1), edge!(3, Rw, 2, 1)],
        Err(&[step!(2, Ww, 1), step!(3, Rw, 1)]),
    ),
    // From 1 back to 2, to 5, to 3 and to 5: the cycle is 3 and 5, and 2 isn't on it.
    (
        &[1, 2, 3, 5],
        &[
            edge!(2, Ww, 1, 1),
            edge!(3, Ww, 5, 1),
            edge!(5, Ww, 2, 1),
            edge!(5, Rw, 3, 1),
        ],
        Err(&[step!(3, Ww, 1), step!(5, Rw, 1)]),
    ),
    // From 1 back to 9, to 4, to 7 and to 9: the cycle starts at 4, its least, though 9 is reached first.
    (
        &[1, 4, 7, 9],
        &[
            edge!(4, Ww, 9, 1),
            edge!(7, Wr, 4, 2),
            edge!(9, Ww, 1, 3),
            edge!(9, Rw, 7, 4),
        ],
        Err(&[step!(4, Ww, 1), step!(9, Rw, 4), step!(7, Wr, 2)]),
    ),
];

#[test]
fn settled_graphs(rt: HostRuntime) -> Result<(), Fail> {
    for (ids, edges, wanted) in GRAPHS {
        assert!(rt; is_settled(rt.alloc(), ids, edges, *wanted)?, "{ids:?}");
    }
    Ok(())
}

/// The ids from 1 to the last.
fn ids_to(alloc: Global, last: TxnId) -> Result<Vec<TxnId>, AllocError> {
    let mut ids = Vec::new(alloc);
    for before in 0..last {
        ids.push(before + 1)?;
    }
    Ok(ids)
}

#[test]
fn a_long_cycle(rt: HostRuntime) -> Result<(), Fail> {
    // Each transaction waits for the one before it, and the first for the last.
    let ids = ids_to(rt.alloc(), 25_000)?;
    let mut edges = Vec::new(rt.alloc());
    let mut steps = Vec::new(rt.alloc());
    for txn in 1..25_001 {
        let next = if txn == 25_000 { 1 } else { txn + 1 };
        edges.push(edge!(txn, Ww, next, 1))?;
        steps.push(step!(txn, Ww, 1))?;
    }
    assert!(rt; is_settled(rt.alloc(), &ids, &edges, Err(&steps))?);
    Ok(())
}

#[test]
fn a_long_order(rt: HostRuntime) -> Result<(), Fail> {
    // Each transaction waits for the three after it, so that the order descends.
    let mut edges = Vec::new(rt.alloc());
    for txn in 1..100_001 {
        let least = if txn > 3 { txn - 3 } else { 1 };
        for earlier in least..txn {
            edges.push(edge!(txn, Rw, earlier, 7))?;
        }
    }
    let ids = ids_to(rt.alloc(), 100_000)?;
    let mut order = ids_to(rt.alloc(), 100_000)?;
    order.reverse();
    assert!(rt; is_settled(rt.alloc(), &ids, &edges, Ok(&order))?);
    Ok(())
}
