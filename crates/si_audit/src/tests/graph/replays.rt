//! Replays worked out by hand.
use super::ids_to;
use sia_events::{History, TxnId, read_history};
use sia_graph::{Mismatch, ReplayFault, replay};
use std::alloc::Global;
use std::test::Fail;

macro_rules! mismatch {
    ($place:expr, $key:expr, $found:expr) => {
        Some(Mismatch {
            place: $place,
            key: $key,
            found: $found,
        })
    };
}

const READ_BEFORE: &[u8] = b"r1[1:0] w1[1] r2[1:0] r2[2:0] c2 r1[2:0] w1[2] c1";

const WRITE_SKEW: &[u8] = b"r1[1:0] r1[2:0] r2[1:0] r2[2:0] w1[2] w2[1] c1 c2";

const PHANTOMS: &[u8] = b"b1 b2 r1[10..20] r2[10..20] w1[12] w2[15] c1 c2";

const WIDE_RANGE: &[u8] = b"w1[3] w1[7] c1 r2[0..18446744073709551615;7:1] c2";

const OWN_READS: &[u8] = b"w1[1] c1 w2[1] r2[1:2] r2[0..5;1:2] c2";

const STALE_READ: &[u8] = b"w1[1] c1 w2[1] c2 w3[1] c3 r4[1:2] c4";

const NO_ORDER: Result<Option<Mismatch>, ReplayFault> = Err(ReplayFault::NotAnOrder);

/// A text, an order, and what the replay by it tells.
const REPLAYS: &[(&[u8], &[TxnId], Result<Option<Mismatch>, ReplayFault>)] = &[
    // Nothing is replayed.
    (b"", &[], Ok(None)),
    (b"r1[1:0] w2[1] r3[1:2]", &[], Ok(None)),
    // Nothing is read or written, so either order serves.
    (b"c2 c1", &[1, 2], Ok(None)),
    (b"c2 c1", &[2, 1], Ok(None)),
    // 2 read key 1 before 1 wrote it.
    (READ_BEFORE, &[2, 1], Ok(None)),
    (READ_BEFORE, &[1, 2], Ok(mismatch!(3, 1, 1))),
    // 2 finds what 1 wrote to key 2, and the other way round.
    (WRITE_SKEW, &[1, 2], Ok(mismatch!(4, 2, 1))),
    (WRITE_SKEW, &[2, 1], Ok(mismatch!(1, 1, 2))),
    // The same with ranges that listed nothing.
    (PHANTOMS, &[1, 2], Ok(mismatch!(4, 12, 1))),
    (PHANTOMS, &[2, 1], Ok(mismatch!(3, 15, 2))),
    // No read: the writes go by commit.
    (b"w1[1] w2[1] c1 c2", &[1, 2], Ok(None)),
    (b"w1[1] w2[1] c1 c2", &[2, 1], Ok(mismatch!(1, 1, 2))),
    (b"w1[1] w2[1] c2 c1", &[1, 2], Ok(mismatch!(2, 1, 1))),
    // The version that was seen is no committed one's.
    (b"w1[1] r2[1:1] c2 a1", &[2], Ok(mismatch!(2, 1, 0))),
    // An own write was missed.
    (b"w1[1] r1[1:0] c1", &[1], Ok(mismatch!(2, 1, 1))),
    // Own writes were seen; 2's version is no version before 1's.
    (OWN_READS, &[1, 2], Ok(None)),
    (OWN_READS, &[2, 1], Ok(mismatch!(1, 1, 2))),
    // 4 saw 2's version, so it comes before 3.
    (STALE_READ, &[1, 2, 4, 3], Ok(None)),
    (STALE_READ, &[1, 2, 3, 4], Ok(mismatch!(7, 1, 3))),
    // Key 3 isn't listed and has a version; before 1, key 7 is listed and has none.
    (WIDE_RANGE, &[1, 2], Ok(mismatch!(4, 3, 1))),
    (WIDE_RANGE, &[2, 1], Ok(mismatch!(4, 7, 0))),
    // One is left out, one stands twice, one isn't there.
    (READ_BEFORE, &[], NO_ORDER),
    (READ_BEFORE, &[1], NO_ORDER),
    (READ_BEFORE, &[2, 1, 2], NO_ORDER),
    (READ_BEFORE, &[2, 2], NO_ORDER),
    (READ_BEFORE, &[2, 3], NO_ORDER),
    (READ_BEFORE, &[2, 1, 3], NO_ORDER),
    // One aborted, one is open.
    (b"w1[1] r2[1:1] c2 a1", &[1, 2], NO_ORDER),
    (b"c1 b2", &[1, 2], NO_ORDER),
];

#[test]
fn replays(rt: HostRuntime) -> Result<(), Fail> {
    for (text, order, told) in REPLAYS {
        let h = read_history(rt.alloc(), text)?;
        assert_eq!(rt; replay(rt.alloc(), &h, order), *told);
    }
    Ok(())
}

/// Transactions 1 to 50,000 write key 1 and commit, one after another.
fn in_turn(alloc: Global) -> Result<History, Fail> {
    let mut text = String::new(alloc);
    for txn in 1..50_001 {
        let events = format!(in alloc; "w{txn}[1] c{txn} ")?;
        text.push_str(events.as_str())?;
    }
    let h = read_history(alloc, text.as_bytes())?;
    Ok(h)
}

#[test]
fn a_long_replay(rt: HostRuntime) -> Result<(), Fail> {
    let h = in_turn(rt.alloc())?;
    let mut order = ids_to(rt.alloc(), 50_000)?;
    let forwards = replay(rt.alloc(), &h, &order)?;
    // Backwards the second write, that of 49,999 at place 2 * 49,999 - 1, comes after a later version.
    order.reverse();
    let backwards = replay(rt.alloc(), &h, &order)?;
    assert!(rt; (forwards, backwards) == (None, mismatch!(99_997, 1, 50_000)));
    Ok(())
}
