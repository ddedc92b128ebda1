//! Cuttings of the keys, reads dealt to parts, and an edge by numbers.
use crate::*;
use sia_events::{Key, read_history};
use std::test::*;

const CUTTINGS: &[(&[Key], &[Part])] = &[
    (&[], &[part!(0, Key::MAX)]),
    (
        &[15, 15, 0, 11],
        &[part!(0, 10), part!(11, 14), part!(15, Key::MAX)],
    ),
];

// At most there are 1,024 parts.
#[test]
fn parts_and_numbers(rt: HostRuntime) -> Result<(), Fail> {
    for (points, wanted) in CUTTINGS {
        let parts = cut(rt.alloc(), points)?;
        assert!(rt; parts.as_slice() == *wanted, "{points:?}");
    }
    let mut points = Vec::new(rt.alloc());
    for point in 1..1024 {
        points.push(point)?;
    }
    assert!(rt; cut(rt.alloc(), &points)?.len() == 1024);
    points.push(1024)?;
    assert_eq!(rt; cut(rt.alloc(), &points).err(), Some(CutFault::TooMany));
    // Of the committed 2 and 5 the first is number 0, and the second is number 1.
    let row = EdgeTo {
        target: 1,
        kind: Kind::Wr,
        key: 0,
    };
    assert!(rt; row.named(&[2, 5], &[7], 0) == edge!(2, Wr, 5, 7));
    Ok(())
}

// 2's range at place 5 is of the keys on both sides of a cut, and so is 3's at place 9. An own write is read at places 3 and 7.
const DEALT: &[&[u32]] = &[&[1, 3, 5], &[5, 9], &[7, 9], &[]];
// One part has all reads, transaction by transaction, and 2 comes first in the log.
const WHOLE: &[u32] = &[1, 5, 7, 3, 9];

#[test]
fn reads_of_parts(rt: HostRuntime) -> Result<(), Fail> {
    let text = b"r2[3:0] w1[3] r1[3:1] c1 r2[1..8;3:1] w2[9] r2[9:2] c2 r3[8..9]";
    let history = read_history(rt.alloc(), text)?;
    let parts = cut(rt.alloc(), &[5, 9, 10])?;
    let reads = Reads::of(rt.alloc(), history.log(), &parts)?;
    for (i, wanted) in DEALT.iter().enumerate() {
        assert!(rt; reads.of_part(i) == *wanted, "part {i}");
    }
    assert!(rt; reads.of_part(4).is_empty());
    let whole = Reads::of(rt.alloc(), history.log(), &cut(rt.alloc(), &[])?)?;
    assert!(rt; whole.of_part(0) == WHOLE);
    Ok(())
}
