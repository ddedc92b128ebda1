// The reports of worked histories, in each form and at each level, by one, two, three and 64 workers.
use crate::account::report;
use crate::audit::audit;
use crate::devices::FromStd;
use crate::engine::Outcome;
use crate::options::{Form, Level, Options};
use crate::run::run;
use crate::tests::forms::{BRIEF, EXPLAINED, SNAPSHOTS};
use sia_events::{Key, Limits, NoMemory, read_history};
use std::alloc::Global;
use std::sync::Wait;
use std::test::*;
use std::thread::Threads;

/// The levels, and the outcome at each.
pub(crate) type Outcomes = &'static [(Level, Outcome)];

/// A text, the cuts of its keys, the form of its report, the report, and the outcomes.
pub(crate) type Row = (&'static [u8], &'static [Key], Form, &'static [u8], Outcomes);

/// Isolation was kept, with a serial order, and no pivot's last transaction commits first.
pub(crate) const KEPT: Outcomes = &[
    (Level::Serializable, Outcome::Clean),
    (Level::Ssi, Outcome::Clean),
    (Level::Si, Outcome::Clean),
    (Level::Gsi, Outcome::Clean),
];

/// Isolation was kept, with a serial order, and the last transaction of a pivot commits first.
pub(crate) const NOT_SSI: Outcomes = &[
    (Level::Serializable, Outcome::Clean),
    (Level::Ssi, Outcome::Faulty),
    (Level::Si, Outcome::Clean),
    (Level::Gsi, Outcome::Clean),
];

/// Isolation was kept, and no serial order replays the history.
pub(crate) const NO_ORDER: Outcomes = &[
    (Level::Serializable, Outcome::Faulty),
    (Level::Ssi, Outcome::Faulty),
    (Level::Si, Outcome::Clean),
    (Level::Gsi, Outcome::Clean),
];

/// Isolation was broken, and some snapshot fits each transaction.
pub(crate) const GENERALIZED: Outcomes = &[
    (Level::Serializable, Outcome::Faulty),
    (Level::Ssi, Outcome::Faulty),
    (Level::Si, Outcome::Faulty),
    (Level::Gsi, Outcome::Clean),
];

/// Isolation was broken, and no snapshot fits some transaction.
pub(crate) const BROKEN: Outcomes = &[
    (Level::Serializable, Outcome::Faulty),
    (Level::Ssi, Outcome::Faulty),
    (Level::Si, Outcome::Faulty),
    (Level::Gsi, Outcome::Faulty),
];

/// The text is no history.
pub(crate) const UNREAD: Outcomes = &[
    (Level::Serializable, Outcome::Refused),
    (Level::Ssi, Outcome::Refused),
    (Level::Si, Outcome::Refused),
    (Level::Gsi, Outcome::Refused),
];

const HISTORIES: &[Row] = &[
    // no event
    (
        b"",
        &[],
        Form::Full,
        b"events 0 committed 0 aborted 0 open 0\nisolation kept\nssi pass\nserializable yes\norder\n",
        KEPT,
    ),
    // an anomaly that isn't one
    (
        b"r1[1:0] w1[1] r2[1:0] r2[2:0] c2 r1[2:0] w1[2] c1",
        &[],
        Form::Full,
        b"events 8 committed 2 aborted 0 open 0\nisolation kept\nedge 2 rw 1 1\nedge 2 rw 1 2\nssi pass\nserializable yes\norder 2 1\n",
        KEPT,
    ),
    // the first and the last key
    (
        b"r1[0..18446744073709551615] w2[0] w2[18446744073709551615] c2 c1",
        &[0, 18446744073709551615],
        Form::Full,
        b"events 5 committed 2 aborted 0 open 0\nisolation kept\nedge 1 rw 2 0\nedge 1 rw 2 18446744073709551615\nssi pass\nserializable yes\norder 1 2\n",
        KEPT,
    ),
    // own reads
    (
        b"w1[1] c1 w2[1] r2[1:2] r2[0..5;1:2] c2",
        &[],
        Form::Full,
        b"events 6 committed 2 aborted 0 open 0\nisolation kept\nedge 1 ww 2 1\nssi pass\nserializable yes\norder 1 2\n",
        KEPT,
    ),
    // one commit
    (
        b"c7",
        &[],
        Form::Full,
        b"events 1 committed 1 aborted 0 open 0\nisolation kept\nssi pass\nserializable yes\norder 7\n",
        KEPT,
    ),
    // a key covered twice
    (
        b"r1[1:0] r1[0..5] w2[1] c2 c1",
        &[],
        Form::Full,
        b"events 5 committed 2 aborted 0 open 0\nisolation kept\nedge 1 rw 2 1\nssi pass\nserializable yes\norder 1 2\n",
        KEPT,
    ),
    // a pivot without a cycle
    (
        b"r1[1:0] r2[2:0] w2[1] w3[2] c3 c2 c1",
        &[],
        Form::Full,
        b"events 7 committed 3 aborted 0 open 0\nisolation kept\nedge 1 rw 2 1\nedge 2 rw 3 2\npivot 2 in 1 out 3 first 3\nssi fail\nserializable yes\norder 1 2 3\n",
        NOT_SSI,
    ),
    // several neighbours
    (
        b"r1[1:0] r4294967295[1:0] r2[2:0] r2[3:0] w2[1] w3[2] w4[3] c3 c4 c2 c1 c4294967295",
        &[],
        Form::Full,
        b"events 12 committed 5 aborted 0 open 0\nisolation kept\nedge 1 rw 2 1\nedge 2 rw 3 2\nedge 2 rw 4 3\nedge 4294967295 rw 2 1\npivot 2 in 1 4294967295 out 3 4 first 3 4\nssi fail\nserializable yes\norder 1 4294967295 2 3 4\n",
        NOT_SSI,
    ),
    // the last to commit isn't first
    (
        b"r1[1:0] r2[2:0] w2[1] w3[2] c1 c2 c3",
        &[],
        Form::Full,
        b"events 7 committed 3 aborted 0 open 0\nisolation kept\nedge 1 rw 2 1\nedge 2 rw 3 2\npivot 2 in 1 out 3\nssi pass\nserializable yes\norder 1 2 3\n",
        KEPT,
    ),
    // it commits after the first
    (
        b"r1[1:0] r2[2:0] w2[1] w3[2] c1 c3 c2",
        &[],
        Form::Full,
        b"events 7 committed 3 aborted 0 open 0\nisolation kept\nedge 1 rw 2 1\nedge 2 rw 3 2\npivot 2 in 1 out 3\nssi pass\nserializable yes\norder 1 2 3\n",
        KEPT,
    ),
    // a named start before a commit
    (
        b"w1[1] c1 b2@0 r2[1:0] c2",
        &[],
        Form::Full,
        b"events 5 committed 2 aborted 0 open 0\nisolation kept\nedge 2 rw 1 1\nssi pass\nserializable yes\norder 2 1\n",
        KEPT,
    ),
    // a named start after a commit
    (
        b"w1[1] c1 b2@2 w2[1] c2",
        &[],
        Form::Full,
        b"events 5 committed 2 aborted 0 open 0\nisolation kept\nedge 1 ww 2 1\nssi pass\nserializable yes\norder 1 2\n",
        KEPT,
    ),
    // one named start
    (
        b"b1@0",
        &[],
        Form::Full,
        b"events 1 committed 0 aborted 0 open 1\nisolation kept\nssi pass\nserializable yes\norder\n",
        KEPT,
    ),
    // a range read that lists version 0
    (
        b"r1[3..9;5:0]",
        &[],
        Form::Full,
        b"events 1 committed 0 aborted 0 open 1\nisolation kept\nssi pass\nserializable yes\norder\n",
        KEPT,
    ),
    // write skew
    (
        b"r1[1:0] r1[2:0] r2[1:0] r2[2:0] w1[2] w2[1] c1 c2",
        &[],
        Form::Full,
        b"events 8 committed 2 aborted 0 open 0\nisolation kept\nedge 1 rw 2 1\nedge 2 rw 1 2\npivot 1 in 2 out 2\npivot 2 in 1 out 1 first 1\nssi fail\nserializable no\ncycle 1 >rw:1> 2 >rw:2> 1\n",
        NO_ORDER,
    ),
    // read-only anomaly
    (
        b"r2[1:0] r2[2:0] r1[2:0] w1[2] c1 r3[1:0] r3[2:1] c3 w2[1] c2",
        &[],
        Form::Full,
        b"events 10 committed 3 aborted 0 open 0\nisolation kept\nedge 1 wr 3 2\nedge 2 rw 1 2\nedge 3 rw 2 1\npivot 2 in 3 out 1 first 1\nssi fail\nserializable no\ncycle 1 >wr:2> 3 >rw:1> 2 >rw:2> 1\n",
        NO_ORDER,
    ),
    // lost update
    (
        b"r1[1:0] r2[1:0] w1[1] w2[1] c1 c2",
        &[],
        Form::Full,
        b"events 6 committed 2 aborted 0 open 0\nisolation broken\nbad-write 1 1 2\nedge 1 ww 2 1\nedge 1 rw 2 1\nedge 2 rw 1 1\npivot 1 in 2 out 2\npivot 2 in 1 out 1 first 1\nssi fail\nserializable no\ncycle 1 >ww:1> 2 >rw:1> 1\n",
        BROKEN,
    ),
    // two writers
    (
        b"w1[1] w2[1] c1 c2",
        &[],
        Form::Full,
        b"events 4 committed 2 aborted 0 open 0\nisolation broken\nbad-write 1 1 2\nedge 1 ww 2 1\nssi fail\nserializable yes\norder 1 2\n",
        BROKEN,
    ),
    // phantoms
    (
        b"b1 b2 r1[10..20] r2[10..20] w1[12] w2[15] c1 c2",
        &[],
        Form::Full,
        b"events 8 committed 2 aborted 0 open 0\nisolation kept\nedge 1 rw 2 15\nedge 2 rw 1 12\npivot 1 in 2 out 2\npivot 2 in 1 out 1 first 1\nssi fail\nserializable no\ncycle 1 >rw:15> 2 >rw:12> 1\n",
        NO_ORDER,
    ),
    // phantoms, cut between
    (
        b"b1 b2 r1[10..20] r2[10..20] w1[12] w2[15] c1 c2",
        &[14],
        Form::Full,
        b"events 8 committed 2 aborted 0 open 0\nisolation kept\nedge 1 rw 2 15\nedge 2 rw 1 12\npivot 1 in 2 out 2\npivot 2 in 1 out 1 first 1\nssi fail\nserializable no\ncycle 1 >rw:15> 2 >rw:12> 1\n",
        NO_ORDER,
    ),
    // phantoms, cut in three
    (
        b"b1 b2 r1[10..20] r2[10..20] w1[12] w2[15] c1 c2",
        &[15, 15, 0, 11],
        Form::Full,
        b"events 8 committed 2 aborted 0 open 0\nisolation kept\nedge 1 rw 2 15\nedge 2 rw 1 12\npivot 1 in 2 out 2\npivot 2 in 1 out 1 first 1\nssi fail\nserializable no\ncycle 1 >rw:15> 2 >rw:12> 1\n",
        NO_ORDER,
    ),
    // aborted version read
    (
        b"w1[1] r2[1:1] c2 a1",
        &[],
        Form::Full,
        b"events 4 committed 1 aborted 1 open 0\nisolation broken\nbad-read 2 2 1 saw 1 due 0\nunexplained 2 2 1 1\nssi fail\nserializable no\norder 2\n",
        BROKEN,
    ),
    // own write lost
    (
        b"w1[1] r1[1:0] c1",
        &[],
        Form::Full,
        b"events 3 committed 1 aborted 0 open 0\nisolation broken\nbad-read 2 1 1 saw 0 due 1\nunexplained 2 1 1 0\nssi fail\nserializable no\norder 1\n",
        BROKEN,
    ),
    // stale read
    (
        b"w1[1] c1 w2[1] c2 w3[1] c3 r4[1:2] c4",
        &[],
        Form::Full,
        b"events 8 committed 4 aborted 0 open 0\nisolation broken\nbad-read 7 4 1 saw 2 due 3\nedge 1 ww 2 1\nedge 1 ww 3 1\nedge 1 wr 4 1\nedge 2 ww 3 1\nedge 2 wr 4 1\nedge 4 rw 3 1\nssi fail\nserializable yes\norder 1 2 4 3\n",
        GENERALIZED,
    ),
    // a transaction behind a cycle
    (
        b"r2[1:0] r2[2:0] r3[1:0] r3[2:0] w2[2] w3[1] c2 c3 r1[1:3] c1",
        &[],
        Form::Full,
        b"events 10 committed 3 aborted 0 open 0\nisolation kept\nedge 2 rw 3 1\nedge 3 wr 1 1\nedge 3 rw 2 2\npivot 2 in 3 out 3\npivot 3 in 2 out 2 first 2\nssi fail\nserializable no\ncycle 2 >rw:1> 3 >rw:2> 2\n",
        NO_ORDER,
    ),
    // a read as of its place
    (
        b"r1[2:0] w2[1] c2 r1[1:2] c1",
        &[],
        Form::Full,
        b"events 5 committed 2 aborted 0 open 0\nisolation broken\nbad-read 4 1 1 saw 2 due 0\nedge 2 wr 1 1\nssi fail\nserializable yes\norder 2 1\n",
        BROKEN,
    ),
    // open transactions
    (
        b"r1[1:0] w2[1] r3[1:2]",
        &[],
        Form::Full,
        b"events 3 committed 0 aborted 0 open 3\nisolation broken\nbad-read 3 3 1 saw 2 due 0\nssi fail\nserializable yes\norder\n",
        BROKEN,
    ),
    // two edges, one without overlap
    (
        b"w3[1] c3 r2[1:0] r1[2:0] w2[2] c2 c1",
        &[],
        Form::Full,
        b"events 7 committed 3 aborted 0 open 0\nisolation broken\nbad-read 3 2 1 saw 0 due 3\nedge 1 rw 2 2\nedge 2 rw 3 1\nssi fail\nserializable yes\norder 1 2 3\n",
        GENERALIZED,
    ),
    // own write missed by a range
    (
        b"w1[3] r1[0..9]",
        &[],
        Form::Full,
        b"events 2 committed 0 aborted 0 open 1\nisolation broken\nbad-read 2 1 3 saw 0 due 1\nssi fail\nserializable yes\norder\n",
        BROKEN,
    ),
    // a read of an older snapshot
    (
        b"w1[1] c1 b2 r2[1:0] c2",
        &[],
        Form::Full,
        b"events 5 committed 2 aborted 0 open 0\nisolation broken\nbad-read 4 2 1 saw 0 due 1\nedge 2 rw 1 1\nssi fail\nserializable yes\norder 2 1\n",
        GENERALIZED,
    ),
    // a named start between a write and its commit
    (
        b"w1[1] c1 b2@1 w2[1] c2",
        &[],
        Form::Full,
        b"events 5 committed 2 aborted 0 open 0\nisolation broken\nbad-write 1 1 2\nedge 1 ww 2 1\nssi fail\nserializable yes\norder 1 2\n",
        GENERALIZED,
    ),
];

const REFUSED: &[Row] = &[
    (
        b"r1[5:2] w2[5]",
        &[],
        Form::Full,
        b"refused: token 1: version not written\n",
        UNREAD,
    ),
    (
        b"r1[1:0] c1 b1",
        &[],
        Form::Full,
        b"refused: token 3: transaction already ended\n",
        UNREAD,
    ),
    (
        b"r1[1:0] b1",
        &[],
        Form::Full,
        b"refused: token 2: transaction already begun\n",
        UNREAD,
    ),
    (
        b"r1[9..3]",
        &[],
        Form::Full,
        b"refused: token 1: empty range\n",
        UNREAD,
    ),
    (
        b"r1[9..3;1:0]",
        &[],
        Form::Full,
        b"refused: token 1: empty range\n",
        UNREAD,
    ),
    (
        b"r1[3..9;5:0,5:0]",
        &[],
        Form::Full,
        b"refused: token 1: bad list\n",
        UNREAD,
    ),
    (
        b"r1[3..9;10:0]",
        &[],
        Form::Full,
        b"refused: token 1: bad list\n",
        UNREAD,
    ),
    (
        b"r1[3..9;5:2,5:0]",
        &[],
        Form::Full,
        b"refused: token 1: bad list\n",
        UNREAD,
    ),
    (
        b"r0[1:0]",
        &[],
        Form::Full,
        b"refused: token 1: number out of range\n",
        UNREAD,
    ),
    (
        b"c1 r0[9..3]",
        &[],
        Form::Full,
        b"refused: token 2: number out of range\n",
        UNREAD,
    ),
    (
        b"r4294967296[1:0]",
        &[],
        Form::Full,
        b"refused: token 1: number out of range\n",
        UNREAD,
    ),
    (
        b"r1[1:4294967296]",
        &[],
        Form::Full,
        b"refused: token 1: number out of range\n",
        UNREAD,
    ),
    (
        b"r1[18446744073709551616:0]",
        &[],
        Form::Full,
        b"refused: token 1: number out of range\n",
        UNREAD,
    ),
    (
        b"r01[1:0]",
        &[],
        Form::Full,
        b"refused: token 1: bad event\n",
        UNREAD,
    ),
    (
        b"r1[1:",
        &[],
        Form::Full,
        b"refused: token 1: bad event\n",
        UNREAD,
    ),
    (
        b"r1[0..5;]",
        &[],
        Form::Full,
        b"refused: token 1: bad event\n",
        UNREAD,
    ),
    (
        b"b1c1",
        &[],
        Form::Full,
        b"refused: token 1: bad event\n",
        UNREAD,
    ),
    (
        b"R1[1:0]",
        &[],
        Form::Full,
        b"refused: token 1: bad event\n",
        UNREAD,
    ),
    (
        b"r1[5:1] w1[5]",
        &[],
        Form::Full,
        b"refused: token 1: version not written\n",
        UNREAD,
    ),
    (
        b"b1@1",
        &[],
        Form::Full,
        b"refused: token 1: start too late\n",
        UNREAD,
    ),
    (
        b"c1 b2@2",
        &[],
        Form::Full,
        b"refused: token 2: start too late\n",
        UNREAD,
    ),
    (
        b"b1@4294967295",
        &[],
        Form::Full,
        b"refused: token 1: start too late\n",
        UNREAD,
    ),
    (
        b"b1@4294967296",
        &[],
        Form::Full,
        b"refused: token 1: number out of range\n",
        UNREAD,
    ),
    (
        b"b1@",
        &[],
        Form::Full,
        b"refused: token 1: bad event\n",
        UNREAD,
    ),
    (
        b"b1@00",
        &[],
        Form::Full,
        b"refused: token 1: bad event\n",
        UNREAD,
    ),
    (
        b"b@0",
        &[],
        Form::Full,
        b"refused: token 1: bad event\n",
        UNREAD,
    ),
    (
        b"b1 b1@9",
        &[],
        Form::Full,
        b"refused: token 2: transaction already begun\n",
        UNREAD,
    ),
    (
        b"c1 b1@9",
        &[],
        Form::Full,
        b"refused: token 2: transaction already ended\n",
        UNREAD,
    ),
    // fronts of a token, which is whole in the last history above
    (
        b"r",
        &[],
        Form::Full,
        b"refused: token 1: bad event\n",
        UNREAD,
    ),
    (
        b"r1",
        &[],
        Form::Full,
        b"refused: token 1: bad event\n",
        UNREAD,
    ),
    (
        b"r1[",
        &[],
        Form::Full,
        b"refused: token 1: bad event\n",
        UNREAD,
    ),
    (
        b"r1[3",
        &[],
        Form::Full,
        b"refused: token 1: bad event\n",
        UNREAD,
    ),
    (
        b"r1[3.",
        &[],
        Form::Full,
        b"refused: token 1: bad event\n",
        UNREAD,
    ),
    (
        b"r1[3..",
        &[],
        Form::Full,
        b"refused: token 1: bad event\n",
        UNREAD,
    ),
    (
        b"r1[3..9",
        &[],
        Form::Full,
        b"refused: token 1: bad event\n",
        UNREAD,
    ),
    (
        b"r1[3..9;",
        &[],
        Form::Full,
        b"refused: token 1: bad event\n",
        UNREAD,
    ),
    (
        b"r1[3..9;5",
        &[],
        Form::Full,
        b"refused: token 1: bad event\n",
        UNREAD,
    ),
    (
        b"r1[3..9;5:",
        &[],
        Form::Full,
        b"refused: token 1: bad event\n",
        UNREAD,
    ),
    (
        b"r1[3..9;5:0",
        &[],
        Form::Full,
        b"refused: token 1: bad event\n",
        UNREAD,
    ),
    // bytes that separate nothing
    (
        b"\x00",
        &[],
        Form::Full,
        b"refused: token 1: bad event\n",
        UNREAD,
    ),
    (
        b"\xff",
        &[],
        Form::Full,
        b"refused: token 1: bad event\n",
        UNREAD,
    ),
    (
        b"c1\x0bc2",
        &[],
        Form::Full,
        b"refused: token 1: bad event\n",
        UNREAD,
    ),
];

/// Whether a run writes the report of the row, and ends with the outcome.
fn is_told<T: Threads + Wait + Sync>(
    rt: &T,
    alloc: Global,
    row: &Row,
    workers: u8,
    level: Level,
    outcome: Outcome,
) -> Result<bool, Fail> {
    let (text, cuts, form, report, _) = *row;
    let options = Options::new(alloc, workers, cuts)?
        .with_form(form)
        .with_level(level);
    let mut reader = FromStd::new(text);
    // The writer takes what is written without asking for memory, so that a call which finds none is one of the program's.
    let mut writer = FromStd::new(Vec::with_capacity(alloc, 65536)?);
    let ended = run(rt, alloc, &mut reader, &mut writer, &options)?;
    Ok(ended == outcome && writer.device.as_slice() == report)
}

/// Whether the report of the history's audit, whose edges are no numbers, is that of the row.
fn is_audited<T: Threads + Wait + Sync>(rt: &T, alloc: Global, row: &Row) -> Result<bool, Fail> {
    let (text, cuts, _, wanted, _) = *row;
    let options = Options::new(alloc, 2, cuts)?;
    let h = read_history(alloc, text)?;
    let a = audit(rt, alloc, &h, &options)?;
    let bytes = report(alloc, &a)?;
    Ok(bytes.as_slice() == wanted)
}

#[test]
fn reports(rt: HostRuntime) -> Result<(), Fail> {
    for rows in [HISTORIES, REFUSED, BRIEF, EXPLAINED, SNAPSHOTS] {
        for row in rows {
            for (level, outcome) in row.4 {
                for workers in [1, 2, 3, 64] {
                    assert!(rt; is_told(&rt, rt.alloc(), row, workers, *level, *outcome)?);
                }
            }
        }
    }
    for row in HISTORIES {
        assert!(rt; is_audited(&rt, rt.alloc(), row)?);
    }
    Ok(())
}

/// What a history comes to that reads so much that its keys are cut where no cut is named, worked out by hand.
const MUCH_READ: &[u8] =
    b"events 6043 committed 2 aborted 0 open 0\nisolation broken\nbad-read 6042 2 10 saw 0 due 1\nssi fail\nserializable no\ncycle 1 >wr:1> 2 >rw:10> 1\n";

#[test]
fn even_cuts(rt: HostRuntime) -> Result<(), Fail> {
    let mut text = Vec::from_slice(
        rt.alloc(),
        b"w1[1] w1[2] w1[3] w1[4] w1[5] w1[6] w1[7] w1[8] w1[9] w1[10] w1[11] w1[12] w1[13] w1[14] w1[15] w1[16] w1[17] w1[18] w1[19] w1[20] w1[21] w1[22] w1[23] w1[24] w1[25] w1[26] w1[27] w1[28] w1[29] w1[30] w1[31] w1[32] w1[33] w1[34] w1[35] w1[36] w1[37] w1[38] w1[39] w1[40] c1 ",
    )?;
    for _ in 0..6000 {
        text.extend_from_slice(
            b"r2[1..40;1:1,2:1,3:1,4:1,5:1,6:1,7:1,8:1,9:1,10:1,11:1,12:1,13:1,14:1,15:1,16:1,17:1,18:1,19:1,20:1,21:1,22:1,23:1,24:1,25:1,26:1,27:1,28:1,29:1,30:1,31:1,32:1,33:1,34:1,35:1,36:1,37:1,38:1,39:1,40:1] ",
        )?;
    }
    text.extend_from_slice(b"r2[10:0] c2")?;
    for workers in [1, 2, 64] {
        let options = Options::new(rt.alloc(), workers, &[])?.with_form(Form::Brief);
        let mut reader = FromStd::new(text.as_slice());
        let mut writer = FromStd::new(Vec::with_capacity(rt.alloc(), 256)?);
        run(&rt, rt.alloc(), &mut reader, &mut writer, &options)?;
        assert_eq!(rt; writer.device.as_slice(), MUCH_READ);
    }
    Ok(())
}

/// A text, the most events and bytes that it may have, and its brief report.
const LIMITED: &[(&[u8], u64, u64, &[u8])] = &[
    (
        b"w1[1] c1 ",
        2,
        9,
        b"events 2 committed 1 aborted 0 open 0\nisolation kept\nssi pass\nserializable yes\norder 1\n",
    ),
    (b"w1[1] c1 ", 1, 9, b"refused: token 2: too many events\n"),
    (b"w1[1] c1 ", 2, 8, b"refused: text too long\n"),
    // The text is refused for its length, whatever else it holds.
    (b"w1[1] c1 c1", 1, 10, b"refused: text too long\n"),
    (
        b"",
        1,
        1,
        b"events 0 committed 0 aborted 0 open 0\nisolation kept\nssi pass\nserializable yes\norder\n",
    ),
];

#[test]
fn limits(rt: HostRuntime) -> Result<(), Fail> {
    for (text, events, bytes, report) in LIMITED {
        let Some(limits) = Limits::new(*events, *bytes) else {
            return Err(Fail::from(NoMemory));
        };
        let options = Options::new(rt.alloc(), 1, &[])?
            .with_form(Form::Brief)
            .with_limits(limits);
        let mut reader = FromStd::new(*text);
        let mut writer = FromStd::new(Vec::with_capacity(rt.alloc(), 256)?);
        run(&rt, rt.alloc(), &mut reader, &mut writer, &options)?;
        assert_eq!(rt; writer.device.as_slice(), *report);
    }
    Ok(())
}
