// Devices that fail: which fault comes, and what stands written by then.
use crate::devices::FromStd;
use crate::engine::Outcome;
use crate::options::Options;
use crate::run::{RunFault, run, status};
use crate::tests::devices::{Giving, Taking};
use std::alloc::Global;
use std::io::ErrorKind;
use std::sync::Wait;
use std::test::*;
use std::thread::Threads;

const SKEW: &[u8] = b"r1[1:0] r1[2:0] r2[1:0] r2[2:0] w1[2] w2[1] c1 c2";

const SKEW_REPORT: &[u8] =
    b"events 8 committed 2 aborted 0 open 0\nisolation kept\nedge 1 rw 2 1\nedge 2 rw 1 2\npivot 1 in 2 out 2\npivot 2 in 1 out 1 first 1\nssi fail\nserializable no\ncycle 1 >rw:1> 2 >rw:2> 1\n";

const SERIAL: &[u8] = b"r1[1:0] w1[1] r2[1:0] r2[2:0] c2 r1[2:0] w1[2] c1";

const SERIAL_REPORT: &[u8] =
    b"events 8 committed 2 aborted 0 open 0\nisolation kept\nedge 2 rw 1 1\nedge 2 rw 1 2\nssi pass\nserializable yes\norder 2 1\n";

const TOO_LONG: &[u8] = b"refused: text too long\n";

const LIMIT: usize = 16_777_216;

/// A run over devices that may fail.
struct Run<'a> {
    text: &'a [u8],
    /// Spaces behind the text make it so long, where it isn't longer.
    len: usize,
    /// After how many bytes the reader fails.
    before: Option<usize>,
    /// How many bytes the writer takes a call, and then in all: from the first of two numbers to before the second.
    a_call: usize,
    rooms: (usize, usize),
    then_fails: bool,
    flush_fails: bool,
    result: Result<Outcome, RunFault>,
    status: u8,
    /// What the writer takes that has room for it.
    report: &'a [u8],
}

const SOUND: Run<'static> = Run {
    text: SERIAL,
    len: 0,
    before: None,
    a_call: usize::MAX,
    rooms: (300, 301),
    then_fails: true,
    flush_fails: false,
    result: Ok(Outcome::Clean),
    status: 0,
    report: SERIAL_REPORT,
};

const RUNS: &[Run<'static>] = &[
    // A writer that fails after so many bytes, of a report of 178.
    Run {
        text: SKEW,
        rooms: (0, 178),
        result: Err(RunFault::Write),
        status: 4,
        report: SKEW_REPORT,
        ..SOUND
    },
    Run {
        text: SKEW,
        rooms: (178, 179),
        result: Ok(Outcome::Faulty),
        status: 1,
        report: SKEW_REPORT,
        ..SOUND
    },
    // A reader that fails.
    Run {
        text: SKEW,
        before: Some(20),
        result: Err(RunFault::Read),
        status: 4,
        report: b"",
        ..SOUND
    },
    Run { a_call: 1, ..SOUND },
    // A write that takes nothing.
    Run {
        rooms: (10, 11),
        then_fails: false,
        result: Err(RunFault::Write),
        status: 4,
        ..SOUND
    },
    Run {
        flush_fails: true,
        result: Err(RunFault::Write),
        status: 4,
        ..SOUND
    },
    // A reader that fails at the limit, and one that would fail past it, which isn't asked: behind a space, or a bad token.
    Run {
        text: b" ",
        len: LIMIT + 1,
        before: Some(LIMIT),
        result: Err(RunFault::Read),
        status: 4,
        report: b"",
        ..SOUND
    },
    Run {
        text: b" ",
        len: LIMIT + 1,
        before: Some(LIMIT + 1),
        result: Ok(Outcome::Refused),
        status: 3,
        report: TOO_LONG,
        ..SOUND
    },
    Run {
        text: b"x",
        len: LIMIT + 1,
        before: Some(LIMIT + 1),
        result: Ok(Outcome::Refused),
        status: 3,
        report: TOO_LONG,
        ..SOUND
    },
];

/// Whether a run of the text ends as is said, over a writer that has room for so many bytes, and these are written.
fn ends<T: Threads + Wait + Sync>(
    rt: &T,
    alloc: Global,
    text: &[u8],
    it: &Run<'_>,
    room: usize,
) -> Result<bool, Fail> {
    let options = Options::new(alloc, 2, &[])?;
    let mut reader = FromStd::new(Giving {
        rest: text,
        a_call: usize::MAX,
        before: it.before,
        kind: ErrorKind::Other,
        calls: 0,
    });
    let mut writer = FromStd::new(Taking {
        a_call: it.a_call,
        room,
        then_fails: it.then_fails,
        flush_fails: it.flush_fails,
        ..Taking::new(alloc)?
    });
    let result = run(rt, alloc, &mut reader, &mut writer, &options);
    if result == Err(RunFault::NoMemory) {
        return Err(Fail::from(RunFault::NoMemory));
    }
    let written = &it.report[..room.min(it.report.len())];
    Ok(
        result == it.result
            && status(&result) == it.status
            && writer.device.taken.as_slice() == written,
    )
}

#[test]
fn devices_that_fail(rt: HostRuntime) -> Result<(), Fail> {
    for it in RUNS {
        let mut text = Vec::from_slice(rt.alloc(), it.text)?;
        text.resize(it.len.max(it.text.len()), b' ')?;
        for room in it.rooms.0..it.rooms.1 {
            assert!(rt; ends(&rt, rt.alloc(), text.as_slice(), it, room)?);
        }
    }
    Ok(())
}
