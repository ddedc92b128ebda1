// `FromStd` passes each call on to its device, once, and tells what the device answered. Of a device that doesn't tell its
// bytes, as a file or a pipe, no contract says so.
use crate::devices::{Failed, FromStd, Sink, Source};
use crate::tests::devices::{Giving, Taking};
use std::io::ErrorKind;
use std::test::*;

/// What a read of four bytes answers, the four bytes behind it, and whether a call has failed.
type ReadTold = (Result<usize, Failed>, [u8; 4], bool);

/// After how many bytes a device fails that gives "w1[2]", two bytes a call, and with which error; and what its reads tell.
const READS: &[(Option<usize>, ErrorKind, &[ReadTold])] = &[
    // An interrupted read is a failure.
    (
        Some(0),
        ErrorKind::Interrupted,
        &[(Err(Failed), [0, 0, 0, 0], true)],
    ),
    (
        None,
        ErrorKind::Other,
        &[
            (Ok(2), [b'w', b'1', 0, 0], false),
            (Ok(2), [b'[', b'2', 0, 0], false),
            (Ok(1), [b']', 0, 0, 0], false),
            (Ok(0), [0, 0, 0, 0], false),
        ],
    ),
    // The device recovers, and the failure is still told.
    (
        Some(3),
        ErrorKind::Other,
        &[
            (Ok(2), [b'w', b'1', 0, 0], false),
            (Ok(1), [b'[', 0, 0, 0], false),
            (Err(Failed), [0, 0, 0, 0], true),
            (Ok(2), [b'2', b']', 0, 0], true),
        ],
    ),
];

#[test]
fn reads(rt: HostRuntime) {
    for (before, kind, told) in READS {
        let mut reader = FromStd::new(Giving {
            rest: b"w1[2]",
            a_call: 2,
            before: *before,
            kind: *kind,
            calls: 0,
        });
        let mut is_told = true;
        for wanted in *told {
            let mut piece = [0; 4];
            let answer = reader.read(&mut piece);
            is_told = is_told && (answer, piece, reader.failed()) == *wanted;
        }
        assert!(rt; is_told && reader.device.calls as usize == told.len());
    }
}

/// The bytes of a write, what it answers, and whether a call has failed.
type WriteTold = (&'static [u8], Result<usize, Failed>, bool);

/// A device that takes so many bytes a call and in all, and then fails or not; what writes to it tell, and then a flush, if
/// there is one; and what it took, by how many writes and flushes.
struct OneDevice {
    a_call: usize,
    room: usize,
    then_fails: bool,
    told: &'static [WriteTold],
    flush: Option<Result<(), Failed>>,
    taken: (&'static [u8], u32, u32),
}

const WRITES: &[OneDevice] = &[
    OneDevice {
        a_call: 3,
        room: 99,
        then_fails: true,
        told: &[(b"events", Ok(3), false), (b"nt", Ok(2), false)],
        flush: None,
        taken: (b"event", 2, 0),
    },
    OneDevice {
        a_call: 3,
        room: 4,
        then_fails: true,
        told: &[
            (b"events", Ok(3), false),
            (b"nts", Ok(1), false),
            (b"ts", Err(Failed), true),
        ],
        flush: None,
        taken: (b"even", 3, 0),
    },
    // A write that takes none of some bytes is a failure.
    OneDevice {
        a_call: 3,
        room: 0,
        then_fails: false,
        told: &[(b"", Ok(0), false), (b"events", Ok(0), true)],
        flush: None,
        taken: (b"", 2, 0),
    },
    OneDevice {
        a_call: 9,
        room: 9,
        then_fails: true,
        told: &[],
        flush: Some(Ok(())),
        taken: (b"", 0, 1),
    },
    OneDevice {
        a_call: 9,
        room: 9,
        then_fails: true,
        told: &[(b"events", Ok(6), false)],
        flush: Some(Err(Failed)),
        taken: (b"events", 1, 1),
    },
];

#[test]
fn writes(rt: HostRuntime) -> Result<(), Fail> {
    for it in WRITES {
        let mut writer = FromStd::new(Taking {
            a_call: it.a_call,
            room: it.room,
            then_fails: it.then_fails,
            flush_fails: it.flush == Some(Err(Failed)),
            ..Taking::new(rt.alloc())?
        });
        let mut is_told = true;
        for (bytes, answer, has_failed) in it.told {
            let found = writer.write(bytes);
            is_told = is_told && (found, writer.failed()) == (*answer, *has_failed);
        }
        if let Some(answer) = it.flush {
            let found = writer.flush();
            is_told = is_told && (found, writer.failed()) == (answer, answer.is_err());
        }
        let device = &writer.device;
        let taken = (device.taken.as_slice(), device.writes, device.flushes);
        assert!(rt; is_told && taken == it.taken);
    }
    Ok(())
}
