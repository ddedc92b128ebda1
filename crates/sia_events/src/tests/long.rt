//! Long texts: one that reads what many have written, and the limits from both sides.
use super::*;
use std::fmt::Write;

/// 1,200 writes of keys in an order of their own, by seven transactions, and range reads of these keys. The first lists all,
/// and the others each second, each twelfth and each thousandth. Then many writes of two keys, and reads of each of them.
fn push_many(text: &mut String) -> Result<(), Fail> {
    for i in 0u64..1200 {
        let key = i * 37 % 1200;
        let txn = key % 7 + 1;
        write!(text, "w{txn}[{key}] ")?;
    }
    for step in [1, 2, 12, 1000] {
        text.push_str("r9[0..1200;0:1")?;
        for key in 1u64..1200 {
            if key.checked_rem(step) == Some(0) {
                let txn = key % 7 + 1;
                write!(text, ",{key}:{txn}")?;
            }
        }
        text.push_str("] ")?;
    }
    for txn in 1..100 {
        write!(text, "w{txn}[5005] w{txn}[5006] ")?;
    }
    for txn in 1..100 {
        let other = 100u32.saturating_sub(txn);
        write!(
            text,
            "r200[5005..5006;5005:{txn},5006:{other}] r200[5005:{txn}] "
        )?;
    }
    Ok(())
}

const UNWRITTEN: TextFault = TextFault::Refused {
    token: 1601,
    reason: Reason::NotWritten,
};

/// Whether the many writes and their reads come first. Then a front, what follows it how many times, and how many events are read,
/// or why the text is refused.
const LONG: &[(bool, &str, &str, u32, Result<u32, TextFault>)] = &[
    (true, "", "", 0, Ok(1600)),
    (true, "r9[0..9;0:1,1:3]", "", 0, Err(UNWRITTEN)),
    (
        true,
        "r200[5005..5006;5005:99,5006:100]",
        "",
        0,
        Err(UNWRITTEN),
    ),
    (false, "", "r1[1:0] ", 100_000, Ok(100_000)),
    (
        false,
        "r1[1:0]",
        " r1[1:0]",
        100_000,
        Err(TextFault::Refused {
            token: 100_001,
            reason: Reason::TooManyEvents,
        }),
    ),
    (false, "", " ", 16_777_216, Ok(0)),
    (false, "", " ", 16_777_217, Err(TextFault::TextTooLong)),
    (
        false,
        "x",
        " ",
        16_777_215,
        Err(TextFault::Refused {
            token: 1,
            reason: Reason::BadEvent,
        }),
    ),
    (false, "x", " ", 16_777_216, Err(TextFault::TextTooLong)),
    (
        false,
        "c",
        "1",
        16_777_215,
        Err(TextFault::Refused {
            token: 1,
            reason: Reason::BadNumber,
        }),
    ),
    (
        false,
        "r",
        "1",
        16_777_215,
        Err(TextFault::Refused {
            token: 1,
            reason: Reason::BadEvent,
        }),
    ),
];

/// The most events and the most bytes, a text, and how many events are read, or why it is refused.
const LIMITED: &[(u64, u64, &[u8], Result<u32, TextFault>)] = &[
    (2, 5, b"c1 c2", Ok(2)),
    (3, 5, b"c1 c2\n", Err(TextFault::TextTooLong)),
    (2, 4, b"c1 c2", Err(TextFault::TextTooLong)),
    (2, 9, b"c1 c2 b3", Err(TOO_MANY)),
    (2, 9, b"c1 c2 x", Err(TOO_MANY)),
    (2, 7, b"c1 c2 b3", Err(TextFault::TextTooLong)),
    (0, 0, b"", Ok(0)),
    (0, 1, b"\n", Ok(0)),
    (500_000_000, 17_179_869_184, b"c1 c2", Ok(2)),
];

const TOO_MANY: TextFault = TextFault::Refused {
    token: 3,
    reason: Reason::TooManyEvents,
};

#[test]
fn chosen_limits(rt: HostRuntime) {
    for (events, bytes, text, wanted) in LIMITED {
        for size in 1..=text.len() + 1 {
            let Some(limits) = Limits::new(*events, *bytes) else {
                panic!(rt; "no limits");
            };
            let reader = TextReader::with_limits(rt.alloc(), limits);
            match read_pieces(&rt, reader, text, size, &mut Locator::new()) {
                Ok(history) => assert!(rt; Ok(history.len()) == *wanted),
                Err(fault) => assert_eq!(rt; Err(fault), *wanted),
            }
        }
    }
    assert!(rt; Limits::new(500_000_001, 0).is_none());
    assert!(rt; Limits::new(0, 17_179_869_185).is_none());
}

/// Under the standard limits.
#[test]
fn long_texts(rt: HostRuntime) -> Result<(), Fail> {
    for (are_many, front, again, times, wanted) in LONG {
        let mut text = String::new(rt.alloc());
        if *are_many {
            push_many(&mut text)?;
        }
        for at in 0..=*times {
            text.push_str(if at == 0 { front } else { again })?;
        }
        for size in &[0, 65_536] {
            match read(&rt, text.as_bytes(), *size, &mut Locator::new()) {
                Ok(history) => assert!(rt; Ok(history.len()) == *wanted),
                Err(fault) => assert_eq!(rt; Err(fault), *wanted),
            }
        }
    }
    Ok(())
}
