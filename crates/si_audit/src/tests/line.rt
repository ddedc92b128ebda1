//! Command lines: what the program's words give, worked out by hand.
use crate::options::{Form, Level, Options};
use crate::words::{LineFault, options_from};
use sia_events::{Key, NoMemory};
use sia_parts::Part;
use std::alloc::{AllocError, Global};
use std::test::*;

/// How many parts there are, the first, and the last.
type Parts = (usize, Part, Part);

/// What options give: the number of workers, the parts, the form and the level.
type Given = (u8, Parts, Form, Level);

/// Words, up to which number each is a word behind them, and what they give, or else the kind of their answer and what its
/// text contains.
type Row = (
    &'static [&'static str],
    Key,
    Result<Given, (&'static str, &'static str)>,
);

macro_rules! part {
    ($lo:expr, $hi:expr) => {
        Part { lo: $lo, hi: $hi }
    };
}

const WHOLE: Parts = (1, part!(0, Key::MAX), part!(0, Key::MAX));

const CUT_AT_14: Parts = (2, part!(0, 13), part!(14, Key::MAX));

const CUT_AT_THE_END: Parts = (2, part!(0, Key::MAX - 1), part!(Key::MAX, Key::MAX));

const CUT_OFTEN: Parts = (1024, part!(0, 0), part!(1023, Key::MAX));

const LINES: &[Row] = &[
    (
        &["si_audit"],
        0,
        Ok((4, WHOLE, Form::Full, Level::Serializable)),
    ),
    (
        &["si_audit", "--brief"],
        0,
        Ok((4, WHOLE, Form::Brief, Level::Serializable)),
    ),
    (
        &["si_audit", "--brief", "14", "--brief"],
        0,
        Ok((4, CUT_AT_14, Form::Brief, Level::Serializable)),
    ),
    (
        &["si_audit", "--check", "si"],
        0,
        Ok((4, WHOLE, Form::Full, Level::Si)),
    ),
    (
        &["si_audit", "--check=ssi", "--brief"],
        0,
        Ok((4, WHOLE, Form::Brief, Level::Ssi)),
    ),
    (
        &["si_audit", "--check", "gsi"],
        0,
        Ok((4, WHOLE, Form::Full, Level::Gsi)),
    ),
    (
        &["si_audit", "--check", "serializable"],
        0,
        Ok((4, WHOLE, Form::Full, Level::Serializable)),
    ),
    (
        &["si_audit", "--workers", "64", "14"],
        0,
        Ok((64, CUT_AT_14, Form::Full, Level::Serializable)),
    ),
    (
        &["si_audit", "14", "--workers=64"],
        0,
        Ok((64, CUT_AT_14, Form::Full, Level::Serializable)),
    ),
    (
        &["si_audit", "--workers", "+64", "--", "+014", "0", "14"],
        0,
        Ok((64, CUT_AT_14, Form::Full, Level::Serializable)),
    ),
    (
        &["", "0", "14", "--workers", "64", "14"],
        0,
        Ok((64, CUT_AT_14, Form::Full, Level::Serializable)),
    ),
    (
        &["si_audit", "--workers", "0064", "00014"],
        0,
        Ok((64, CUT_AT_14, Form::Full, Level::Serializable)),
    ),
    (
        &["si_audit", "18446744073709551615", "0"],
        0,
        Ok((4, CUT_AT_THE_END, Form::Full, Level::Serializable)),
    ),
    (
        &["si_audit", "--check", "SI"],
        0,
        Err(("unknown level", "")),
    ),
    (&["si_audit", "--check", ""], 0, Err(("unknown level", ""))),
    (
        &["si_audit", "--check", "snapshot"],
        0,
        Err(("unknown level", "")),
    ),
    (
        &["si_audit", "--help"],
        0,
        Err(("help", "Usage: si_audit [OPTIONS] [CUT]...")),
    ),
    (&["si_audit", "-h"], 0, Err(("help", "--workers <N>"))),
    (
        &["si_audit", "--workers", "64", "14", "--help", "x"],
        0,
        Err(("help", "[default: 4]")),
    ),
    (
        &["si_audit", "--version"],
        0,
        Err(("help", "si_audit 0.2.0 (Rattle logic ")),
    ),
    (
        &["si_audit", "-V"],
        0,
        Err(("help", "si_audit 0.2.0 (Rattle logic ")),
    ),
    (
        &["si_audit", "--workers", "65"],
        0,
        Err(("usage", "65 is not in 1..=64")),
    ),
    (
        &["si_audit", "--workers", "0"],
        0,
        Err(("usage", "0 is not in 1..=64")),
    ),
    (
        &["si_audit", "--workers", "four"],
        0,
        Err(("usage", "'four' for '--workers <N>'")),
    ),
    (
        &["si_audit", "--workers"],
        0,
        Err(("usage", "a value is required for '--workers <N>'")),
    ),
    (
        &["si_audit", "--workers", "4", "--workers", "4"],
        0,
        Err(("usage", "cannot be used multiple times")),
    ),
    (
        &["si_audit", "--max-events", "0"],
        0,
        Err(("usage", "0 is not in 1..=500000000")),
    ),
    (
        &["si_audit", "--max-events=500000001"],
        0,
        Err(("usage", "500000001 is not in 1..=500000000")),
    ),
    (
        &["si_audit", "--max-bytes", "17179869185"],
        0,
        Err(("usage", "17179869185 is not in 1..=17179869184")),
    ),
    (
        &["si_audit", "--max-bytes", "16M"],
        0,
        Err(("usage", "'16M' for '--max-bytes <N>'")),
    ),
    (
        &["si_audit", "--check"],
        0,
        Err(("usage", "a value is required for '--check <LEVEL>'")),
    ),
    (
        &["si_audit", "--check", "si", "--check", "si"],
        0,
        Err(("usage", "cannot be used multiple times")),
    ),
    (
        &["si_audit", "--brief=yes"],
        0,
        Err(("usage", "unexpected value 'yes' for '--brief...'")),
    ),
    (
        &["si_audit", "14", "x"],
        0,
        Err(("usage", "'x' for '[CUT]...'")),
    ),
    (
        &["si_audit", "run.history"],
        0,
        Err(("usage", "si_audit <FILE")),
    ),
    (
        &["si_audit", "18446744073709551616"],
        0,
        Err(("usage", "'18446744073709551616' for '[CUT]...'")),
    ),
    (&["si_audit", ""], 0, Err(("usage", "'' for '[CUT]...'"))),
    (
        &["si_audit", "-1"],
        0,
        Err(("usage", "unexpected argument '-1'")),
    ),
    (
        &["si_audit", "--", "-1"],
        0,
        Err(("usage", "'-1' for '[CUT]...'")),
    ),
    (
        &["si_audit", "--worker", "4"],
        0,
        Err(("usage", "unexpected argument '--worker'")),
    ),
    // The most cuts, and one more.
    (
        &["si_audit"],
        1023,
        Ok((4, CUT_OFTEN, Form::Full, Level::Serializable)),
    ),
    (&["si_audit"], 1024, Err(("too many cuts", ""))),
];

/// The words of a line, and then the numbers up to the last one.
fn words(alloc: Global, line: &[&str], last: Key) -> Result<Vec<String>, AllocError> {
    let mut words = Vec::new(alloc);
    for word in line {
        words.push(String::from_str(alloc, word)?)?;
    }
    for cut in 0..last {
        words.push(format!(in alloc; "{}", cut + 1)?)?;
    }
    Ok(words)
}

fn given(options: &Options) -> Option<Given> {
    let parts = options.parts();
    let (first, last) = (parts.first()?, parts.last()?);
    let parts = (parts.len(), *first, *last);
    Some((options.workers(), parts, options.form(), options.level()))
}

/// Whether the words give what the row says.
fn is_answered(alloc: Global, row: &Row) -> Result<bool, Fail> {
    let (line, last, wanted) = *row;
    let words = words(alloc, line, last)?;
    let (kind, text) = match options_from(alloc, words.as_slice()) {
        Ok(options) => return Ok(given(&options) == wanted.ok()),
        Err(LineFault::NoMemory) => return Err(Fail::from(NoMemory)),
        Err(LineFault::TooManyCuts) => ("too many cuts", String::new(alloc)),
        Err(LineFault::UnknownLevel) => ("unknown level", String::new(alloc)),
        Err(LineFault::Help(text)) => ("help", text),
        Err(LineFault::Usage(text)) => ("usage", text),
    };
    let said = text.as_str();
    match wanted {
        Ok(_) => Ok(false),
        Err((which, part)) => Ok(
            kind == which && said.contains(part) && said.contains("error: ") == (kind == "usage"),
        ),
    }
}

#[test]
fn command_lines(rt: HostRuntime) -> Result<(), Fail> {
    for row in LINES {
        let (line, last, _) = row;
        assert!(rt; is_answered(rt.alloc(), row)?, "{line:?} {last:?}");
    }
    Ok(())
}

/// Words, and the most events and bytes that they allow.
const LIMITS: &[(&[&str], u32, u64)] = &[
    (&["si_audit"], 100_000, 16_777_216),
    (&["si_audit", "--max-events", "1"], 1, 16_777_216),
    (&["si_audit", "--max-bytes=1", "14"], 100_000, 1),
    (
        &[
            "si_audit",
            "--max-events=500000000",
            "--max-bytes",
            "17179869184",
        ],
        500_000_000,
        17_179_869_184,
    ),
];

/// The most events and bytes that the words allow, where they give options.
fn limits_of(alloc: Global, words: &[String]) -> Result<Option<(u32, u64)>, Fail> {
    match options_from(alloc, words) {
        Ok(options) => Ok(Some((options.limits().events(), options.limits().bytes()))),
        Err(fault) => match &fault {
            LineFault::NoMemory => Err(Fail::from(NoMemory)),
            _ => Ok(None),
        },
    }
}

#[test]
fn limits(rt: HostRuntime) -> Result<(), Fail> {
    for (line, events, bytes) in LIMITS {
        let words = words(rt.alloc(), line, 0)?;
        let given = limits_of(rt.alloc(), words.as_slice())?;
        assert_eq!(rt; given, Some((*events, *bytes)));
    }
    Ok(())
}
