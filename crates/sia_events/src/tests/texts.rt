//! Texts that are read, with their canonical texts, and texts that are refused, and where: the same however they are cut.
use super::*;

/// The line and the column of a refused token, and what is shown of it.
type Located = (u64, u64, &'static [u8]);

/// A text that is canonical already.
macro_rules! same {
    ($text:literal) => {
        ($text, Ok($text), None)
    };
}

/// A text, its refused token, and why it is refused. Then where the token stands, if that is looked at.
macro_rules! refused {
    ($text:literal, $token:literal, $reason:ident) => {
        refused!($text, $token, $reason, None)
    };
    ($text:literal, $token:literal, $reason:ident, $located:expr) => {
        (
            $text,
            Err(TextFault::Refused {
                token: $token,
                reason: Reason::$reason,
            }),
            $located,
        )
    };
}

/// Of those that are read the last two have writes that share a bucket and a tag of the table of guesses. Of those that are
/// refused with no place the four before the last two have transactions whose numbers share a group of slots, which has room for
/// eight, and in the last two one of two writes that share a bucket and a tag is read and was not written. Where memory is refused
/// to the tests one call at a time, each call of the first rows is refused, so these are of each kind.
const TEXTS: &[(&[u8], Result<&[u8], TextFault>, Option<Located>)] = &[
    refused!(b"r1[9..3]", 1, EmptyRange),
    (b"b1@0  c1", Ok(b"b1@0 c1"), None),
    same!(b"w1[1] w1[2] c1 b2@0 r2[0..9;1:1,2:0] b4294967295 c2"),
    (
        b"  r1[3..9;5:0]\n\tw1[4]\r\nc1 ",
        Ok(b"r1[3..9;5:0] w1[4] c1"),
        None,
    ),
    same!(b""),
    same!(b"r1[1:0] c1"),
    same!(b"r2[1:0] r2[2:0] r1[2:0] w1[2] c1 r3[1:0] r3[2:1] c3 w2[1] c2"),
    same!(b"b7 a7"),
    same!(b"r4294967295[0..18446744073709551615] w1[5] r1[3..9;5:1,6:0]"),
    same!(b"r1[1:0] r1[2:0] r2[1:0] r2[2:0] w1[2] w2[1] c1 c2"),
    same!(b"r1[1:0] w1[1] r2[1:0] r2[2:0] c2 r1[2:0] w1[2] c1"),
    same!(b"r1[1:0] r2[1:0] w1[1] w2[1] c1 c2"),
    same!(b"w1[1] w2[1] c1 c2"),
    same!(b"b1 b2 r1[10..20] r2[10..20] w1[12] w2[15] c1 c2"),
    same!(b"r1[0..18446744073709551615] w2[0] w2[18446744073709551615] c2 c1"),
    same!(b"w1[1] r2[1:1] c2 a1"),
    same!(b"w1[1] r1[1:0] c1"),
    same!(b"w1[1] c1 w2[1] r2[1:2] r2[0..5;1:2] c2"),
    same!(b"c7"),
    same!(b"w1[1] c1 w2[1] c2 w3[1] c3 r4[1:2] c4"),
    same!(b"r2[1:0] r2[2:0] r3[1:0] r3[2:0] w2[2] w3[1] c2 c3 r1[1:3] c1"),
    same!(b"r1[1:0] r1[0..5] w2[1] c2 c1"),
    same!(b"r1[2:0] w2[1] c2 r1[1:2] c1"),
    same!(b"r1[1:0] r2[2:0] w2[1] w3[2] c3 c2 c1"),
    same!(b"r1[1:0] w2[1] r3[1:2]"),
    same!(b"w3[1] c3 r2[1:0] r1[2:0] w2[2] c2 c1"),
    same!(b"w1[3] r1[0..9]"),
    same!(b"r1[1:0] r4294967295[1:0] r2[2:0] r2[3:0] w2[1] w3[2] w4[3] c3 c4 c2 c1 c4294967295"),
    same!(b"r1[1:0] r2[2:0] w2[1] w3[2] c1 c2 c3"),
    same!(b"r1[1:0] r2[2:0] w2[1] w3[2] c1 c3 c2"),
    same!(b"w1[1] c1 b2@0 r2[1:0] c2"),
    same!(b"w1[1] c1 b2 r2[1:0] c2"),
    same!(b"w1[1] c1 b2@1 w2[1] c2"),
    same!(b"w1[1] c1 b2@2 w2[1] c2"),
    same!(b"w2[2715] w3[3269] r9[2715:2] r9[3269:3]"),
    same!(b"w3[3269] w2[2715] r9[0..5000;2715:2,3269:3]"),
    refused!(b"r1[9..3;1:0]", 1, EmptyRange),
    refused!(b"r1[3..9;5:0,5:0]", 1, BadList),
    refused!(b"r1[3..9;10:0]", 1, BadList),
    refused!(b"r1[3..9;5:2,5:0]", 1, BadList),
    refused!(b"r0[1:0]", 1, BadNumber),
    refused!(b"c1 r0[9..3]", 2, BadNumber),
    refused!(b"r4294967296[1:0]", 1, BadNumber),
    refused!(b"r1[1:4294967296]", 1, BadNumber),
    refused!(b"r1[18446744073709551616:0]", 1, BadNumber),
    refused!(b"r01[1:0]", 1, BadEvent),
    refused!(b"r1[1", 1, BadEvent),
    refused!(b"r1[1:", 1, BadEvent),
    refused!(b"r1[0..5;]", 1, BadEvent),
    refused!(b"b1c1", 1, BadEvent),
    refused!(b"R1[1:0]", 1, BadEvent),
    refused!(b"r1[5:1] w1[5]", 1, NotWritten),
    refused!(b"r1[5:2] w2[5]", 1, NotWritten),
    refused!(b"r1[1:0] c1 b1", 3, AlreadyEnded),
    refused!(b"r1[1:0] b1", 2, AlreadyBegun),
    refused!(b"c1 x c1", 2, BadEvent),
    refused!(b"\x00", 1, BadEvent),
    refused!(b"\xff", 1, BadEvent),
    refused!(b"c1\x0bc2", 1, BadEvent),
    refused!(b"r1[3..9;5:0", 1, BadEvent),
    refused!(b"b1@1", 1, BadStart),
    refused!(b"c1 b2@2", 2, BadStart),
    refused!(b"b1@4294967295", 1, BadStart),
    refused!(b"b1@4294967296", 1, BadNumber),
    refused!(b"b1@", 1, BadEvent),
    refused!(b"b1@00", 1, BadEvent),
    refused!(b"b@0", 1, BadEvent),
    refused!(b"b1 b1@9", 2, AlreadyBegun),
    refused!(b"c1 b1@9", 2, AlreadyEnded),
    refused!(b"c9 c4294705161 c9", 3, AlreadyEnded),
    refused!(
        b"c8 c9 c10 c11 c12 c13 c14 c15 c262152 c15",
        10,
        AlreadyEnded
    ),
    refused!(
        b"c8 c9 c10 c11 c12 c13 c14 c15 c262152 b262152",
        10,
        AlreadyEnded
    ),
    refused!(
        b"b8 b9 b10 b11 b12 b13 b14 b15 b262152 c262153 b262152",
        11,
        AlreadyBegun
    ),
    refused!(b"w2[2715] r9[3269:3]", 2, NotWritten),
    refused!(b"w3[3269] r9[0..5000;2715:2]", 2, NotWritten),
    refused!(b"r1[5:2] w2[5]\n", 1, NotWritten, Some((1, 1, b"r1[5:2]"))),
    refused!(
        b"b1 r1[7:0]\nw1[7] c1\n\tb2 r2[cl\xc3\xa9:1] c2\n",
        6,
        BadEvent,
        Some((3, 5, b"r2[cl\\xc3\\xa9:1]"))
    ),
    refused!(b"\n\n \r\t\x0b", 1, BadEvent, Some((3, 4, b"\\x0b"))),
    refused!(b"c1\nx", 2, BadEvent, Some((2, 1, b"x"))),
    refused!(
        b"c1\r\n\\\x7e\x7f!",
        2,
        BadEvent,
        Some((2, 1, b"\\x5c~\\x7f!"))
    ),
    refused!(b"c1 x c1\nx x", 2, BadEvent, Some((1, 4, b"x"))),
    refused!(b"\x00\xff \n", 1, BadEvent, Some((1, 1, b"\\x00\\xff"))),
    refused!(
        b"c1 1234567890123456789012345678901234567890123456789012345678901",
        2,
        BadEvent,
        Some((
            1,
            4,
            b"123456789012345678901234567890123456789012345678901234567890"
        ))
    ),
    refused!(b"c1 r2[9..3]\n", 2, EmptyRange, Some((1, 4, b"r2[9..3]"))),
];

/// The canonical text of what a text was read as.
fn written(alloc: Global, read: Result<History, TextFault>) -> Result<Vec<u8>, TextFault> {
    match write_history(alloc, &read?) {
        Ok(canonical) => Ok(canonical),
        Err(NoMemory) => Err(TextFault::NoMemory),
    }
}

#[test]
fn texts_however_cut(rt: HostRuntime) -> Result<(), Fail> {
    let mut shown = Vec::new(rt.alloc());
    for (text, wanted, located) in TEXTS {
        for size in 0..=text.len() + 1 {
            let mut locator = Locator::new();
            let read = read(&rt, text, size, &mut locator);
            match written(rt.alloc(), read) {
                Ok(canonical) => assert!(rt; Ok(canonical.as_slice()) == *wanted),
                Err(fault) => assert_eq!(rt; Err(fault), *wanted),
            }
            shown.clear();
            push_shown(&mut shown, locator.token())?;
            let Place { line, column } = locator.place();
            let found = Some((line, column, shown.as_slice()));
            assert!(rt; size == 0 || located.is_none() || found == *located);
        }
    }
    Ok(())
}
