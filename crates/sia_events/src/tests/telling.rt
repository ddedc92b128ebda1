//! Events of texts that come in pieces: what they are, and what they tell of a key, as the lines of reasons have it.
use super::*;

/// The pieces of a text, and how many events it has.
type Text = (&'static [&'static [u8]], u32);

const LISTED: Text = (&[b"w1[3] w3[5] r2[1..9;3:1,5:3]"], 3);

const PHANTOM: Text = (&[b"w1[12] w1[15] c1 r2[10..20;12:1] c2"], 5);

const STALE: Text = (&[b"w1[5] w1[7] c1 r2[0..9;5:0,7:1] c2"], 5);

const ABORTED: Text = (&[b"w1[1] r2[1:1] c2 a1"], 4);

const STARTED: Text = (&[b"w1[1] c1 b2@0 r2[1:0] c2"], 5);

const PIECES: Text = (&[b"  r1[1", b":0]\n\tw1[4]\r\nc", b"", b"1 "], 3);

/// What a read, a write or a commit has of a transaction, a key and a version.
type Parts = (TxnId, Option<Key>, Option<Version>);

/// What an event saw of a key, whether it leaves the key out, and its parts.
type Told = (Option<Version>, bool, Option<Parts>);

/// A text, a place and a key. Then the event as it is shown behind a word, and what it tells.
const EVENTS: &[(Text, u32, Key, &[u8], Told)] = &[
    (LISTED, 3, 3, b"event r2[1..9;3:1]", (Some(1), false, None)),
    (LISTED, 3, 4, b"event r2[1..9]", (Some(0), true, None)),
    (LISTED, 3, 5, b"event r2[1..9;5:3]", (Some(3), false, None)),
    (LISTED, 3, 0, b"event r2[1..9]", (None, true, None)),
    (LISTED, 3, 10, b"event r2[1..9]", (None, true, None)),
    (PHANTOM, 4, 15, b"event r2[10..20]", (Some(0), true, None)),
    (STALE, 4, 5, b"event r2[0..9;5:0]", (Some(0), false, None)),
    (
        ABORTED,
        2,
        1,
        b"event r2[1:1]",
        (Some(1), false, Some((2, Some(1), Some(1)))),
    ),
    (
        ABORTED,
        2,
        2,
        b"event r2[1:1]",
        (None, false, Some((2, Some(1), Some(1)))),
    ),
    (ABORTED, 5, 1, b"event ", (None, false, None)),
    (STARTED, 3, 1, b"event b2@0", (None, false, None)),
    (PIECES, 0, 1, b"event ", (None, false, None)),
    (
        PIECES,
        1,
        1,
        b"event r1[1:0]",
        (Some(0), false, Some((1, Some(1), Some(0)))),
    ),
    (
        PIECES,
        2,
        4,
        b"event w1[4]",
        (None, false, Some((1, Some(4), None))),
    ),
    (
        PIECES,
        3,
        4,
        b"event c1",
        (None, false, Some((1, None, None))),
    ),
    (PIECES, 4, 4, b"event ", (None, false, None)),
];

fn parts(event: Option<&Event>) -> Option<Parts> {
    match event? {
        Event::Read { txn, key, saw } => Some((*txn, Some(*key), Some(*saw))),
        Event::Write { txn, key } => Some((*txn, Some(*key), None)),
        Event::Commit { txn } => Some((*txn, None, None)),
        _ => None,
    }
}

#[test]
fn events_about_a_key(rt: HostRuntime) -> Result<(), Fail> {
    let mut out = Vec::new(rt.alloc());
    out.extend_from_slice(b"event ")?;
    for (text, place, key, shown, wanted) in EVENTS {
        let (place, key) = (*place, *key);
        let mut reader = TextReader::new(rt.alloc());
        for piece in text.0 {
            let _ = reader.feed(piece);
        }
        let history = reader.finish()?;
        out.truncate(6);
        history.log().push_about(&mut out, place, key)?;
        let told = (
            history.log().saw(place, key),
            history.log().leaves_out(place, key),
            parts(history.event(place)),
        );
        assert!(rt; out.as_slice() == *shown && told == *wanted && history.len() == text.1);
    }
    Ok(())
}
