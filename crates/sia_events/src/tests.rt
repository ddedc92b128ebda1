//! Texts and what they are read as, whole and in pieces.
use super::*;
use std::alloc::Global;
use std::process::Abort;
use std::test::*;

mod long;
mod telling;
mod texts;

/// What a text is read as that comes in pieces of so many bytes, or whole where the size is 0. A locator goes beside the pieces.
fn read<R: Abort + AllocGlobal>(
    rt: &R,
    text: &[u8],
    size: usize,
    locator: &mut Locator,
) -> Result<History, TextFault> {
    if size == 0 {
        return read_history(rt.alloc(), text);
    }
    read_pieces(rt, TextReader::new(rt.alloc()), text, size, locator)
}

/// What a reader reads a text as that comes in pieces of so many bytes, with a locator beside them. Where one found no memory,
/// the later ones and the end must say so too.
fn read_pieces<R: Abort>(
    rt: &R,
    mut reader: TextReader,
    text: &[u8],
    size: usize,
    locator: &mut Locator,
) -> Result<History, TextFault> {
    let mut rest = text;
    let mut is_lost = false;
    for _ in 0..=text.len() / size.max(1) {
        let (piece, after) = rest.split_at(rest.len().min(size));
        let is_fed = reader.feed(piece).is_ok();
        assert!(rt; !is_fed || !is_lost);
        is_lost = !is_fed;
        locator.feed(piece, reader.refused());
        rest = after;
    }
    let read = reader.finish();
    assert!(rt; !is_lost || matches!(read, Err(TextFault::NoMemory)));
    read
}
