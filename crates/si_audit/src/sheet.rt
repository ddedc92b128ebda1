//! Bytes of lines that are made ahead, and shown piece by piece.
ghost use Rattle.std.specs.Prelude.{◌≡◌, ◌+◌, ◌<◌, ◌≤◌, ◌++◌, [], IfOk, length, map, slice_index_or, take};
ghost use Rattle.sia_events.specs.Text.{numeral};
ghost use Rattle.si_audit.specs.Blocks.{word_in, word_len};

use itoa::write_digits;
use sia_events::NoMemory;
use std::alloc::Global;

/// How many bytes are made at once.
pub(crate) const SHEET: usize = 65_536;

/// What an empty sheet has room for at least: a line.
pub(crate) const ROOM: usize = 72;

/// A sheet, on which bytes are put anew once they were shown.
#[derive(Drop)]
pub(crate) struct Sheet {
    pub(crate) bytes: Vec<u8>,
    /// How many of the bytes stand on it.
    pub(crate) end: usize,
    ghost bounds: { (end ≤ length bytes.items) × (72 ≤ length bytes.items) },
}

impl Sheet {
    /// An empty sheet.
    pub(crate) fn with_size(alloc: Global, size: usize) -> Result<Sheet, NoMemory>
        requires { 72 ≤ size }
        ensures { IfOk result (λ sheet. (sheet.end ≡ 0) × (length sheet.bytes.items ≡ size)) }
    {
        Ok(Sheet {
            bytes: vec![in alloc; 0; size]?,
            end: 0,
        })
    }

    /// What stands on it.
    pub(crate) fn text(&self) -> &[u8]
        ensures { result.now ≡ take self.now.end self.now.bytes.items }
    {
        &self.bytes[..self.end]
    }
}

/// Some bytes of a line, and in the last byte how many. All of it is copied where they are put: a length that is known is faster.
#[derive(Clone, Copy)]
pub(crate) struct Word<const N: usize> {
    bytes: [u8; N],
    ghost bounds: { (word_len bytes < N) × (N ≤ 256) },
}

impl<const N: usize> Word<N> {
    /// These bytes.
    pub(crate) fn new(word: &[u8]) -> Word<N>
        requires { (length word.now < N) × (N ≤ 256) }
        ensures { word_in result.bytes ≡ word.now }
    {
        let mut bytes = [0; N];
        bytes[N - 1] = append(&mut bytes[..], 0, word) as u8;
        Word { bytes }
    }

    /// The number, between these bytes.
    pub(crate) fn of(before: &[u8], n: u64, after: &[u8]) -> Word<N>
        requires { (length before.now + length (numeral n) + length after.now < N) × (N ≤ 256) }
        ensures { word_in result.bytes ≡ before.now ++ numeral n ++ after.now }
    {
        let mut digits = [0; 20];
        let start = write_digits(n, &mut digits, 20);
        let mut bytes = [0; N];
        let mut end = append(&mut bytes[..], 0, before);
        end = append(&mut bytes[..], end, &digits[start..]);
        bytes[N - 1] = append(&mut bytes[..], end, after) as u8;
        Word { bytes }
    }

    /// Puts it from `end` on. Answers where it ends.
    #[inline(always)]
    pub(crate) fn put(&self, bytes: &mut [u8], end: usize) -> usize
        requires { end + N ≤ length bytes.old }
        ensures bytes { take result bytes.new ≡ take end bytes.old ++ word_in self.now.bytes }
        ensures within { (end ≤ result) × (result ≤ end + N) }
    {
        let copied = self.bytes;
        bytes[end..end + N].copy_from_slice(&copied);
        end + usize::from(self.bytes[N - 1])
    }
}

/// Puts these bytes from `end` on. Answers where they end.
#[inline(always)]
fn append(bytes: &mut [u8], end: usize, more: &[u8]) -> usize
    requires { end + length more.now ≤ length bytes.old }
    ensures end { result ≡ end + length more.now }
    ensures bytes { take result bytes.new ≡ take end bytes.old ++ more.now }
{
    let to = end + more.len();
    bytes[end..to].copy_from_slice(more);
    to
}

/// Puts the word of this number, if there is one, from `end` on. Answers where it ends.
#[inline(always)]
pub(crate) fn put<const N: usize>(
    words: &[Word<N>],
    number: u32,
    bytes: &mut [u8],
    end: usize,
) -> usize
    requires { end + N ≤ length bytes.old }
    ensures bytes { take result bytes.new ≡ take end bytes.old ++ slice_index_or (map (λ word. word_in word.bytes) words.now) number [] }
    ensures within { (end ≤ result) × (result ≤ end + N) }
{
    match words.get(number as usize) {
        Some(word) => word.put(bytes, end),
        None => end,
    }
}
