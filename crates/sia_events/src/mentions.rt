//! How listed pairs were spelled last.
ghost use Rattle.std.specs.Prelude.{◌≡◌, ◌<◌, ◌≤◌, ℕ, true, Some, Ok, length, take, slice_index, IfOk, IfSome};
ghost use Rattle.sia_events.specs.Parsing.{Gives, begins_with, pair_at, SpellsPair};

use crate::draft::NO_KEY;
use crate::event::{Key, Version};
use crate::fault::Refusal;
use crate::number::{after, number};
use std::alloc::AllocError;
use std::simd::prelude::*;

/// No longer spelling is found again.
const BLOCK: usize = 16;

/// Bytes that spell a listed pair, where they aren't too many.
#[derive(Clone, Copy)]
pub(crate) struct Spelling {
    bytes: [u8; BLOCK],
    len: u32,
    pub(crate) saw: Version,
    pub(crate) key: Key,
    ghost spells: { len ≤ 16 → SpellsPair (take len bytes) key saw },
}

/// How a key was listed last, and the number of the key that was listed behind it.
#[derive(Clone, Copy)]
pub(crate) struct SpellingRow {
    pub(crate) spelling: Spelling,
    pub(crate) behind: u32,
}

impl Spelling {
    pub(crate) fn of(spelled: &[u8], key: Key, saw: Version) -> Spelling
        requires { SpellsPair spelled.now key saw }
    {
        let mut bytes = [0; BLOCK];
        let kept = spelled.len().min(BLOCK);
        bytes[..kept].copy_from_slice(&spelled[..kept]);
        let len = spelled.len().min(BLOCK + 1) as u32;
        Spelling {
            bytes,
            len,
            saw,
            key,
        }
    }

    /// Whether the text begins with the spelling.
    fn is_ahead(&self, text: &[u8]) -> bool
        requires { self.now.len < length text.now }
        ensures few { result ≡ true → self.now.len ≤ 16 }
        ensures same { result ≡ true → (k : ℕ) → k < self.now.len
            → slice_index text.now k ≡ slice_index self.now.bytes k }
    {
        if text.len() < BLOCK {
            return text.starts_with(&self.bytes[..self.len as usize]);
        }
        let other = u8x16::from_slice(text)
            .simd_ne(u8x16::from_array(self.bytes))
            .to_bitmask();
        self.len <= other.trailing_zeros().min(BLOCK as u32)
    }

    /// What follows the pair, where the text begins with its spelling and goes on with no digit, and whether that is a comma.
    #[inline(always)]
    pub(crate) fn past<'a>(&self, text: &'a [u8]) -> Option<(&'a [u8], bool)>
        ensures pair { IfSome result (λ x. pair_at text.now
            ≡ Ok (Some (self.now.key, self.now.saw), x.0.now)) }
        ensures shorter { IfSome result (λ x. length x.0.now ≤ length text.now) }
        ensures comma { IfSome result (λ x. x.1 ≡ begins_with 44 x.0.now) }
    {
        let len = self.len as usize;
        if text.len() <= len || !self.is_ahead(text) {
            return None;
        }
        let goes_on = text[len] == b',';
        if !goes_on && text[len].is_ascii_digit() {
            return None;
        }
        Some((&text[len..], goes_on))
    }
}

/// Keeps by a key's number how it is spelled, and that it is listed behind the last one. It answers which may well be next.
pub(crate) fn keep(
    rows: &mut Vec<SpellingRow>,
    last: u32,
    number: u32,
    spelling: Spelling,
) -> Result<u32, AllocError> {
    if number == NO_KEY {
        return Ok(NO_KEY);
    }
    for fresh in rows.len()..number as usize + 1 {
        let behind = fresh as u32 + 1;
        rows.push(SpellingRow { spelling, behind })?;
    }
    if let Some(row) = rows.get_mut(last as usize) {
        row.behind = number;
    }
    let Some(row) = rows.get_mut(number as usize) else {
        return Ok(NO_KEY);
    };
    row.spelling = spelling;
    Ok(row.behind)
}

/// A listed key with its version, or None where one of them is out of its range.
#[inline(never)]
#[tactic(auto, unfolding(crate::specs::Parsing::pair_at))]
pub(crate) fn pair(text: &[u8]) -> Result<(Option<(Key, Version)>, &[u8]), Refusal>
    ensures gives { Gives (λ x. (x.0, x.1.now)) result (pair_at text.now) }
    ensures shorter { IfOk result (λ x. length x.1.now ≤ length text.now) }
{
    let (key, rest) = number(text)?;
    let (saw, rest) = number(after(rest, b':')?)?;
    let pair = match (key, saw) {
        (Some(key), Some(saw)) if saw <= u64::from(u32::MAX) => Some((key, saw as u32)),
        _ => None,
    };
    Ok((pair, rest))
}
