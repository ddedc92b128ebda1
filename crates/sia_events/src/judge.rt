//! The events of a text so far, and the judgement of its next token.
ghost use Rattle.std.specs.Prelude.{◌≡◌, ◌+◌, ◌≤◌, ℕ, ◌<◌, length, List, [], ◌∷◌, ◌++◌, Ok, true, false, drop, All, slice_index, nat_le, OnOk, IfOk, IfErr, IfSome, IfNone};
ghost use Rattle.std.specs.List.{AllByRecursion, position_or_len};
ghost use Rattle.std.specs.Simd.Lanes.{chunk};
ghost use Rattle.sia_events.specs.declared.event.Event.{Event as AnEvent};
ghost use Rattle.sia_events.specs.Parsing.{Fails, event_with};
ghost use Rattle.sia_events.specs.Drafts.{Knows, CanTake, Takes, Stays, mentioned};
ghost use Rattle.sia_events.specs.LogTables.{events_of};
ghost use Rattle.sia_events.specs.Judging.{judged, JudgedAll, Halts, HaltsIn, as_token, IsSplitAfter};
ghost use Rattle.sia_events.specs.Text.{is_separator, tokens};
ghost use Rattle.sia_events.specs.Streaming.{IsCutAtLastSeparator};

use crate::draft::Draft;
use crate::fault::{Reason, Refusal};
use crate::limits::{Limits, MAX_EVENTS};
use crate::token::{Listing, Token, event_of};
use std::alloc::{AllocError, Global};
use std::simd::prelude::*;

#[derive(Drop)]
pub(crate) struct Judge {
    pub(crate) alloc: Global,
    pub(crate) draft: Draft,
    listing: Listing,
}

impl Judge {
    pub(crate) fn new(alloc: Global) -> Self
        ensures none { events_of result.draft.tables ≡ [] }
        ensures knows { Knows result.draft }
    {
        Judge {
            alloc,
            draft: Draft::new(alloc, 0).unwrap(),
            listing: Listing::new(alloc),
        }
    }

    /// Makes room for as many events as the standard limits allow, so that no table moves as it grows, where there are none yet.
    fn make_room(&mut self, most: u32) -> Result<(), AllocError>
        requires { Knows self.old.draft }
        ensures same { OnOk result (events_of self.new.draft.tables
            ≡ events_of self.old.draft.tables) }
        ensures knows { OnOk result (Knows self.new.draft) }
    {
        if self.draft.tables.events.is_empty() {
            // Below the size of a block that was given back, malloc keeps for later tables what is freed. The pairs take more.
            let _ = Vec::<u8>::with_capacity(self.alloc, 4_500_000)?;
            self.draft = Draft::new(self.alloc, most.min(Limits::standard().events()) as usize)?;
        }
        Ok(())
    }

    /// Takes the event of a token beside which its listed pairs stand, unless it has a reason.
    #[inline(always)]
    fn admit(&mut self, token: Token) -> Result<(), Refusal>
        requires { CanTake self.old.draft }
        ensures { Takes self.old.draft self.new.draft (event_with (mentioned self.old.listing.pairs.items) token) result }
    {
        match token {
            Token::Begin { txn, start } => self.draft.begin(txn, start),
            Token::Read { txn, key, saw } => self.draft.read(txn, key, saw),
            Token::Range { txn, lo, hi } => self.draft.range(txn, lo, hi, &self.listing.pairs),
            Token::Write { txn, key } => self.draft.write(txn, key),
            Token::Commit { txn } => self.draft.commit(txn),
            Token::Abort { txn } => self.draft.abort(txn),
        }
    }

    /// Takes the event of the token, if there is one. After `NoMemory` the tables may lack it, or have it without the events.
    #[tactic(auto, unfolding(crate::specs::Judging::JudgedAll))]
    pub(crate) fn take_some(&mut self, limits: Limits, token: &[u8]) -> Result<(), Refusal>
        requires { Knows self.old.draft }
        ensures taken { OnOk result (JudgedAll limits (events_of self.old.draft.tables) (as_token token.now)
            (events_of self.new.draft.tables)) }
        ensures knows { OnOk result (Knows self.new.draft) }
        ensures refused { IfErr result (λ fault. Halts limits fault (events_of self.old.draft.tables)
            (as_token token.now) (events_of self.new.draft.tables)) }
    {
        if token.is_empty() {
            return Ok(());
        }
        self.make_room(limits.events())?;
        let count = self.draft.tables.events.len();
        let most = limits.events() as usize;
        if count == most {
            return Err(Refusal::Bad(Reason::TooManyEvents));
        }
        // There are never more.
        if count > most {
            return Err(Refusal::NoMemory);
        }
        let token = event_of(&mut self.listing, &self.draft, token)?;
        self.admit(token)
    }

    /// Takes the events of all tokens that a separator follows, and answers what comes after the last separator.
    pub(crate) fn take_closed<'a>(
        &mut self,
        limits: Limits,
        text: &'a [u8],
    ) -> Result<&'a [u8], Refusal>
        requires { Knows self.old.draft }
        ensures taken { IfOk result (λ rest. (closed : List ℕ) × IsCutAtLastSeparator text.now closed rest.now
            × JudgedAll limits (events_of self.old.draft.tables) (tokens closed)
            (events_of self.new.draft.tables)) }
        ensures knows { OnOk result (Knows self.new.draft) }
        ensures refused { IfErr result (λ fault. HaltsIn limits fault
            (events_of self.old.draft.tables) text.now (events_of self.new.draft.tables)) }
    {
        let mut rest = text;
        while let Some((token, after)) = split_token(rest) {
            self.take_some(limits, token)?;
            rest = past_separators(after);
        }
        Ok(rest)
    }

    /// Takes the events of all tokens that a separator follows, and leaves as unfinished what comes after the last one.
    pub(crate) fn take_piece(
        &mut self,
        limits: Limits,
        unfinished: &mut Vec<u8>,
        piece: &[u8],
    ) -> Result<(), Refusal>
        requires knows { Knows self.old.draft }
        requires unbroken { All (λ c. is_separator c ≡ false) unfinished.old.items }
        ensures taken { OnOk result ((closed : List ℕ)
            × IsCutAtLastSeparator (unfinished.old.items ++ piece.now) closed unfinished.new.items
            × JudgedAll limits (events_of self.old.draft.tables) (tokens closed)
            (events_of self.new.draft.tables)) }
        ensures knows { OnOk result (Knows self.new.draft) }
        ensures refused { IfErr result (λ fault. HaltsIn limits fault (events_of self.old.draft.tables)
            (unfinished.old.items ++ piece.now) (events_of self.new.draft.tables)) }
    {
        let Some((front, after)) = split_token(piece) else {
            unfinished.extend_from_slice(piece)?;
            return Ok(());
        };
        unfinished.extend_from_slice(front)?;
        self.take_some(limits, unfinished)?;
        unfinished.clear();
        let rest = self.take_closed(limits, after)?;
        unfinished.extend_from_slice(rest)?;
        Ok(())
    }

    pub(crate) fn next_token(&self) -> u32
        ensures { length (events_of self.now.draft.tables) ≤ 500000000
            → result ≡ length (events_of self.now.draft.tables) + 1 }
    {
        self.draft.tables.events.len().min(MAX_EVENTS as usize) as u32 + 1
    }
}

/// Space, tab, CR or LF. Most bytes are told by one test.
pub(crate) fn is_separator(byte: u8) -> bool
    ensures { result ≡ is_separator byte }
{
    byte <= b' ' && matches!(byte, b' ' | b'\t' | b'\r' | b'\n')
}

/// What follows the separators that the bytes begin with.
fn past_separators(text: &[u8]) -> &[u8]
    ensures { (n : ℕ) × (n ≤ length text.now) × (result.now ≡ drop n text.now)
        × ((k : ℕ) → k < n → is_separator (slice_index text.now k) ≡ true) }
{
    let mut len = 0;
    while len < text.len() && is_separator(text[len]) {
        len += 1;
    }
    &text[len..]
}

/// How many bytes are looked at together: most tokens are shorter.
const BLOCK: usize = 16;

/// How many bytes come before the first separator, or at all. A block is passed up to its first byte that is no greater than
/// a space. Where that is a separator, the second loop ends at once.
pub(crate) fn token_len(text: &[u8]) -> usize
    ensures len { result ≡ position_or_len is_separator text.now }
    ensures within { result ≤ length text.now }
{
    let mut len = 0;
    while len + BLOCK <= text.len() {
        let low = u8x16::from_slice(&text[len..])
            .simd_le(u8x16::splat(b' '))
            .to_bitmask();
        if low != 0 {
            len += low.trailing_zeros() as usize;
            break;
        }
        len += BLOCK;
    }
    while len < text.len() && !is_separator(text[len]) {
        len += 1;
    }
    len
}

/// The bytes before the first separator, and those after it, if there is one.
fn split_token(text: &[u8]) -> Option<(&[u8], &[u8])>
    ensures none { IfNone result (AllByRecursion (λ c. is_separator c ≡ false) text.now) }
    ensures some { IfSome result (λ parts. IsSplitAfter text.now parts.0.now parts.1.now) }
{
    let len = token_len(text);
    if len == text.len() {
        return None;
    }
    Some((&text[..len], &text[len + 1..]))
}
