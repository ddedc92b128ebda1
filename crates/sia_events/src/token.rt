//! One token: the event that it spells.
ghost use Rattle.std.specs.Prelude.{◌≡◌, ℕ, List, IfOk, IfErr, MatchOption};
ghost use Rattle.sia_events.specs.Drafts.{mentioned};
ghost use Rattle.sia_events.specs.Listings.{listed, TakesPair};
ghost use Rattle.sia_events.specs.Parsing.{Gives, Fails, event_with, after_byte, ended, begin_at, write_at, item_at, list_at, list_of, pair_at, range_at, read_at, commit_at, abort_at, event_at};

use crate::draft::{Draft, Mention, NO_KEY};
use crate::event::{Key, TxnId, Version};
use crate::fault::{Reason, Refusal};
use crate::mentions::{Spelling, SpellingRow, keep, pair};
use crate::number::{Number, after, number, txn_in, version_in};
use std::alloc::Global;

/// An event whose listed pairs, if there are any, stand beside it.
#[derive(Clone, Copy)]
pub(crate) enum Token {
    Begin { txn: TxnId, start: Option<u32> },
    Read { txn: TxnId, key: Key, saw: Version },
    Range { txn: TxnId, lo: Key, hi: Key },
    Write { txn: TxnId, key: Key },
    Commit { txn: TxnId },
    Abort { txn: TxnId },
}

/// What follows a pair, whether that is a comma, and the number of the key that may well be listed next.
type Rest<'a> = (&'a [u8], bool, u32);

/// What the last range read listed, and by the numbers of keys how they were spelled.
#[derive(Drop)]
pub(crate) struct Listing {
    pub(crate) pairs: Vec<Mention>,
    /// Once a number was out of its range, the pairs count for nothing.
    in_range: bool,
    rows: Vec<SpellingRow>,
}

impl Listing {
    pub(crate) fn new(alloc: Global) -> Self {
        Listing {
            pairs: Vec::new(alloc),
            in_range: true,
            rows: Vec::new(alloc),
        }
    }

    /// Takes in a pair, where it is spelled as the key of the number was the last time.
    fn take_again<'a>(&mut self, number: u32, text: &'a [u8]) -> Result<Option<Rest<'a>>, Refusal>
        ensures takes { IfOk result (λ taken. MatchOption taken (listed self.new ≡ listed self.old)
            (λ x. TakesPair (listed self.old) (listed self.new) text.now x.0.now x.1)) }
        ensures fails { IfErr result (λ fault. Fails fault (pair_at text.now)) }
    {
        if let Some(SpellingRow { spelling, behind }) = self.rows.get(number as usize) {
            if let Some((rest, goes_on)) = spelling.past(text) {
                let Spelling { key, saw, .. } = *spelling;
                self.pairs.push(Mention { key, saw, number })?;
                return Ok(Some((rest, goes_on, *behind)));
            }
        }
        Ok(None)
    }

    /// Takes in any pair.
    #[inline(never)]
    fn take<'a>(&mut self, draft: &Draft, guess: u32, text: &'a [u8]) -> Result<Rest<'a>, Refusal>
        ensures takes { IfOk result (λ x. TakesPair (listed self.old) (listed self.new) text.now x.0.now x.1) }
        ensures fails { IfErr result (λ fault. Fails fault (pair_at text.now)) }
    {
        let (read, rest) = pair(text)?;
        let goes_on = rest.starts_with(b",");
        let Some((key, saw)) = read else {
            self.in_range = false;
            return Ok((rest, goes_on, guess));
        };
        let number = draft.find_key(guess, key).unwrap_or(NO_KEY);
        let spelling = Spelling::of(&text[..text.len() - rest.len()], key, saw);
        let last = self.pairs.last().map_or(NO_KEY, |last| last.number);
        let guess = keep(&mut self.rows, last, number, spelling)?;
        self.pairs.push(Mention { key, saw, number })?;
        Ok((rest, goes_on, guess))
    }
}

#[tactic(auto, unfolding(crate::specs::Parsing::ended))]
fn end(text: &[u8]) -> Result<(), Refusal>
    ensures { Gives (λ x. x) result (ended text.now) }
{
    match text {
        [] => Ok(()),
        _ => Err(Refusal::Bad(Reason::BadEvent)),
    }
}

#[tactic(auto, unfolding(crate::specs::Parsing::begin_at, crate::specs::Parsing::after_byte))]
fn begin(txn: Number, text: &[u8]) -> Result<Token, Refusal>
    ensures { (pairs : List (ℕ × ℕ)) → Gives (event_with pairs) result (begin_at txn text.now) }
{
    match text {
        [] => {
            let txn = txn_in(txn)?;
            Ok(Token::Begin { txn, start: None })
        }
        _ => {
            let (start, rest) = number(after(text, b'@')?)?;
            end(rest)?;
            let txn = txn_in(txn)?;
            let start = Some(version_in(start)?);
            Ok(Token::Begin { txn, start })
        }
    }
}

#[tactic(auto, unfolding(crate::specs::Parsing::write_at, crate::specs::Parsing::key_of))]
fn write(txn: Number, text: &[u8]) -> Result<Token, Refusal>
    ensures { (pairs : List (ℕ × ℕ)) → Gives (event_with pairs) result (write_at txn text.now) }
{
    let (key, rest) = number(after(text, b'[')?)?;
    end(after(rest, b']')?)?;
    let txn = txn_in(txn)?;
    match key {
        Some(key) => Ok(Token::Write { txn, key }),
        None => Err(Refusal::Bad(Reason::BadNumber)),
    }
}

#[tactic(auto, unfolding(crate::specs::Parsing::item_at, crate::specs::Parsing::key_of))]
fn item(txn: Number, key: Number, text: &[u8]) -> Result<Token, Refusal>
    ensures { (pairs : List (ℕ × ℕ)) → Gives (event_with pairs) result (item_at txn key text.now) }
{
    let (saw, rest) = number(text)?;
    end(after(rest, b']')?)?;
    let txn = txn_in(txn)?;
    let Some(key) = key else {
        return Err(Refusal::Bad(Reason::BadNumber));
    };
    let saw = version_in(saw)?;
    Ok(Token::Read { txn, key, saw })
}

/// Takes in the listed pairs, if there are any. It answers what follows the last.
fn list<'a>(
    listing: &mut Listing,
    draft: &Draft,
    lo: Number,
    text: &'a [u8],
) -> Result<&'a [u8], Refusal>
    ensures { Gives (λ rest. (listed listing.new, rest.now)) result (list_at text.now) }
{
    listing.pairs.clear();
    listing.in_range = true;
    let Some(mut rest) = text.strip_prefix(b";") else {
        return Ok(text);
    };
    // A list mostly begins with the first key of the range.
    let first = lo.and_then(|lo| draft.find_key(NO_KEY, lo));
    let mut guess = first.unwrap_or(NO_KEY);
    loop {
        let (after, goes_on, next) = match listing.take_again(guess, rest)? {
            Some(taken) => taken,
            None => listing.take(draft, guess, rest)?,
        };
        if !goes_on {
            return Ok(after);
        }
        rest = &after[1..];
        guess = next;
    }
}

#[tactic(auto, unfolding(crate::specs::Parsing::range_at, crate::specs::Parsing::key_of, crate::specs::Parsing::list_of))]
fn range(
    listing: &mut Listing,
    draft: &Draft,
    txn: Number,
    lo: Number,
    text: &[u8],
) -> Result<Token, Refusal>
    ensures { Gives (event_with (mentioned listing.new.pairs.items)) result (range_at txn lo text.now) }
{
    let (hi, rest) = number(text)?;
    let rest = list(listing, draft, lo, rest)?;
    end(after(rest, b']')?)?;
    let txn = txn_in(txn)?;
    match (lo, hi) {
        (Some(lo), Some(hi)) if listing.in_range => Ok(Token::Range { txn, lo, hi }),
        _ => Err(Refusal::Bad(Reason::BadNumber)),
    }
}

#[tactic(auto, unfolding(crate::specs::Parsing::read_at, crate::specs::Parsing::after_byte))]
fn read(listing: &mut Listing, draft: &Draft, txn: Number, text: &[u8]) -> Result<Token, Refusal>
    ensures { Gives (event_with (mentioned listing.new.pairs.items)) result (read_at txn text.now) }
{
    let (first, rest) = number(after(text, b'[')?)?;
    if let [b':', rest @ ..] = rest {
        return item(txn, first, rest);
    }
    match rest {
        [b'.', b'.', rest @ ..] => range(listing, draft, txn, first, rest),
        _ => Err(Refusal::Bad(Reason::BadEvent)),
    }
}

#[tactic(auto, unfolding(crate::specs::Parsing::event_at, crate::specs::Parsing::commit_at, crate::specs::Parsing::abort_at))]
pub(crate) fn event_of(listing: &mut Listing, draft: &Draft, token: &[u8]) -> Result<Token, Refusal>
    ensures { Gives (event_with (mentioned listing.new.pairs.items)) result (event_at token.now) }
{
    let [letter, rest @ ..] = token else {
        return Err(Refusal::Bad(Reason::BadEvent));
    };
    let (txn, rest) = number(rest)?;
    match *letter {
        b'b' => begin(txn, rest),
        b'r' => read(listing, draft, txn, rest),
        b'w' => write(txn, rest),
        b'c' => {
            end(rest)?;
            let txn = txn_in(txn)?;
            Ok(Token::Commit { txn })
        }
        b'a' => {
            end(rest)?;
            let txn = txn_in(txn)?;
            Ok(Token::Abort { txn })
        }
        _ => Err(Refusal::Bad(Reason::BadEvent)),
    }
}
