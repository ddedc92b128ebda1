//! Numbers of a token, of any size.
ghost use Rattle.std.specs.Prelude.{◌≡◌, ◌-◌, ◌<◌, ◌≤◌, true, false, length, take, slice_index, IfOk, MatchOption};
ghost use Rattle.sia_events.specs.Parsing.{Gives, is_digit, digits_len, digits_value, narrow, number_at, version_of, txn_of, after_byte};

use crate::event::{TxnId, Version};
use crate::fault::{Reason, Refusal};

/// A number that was read: its value, or None where it takes more than 64 bits.
pub(crate) type Number = Option<u64>;

/// So many digits have room in 64 bits, whatever they are.
const SHORT: usize = 19;

fn digit_at(text: &[u8], at: usize) -> Option<u64>
    ensures { MatchOption result (is_digit (slice_index text.now at) ≡ false)
        (λ digit. (is_digit (slice_index text.now at) ≡ true) × (digit ≡ slice_index text.now at - 48)
        × (at < length text.now)) }
{
    let digit = u64::from(*text.get(at)?).wrapping_sub(u64::from(b'0'));
    (digit < 10).then_some(digit)
}

/// How many digits the bytes begin with, and the number that they stand for. The first loop is unrolled by the compiler.
#[inline(always)]
fn digits(text: &[u8]) -> (usize, Number)
    ensures len { result.0 ≡ digits_len text.now }
    ensures value { result.1 ≡ narrow (digits_value (take (digits_len text.now) text.now)) }
    ensures within { result.0 ≤ length text.now }
{
    let mut value: u64 = 0;
    let mut len = 0;
    while len < SHORT {
        let Some(digit) = digit_at(text, len) else {
            return (len, Some(value));
        };
        value = value * 10 + digit;
        len += 1;
    }
    let mut fits = true;
    while let Some(digit) = digit_at(text, len) {
        fits &= value <= (u64::MAX - digit) / 10;
        value = value.wrapping_mul(10).wrapping_add(digit);
        len += 1;
    }
    (len, if fits { Some(value) } else { None })
}

#[inline(always)]
#[tactic(auto, unfolding(crate::specs::Parsing::number_at))]
pub(crate) fn number(text: &[u8]) -> Result<(Number, &[u8]), Refusal>
    ensures gives { Gives (λ x. (x.0, x.1.now)) result (number_at text.now) }
    ensures shorter { IfOk result (λ x. length x.1.now ≤ length text.now) }
{
    let (len, value) = digits(text);
    if len == 0 || (len > 1 && text[0] == b'0') {
        return Err(Refusal::Bad(Reason::BadEvent));
    }
    Ok((value, &text[len..]))
}

#[tactic(auto, unfolding(crate::specs::Parsing::version_of))]
pub(crate) fn version_in(number: Number) -> Result<Version, Refusal>
    ensures { Gives (λ x. x) result (version_of number) }
{
    match number {
        Some(version) if version <= u64::from(u32::MAX) => Ok(version as u32),
        _ => Err(Refusal::Bad(Reason::BadNumber)),
    }
}

/// A transaction: a number of 32 bits that isn't 0.
#[tactic(auto, unfolding(crate::specs::Parsing::txn_of))]
pub(crate) fn txn_in(number: Number) -> Result<TxnId, Refusal>
    ensures { Gives (λ x. x) result (txn_of number) }
{
    let txn = version_in(number)?;
    if txn == 0 {
        return Err(Refusal::Bad(Reason::BadNumber));
    }
    Ok(txn)
}

/// What follows one byte.
#[tactic(auto, unfolding(crate::specs::Parsing::after_byte))]
pub(crate) fn after(text: &[u8], byte: u8) -> Result<&[u8], Refusal>
    ensures gives { Gives (λ x. x.now) result (after_byte byte text.now) }
    ensures shorter { IfOk result (λ rest. length rest.now ≤ length text.now) }
{
    match text {
        [first, rest @ ..] if *first == byte => Ok(rest),
        _ => Err(Refusal::Bad(Reason::BadEvent)),
    }
}
