//! Writing the canonical text of a history.
ghost use Rattle.std.specs.Prelude.{◌≡◌, ◌++◌, OnOk, IfOk};
ghost use Rattle.sia_events.specs.Text.{numeral, spell_list, spell, canonical};

use crate::event::{Event, Key, Version};
use crate::fault::NoMemory;
use crate::history::History;
use itoa::write_digits;
use std::alloc::{AllocError, Global};

/// Writes a number between some bytes. What is behind its digits is copied too, and cut off: a length that is known is faster.
#[inline(always)]
pub fn push_number(
    out: &mut Vec<u8>,
    before: &[u8],
    n: u64,
    behind: &[u8],
) -> Result<(), AllocError>
    ensures { OnOk result (out.new.items ≡ out.old.items ++ before.now ++ numeral n ++ behind.now) }
{
    let mut digits = [0; 40];
    let start = write_digits(n, &mut digits, 20);
    out.extend_from_slice(before)?;
    out.extend_from_slice(&digits[start..start + 20])?;
    out.truncate(out.len() - start);
    out.extend_from_slice(behind)
}

fn push_list(out: &mut Vec<u8>, listed: &[(Key, Version)]) -> Result<(), AllocError>
    ensures { OnOk result (out.new.items ≡ out.old.items ++ spell_list listed.now) }
{
    for (i, (key, saw)) in listed.iter().enumerate() {
        let mark = if i == 0 { b';' } else { b',' };
        push_number(out, &[mark], *key, b":")?;
        push_number(out, b"", u64::from(*saw), b"")?;
    }
    Ok(())
}

pub(crate) fn push_event(out: &mut Vec<u8>, event: &Event) -> Result<(), AllocError>
    ensures { OnOk result (out.new.items ≡ out.old.items ++ spell event.now) }
{
    let txn = u64::from(event.txn());
    match event {
        Event::Begin { start: None, .. } => push_number(out, b"b", txn, b""),
        Event::Begin {
            start: Some(start),
            ..
        } => {
            push_number(out, b"b", txn, b"@")?;
            push_number(out, b"", u64::from(*start), b"")
        }
        Event::Read { key, saw, .. } => {
            push_number(out, b"r", txn, b"[")?;
            push_number(out, b"", *key, b":")?;
            push_number(out, b"", u64::from(*saw), b"]")
        }
        Event::Range { lo, hi, listed, .. } => {
            push_number(out, b"r", txn, b"[")?;
            push_number(out, b"", *lo, b"..")?;
            push_number(out, b"", *hi, b"")?;
            push_list(out, listed.as_slice())?;
            out.extend_from_slice(b"]")
        }
        Event::Write { key, .. } => {
            push_number(out, b"w", txn, b"[")?;
            push_number(out, b"", *key, b"]")
        }
        Event::Commit { .. } => push_number(out, b"c", txn, b""),
        Event::Abort { .. } => push_number(out, b"a", txn, b""),
    }
}

/// The canonical text: the events in order with one space between two of them, each number in its one spelling.
///
/// Listed keys are written as they are kept, a listed version 0 included, and a start where one is named.
pub fn write_history(alloc: Global, h: &History) -> Result<Vec<u8>, NoMemory>
    ensures { IfOk result (λ text. text.items ≡ canonical h.now) }
{
    let mut out = Vec::new(alloc);
    for (i, event) in h.events.iter().enumerate() {
        if i > 0 {
            out.push(b' ')?;
        }
        push_event(&mut out, event)?;
    }
    Ok(out)
}
