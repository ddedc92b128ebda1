//! Where the tokens of a text stand that comes in pieces.
ghost use Rattle.std.specs.Prelude.{◌≡◌, ◌+◌, ◌<◌, ◌≤◌, ◌++◌, ◌∷◌, ℕ, List, [], length, take, false};
ghost use Rattle.std.specs.Option.{option_map};
ghost use Rattle.sia_events.specs.Limits.{Limits};
ghost use Rattle.sia_events.specs.Locating.{Follows, StandsForLocated, Located};
ghost use Rattle.sia_events.specs.Locations.{IsPlaceAfter, IsLocated};
ghost use Rattle.sia_events.specs.Refusals.{IsRefusal};
ghost use Rattle.sia_events.specs.declared.fault.Reason.{Reason as AReason};
ghost use Rattle.sia_events.specs.declared.fault.TextFault.TheVariants.{Refused};
ghost use Rattle.sia_events.specs.Streaming.{Progress, StandsForRead};
ghost use Rattle.sia_events.specs.Text.{is_separator};

use crate::judge::{is_separator, token_len};
use std::marker::Model;

/// How many bytes of a token are kept, and shown.
pub(crate) const KEPT: usize = 60;

/// A line of a text, and a column on it. Both are counted from 1.
#[derive(Clone, Copy)]
pub struct Place {
    pub line: u64,
    pub column: u64,
}

impl Place {
    fn behind(self, byte: u8) -> Place
        ensures { (front : List ℕ) → length front < 17179869184 → IsPlaceAfter front self.line self.column
            → IsPlaceAfter (front ++ byte ∷ []) result.line result.column }
    {
        if byte == b'\n' {
            let line = self.line.saturating_add(1);
            Place { line, column: 1 }
        } else {
            let column = self.column.saturating_add(1);
            Place { column, ..self }
        }
    }
}

/// Stands beside a reader, and is fed the same pieces. It keeps where the last token began, and its first bytes.
#[derive(Drop)]
pub struct Locator {
    number: u32,
    next: Place,
    place: Place,
    token: [u8; KEPT],
    len: usize,
    is_open: bool,
}

impl Model for Locator {
    ghost Value = { Located };

    ghost view = { λ l. record {
      number = l.number;
      next = l.next;
      place = l.place;
      token = take l.len l.token;
      is_open = l.is_open;
    } };

    ghost invariant = { λ l. l.len ≤ 60 };
}

impl Locator {
    /// A locator that has been fed nothing.
    pub fn new() -> Self
        ensures { (limits : Limits) (reader : Progress) → StandsForRead limits reader []
            → StandsForLocated limits result reader [] }
    {
        let start = Place { line: 1, column: 1 };
        Locator {
            number: 0,
            next: start,
            place: start,
            token: [0; KEPT],
            len: 0,
            is_open: false,
        }
    }

    /// Passes the next piece of the text, up to the token that the reader, which has read it, has refused.
    pub fn feed(&mut self, piece: &[u8], refused: Option<u32>)
        ensures { (limits : Limits) (before after : Progress) (text : List ℕ)
            → StandsForRead limits before text → StandsForRead limits after (text ++ piece.now)
            → option_map (λ fault. fault.0) after.fault ≡ refused
            → StandsForLocated limits self.old before text
            → StandsForLocated limits self.new after (text ++ piece.now) }
    {
        let last = refused.unwrap_or(u32::MAX);
        let mut at = 0;
        while at < piece.len() {
            self.pass(piece[at], last);
            at += 1 + self.pass_rest(&piece[at + 1..]);
        }
    }

    /// Passes the bytes that go on the token, if one has begun, and answers how many they are.
    fn pass_rest(&mut self, piece: &[u8]) -> usize
        ensures within { result ≤ length piece.now }
        ensures number { self.new.number ≡ self.old.number }
        ensures closed { self.old.is_open ≡ false → (self.new ≡ self.old) × (result ≡ 0) }
        ensures follows { (text : List ℕ) → length text + result ≤ 17179869184 → Follows self.old text
            → Follows self.new (text ++ take result piece.now) }
    {
        if !self.is_open {
            return 0;
        }
        let len = token_len(piece);
        self.len = keep(&mut self.token, self.len, &piece[..len]);
        self.next.column = self.next.column.saturating_add(len as u64);
        len
    }

    /// Passes a byte, unless it begins a token after the last one.
    fn pass(&mut self, byte: u8, last: u32)
        ensures follows { (text : List ℕ) → length text < 17179869184 → Follows self.old text
            → (self.old.is_open ≡ false → is_separator byte ≡ false → self.old.number < last)
            → Follows self.new (text ++ byte ∷ []) }
        ensures within { self.old.number ≤ last → self.new.number ≤ last }
        ensures stopped { self.old.is_open ≡ false → last ≤ self.old.number
            → (self.new.is_open ≡ false) × (self.new.number ≡ self.old.number)
            × (self.new.place ≡ self.old.place) × (self.new.token ≡ self.old.token) }
    {
        let next = self.next.behind(byte);
        if is_separator(byte) {
            self.is_open = false;
        } else if self.is_open {
            self.len = keep(&mut self.token, self.len, &[byte]);
        } else if self.number < last {
            self.number += 1;
            self.place = self.next;
            self.len = keep(&mut self.token, 0, &[byte]);
            self.is_open = true;
        } else {
            return;
        }
        self.next = next;
    }

    /// Where the last token that was passed began.
    pub fn place(&self) -> Place
        ensures place { result ≡ self.now.place }

        // Beside a reader that refuses a token, this is where that token is.
        ensures refused { (limits : Limits) (reader : Progress) (text : List ℕ) (number : ℕ)
            (reason : AReason) → StandsForRead limits reader text
            → StandsForLocated limits self.now reader text
            → IsRefusal limits text (Refused number reason)
            → IsLocated text number result.line result.column self.now.token }
    {
        self.place
    }

    /// The first 60 bytes of that token.
    pub fn token(&self) -> &[u8]
        ensures { result.now ≡ self.now.token }
    {
        &self.token[..self.len]
    }
}

/// Keeps more bytes of a token behind so many, as far as there is room, and answers how many there are then.
fn keep(token: &mut [u8; KEPT], len: usize, bytes: &[u8]) -> usize
    requires { len ≤ 60 }
    ensures within { result ≤ 60 }
    ensures kept { take result token.new ≡ take 60 (take len token.old ++ bytes.now) }
{
    let end = len + bytes.len().min(KEPT - len);
    token[len..end].copy_from_slice(&bytes[..end - len]);
    end
}
