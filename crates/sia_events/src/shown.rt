//! What is shown of a refused token, and of an event in a line of reasons.
ghost use Rattle.std.specs.Prelude.{◌≡◌, ◌<◌, ◌≤◌, ◌++◌, OnOk, ◌↔◌, ℕ, All, Contains, Some, IsTrue, MatchOption, length, slice_index_or};
ghost use Rattle.sia_events.specs.Locations.{hex_digit, shown_byte, shown};
ghost use Rattle.sia_events.specs.declared.event.Event.{Event};
ghost use Rattle.sia_events.specs.Numbering.{names_of, pair_at, range_at, ranges_of, AscendByKey, IsPair};
ghost use Rattle.sia_events.specs.Places.{at_place};
ghost use Rattle.sia_events.specs.Events.{Saw};
ghost use Rattle.sia_events.specs.Anomalies.{LeavesOut};
ghost use Rattle.sia_events.specs.Telling.{told_about};

use crate::event::{Key, Listed, Version};
use crate::fault::NoMemory;
use crate::history::event_from;
use crate::locating::KEPT;
use crate::log::{Log, Row};
use crate::writer::push_event;
use std::alloc::AllocError;

/// A digit below 16.
fn hex_digit(n: u8) -> u8
    requires { n < 16 }
    ensures { result ≡ hex_digit n }
{
    if n < 10 { b'0' + n } else { b'a' + (n - 10) }
}

fn push_byte(out: &mut Vec<u8>, byte: u8) -> Result<(), AllocError>
    ensures { OnOk result (out.new.items ≡ out.old.items ++ shown_byte byte) }
{
    match byte {
        b'!'..=b'[' | b']'..=b'~' => out.extend_from_slice(&[byte]),
        _ => out.extend_from_slice(&[b'\\', b'x', hex_digit(byte / 16), hex_digit(byte % 16)]),
    }
}

/// Appends what is shown of a token: its first 60 bytes, those that are no printable ASCII in hexadecimal digits.
pub fn push_shown(out: &mut Vec<u8>, token: &[u8]) -> Result<(), NoMemory>
    ensures { OnOk result (out.new.items ≡ out.old.items ++ shown token.now) }
{
    let len = token.len().min(KEPT);
    for byte in &token[..len] {
        push_byte(out, *byte)?;
    }
    Ok(())
}

impl Log {
    /// Writes the event at a place behind what is in `out`, as the canonical text has it. Of the pairs that a range read
    /// listed only that of the key is written. Where there is no event, nothing is.
    pub fn push_about(&self, out: &mut Vec<u8>, place: u32, key: Key) -> Result<(), NoMemory>
        ensures { OnOk result (out.new.items ≡ out.old.items ++ told_about self.now place key) }
    {
        self.law();
        let Some(row) = self.row(place) else {
            return Ok(());
        };
        let mut pairs = Vec::new(*out.allocator());
        if let Row::Range { range, .. } = row {
            if let Some(saw) = self.listed_version(range, key) {
                pairs.push((key, saw))?;
            }
        }
        push_event(out, &event_from(self, row, Listed::new(pairs)))?;
        Ok(())
    }

    /// The version that the event at a place saw of a key, if it read the key.
    pub fn saw(&self, place: u32, key: Key) -> Option<Version>
        ensures { MatchOption result ((e : Event) (v : ℕ) → at_place self.now place ≡ Some e → ¬ Saw e key v)
            (λ v. (e : Event) × (at_place self.now place ≡ Some e) × Saw e key v) }
    {
        match self.row(place) {
            Some(Row::Read { key: own, saw, .. } | Row::OwnRead { key: own, saw, .. }) => {
                (self.key(own) == key).then_some(self.version(saw))
            }
            Some(Row::Range { range, .. }) => {
                let (lo, hi) = self.range(range);
                if key < lo || hi < key {
                    return None;
                }
                Some(self.listed_version(range, key).unwrap_or(0))
            }
            _ => None,
        }
    }

    /// Whether the event at a place is a range read that doesn't list the key.
    pub fn leaves_out(&self, place: u32, key: Key) -> bool
        ensures { IsTrue result ↔ ((e : Event) × (at_place self.now place ≡ Some e) × LeavesOut e key) }
    {
        match self.row(place) {
            Some(Row::Range { range, .. }) => self.listed_version(range, key).is_none(),
            _ => false,
        }
    }

    /// The version at which a range read listed the key, if it did.
    fn listed_version(&self, range: u32, key: Key) -> Option<Version>
        requires { range < length (ranges_of self.now) }
        ensures { MatchOption result ((v : ℕ) → ¬ Contains (range_at (names_of self.now) range).2 (key, v))
            (λ v. Contains (range_at (names_of self.now) range).2 (key, v)) }
    {
        let listed = self.listed(range);
        let at = self.place_of(listed, key);
        if at >= listed.len() {
            return None;
        }
        let (own, saw) = self.pair(listed[at]);
        if own == key { Some(saw) } else { None }
    }

    /// How many of the pairs are of keys before this one.
    pub fn place_of(&self, pairs: &[u32], key: Key) -> usize
        requires numbers { All (IsPair (names_of self.now)) pairs.now }
        requires ascend { AscendByKey self.now pairs.now }
        ensures bound { result ≤ length pairs.now }
        ensures below { (i d : ℕ) → i < result
            → (pair_at (names_of self.now) (slice_index_or pairs.now i d)).0 < key }
        ensures above { (i d : ℕ) → result ≤ i → i < length pairs.now
            → key ≤ (pair_at (names_of self.now) (slice_index_or pairs.now i d)).0 }
    {
        let mut low = 0;
        let mut high = pairs.len();
        while low < high {
            let middle = low + (high - low) / 2;
            if self.pair(pairs[middle]).0 < key {
                low = middle + 1;
            } else {
                high = middle;
            }
        }
        low
    }
}
