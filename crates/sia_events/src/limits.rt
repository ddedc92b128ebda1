//! How many events and how many bytes a text may have.
ghost use Rattle.std.specs.Prelude.{◌≡◌, ◌↔◌, ◌≤◌, IsNone, IfSome};
ghost use Rattle.sia_events.specs.Limits.{Limits, greatest, standard, AreWithin};

use std::marker::Model;

/// No limits allow more events.
pub(crate) const MAX_EVENTS: u32 = 500_000_000;

/// No limits allow more bytes.
const MAX_BYTES: u64 = 17_179_869_184;

/// How many events and how many bytes a text may have.
#[derive(Clone, Copy, PartialEq, Eq)]
pub struct Limits {
    events: u32,
    bytes: u64,
}

impl Model for Limits {
    ghost Value = { Limits };

    ghost view = { λ l. record { events = l.events; bytes = l.bytes } };

    ghost inverse = { λ l. record { events = l.events; bytes = l.bytes } };

    ghost invariant = { λ l. AreWithin (record { events = l.events; bytes = l.bytes }) greatest };
}

impl Limits {
    /// 100,000 events and 16 MiB.
    pub fn standard() -> Limits
        ensures { result ≡ standard }
    {
        Limits {
            events: 100_000,
            bytes: 16_777_216,
        }
    }

    /// None where one of them is beyond 500,000,000 events or 17,179,869,184 bytes, which are 16 GiB.
    pub fn new(events: u64, bytes: u64) -> Option<Limits>
        ensures some { IfSome result (λ l. l ≡ record { events = events; bytes = bytes }) }
        ensures none { IsNone result ↔ ¬ AreWithin (record { events = events; bytes = bytes }) greatest }
    {
        if events > u64::from(MAX_EVENTS) || bytes > MAX_BYTES {
            return None;
        }
        Some(Limits {
            events: events as u32,
            bytes,
        })
    }

    /// A law of all limits, and nothing else: the greatest ones allow what they allow.
    pub fn law(&self)
        ensures { AreWithin self.now greatest }
    {
        let _ = &self.events;
    }

    /// The most events: 500,000,000 or fewer.
    pub fn events(&self) -> u32
        ensures events { result ≡ self.now.events }
        ensures few { result ≤ 500000000 }
    {
        self.events
    }

    /// The most bytes: 16 GiB or fewer.
    pub fn bytes(&self) -> u64
        ensures bytes { result ≡ self.now.bytes }
        ensures few { result ≤ 17179869184 }
    {
        self.bytes
    }
}
