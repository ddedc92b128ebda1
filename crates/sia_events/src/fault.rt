ghost use Rattle.std.specs.Prelude.{◌≡◌};
ghost use Rattle.sia_events.specs.declared.fault.Refusal.TheVariants as refusals;

use std::alloc::{AllocError, AllocFailed};
use thiserror::Error;

/// A growth was refused.
#[derive(Clone, Copy, Debug, PartialEq, Eq)]
pub struct NoMemory;

impl From<AllocError> for NoMemory {
    fn from(_refused: AllocError) -> NoMemory {
        NoMemory
    }
}

impl<T: Drop> From<AllocFailed<T>> for NoMemory {
    fn from(_refused: AllocFailed<T>) -> NoMemory {
        NoMemory
    }
}

/// Why a token can't stand where it stands. Of several the first in this list is told.
#[derive(Clone, Copy, Debug, PartialEq, Eq)]
pub enum Reason {
    TooManyEvents,
    BadEvent,
    BadNumber,
    AlreadyEnded,
    AlreadyBegun,
    EmptyRange,
    BadList,
    NotWritten,
    BadStart,
}

/// Why there is no history.
#[derive(Clone, Copy, Debug, PartialEq, Eq, Error)]
pub enum TextFault {
    #[error("no memory")]
    NoMemory,
    #[error("text too long")]
    TextTooLong,
    #[error("token {token}: {reason:?}")]
    Refused { token: u32, reason: Reason },
}

/// Why a token gives no event.
#[derive(Clone, Copy)]
pub(crate) enum Refusal {
    NoMemory,
    Bad(Reason),
}

impl From<AllocError> for Refusal {
    ghost from_gives = { λ _ e. e ≡ refusals.NoMemory };

    fn from(_fault: AllocError) -> Refusal {
        Refusal::NoMemory
    }
}

impl<T: Drop> From<AllocFailed<T>> for Refusal {
    ghost from_gives = { λ _ e. e ≡ refusals.NoMemory };

    fn from(_fault: AllocFailed<T>) -> Refusal {
        Refusal::NoMemory
    }
}
