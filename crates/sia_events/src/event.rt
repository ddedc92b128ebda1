//! Events, and what can be wrong with a read.
ghost use Rattle.std.specs.Prelude.{◌≡◌};
ghost use Rattle.sia_events.specs.Events.{actor};

use std::marker::Model;

/// A transaction's name, from 1.
pub type TxnId = u32;

/// 0, or the transaction that wrote the version.
pub type Version = u32;

pub type Key = u64;

/// A list: of what a range read listed, or of what a verdict lists.
#[derive(Drop)]
pub struct Listed<T> {
    rows: Vec<T>,
}

impl<T> Model for Listed<T> {
    ghost use Rattle.std.specs.Prelude.{List};

    ghost Value = { List T };

    ghost view = { λ a. a.rows.items };
}

impl<T> Listed<T> {
    pub fn new(rows: Vec<T>) -> Self
        ensures { result ≡ rows.items }
    {
        Listed { rows }
    }

    pub fn as_slice(&self) -> &[T]
        ensures { result.now ≡ self.now }
    {
        self.rows.as_slice()
    }
}

/// One event of a history.
#[derive(Drop)]
pub enum Event {
    Begin {
        txn: TxnId,
        start: Option<u32>,
    },
    Read {
        txn: TxnId,
        key: Key,
        saw: Version,
    },
    Range {
        txn: TxnId,
        lo: Key,
        hi: Key,
        /// The keys that are listed, each with the version that it was seen at.
        listed: Listed<(Key, Version)>,
    },
    Write {
        txn: TxnId,
        key: Key,
    },
    Commit {
        txn: TxnId,
    },
    Abort {
        txn: TxnId,
    },
}

impl Event {
    /// The transaction that acts.
    pub fn txn(&self) -> TxnId
        ensures { result ≡ actor self.now }
    {
        match self {
            Event::Begin { txn, .. }
            | Event::Read { txn, .. }
            | Event::Range { txn, .. }
            | Event::Write { txn, .. }
            | Event::Commit { txn }
            | Event::Abort { txn } => *txn,
        }
    }
}

/// What went wrong at a bad read. The first that fits is its name. Of which rule of the papers each is a breach,
/// docs/FORMAT.md says.
#[derive(Clone, Copy, PartialEq, Eq)]
pub enum Anomaly {
    /// The reader had written the key before, so its own version was due.
    OwnWriteMissed,
    /// The transaction of the version that was seen aborted.
    AbortedRead,
    /// That transaction is open.
    UncommittedRead,
    /// That transaction committed after the reader had started.
    FutureRead,
    /// A range read doesn't list the key, of which a version was due.
    Phantom,
    /// The version that was seen is older than the one due.
    StaleRead,
}
