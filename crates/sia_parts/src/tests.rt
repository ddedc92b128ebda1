//! Cuts and findings worked out by hand, and what an index answers.
macro_rules! bad_read {
    ($place:expr, $txn:expr, $key:expr, $saw:expr, $due:expr) => {
        BadRead {
            place: $place,
            txn: $txn,
            key: $key,
            saw: $saw,
            due: $due,
        }
    };
}

macro_rules! bad_write {
    ($key:expr, $first:expr, $second:expr) => {
        BadWrite {
            key: $key,
            first: $first,
            second: $second,
        }
    };
}

macro_rules! unexplained {
    ($place:expr, $txn:expr, $key:expr, $saw:expr) => {
        Unexplained {
            place: $place,
            txn: $txn,
            key: $key,
            saw: $saw,
        }
    };
}

macro_rules! edge {
    ($src:expr, $kind:ident, $dst:expr, $key:expr) => {
        Edge {
            src: $src,
            kind: Kind::$kind,
            dst: $dst,
            key: $key,
        }
    };
}

macro_rules! part {
    ($lo:expr, $hi:expr) => {
        Part { lo: $lo, hi: $hi }
    };
}

mod cuts;
mod histories;
mod index;
mod worked;
