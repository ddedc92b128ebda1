//! Small histories, and what an index is to answer of them, worked out by hand.
use sia_events::{Key, TxnId, Version};
use sia_index::{Fate, Made, Reader, TxnInfo, WriteAt};

/// What is known of a transaction that ended.
macro_rules! ended {
    ($start:expr, $ended:expr, $fate:ident) => {
        TxnInfo {
            start: $start,
            ended: Some($ended),
            fate: Fate::$fate,
        }
    };
}

/// What is known of a transaction that is open.
macro_rules! open {
    ($start:expr) => {
        TxnInfo {
            start: $start,
            ended: None,
            fate: Fate::Unfinished,
        }
    };
}

macro_rules! made {
    ($txn:expr, $commit:expr) => {
        Made {
            txn: $txn,
            commit: $commit,
        }
    };
}

/// A transaction, its number in the log, a place, where it starts, and whether it wrote.
macro_rules! reader {
    ($txn:expr, $number:expr, $place:expr, $start:expr, $has_written:expr) => {
        Reader {
            txn: $txn,
            number: $number,
            place: $place,
            start: $start,
            has_written: $has_written,
        }
    };
}

/// What an index of the text's history is to answer.
pub struct Answers<'a> {
    pub text: &'a [u8],
    /// All transactions.
    pub txns: &'a [(TxnId, TxnInfo)],
    /// All written keys, each with its versions.
    pub keys: &'a [(Key, &'a [Made])],
    pub asked: &'a [Asked<'a>],
    pub readers: &'a [(Reader, &'a [Due])],
}

/// What an index is asked, and its answer.
pub enum Asked<'a> {
    NoTxn(TxnId),
    NoKey(Key),
    Overlap(TxnId, TxnId, bool),
    FirstWrite(TxnId, Key, Option<u32>),
    /// Whether the version at a position is the newest of its key as of a place.
    Newest(u32, u32, bool),
    /// The position of the newest version of the written key with a number as of a place.
    AsOf(u32, u32, u32),
    /// Of the version at a position its key, its commit, its maker, and the positions before and behind.
    At(u32, (u32, u32, Option<u32>), (Option<u32>, Option<u32>)),
    /// The positions of a committed transaction's versions.
    MadeBy(usize, &'a [u32]),
    /// The least of the written keys from one number to before another that has a version up to a place.
    Visible(u32, u32, u32, Option<u32>),
}

/// What an index is asked of a transaction that reads at a place, and its answer.
pub enum Due {
    /// The version due at a key.
    At(Key, Version),
    /// The least key from one to another that it wrote before.
    Own(Key, Key, Option<Key>),
}

const NONE: Answers<'static> = Answers {
    text: b"",
    txns: &[],
    keys: &[],
    asked: &[],
    readers: &[],
};

pub const HISTORIES: &[Answers<'static>] = &[
    Answers {
        asked: &[Asked::NoTxn(1)],
        ..NONE
    },
    // A read-only anomaly: 3 sees 1's write of 2 and not 2's of 1.
    Answers {
        text: b"r2[1:0] r2[2:0] r1[2:0] w1[2] c1 r3[1:0] r3[2:1] c3 w2[1] c2",
        txns: &[
            (1, ended!(2, 5, Committed)),
            (2, ended!(0, 10, Committed)),
            (3, ended!(5, 8, Committed)),
        ],
        keys: &[(1, &[made!(2, 10)]), (2, &[made!(1, 5)])],
        asked: &[
            Asked::NoTxn(9),
            Asked::Overlap(2, 1, true),
            Asked::Overlap(1, 3, false),
            Asked::Overlap(3, 3, true),
            Asked::NoKey(9),
            Asked::FirstWrite(2, 1, Some(9)),
            Asked::FirstWrite(2, 2, None),
        ],
        readers: &[
            (reader!(3, 2, 7, 5, false), &[Due::At(2, 1)]),
            (reader!(2, 0, 2, 0, true), &[Due::At(2, 0)]),
        ],
        ..NONE
    },
    // Numbers that lie near, and far.
    Answers {
        text: b"w5[8] r3[9:0] c5 r7[8:5] w7[6] a7",
        txns: &[
            (3, open!(1)),
            (5, ended!(0, 3, Committed)),
            (7, ended!(3, 6, Aborted)),
        ],
        keys: &[(6, &[]), (8, &[made!(5, 3)])],
        asked: &[Asked::NoTxn(4), Asked::NoKey(9)],
        ..NONE
    },
    Answers {
        text: b"w4294967295[18446744073709551615] w2[0] r1[7:0]",
        txns: &[(1, open!(2)), (2, open!(1)), (TxnId::MAX, open!(0))],
        keys: &[(0, &[]), (Key::MAX, &[])],
        asked: &[Asked::NoTxn(1000), Asked::NoKey(7)],
        ..NONE
    },
    // A key that open transactions alone wrote is a written key without versions.
    Answers {
        text: b"r1[1:0] w2[1] r3[1:2]",
        txns: &[(1, open!(0)), (2, open!(1)), (3, open!(2))],
        keys: &[(1, &[])],
        asked: &[Asked::Overlap(2, 2, false)],
        readers: &[
            (reader!(2, 1, 2, 1, true), &[Due::At(1, 0)]),
            (reader!(2, 1, 3, 1, true), &[Due::At(1, 2)]),
        ],
        ..NONE
    },
    // The start that a begin names counts, and not the place of the begin.
    Answers {
        text: b"w1[1] c1 b2@0 r2[1:0] c2",
        txns: &[(1, ended!(0, 2, Committed)), (2, ended!(0, 5, Committed))],
        keys: &[(1, &[made!(1, 2)])],
        asked: &[Asked::Overlap(1, 2, true)],
        readers: &[(reader!(2, 1, 4, 0, false), &[Due::At(1, 0)])],
        ..NONE
    },
    Answers {
        text: b"w1[1] c1 b2 r2[1:1] c2",
        txns: &[(1, ended!(0, 2, Committed)), (2, ended!(2, 5, Committed))],
        keys: &[(1, &[made!(1, 2)])],
        asked: &[Asked::Overlap(1, 2, false)],
        readers: &[(reader!(2, 1, 4, 2, false), &[Due::At(1, 1)])],
        ..NONE
    },
    // Versions go by commit and not by start, an aborted writer has none, and of several writes the first is told.
    Answers {
        text: b"w1[7] w2[7] w3[7] w2[7] a3 c2 w1[7] c1",
        txns: &[
            (1, ended!(0, 8, Committed)),
            (2, ended!(1, 6, Committed)),
            (3, ended!(2, 5, Aborted)),
        ],
        keys: &[(7, &[made!(2, 6), made!(1, 8)])],
        asked: &[
            Asked::NoTxn(4),
            Asked::FirstWrite(2, 7, Some(2)),
            Asked::FirstWrite(3, 7, Some(3)),
            Asked::FirstWrite(4, 7, None),
        ],
        ..NONE
    },
    // Key 9 was written, and has no version.
    Answers {
        text: b"w1[2] w1[5] c1 w2[4] w3[9] w2[3] w2[5] c2 a3",
        txns: &[
            (1, ended!(0, 3, Committed)),
            (2, ended!(3, 8, Committed)),
            (3, ended!(4, 9, Aborted)),
        ],
        keys: &[
            (2, &[made!(1, 3)]),
            (3, &[made!(2, 8)]),
            (4, &[made!(2, 8)]),
            (5, &[made!(1, 3), made!(2, 8)]),
            (9, &[]),
        ],
        ..NONE
    },
    // What is seen of one written key after another.
    Answers {
        text: b"w1[2] w1[5] c1 b2 w2[4] w3[9] r4[2:1] c2 a3",
        txns: &[
            (1, ended!(0, 3, Committed)),
            (2, ended!(3, 8, Committed)),
            (3, ended!(5, 9, Aborted)),
            (4, open!(6)),
        ],
        keys: &[
            (2, &[made!(1, 3)]),
            (4, &[made!(2, 8)]),
            (5, &[made!(1, 3)]),
            (9, &[]),
        ],
        asked: &[Asked::NoKey(6), Asked::NoKey(8)],
        readers: &[
            (
                reader!(2, 1, 7, 3, true),
                &[
                    Due::At(4, 2),
                    Due::Own(3, 4, Some(4)),
                    Due::Own(5, Key::MAX, None),
                ],
            ),
            (reader!(3, 2, 7, 5, true), &[]),
            (
                reader!(4, 3, 7, 6, false),
                &[Due::At(2, 1), Due::At(4, 0), Due::Own(0, Key::MAX, None)],
            ),
        ],
        ..NONE
    },
    // A range's first and its last key count, and own writes from their place on.
    Answers {
        text: b"w1[2] w1[5] c1 b2 w2[4] w3[9] r2[1:0] w2[3] c2 a3 r4[2:1]",
        txns: &[
            (1, ended!(0, 3, Committed)),
            (2, ended!(3, 9, Committed)),
            (3, ended!(5, 10, Aborted)),
            (4, open!(10)),
        ],
        keys: &[
            (2, &[made!(1, 3)]),
            (3, &[made!(2, 9)]),
            (4, &[made!(2, 9)]),
            (5, &[made!(1, 3)]),
            (9, &[]),
        ],
        readers: &[
            (
                reader!(2, 1, 7, 3, true),
                &[
                    Due::Own(0, 9, Some(4)),
                    Due::Own(4, 4, Some(4)),
                    Due::Own(0, 3, None),
                    Due::Own(5, Key::MAX, None),
                    Due::Own(9, 3, None),
                ],
            ),
            (reader!(2, 1, 9, 3, true), &[Due::Own(3, 9, Some(3))]),
            (
                reader!(3, 2, 10, 5, true),
                &[Due::Own(6, Key::MAX, Some(9)), Due::Own(3, 4, None)],
            ),
            (reader!(1, 0, 1, 0, true), &[Due::Own(0, 9, None)]),
            (reader!(1, 0, 2, 0, true), &[Due::Own(0, 9, Some(2))]),
            (reader!(4, 3, 11, 10, false), &[Due::Own(3, 9, None)]),
        ],
        ..NONE
    },
];

/// What the numbers of a log's transactions, keys and writes are to stand for.
pub struct Numbers<'a> {
    pub text: &'a [u8],
    /// The committed transactions, with their starts and commits.
    pub committed: &'a [(TxnId, u32, u32)],
    /// All transactions by name, with their numbers in the log.
    pub txns: &'a [(TxnId, u32)],
    /// By the log's transaction, its number among the committed ones.
    pub numbers: &'a [Option<u32>],
    /// By the log's key, its number among the written ones.
    pub keys: &'a [Option<u32>],
    /// By the log's write, the number of its key and the position of its version.
    pub writes: &'a [WriteAt],
    /// By the log's transaction, what is known of it as it reads at the place.
    pub readers: &'a [Reader],
    /// By the written key, the position of its version 0.
    pub first_positions: &'a [u32],
    pub asked: &'a [Asked<'a>],
}

macro_rules! write_at {
    ($key:expr, $position:expr) => {
        WriteAt {
            key: $key,
            position: $position,
        }
    };
}

/// Transactions 9, 4, 2, 5 and 6, keys 7, 5, 3 and 1: 5 aborts, 4 and 6 are open, and nothing writes 5. The versions are 2's of 3,
/// 9's of 7 and 2's of 7.
pub const NUMBERED: &Numbers<'static> = &Numbers {
    text: b"w9[7] r4[5:0] w2[3] c9 w2[7] w5[1] c2 w5[7] a5 r4[7:2] w6[3]",
    committed: &[(2, 2, 7), (9, 0, 4)],
    txns: &[(2, 2), (4, 1), (5, 3), (6, 4), (9, 0)],
    numbers: &[Some(1), None, Some(0), None, None],
    keys: &[Some(2), None, Some(1), Some(0)],
    writes: &[
        write_at!(2, Some(4)),
        write_at!(1, Some(2)),
        write_at!(2, Some(5)),
        write_at!(0, None),
        write_at!(2, None),
        write_at!(1, None),
    ],
    readers: &[
        reader!(9, 0, 10, 0, true),
        reader!(4, 1, 10, 1, false),
        reader!(2, 2, 10, 2, true),
        reader!(5, 3, 10, 5, true),
        reader!(6, 4, 10, 10, true),
    ],
    first_positions: &[0, 1, 3],
    asked: &[
        Asked::At(0, (0, 0, None), (None, None)),
        Asked::At(1, (1, 0, None), (None, Some(2))),
        Asked::At(2, (1, 7, Some(0)), (Some(1), None)),
        Asked::At(3, (2, 0, None), (None, Some(4))),
        Asked::At(4, (2, 4, Some(1)), (Some(3), Some(5))),
        Asked::At(5, (2, 7, Some(0)), (Some(4), None)),
        Asked::Newest(0, 11, true),
        Asked::Newest(1, 6, true),
        Asked::Newest(1, 7, false),
        Asked::Newest(2, 6, false),
        Asked::Newest(2, 7, true),
        Asked::Newest(3, 3, true),
        Asked::Newest(3, 4, false),
        Asked::Newest(4, 3, false),
        Asked::Newest(4, 4, true),
        Asked::Newest(4, 6, true),
        Asked::Newest(4, 7, false),
        Asked::Newest(5, 7, true),
        Asked::AsOf(0, 11, 0),
        Asked::AsOf(1, 6, 1),
        Asked::AsOf(1, 7, 2),
        Asked::AsOf(2, 3, 3),
        Asked::AsOf(2, 4, 4),
        Asked::AsOf(2, 6, 4),
        Asked::AsOf(2, u32::MAX, 5),
        Asked::MadeBy(0, &[2, 5]),
        Asked::MadeBy(1, &[4]),
        Asked::Visible(0, 3, 3, None),
        Asked::Visible(0, 3, 4, Some(2)),
        Asked::Visible(0, 2, 6, None),
        Asked::Visible(0, 3, 7, Some(1)),
        Asked::Visible(2, 3, 7, Some(2)),
        Asked::Visible(0, 1, u32::MAX, None),
    ],
};

/// Of `w2[350] c2`, five hundred keys of the open 1, and ` w3[480] r3[350:2]`: own keys, which lie far from the start of the range.
pub const OF_MANY: &[(Reader, &[Due])] = &[
    (
        reader!(3, 2, 504, 502, true),
        &[
            Due::At(350, 2),
            Due::Own(0, 999, Some(480)),
            Due::Own(481, 999, None),
        ],
    ),
    (reader!(3, 2, 503, 502, true), &[Due::Own(0, 999, None)]),
    (
        reader!(1, 1, 303, 2, true),
        &[Due::Own(299, 999, Some(299)), Due::Own(300, 999, None)],
    ),
];

/// And the one key with a version, which lies far from the start too.
pub const VISIBLE_OF_MANY: &[Asked<'static>] = &[
    Asked::Visible(0, 500, 1, None),
    Asked::Visible(0, 500, 2, Some(350)),
    Asked::Visible(350, 351, 2, Some(350)),
    Asked::Visible(0, 350, 2, None),
    Asked::Visible(351, 500, 2, None),
];
