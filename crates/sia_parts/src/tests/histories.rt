//! Small histories, worked out by hand from the definitions.
use crate::*;
use sia_events::{Key, TxnId};

macro_rules! miss {
    ($from:expr, $to:expr) => {
        RangeMiss {
            from: $from,
            to: $to,
        }
    };
}

/// A history, the ways its keys are cut, and what is to be found.
pub struct Worked<'a> {
    pub text: &'a [u8],
    pub cuttings: &'a [&'a [Key]],
    pub bad_reads: &'a [BadRead],
    pub bad_writes: &'a [BadWrite],
    pub unexplained: &'a [Unexplained],
    pub edges: &'a [Edge],
}

/// No event.
const NOTHING: Worked<'static> = Worked {
    text: b"",
    cuttings: &[&[], &[5]],
    bad_reads: &[],
    bad_writes: &[],
    unexplained: &[],
    edges: &[],
};

/// What else is to be found in some of the histories.
pub struct More<'a> {
    /// Behind the edges, more that lead from one to each target up to before another, and what their keys rise by.
    pub edges: &'a [(Edge, TxnId, Key)],
    /// The committed transactions, where any are named.
    pub committed: &'a [TxnId],
    /// What each of them saw, where anything is named: positions of versions, and range misses.
    pub saw: &'a [(&'a [u32], &'a [RangeMiss])],
    /// Single parts of the keys, and the edges in each. There is no other finding.
    pub parts: &'a [(Part, &'a [Edge])],
}

/// No more than that.
const NO_MORE: More<'static> = More {
    edges: &[],
    committed: &[],
    saw: &[],
    parts: &[],
};

pub const NOTHING_MORE: &More<'static> = &NO_MORE;

pub const HISTORIES: &[Worked<'static>] = &[
    NOTHING,
    // A transaction that only commits.
    Worked {
        text: b"c7",
        ..NOTHING
    },
    // Transactions with no edge.
    Worked {
        text: b"w1[1] c1 w2[9] c2",
        ..NOTHING
    },
    // Listed keys that nobody wrote are nothing.
    Worked {
        text: b"r1[0..9;4:0] c1",
        ..NOTHING
    },
    // Edges lead between all pairs of versions and of a read's version, and not only between neighbours: 4 saw 2's version, so
    // 1's is before it too, and 3's is due.
    Worked {
        text: b"w1[1] c1 w2[1] c2 w3[1] c3 r4[1:2] c4",
        bad_reads: &[bad_read!(7, 4, 1, 2, 3)],
        edges: &[
            edge!(1, Ww, 2, 1),
            edge!(1, Ww, 3, 1),
            edge!(1, Wr, 4, 1),
            edge!(2, Ww, 3, 1),
            edge!(2, Wr, 4, 1),
            edge!(4, Rw, 3, 1),
        ],
        ..NOTHING
    },
    // Edges go by source, target, kind and key, also where transactions and keys lie far apart.
    Worked {
        text: b"r1000000[3:0] w5[18446744073709551615] w5[3] c5 \
          r4000000000[3:5] r4000000000[18446744073709551615:5] \
          w4000000000[18446744073709551615] w4000000000[3] c4000000000 c1000000",
        edges: &[
            edge!(5, Ww, 4_000_000_000, 3),
            edge!(5, Ww, 4_000_000_000, Key::MAX),
            edge!(5, Wr, 4_000_000_000, 3),
            edge!(5, Wr, 4_000_000_000, Key::MAX),
            edge!(1_000_000, Rw, 5, 3),
            edge!(1_000_000, Rw, 4_000_000_000, 3),
        ],
        ..NOTHING
    },
    // A version that aborts gives a bad and unexplained read, and no edge; nor does one that stays open.
    Worked {
        text: b"w1[1] r2[1:1] c2 a1",
        bad_reads: &[bad_read!(2, 2, 1, 1, 0)],
        unexplained: &[unexplained!(2, 2, 1, 1)],
        ..NOTHING
    },
    Worked {
        text: b"w1[1] r2[1:1] c2",
        bad_reads: &[bad_read!(2, 2, 1, 1, 0)],
        unexplained: &[unexplained!(2, 2, 1, 1)],
        ..NOTHING
    },
    // One that commits later gives an edge, and is explained.
    Worked {
        text: b"w1[1] r2[1:1] c2 c1",
        bad_reads: &[bad_read!(2, 2, 1, 1, 0)],
        edges: &[edge!(1, Wr, 2, 1)],
        ..NOTHING
    },
    // In a range that lists it, read by an aborted transaction, an aborted version is a bad read alone.
    Worked {
        text: b"w1[5] a1 r2[0..9;5:1] a2",
        bad_reads: &[bad_read!(3, 2, 5, 1, 0)],
        ..NOTHING
    },
    // An own write that a later read misses is due.
    Worked {
        text: b"w1[1] r1[1:0] c1",
        bad_reads: &[bad_read!(2, 1, 1, 0, 1)],
        unexplained: &[unexplained!(2, 1, 1, 0)],
        ..NOTHING
    },
    Worked {
        text: b"w1[3] r1[0..9]",
        bad_reads: &[bad_read!(2, 1, 3, 0, 1)],
        ..NOTHING
    },
    // Own versions give no edge.
    Worked {
        text: b"w1[1] c1 w2[1] r2[1:2] r2[0..5;1:2] c2",
        edges: &[edge!(1, Ww, 2, 1)],
        ..NOTHING
    },
    // 1 read key 4 before it wrote it: 2's version is after what it saw, and it isn't its own successor. 2 committed after 1 had
    // started.
    Worked {
        text: b"r1[4:0] w2[4] c2 w1[4] c1",
        bad_writes: &[bad_write!(4, 2, 1)],
        edges: &[edge!(1, Rw, 2, 4), edge!(2, Ww, 1, 4)],
        ..NOTHING
    },
    // Two reads of one key by one transaction give an edge once, and each of their edges.
    Worked {
        text: b"r1[1:0] r1[0..5] w2[1] c2 c1",
        edges: &[edge!(1, Rw, 2, 1)],
        ..NOTHING
    },
    // 3 saw 1's version and then 2's: both are before what it saw, and 2's is also after it.
    Worked {
        text: b"w1[1] c1 r3[1:1] w2[1] c2 r3[1:2] c3",
        bad_reads: &[bad_read!(6, 3, 1, 2, 1)],
        edges: &[
            edge!(1, Ww, 2, 1),
            edge!(1, Wr, 3, 1),
            edge!(2, Wr, 3, 1),
            edge!(3, Rw, 2, 1),
        ],
        ..NOTHING
    },
    // A read is judged as of its transaction's start, and not of its own place.
    Worked {
        text: b"r1[2:0] w2[1] c2 r1[1:2] c1",
        bad_reads: &[bad_read!(4, 1, 1, 2, 0)],
        edges: &[edge!(2, Wr, 1, 1)],
        ..NOTHING
    },
    // The bad reads of open transactions count.
    Worked {
        text: b"r1[1:0] w2[1] r3[1:2]",
        bad_reads: &[bad_read!(3, 3, 1, 2, 0)],
        ..NOTHING
    },
    // A range lists key 3 and leaves out key 7, both written before: 3 is right, 7 was to be seen.
    Worked {
        text: b"w1[3] w1[7] c1 r2[0..9;3:1] c2",
        bad_reads: &[bad_read!(4, 2, 7, 0, 1)],
        edges: &[edge!(1, Wr, 2, 3), edge!(2, Rw, 1, 7)],
        ..NOTHING
    },
    // Each of three overlapping writers of a key had to give way to those that committed before it.
    Worked {
        text: b"w1[1] w2[1] w3[1] c1 c2 c3",
        bad_writes: &[
            bad_write!(1, 1, 2),
            bad_write!(1, 1, 3),
            bad_write!(1, 2, 3),
        ],
        edges: &[edge!(1, Ww, 2, 1), edge!(1, Ww, 3, 1), edge!(2, Ww, 3, 1)],
        ..NOTHING
    },
    // The start that a begin names counts for reads and for writes.
    Worked {
        text: b"w1[1] c1 b2@0 r2[1:0] c2",
        edges: &[edge!(2, Rw, 1, 1)],
        ..NOTHING
    },
    Worked {
        text: b"w1[1] c1 b2 r2[1:0] c2",
        bad_reads: &[bad_read!(4, 2, 1, 0, 1)],
        edges: &[edge!(2, Rw, 1, 1)],
        ..NOTHING
    },
    Worked {
        text: b"w1[1] c1 b2@1 w2[1] c2",
        bad_writes: &[bad_write!(1, 1, 2)],
        edges: &[edge!(1, Ww, 2, 1)],
        ..NOTHING
    },
    Worked {
        text: b"w1[1] c1 b2@2 w2[1] c2",
        edges: &[edge!(1, Ww, 2, 1)],
        ..NOTHING
    },
    // 2 started when 1 had committed. Both of its ranges miss 1's versions where they list nothing, and 3's, which came later.
    Worked {
        text: b"w1[2] w1[4] w1[6] c1 r2[0..9;4:1] r2[5..12] w3[8] c3 c2",
        cuttings: &[&[], &[3, 6, 7]],
        bad_reads: &[
            bad_read!(5, 2, 2, 0, 1),
            bad_read!(5, 2, 6, 0, 1),
            bad_read!(6, 2, 6, 0, 1),
        ],
        edges: &[
            edge!(1, Wr, 2, 4),
            edge!(2, Rw, 1, 2),
            edge!(2, Rw, 1, 6),
            edge!(2, Rw, 3, 8),
        ],
        ..NOTHING
    },
    // The greatest key of all, missed and listed.
    Worked {
        text: b"w1[18446744073709551615] c1 r2[0..18446744073709551615] c2",
        bad_reads: &[bad_read!(3, 2, Key::MAX, 0, 1)],
        edges: &[edge!(2, Rw, 1, Key::MAX)],
        ..NOTHING
    },
    Worked {
        text: b"w1[18446744073709551615] c1 r2[7..18446744073709551615;18446744073709551615:1] c2",
        edges: &[edge!(1, Wr, 2, Key::MAX)],
        ..NOTHING
    },
    // The least key and the greatest.
    Worked {
        text: b"r1[0..18446744073709551615] w2[0] w2[18446744073709551615] c2 c1",
        cuttings: &[&[], &[0, Key::MAX]],
        edges: &[edge!(1, Rw, 2, 0), edge!(1, Rw, 2, Key::MAX)],
        ..NOTHING
    },
    // Wide ranges that are read again: by 1 before any version was committed, by 3 after that, and by 4 after its own write.
    Worked {
        text: b"r1[0..99] r1[1..98] w2[10] w2[50] c2 r3[0..99] r1[0..99] c1 c3 w4[70] r4[0..99;10:2,50:2] c4",
        cuttings: &[&[], &[20, 60], &[10, 11, 50, 51, 70, 71]],
        bad_reads: &[
            bad_read!(6, 3, 10, 0, 2),
            bad_read!(6, 3, 50, 0, 2),
            bad_read!(11, 4, 70, 0, 4),
        ],
        unexplained: &[unexplained!(11, 4, 70, 0)],
        edges: &[
            edge!(1, Rw, 2, 10),
            edge!(1, Rw, 2, 50),
            edge!(1, Rw, 4, 70),
            edge!(2, Wr, 4, 10),
            edge!(2, Wr, 4, 50),
            edge!(3, Rw, 2, 10),
            edge!(3, Rw, 2, 50),
            edge!(3, Rw, 4, 70),
        ],
        ..NOTHING
    },
    // The edges of five transactions, at a key of each part. 5 saw 1's version of key 9 in place of 2's.
    Worked {
        text: b"r4[1:0] r4[9:0] w1[1] w1[9] c1 r2[1:1] w2[1] w2[9] c2 \
        r3[1:2] r3[9:2] w3[1] c3 r5[1:3] r5[9:1] c5 c4",
        bad_reads: &[bad_read!(15, 5, 9, 1, 2)],
        edges: &[
            edge!(1, Ww, 2, 1),
            edge!(1, Ww, 2, 9),
            edge!(1, Wr, 2, 1),
            edge!(1, Ww, 3, 1),
            edge!(1, Wr, 3, 1),
            edge!(1, Wr, 3, 9),
            edge!(1, Wr, 5, 1),
            edge!(1, Wr, 5, 9),
            edge!(2, Ww, 3, 1),
            edge!(2, Wr, 3, 1),
            edge!(2, Wr, 3, 9),
            edge!(2, Rw, 3, 1),
            edge!(2, Wr, 5, 1),
            edge!(3, Wr, 5, 1),
            edge!(4, Rw, 1, 1),
            edge!(4, Rw, 1, 9),
            edge!(4, Rw, 2, 1),
            edge!(4, Rw, 2, 9),
            edge!(4, Rw, 3, 1),
            edge!(5, Rw, 2, 9),
        ],
        ..NOTHING
    },
    // 1 aborted and 3 is open.
    Worked {
        text: b"w1[7] w2[7] a1 c2 r3[7:2] r5[7:2] c5",
        edges: &[edge!(2, Wr, 5, 7)],
        ..NOTHING
    },
];

pub const MORE: &[(Worked<'static>, More<'static>)] = &[
    // 1 aborted, 3 is open, and the greatest comes first.
    (
        Worked {
            text: b"c9 w1[7] w2[7] r3[7:0] a1 c2",
            ..NOTHING
        },
        More {
            committed: &[2, 9],
            ..NO_MORE
        },
    ),
    // The versions of key 3 have the positions 0 and 1, those of key 4 2 and 3, of key 5 4 to 6, and of key 6 7 and 8. 2 saw version
    // 0 and then 1's version of key 3, 1's version of key 5, which its range lists, and version 0 of keys 4 and 6, which its range
    // passes over: these have the numbers 1 and 3. Key 3, with number 0, lies before the range, and nobody wrote key 7.
    (
        Worked {
            text: b"r2[3:0] w1[3] w1[4] w1[5] w1[6] c1 r2[3:1] r2[4..7;5:1] w2[5] c2",
            bad_reads: &[bad_read!(7, 2, 3, 1, 0), bad_read!(8, 2, 5, 1, 0)],
            bad_writes: &[bad_write!(5, 1, 2)],
            edges: &[
                edge!(1, Ww, 2, 5),
                edge!(1, Wr, 2, 3),
                edge!(1, Wr, 2, 5),
                edge!(2, Rw, 1, 3),
                edge!(2, Rw, 1, 4),
                edge!(2, Rw, 1, 6),
            ],
            ..NOTHING
        },
        More {
            saw: &[(&[], &[]), (&[0, 1, 5], &[miss!(1, 2), miss!(3, 4)])],
            ..NO_MORE
        },
    ),
    // 4 saw 2's version of key 1 and then 1's, and 3's of key 5, also where the keys are cut between: positions 2, 1 and 4.
    (
        Worked {
            text: b"w1[1] c1 w2[1] c2 w3[5] c3 r4[1:2] r4[1:1] r4[5:3] c4",
            cuttings: &[&[], &[3]],
            bad_reads: &[bad_read!(8, 4, 1, 1, 2)],
            edges: &[
                edge!(1, Ww, 2, 1),
                edge!(1, Wr, 4, 1),
                edge!(2, Wr, 4, 1),
                edge!(3, Wr, 4, 5),
                edge!(4, Rw, 2, 1),
            ],
            ..NOTHING
        },
        More {
            saw: &[(&[], &[]), (&[], &[]), (&[], &[]), (&[1, 2, 4], &[])],
            ..NO_MORE
        },
    ),
    // Two ranges across a cut: each part has the edge of its own key.
    (
        Worked {
            text: b"b1 b2 r1[10..20] r2[10..20] w1[12] w2[15] c1 c2",
            cuttings: &[&[], &[14], &[15, 15, 0, 11]],
            edges: &[edge!(1, Rw, 2, 15), edge!(2, Rw, 1, 12)],
            ..NOTHING
        },
        More {
            parts: &[
                (part!(0, 13), &[edge!(2, Rw, 1, 12)]),
                (part!(14, Key::MAX), &[edge!(1, Rw, 2, 15)]),
            ],
            ..NO_MORE
        },
    ),
    // A range that begins and ends at parts' ends covers its first key and its last, and none beside them.
    (
        Worked {
            text: b"r1[10..19] w2[9] w2[10] w2[19] w2[20] c2 c1",
            cuttings: &[&[], &[10, 20], &[9, 11, 19]],
            edges: &[edge!(1, Rw, 2, 10), edge!(1, Rw, 2, 19)],
            ..NOTHING
        },
        More {
            parts: &[(part!(11, 19), &[edge!(1, Rw, 2, 19)]), (part!(20, 9), &[])],
            ..NO_MORE
        },
    ),
    // Twenty versions of a key, by 1 to 20. 31 saw the last of them and another key, and two saw version 0, one of them by a range
    // read.
    (
        Worked {
            text: b"b32 b33 w1[7] c1 w2[7] c2 w3[7] c3 w4[7] c4 w5[7] c5 w6[7] c6 w7[7] c7 w8[7] c8 w9[7] c9 w10[7] c10 w11[7] c11 \
                w12[7] c12 w13[7] c13 w14[7] c14 w15[7] c15 w16[7] c16 w17[7] c17 w18[7] c18 w19[7] c19 w20[7] c20 \
                w30[1] c30 r31[1:30] r31[7:20] c31 r32[7:0] c32 r33[6..8] c33",
            cuttings: &[&[], &[5], &[2, 500, 1002]],
            ..NOTHING
        },
        More {
            edges: &[
                (edge!(1, Ww, 2, 7), 21, 0),
                (edge!(1, Wr, 31, 7), 32, 0),
                (edge!(2, Ww, 3, 7), 21, 0),
                (edge!(2, Wr, 31, 7), 32, 0),
                (edge!(3, Ww, 4, 7), 21, 0),
                (edge!(3, Wr, 31, 7), 32, 0),
                (edge!(4, Ww, 5, 7), 21, 0),
                (edge!(4, Wr, 31, 7), 32, 0),
                (edge!(5, Ww, 6, 7), 21, 0),
                (edge!(5, Wr, 31, 7), 32, 0),
                (edge!(6, Ww, 7, 7), 21, 0),
                (edge!(6, Wr, 31, 7), 32, 0),
                (edge!(7, Ww, 8, 7), 21, 0),
                (edge!(7, Wr, 31, 7), 32, 0),
                (edge!(8, Ww, 9, 7), 21, 0),
                (edge!(8, Wr, 31, 7), 32, 0),
                (edge!(9, Ww, 10, 7), 21, 0),
                (edge!(9, Wr, 31, 7), 32, 0),
                (edge!(10, Ww, 11, 7), 21, 0),
                (edge!(10, Wr, 31, 7), 32, 0),
                (edge!(11, Ww, 12, 7), 21, 0),
                (edge!(11, Wr, 31, 7), 32, 0),
                (edge!(12, Ww, 13, 7), 21, 0),
                (edge!(12, Wr, 31, 7), 32, 0),
                (edge!(13, Ww, 14, 7), 21, 0),
                (edge!(13, Wr, 31, 7), 32, 0),
                (edge!(14, Ww, 15, 7), 21, 0),
                (edge!(14, Wr, 31, 7), 32, 0),
                (edge!(15, Ww, 16, 7), 21, 0),
                (edge!(15, Wr, 31, 7), 32, 0),
                (edge!(16, Ww, 17, 7), 21, 0),
                (edge!(16, Wr, 31, 7), 32, 0),
                (edge!(17, Ww, 18, 7), 21, 0),
                (edge!(17, Wr, 31, 7), 32, 0),
                (edge!(18, Ww, 19, 7), 21, 0),
                (edge!(18, Wr, 31, 7), 32, 0),
                (edge!(19, Ww, 20, 7), 21, 0),
                (edge!(19, Wr, 31, 7), 32, 0),
                (edge!(20, Wr, 31, 7), 32, 0),
                (edge!(30, Wr, 31, 1), 32, 0),
                (edge!(32, Rw, 1, 7), 21, 0),
                (edge!(33, Rw, 1, 7), 21, 0),
            ],
            ..NO_MORE
        },
    ),
];

/// A range over all keys, with a thousand keys that were written before it and not listed. Its text is made where it is read.
pub const MANY_MISSED: &(Worked<'static>, More<'static>) = &(
    Worked {
        cuttings: &[&[], &[5], &[2, 500, 1002]],
        ..NOTHING
    },
    More {
        edges: &[(edge!(1, Rw, 2, 2), 1002, 1)],
        ..NO_MORE
    },
);
