// Brief and explained reports of worked histories.
use crate::options::Form;
use crate::tests::rows::{BROKEN, GENERALIZED, KEPT, NO_ORDER, NOT_SSI, Row, UNREAD};

/// Brief reports, and full ones of the same texts.
pub(crate) const BRIEF: &[Row] = &[
    // a history of one commit
    (
        b"c7",
        &[2],
        Form::Brief,
        b"events 1 committed 1 aborted 0 open 0\nisolation kept\nssi pass\nserializable yes\norder 7\n",
        KEPT,
    ),
    (
        b"c7",
        &[2],
        Form::Full,
        b"events 1 committed 1 aborted 0 open 0\nisolation kept\nssi pass\nserializable yes\norder 7\n",
        KEPT,
    ),
    // isolation was kept, with a pivot whose last transaction commits first, and a serial order
    (
        b"r1[1:0] r2[2:0] w2[1] w3[2] c3 c2 c1",
        &[2],
        Form::Brief,
        b"events 7 committed 3 aborted 0 open 0\nisolation kept\nssi fail\nserializable yes\norder 1 2 3\n",
        NOT_SSI,
    ),
    (
        b"r1[1:0] r2[2:0] w2[1] w3[2] c3 c2 c1",
        &[2],
        Form::Full,
        b"events 7 committed 3 aborted 0 open 0\nisolation kept\nedge 1 rw 2 1\nedge 2 rw 3 2\npivot 2 in 1 out 3 first 3\nssi fail\nserializable yes\norder 1 2 3\n",
        NOT_SSI,
    ),
    // isolation was kept, and no serial order replays it
    (
        b"r1[1:0] r1[2:0] r2[1:0] r2[2:0] w1[2] w2[1] c1 c2",
        &[2],
        Form::Brief,
        b"events 8 committed 2 aborted 0 open 0\nisolation kept\nssi fail\nserializable no\ncycle 1 >rw:1> 2 >rw:2> 1\n",
        NO_ORDER,
    ),
    (
        b"r1[1:0] r1[2:0] r2[1:0] r2[2:0] w1[2] w2[1] c1 c2",
        &[2],
        Form::Full,
        b"events 8 committed 2 aborted 0 open 0\nisolation kept\nedge 1 rw 2 1\nedge 2 rw 1 2\npivot 1 in 2 out 2\npivot 2 in 1 out 1 first 1\nssi fail\nserializable no\ncycle 1 >rw:1> 2 >rw:2> 1\n",
        NO_ORDER,
    ),
    // isolation was broken, and a serial order replays it
    (
        b"w1[1] w2[1] c1 c2",
        &[2],
        Form::Brief,
        b"events 4 committed 2 aborted 0 open 0\nisolation broken\nbad-write 1 1 2\nssi fail\nserializable yes\norder 1 2\n",
        BROKEN,
    ),
    (
        b"w1[1] w2[1] c1 c2",
        &[2],
        Form::Full,
        b"events 4 committed 2 aborted 0 open 0\nisolation broken\nbad-write 1 1 2\nedge 1 ww 2 1\nssi fail\nserializable yes\norder 1 2\n",
        BROKEN,
    ),
    (
        b"w1[1] w1",
        &[2],
        Form::Brief,
        b"refused: token 2: bad event\n",
        UNREAD,
    ),
    (
        b"w1[1] w1",
        &[2],
        Form::Full,
        b"refused: token 2: bad event\n",
        UNREAD,
    ),
];

pub(crate) const EXPLAINED: &[Row] = &[
    (
        b"r1[1:0] r2[2:0] w2[1] w3[2] c3 c2 c1",
        &[2],
        Form::Explained,
        b"events 7 committed 3 aborted 0 open 0\nisolation kept\nssi fail\ndangerous 1 >rw:1> 2 >rw:2> 3\n  1 >rw:1> 2: event 1 r1[1:0]; event 3 w2[1], event 6 c2\n  2 >rw:2> 3: event 2 r2[2:0]; event 4 w3[2], event 5 c3\nserializable yes\norder 1 2 3\n",
        NOT_SSI,
    ),
    (
        b"w1[1] w2[1] c1 c2",
        &[2],
        Form::Explained,
        b"events 4 committed 2 aborted 0 open 0\nisolation broken\n  1 write conflict\nbad-write 1 1 2\n  write conflict: transaction 2 starts after event 1; event 1 w1[1], event 3 c1; event 2 w2[1], event 4 c2\nsnapshot 2 none\n  not without event 3 c1: event 2 w2[1]\n  not after event 2 w2[1]\nssi fail\nserializable yes\norder 1 2\n",
        BROKEN,
    ),
    // one who read the key before it wrote it and missed the first version, by a range, and one who read it only then
    (
        b"r3[1:0] r2[0..9] w1[1] w2[1] r2[1:0] w3[2] w3[1] c1 c2 c3",
        &[2],
        Form::Explained,
        b"events 10 committed 3 aborted 0 open 0\nisolation broken\n  1 own write missed, 3 lost update\nbad-read 5 2 1 saw 0 due 2\n  own write missed: event 5 r2[1:0]; transaction 2 starts after event 1\n  due: event 4 w2[1], event 9 c2\nbad-write 1 1 2\n  lost update: transaction 2 starts after event 1; event 2 r2[0..9]; event 3 w1[1], event 8 c1; event 4 w2[1], event 9 c2\nbad-write 1 1 3\n  lost update: transaction 3 starts after event 0; event 1 r3[1:0]; event 3 w1[1], event 8 c1; event 7 w3[1], event 10 c3\nbad-write 1 2 3\n  lost update: transaction 3 starts after event 0; event 1 r3[1:0]; event 4 w2[1], event 9 c2; event 7 w3[1], event 10 c3\nunexplained 5 2 1 0\n  own write missed: event 5 r2[1:0]; transaction 2 starts after event 1\n  due: event 4 w2[1], event 9 c2\nsnapshot 2 none\n  in no snapshot: event 5 r2[1:0]\nsnapshot 3 none\n  not without event 9 c2: event 7 w3[1]\n  not after event 1 r3[1:0]\nssi fail\nserializable no\ncycle 1 >ww:1> 2 >rw:1> 1\n  1 >ww:1> 2: event 3 w1[1], event 8 c1; event 4 w2[1], event 9 c2\n  2 >rw:1> 1: event 2 r2[0..9]; event 3 w1[1], event 8 c1\n  forbidden under snapshot isolation: no two rw steps between overlapping transactions follow one another\n",
        BROKEN,
    ),
    (
        b"w2[1] r2[1:0] w1[1] c1 c2",
        &[2],
        Form::Explained,
        b"events 5 committed 2 aborted 0 open 0\nisolation broken\n  1 own write missed, 1 write conflict\nbad-read 2 2 1 saw 0 due 2\n  own write missed: event 2 r2[1:0]; transaction 2 starts after event 0\n  due: event 1 w2[1], event 5 c2\nbad-write 1 1 2\n  write conflict: transaction 2 starts after event 0; event 3 w1[1], event 4 c1; event 1 w2[1], event 5 c2\nunexplained 2 2 1 0\n  own write missed: event 2 r2[1:0]; transaction 2 starts after event 0\n  due: event 1 w2[1], event 5 c2\nsnapshot 2 none\n  in no snapshot: event 2 r2[1:0]\nssi fail\nserializable no\ncycle 1 >ww:1> 2 >rw:1> 1\n  1 >ww:1> 2: event 3 w1[1], event 4 c1; event 1 w2[1], event 5 c2\n  2 >rw:1> 1: event 2 r2[1:0]; event 3 w1[1], event 4 c1\n  forbidden under snapshot isolation: no two rw steps between overlapping transactions follow one another\n",
        BROKEN,
    ),
    // a cycle that isolation allows, of which the last step and the first follow one another
    (
        b"r1[1:0] r2[2:0] w2[1] w1[2] c1 c2",
        &[2],
        Form::Explained,
        b"events 6 committed 2 aborted 0 open 0\nisolation kept\nssi fail\ndangerous 1 >rw:1> 2 >rw:2> 1\n  1 >rw:1> 2: event 1 r1[1:0]; event 3 w2[1], event 6 c2\n  2 >rw:2> 1: event 2 r2[2:0]; event 4 w1[2], event 5 c1\nserializable no\ncycle 1 >rw:1> 2 >rw:2> 1\n  1 >rw:1> 2: event 1 r1[1:0]; event 3 w2[1], event 6 c2\n  2 >rw:2> 1: event 2 r2[2:0]; event 4 w1[2], event 5 c1\n  allowed under snapshot isolation: two rw steps between overlapping transactions follow one another\n",
        NO_ORDER,
    ),
    // the six names of bad reads
    (
        b"w1[1] r1[1:0] c1",
        &[2],
        Form::Explained,
        b"events 3 committed 1 aborted 0 open 0\nisolation broken\n  1 own write missed\nbad-read 2 1 1 saw 0 due 1\n  own write missed: event 2 r1[1:0]; transaction 1 starts after event 0\n  due: event 1 w1[1], event 3 c1\nunexplained 2 1 1 0\n  own write missed: event 2 r1[1:0]; transaction 1 starts after event 0\n  due: event 1 w1[1], event 3 c1\nsnapshot 1 none\n  in no snapshot: event 2 r1[1:0]\nssi fail\nserializable no\norder 1\n",
        BROKEN,
    ),
    (
        b"w1[1] r2[1:1] c2 a1",
        &[2],
        Form::Explained,
        b"events 4 committed 1 aborted 1 open 0\nisolation broken\n  1 aborted read\nbad-read 2 2 1 saw 1 due 0\n  aborted read: event 2 r2[1:1]; transaction 2 starts after event 1\n  saw: event 1 w1[1], event 4 a1\nunexplained 2 2 1 1\n  aborted read: event 2 r2[1:1]; transaction 2 starts after event 1\n  saw: event 1 w1[1], event 4 a1\nsnapshot 2 none\n  in no snapshot: event 2 r2[1:1]\nssi fail\nserializable no\norder 2\n",
        BROKEN,
    ),
    (
        b"w1[1] r2[1:1]",
        &[2],
        Form::Explained,
        b"events 2 committed 0 aborted 0 open 2\nisolation broken\n  1 uncommitted read\nbad-read 2 2 1 saw 1 due 0\n  uncommitted read: event 2 r2[1:1]; transaction 2 starts after event 1\n  saw: event 1 w1[1]\nsnapshot 2 none\n  in no snapshot: event 2 r2[1:1]\nssi fail\nserializable yes\norder\n",
        BROKEN,
    ),
    (
        b"r1[1:0] w2[1] w2[2] c2 r1[2:2] c1",
        &[2],
        Form::Explained,
        b"events 6 committed 2 aborted 0 open 0\nisolation broken\n  1 future read\nbad-read 5 1 2 saw 2 due 0\n  future read: event 5 r1[2:2]; transaction 1 starts after event 0\n  saw: event 3 w2[2], event 4 c2\nsnapshot 1 none\n  not without event 4 c2: event 5 r1[2:2]\n  not after event 1 r1[1:0]\nssi fail\nserializable no\ncycle 1 >rw:1> 2 >wr:2> 1\n  1 >rw:1> 2: event 1 r1[1:0]; event 2 w2[1], event 4 c2\n  2 >wr:2> 1: event 3 w2[2], event 4 c2; event 5 r1[2:2]\n  forbidden under snapshot isolation: no two rw steps between overlapping transactions follow one another\n",
        BROKEN,
    ),
    (
        b"w1[12] w1[15] c1 r2[10..20;12:1] c2",
        &[2],
        Form::Explained,
        b"events 5 committed 2 aborted 0 open 0\nisolation broken\n  1 phantom\nbad-read 4 2 15 saw 0 due 1\n  phantom: event 4 r2[10..20]; transaction 2 starts after event 3\n  due: event 2 w1[15], event 3 c1\nsnapshot 2 none\n  not without event 3 c1: event 4 r2[10..20;12:1]\n  not with event 3 c1: event 4 r2[10..20]\nssi fail\nserializable no\ncycle 1 >wr:12> 2 >rw:15> 1\n  1 >wr:12> 2: event 1 w1[12], event 3 c1; event 4 r2[10..20;12:1]\n  2 >rw:15> 1: event 4 r2[10..20]; event 2 w1[15], event 3 c1\n  forbidden under snapshot isolation: no two rw steps between overlapping transactions follow one another\n",
        BROKEN,
    ),
    (
        b"w1[5] w1[7] c1 r2[0..9;5:0,7:1] c2",
        &[2],
        Form::Explained,
        b"events 5 committed 2 aborted 0 open 0\nisolation broken\n  1 stale read\nbad-read 4 2 5 saw 0 due 1\n  stale read: event 4 r2[0..9;5:0]; transaction 2 starts after event 3\n  due: event 1 w1[5], event 3 c1\nsnapshot 2 none\n  not without event 3 c1: event 4 r2[0..9;7:1]\n  not with event 3 c1: event 4 r2[0..9;5:0]\nssi fail\nserializable no\ncycle 1 >wr:7> 2 >rw:5> 1\n  1 >wr:7> 2: event 2 w1[7], event 3 c1; event 4 r2[0..9;7:1]\n  2 >rw:5> 1: event 4 r2[0..9;5:0]; event 1 w1[5], event 3 c1\n  forbidden under snapshot isolation: no two rw steps between overlapping transactions follow one another\n",
        BROKEN,
    ),
    // the newest version that the reader saw is a later one than the writer's
    (
        b"r3[2:0] w1[1] w1[2] c1 w2[1] c2 r3[1:2] c3",
        &[2],
        Form::Explained,
        b"events 8 committed 3 aborted 0 open 0\nisolation broken\n  1 future read\nbad-read 7 3 1 saw 2 due 0\n  future read: event 7 r3[1:2]; transaction 3 starts after event 0\n  saw: event 5 w2[1], event 6 c2\nsnapshot 3 none\n  not without event 6 c2: event 7 r3[1:2]\n  not after event 1 r3[2:0]\nssi fail\nserializable no\ncycle 1 >wr:1> 3 >rw:2> 1\n  1 >wr:1> 3: event 2 w1[1], event 4 c1; event 7 r3[1:2]; event 5 w2[1], event 6 c2\n  3 >rw:2> 1: event 1 r3[2:0]; event 3 w1[2], event 4 c1\n  forbidden under snapshot isolation: no two rw steps between overlapping transactions follow one another\n",
        BROKEN,
    ),
    (
        b"c1\n  x\\\xe9",
        &[2],
        Form::Explained,
        b"refused: token 2: bad event\n  line 2, column 3: x\\x5c\\xe9\n",
        UNREAD,
    ),
];

pub(crate) const SNAPSHOTS: &[Row] = &[
    // one brief report of two histories, and what tells a torn snapshot from an old one
    (
        b"w1[1] w1[2] c1 w2[1] w2[2] c2 r3[1:1] r3[2:2]",
        &[2],
        Form::Brief,
        b"events 8 committed 2 aborted 0 open 1\nisolation broken\nbad-read 7 3 1 saw 1 due 2\nssi fail\nserializable yes\norder 1 2\n",
        BROKEN,
    ),
    (
        b"w1[1] w1[2] c1 w2[1] w2[2] c2 r3[1:1] r3[2:2]",
        &[2],
        Form::Explained,
        b"events 8 committed 2 aborted 0 open 1\nisolation broken\n  1 stale read\nbad-read 7 3 1 saw 1 due 2\n  stale read: event 7 r3[1:1]; transaction 3 starts after event 6\n  saw: event 1 w1[1], event 3 c1\n  due: event 4 w2[1], event 6 c2\nsnapshot 3 none\n  not without event 6 c2: event 8 r3[2:2]\n  not with event 6 c2: event 7 r3[1:1]\nssi fail\nserializable yes\norder 1 2\n",
        BROKEN,
    ),
    (
        b"w1[1] w1[2] c1 w2[1] w2[2] c2 r3[1:1] r3[3:0]",
        &[2],
        Form::Brief,
        b"events 8 committed 2 aborted 0 open 1\nisolation broken\nbad-read 7 3 1 saw 1 due 2\nssi fail\nserializable yes\norder 1 2\n",
        GENERALIZED,
    ),
    (
        b"w1[1] w1[2] c1 w2[1] w2[2] c2 r3[1:1] r3[3:0]",
        &[2],
        Form::Explained,
        b"events 8 committed 2 aborted 0 open 1\nisolation broken\n  1 stale read\nbad-read 7 3 1 saw 1 due 2\n  stale read: event 7 r3[1:1]; transaction 3 starts after event 6\n  saw: event 1 w1[1], event 3 c1\n  due: event 4 w2[1], event 6 c2\nsnapshot 3 from 3 to 5\nssi fail\nserializable yes\norder 1 2\n",
        GENERALIZED,
    ),
    // a range, of which no pair is told
    (
        b"r1[0..9;1:0] w2[1] w2[2] c2 r1[2:2] c1",
        &[2],
        Form::Explained,
        b"events 6 committed 2 aborted 0 open 0\nisolation broken\n  1 future read\nbad-read 5 1 2 saw 2 due 0\n  future read: event 5 r1[2:2]; transaction 1 starts after event 0\n  saw: event 3 w2[2], event 4 c2\nsnapshot 1 none\n  not without event 4 c2: event 5 r1[2:2]\n  not after event 1 r1[0..9]\nssi fail\nserializable no\ncycle 1 >rw:1> 2 >wr:2> 1\n  1 >rw:1> 2: event 1 r1[0..9;1:0]; event 2 w2[1], event 4 c2\n  2 >wr:2> 1: event 3 w2[2], event 4 c2; event 5 r1[2:2]\n  forbidden under snapshot isolation: no two rw steps between overlapping transactions follow one another\n",
        BROKEN,
    ),
];
