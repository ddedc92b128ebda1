//! What an index answers of worked histories.
ghost use Rattle.sia_index.specs.Positions.{HasPosition};

use sia_events::{Key, Log, TxnId, read_history};
use sia_index::keyed::{ByKey, place_from_near};
use sia_index::{Index, Made, Reader, TxnInfo, make, txns_in_order};
use std::alloc::Global;
use std::fmt::Write;
use std::test::*;

mod histories;

use histories::{Asked, Due, HISTORIES, NUMBERED, OF_MANY, VISIBLE_OF_MANY};

// An index of the history that the text stands for.
fn index_of(alloc: Global, text: &[u8]) -> Result<Index, Fail> {
    let history = read_history(alloc, text)?;
    let index = make::index(alloc, &history)?;
    Ok(index)
}

// Whether these are all transactions by name, and what the index has of each.
fn has_txns(
    alloc: Global,
    log: &Log,
    index: &Index,
    txns: &[(TxnId, TxnInfo)],
) -> Result<bool, Fail> {
    let rows = txns_in_order(alloc, log)?;
    let mut is_so = rows.len() == txns.len();
    for (row, (t, info)) in rows.iter().zip(txns) {
        is_so &= row.name == *t
            && index.txn(*t) == Some(*info)
            && index.txn_number(*t) == Some(row.number);
    }
    Ok(is_so)
}

fn has_keys(index: &Index, keys: &[(Key, &[Made])]) -> bool {
    let mut is_so = index.written_keys().len() == keys.len();
    for (i, (k, versions)) in keys.iter().enumerate() {
        is_so &= index.written_keys().get(i) == Some(k)
            && index.versions(*k) == *versions
            && i < index.written_keys().len()
            && index.versions_at(i) == *versions;
    }
    is_so
}

fn is_answered(index: &Index, asked: &Asked<'_>) -> bool {
    let keys = index.written_keys();
    match asked {
        Asked::NoTxn(t) => index.txn(*t).is_none() && index.txn_number(*t).is_none(),
        Asked::NoKey(k) => !keys.contains(k) && index.versions(*k).is_empty(),
        Asked::Overlap(t, u, is_told) => index.overlap(*t, *u) == *is_told,
        Asked::FirstWrite(t, k, place) => index.first_write(*t, *k) == *place,
        Asked::Newest(position, place, is_told) => {
            *position < index.position_count() && index.is_newest(*position, *place) == *is_told
        }
        Asked::AsOf(i, place, position) => {
            (*i as usize) < keys.len() && index.position_as_of(*i, *place) == *position
        }
        Asked::At(position, version, beside) => {
            *position < index.position_count() && is_at(index, *position, *version, *beside)
        }
        Asked::MadeBy(txn, positions) => {
            *txn < index.committed().len() && index.made_by(*txn) == *positions
        }
        Asked::Visible(from, to, place, found) => {
            (*to as usize) <= keys.len() && index.next_visible(*from, *to, *place) == *found
        }
    }
}

// Whether the version at the position has this key, this commit and this maker, and these positions stand before and behind.
fn is_at(
    index: &Index,
    position: u32,
    version: (u32, u32, Option<u32>),
    beside: (Option<u32>, Option<u32>),
) -> bool
    requires { HasPosition index.now position }
{
    let (key, commit, maker) = version;
    let (before, behind) = beside;
    let mut is_so = index.key_at(position) == key;
    is_so &= index.commit_at(position) == commit;
    is_so &= index.maker_at(position) == maker;
    is_so &= index.position_before(position) == before;
    is_so &= index.next_position(position) == behind;
    is_so
}

// Whether this is the reader of a transaction that has an event, and what is due to it.
fn is_due(index: &Index, wanted: &Reader, dues: &[Due]) -> bool {
    let (t, place) = (wanted.txn, wanted.place);
    if index.txn(t).is_none() {
        return false;
    }
    let reader = index.reader(t, place);
    let mut is_so = reader == *wanted;
    for due in dues {
        is_so &= match due {
            Due::At(k, version) => index.due(t, place, *k) == *version,
            Due::Own(lo, hi, own) => index.next_own(reader, *lo, *hi) == *own,
        };
    }
    is_so
}

#[test]
fn worked_histories(rt: HostRuntime) -> Result<(), Fail> {
    for (i, it) in HISTORIES.iter().enumerate() {
        let history = read_history(rt.alloc(), it.text)?;
        let index = make::index(rt.alloc(), &history)?;
        let mut is_so = has_txns(rt.alloc(), history.log(), &index, it.txns)?;
        is_so &= has_keys(&index, it.keys);
        for asked in it.asked {
            is_so &= is_answered(&index, asked);
        }
        for (reader, dues) in it.readers {
            is_so &= is_due(&index, reader, dues);
        }
        assert!(rt; is_so, "history {i}");
    }
    Ok(())
}

#[test]
fn numbers(rt: HostRuntime) -> Result<(), Fail> {
    let history = read_history(rt.alloc(), NUMBERED.text)?;
    let log = history.log();
    let index = make::index_log(rt.alloc(), log)?;
    let mut committed = Vec::new(rt.alloc());
    for (t, lifetime) in index.committed().iter().zip(index.lifetimes()) {
        committed.push((*t, lifetime.start, lifetime.commit))?;
    }
    assert!(rt; committed.as_slice() == NUMBERED.committed);
    let mut txns = Vec::new(rt.alloc());
    for row in &txns_in_order(rt.alloc(), log)? {
        txns.push((row.name, row.number))?;
        assert!(rt; index.txn_number(row.name) == Some(row.number));
    }
    assert!(rt; txns.as_slice() == NUMBERED.txns);
    for txn in 0..log.txn_count() {
        let (number, reader) = (index.committed_number(txn), index.reader_at(txn, 10));
        assert!(rt;
            NUMBERED.numbers.get(txn as usize) == Some(&number),
            "transaction {txn}"
        );
        assert!(rt;
            NUMBERED.readers.get(txn as usize) == Some(&reader),
            "reader {txn}"
        );
    }
    for key in 0..log.key_count() {
        let number = index.written_number(key);
        assert!(rt;
            NUMBERED.keys.get(key as usize) == Some(&number),
            "key {key}"
        );
    }
    for before in 0..log.write_count() {
        let write = index.write_at(before + 1);
        assert!(rt;
            NUMBERED.writes.get(before as usize) == Some(&write),
            "write {before}"
        );
    }
    for (i, position) in NUMBERED.first_positions.iter().enumerate() {
        let is_so = i < index.written_keys().len() && index.first_position(i as u32) == *position;
        assert!(rt; is_so, "first position {i}");
    }
    for asked in NUMBERED.asked {
        assert!(rt; is_answered(&index, asked));
    }
    Ok(())
}

// Of many keys, nearly all are of an open transaction.
#[test]
fn due_among_many(rt: HostRuntime) -> Result<(), Fail> {
    let mut text = String::from_str(rt.alloc(), "w2[350] c2")?;
    for key in 0..500 {
        write!(text, " w1[{key}]")?;
    }
    text.push_str(" w3[480] r3[350:2]")?;
    let index = index_of(rt.alloc(), text.as_bytes())?;
    for (reader, dues) in OF_MANY {
        assert!(rt; is_due(&index, reader, dues));
    }
    for asked in VISIBLE_OF_MANY {
        assert!(rt; is_answered(&index, asked));
    }
    Ok(())
}

/// Limits, and how many of the keys 1, 3, 5, 8 and 13 are below each.
const BELOW: &[(u64, usize)] = &[(0, 0), (1, 0), (5, 2), (6, 3), (13, 4), (14, 5)];

#[test]
fn places(rt: HostRuntime) -> Result<(), Fail> {
    let index = index_of(rt.alloc(), b"w1[3] w1[13] w1[1] w1[8] w1[5]")?;
    let keys = index.written_keys();
    for near in 0..8 {
        for (limit, count) in BELOW {
            let found = place_from_near::<Key, ByKey>(keys, *limit, near);
            assert!(rt; found == *count, "below {limit} from {near}");
        }
    }
    Ok(())
}
