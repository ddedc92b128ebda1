//! What a line of reasons tells: events, the names of bad reads and bad writes, and where an edge was first seen.
ghost use Rattle.std.specs.Prelude.{◌≡◌, ◌≢◌, ◌++◌, ℕ, List, OnOk, codes, All, Contains, MatchOption, ◌↔◌, ◌==◌, IfOk, IsTrue, if◌then◌else◌};
ghost use Rattle.sia_events.specs.Text.{numeral};
ghost use Rattle.sia_events.specs.Transactions.{Wrote, StartsAt, CommitsBefore};
ghost use Rattle.sia_parts.specs.Telling.{TellsUnless, TellsVersion, event_words};
ghost use Rattle.sia_events.specs.declared.event.Anomaly.{Anomaly as AnAnomaly};
ghost use Rattle.sia_events.specs.Anomalies.{IsNamed};
ghost use Rattle.sia_events.specs.Isolation.{IsBadRead, IsBadWrite};
ghost use Rattle.sia_events.specs.Dependencies.{IsCommittedWriter};
ghost use Rattle.sia_parts.specs.Wrong.{IsWrong};
ghost use Rattle.sia_events.specs.Reads.{SawAt};
ghost use Rattle.sia_parts.specs.Acts.{HasActs, IsAct};
ghost use Rattle.sia_parts.specs.LostUpdates.{IsLostUpdate, LosesFirstAt};
ghost use Rattle.sia_parts.specs.Sightings.{Gives, IsFirstSight, reader_of, writer_of};
ghost use Rattle.sia_parts.specs.declared.reasons.Act.{Act as AnAct};

use crate::finding::{BadRead, BadWrite, Edge, Kind};
use sia_events::{Anomaly, Key, Log, NoMemory, Row, TxnId, Version, push_number};
use sia_index::keyed::{By, ByKey, ByTxn, between};
use sia_index::{Fate, Index};
use std::alloc::{AllocError, Global};

/// The log of a history, its index, and those events that reads are looked for among.
#[derive(Clone, Copy)]
pub struct Recorded<'a> {
    pub history: &'a Log,
    pub index: &'a Index,
    pub acts: &'a [Act],
}

/// Some words, and the event at a place, as far as it is about the key.
pub fn push_event(
    out: &mut Vec<u8>,
    before: &[u8],
    h: &Log,
    key: Key,
    place: u32,
) -> Result<(), NoMemory>
    ensures { OnOk result (out.new.items ≡ out.old.items ++ before.now ++ event_words h.now key place) }
{
    out.extend_from_slice(before)?;
    push_number(out, b"event ", u64::from(place), b" ")?;
    h.push_about(out, place, key)
}

/// Some words, a transaction, when it started, and some more words.
pub fn push_start(
    out: &mut Vec<u8>,
    before: &[u8],
    txn: TxnId,
    start: u32,
    behind: &[u8],
) -> Result<(), AllocError>
    ensures { OnOk result (out.new.items ≡ out.old.items ++ before.now ++ numeral txn
        ++ codes " starts after event " ++ numeral start ++ behind.now) }
{
    push_number(out, before, u64::from(txn), b" starts after event ")?;
    push_number(out, b"", u64::from(start), behind)
}

/// Some words, where the transaction first wrote the key, and where it ended if it did.
pub fn push_version(
    out: &mut Vec<u8>,
    before: &[u8],
    of: &Recorded,
    key: Key,
    version: Version,
) -> Result<(), NoMemory>
    requires index { of.now.index.now ≡ of.now.history.now }
    requires wrote { Wrote of.now.history.now version key }
    ensures { OnOk result ((words : List ℕ) × TellsVersion of.now.history.now key version words
        × (out.new.items ≡ out.old.items ++ before.now ++ words)) }
{
    let (Some(write), Some(info)) = (of.index.first_write(version, key), of.index.txn(version))
    else {
        return Ok(());
    };
    push_event(out, before, of.history, key, write)?;
    match info.ended {
        Some(end) => push_event(out, b", ", of.history, key, end),
        None => Ok(()),
    }
}

/// The version between these words, unless it is the one that is known.
pub fn push_unless(
    out: &mut Vec<u8>,
    of: &Recorded,
    key: Key,
    version: Version,
    known: Version,
    around: (&[u8], &[u8]),
) -> Result<(), NoMemory>
    requires index { of.now.index.now ≡ of.now.history.now }
    requires wrote { version ≢ known → Wrote of.now.history.now version key }
    ensures { OnOk result ((bytes : List ℕ)
        × TellsUnless known of.now.history.now around.entry.0.now key version around.entry.1.now bytes
        × (out.new.items ≡ out.old.items ++ bytes)) }
{
    if version == known {
        return Ok(());
    }
    push_version(out, around.0, of, key, version)?;
    out.extend_from_slice(around.1)?;
    Ok(())
}

fn wrong_with(ix: &Index, saw: Version, start: u32) -> Option<Anomaly>
    ensures { MatchOption result ((name : AnAnomaly) → ¬ IsWrong ix.now saw start name)
        (IsWrong ix.now saw start) }
{
    ix.law();
    let writer = ix.txn(saw)?;
    match writer.fate {
        Fate::Aborted => Some(Anomaly::AbortedRead),
        Fate::Unfinished => Some(Anomaly::UncommittedRead),
        Fate::Committed => {
            let end = ix.lifetime_of(saw)?.commit;
            (start < end).then_some(Anomaly::FutureRead)
        }
    }
}

/// The name of a bad read, whose transaction starts so.
pub fn anomaly_of(h: &Log, ix: &Index, b: &BadRead, start: u32) -> Anomaly
    requires index { ix.now ≡ h.now }
    requires bad { IsBadRead h.now b.now.place b.now.txn b.now.key b.now.saw b.now.due }
    requires starts { StartsAt h.now b.now.txn start }
    ensures { IsNamed h.now b.now.place b.now.txn b.now.key b.now.saw b.now.due result }
{
    h.law();
    if b.due == b.txn {
        return Anomaly::OwnWriteMissed;
    }
    if let Some(wrong) = wrong_with(ix, b.saw, start) {
        return wrong;
    }
    if b.due == 0 {
        return Anomaly::StaleRead;
    }
    if h.leaves_out(b.place, b.key) {
        return Anomaly::Phantom;
    }
    Anomaly::StaleRead
}

/// A read: the transaction, the key, or for a range of several the greatest one, and the place of its event.
#[derive(Clone, Copy)]
pub struct Act {
    pub txn: TxnId,
    pub key: Key,
    pub place: u32,
}

impl By<Act> for ByTxn {
    ghost by = { λ act. act.txn };

    fn number(act: &Act) -> u64 {
        u64::from(act.txn)
    }
}

impl By<Act> for ByKey {
    ghost by = { λ act. act.key };

    fn number(act: &Act) -> u64 {
        act.key
    }
}

/// The reads of these transactions, by transaction and key.
pub fn acts_of(alloc: Global, h: &Log, mut txns: Vec<TxnId>) -> Result<Vec<Act>, NoMemory>
    ensures has { IfOk result (λ acts. All (λ t. HasActs h.now t acts.items) txns.items) }
    ensures only { IfOk result (λ acts. All (λ act. Contains txns.items act.txn) acts.items) }
{
    let mut acts = Vec::new(alloc);
    if txns.is_empty() {
        return Ok(acts);
    }
    txns.sort_unstable_by_key(|txn| *txn);
    for before in 0..h.len() {
        if let Some(act) = act_at(h, before + 1) {
            let txn = u64::from(act.txn);
            if !between::<TxnId, ByTxn>(&txns, txn, txn).is_empty() {
                acts.push(act)?;
            }
        }
    }
    acts.sort_unstable_by_key(|act| (act.txn, act.key));
    Ok(acts)
}

fn act_at(h: &Log, place: u32) -> Option<Act>
    ensures { MatchOption result ((act : AnAct) → act.place ≡ place → ¬ IsAct h.now act)
        (λ act. (act.place ≡ place) × IsAct h.now act) }
{
    let (txn, key) = match h.row(place)? {
        Row::Read { txn, key, .. } | Row::OwnRead { txn, key, .. } => (txn, h.key(key)),
        Row::Range { txn, range, .. } => {
            let (lo, hi) = h.range(range);
            (txn, if lo == hi { lo } else { Key::MAX })
        }
        _ => return None,
    };
    let txn = h.txn(txn).name;
    Some(Act { txn, key, place })
}

fn commits_before(ix: &Index, first: TxnId, second: TxnId) -> bool
    ensures { IsTrue result ↔ CommitsBefore ix.now first second }
{
    ix.law();
    match (ix.lifetime_of(first), ix.lifetime_of(second)) {
        (Some(one), Some(other)) => one.commit < other.commit,
        _ => false,
    }
}

/// Which of both ends of an edge reads.
pub fn reader_of_edge(e: &Edge) -> TxnId
    ensures { result ≡ reader_of e.now.kind e.now.src e.now.dst }
{
    match e.kind {
        Kind::Wr => e.dst,
        Kind::Ww | Kind::Rw => e.src,
    }
}

fn gives(ix: &Index, e: &Edge, version: Version) -> bool
    requires writer { IsCommittedWriter ix.now e.now.key (writer_of e.now.kind e.now.src e.now.dst) }
    requires seen { (p : ℕ) × SawAt ix.now p (reader_of e.now.kind e.now.src e.now.dst) e.now.key version }
    ensures { IsTrue result ↔ Gives e.now.kind ix.now e.now.src e.now.dst e.now.key version }
{
    ix.law();
    if version == reader_of_edge(e) {
        return false;
    }
    match e.kind {
        Kind::Ww => false,
        Kind::Wr => version == e.src || commits_before(ix, e.src, version),
        Kind::Rw => version == 0 || commits_before(ix, version, e.dst),
    }
}

/// A version of a key that was seen at a place.
#[derive(Clone, Copy)]
pub struct FirstSight {
    pub place: u32,
    pub version: Version,
}

/// The first sight that gives the edge, if it comes of a read.
pub fn first_sight(h: &Log, ix: &Index, acts: &[Act], e: &Edge) -> Option<FirstSight>
    requires index { ix.now ≡ h.now }
    requires acts { HasActs h.now (reader_of e.now.kind e.now.src e.now.dst) acts.now }
    requires writer { IsCommittedWriter h.now e.now.key (writer_of e.now.kind e.now.src e.now.dst) }
    ensures { MatchOption result ((p v : ℕ) → SawAt h.now p
        (reader_of e.now.kind e.now.src e.now.dst) e.now.key v
        → ¬ Gives e.now.kind h.now e.now.src e.now.dst e.now.key v)
        (λ sight. IsFirstSight (Gives e.now.kind h.now e.now.src e.now.dst e.now.key) h.now
        (reader_of e.now.kind e.now.src e.now.dst) e.now.key sight.place sight.version) }
{
    h.law();
    let reader = u64::from(reader_of_edge(e));
    let own = between::<Act, ByTxn>(acts, reader, reader);
    let mut first = None;
    for key in [e.key, Key::MAX] {
        for act in between::<Act, ByKey>(own, key, key) {
            let place = act.place;
            if first.is_none_or(|sight: FirstSight| place < sight.place) {
                if let Some(version) = h.saw(place, e.key) {
                    if gives(ix, e, version) {
                        first = Some(FirstSight { place, version });
                    }
                }
            }
        }
    }
    first
}

/// Where the later committer of a bad write first saw a version before the other one's, if it did so before it wrote the key:
/// the bad write is a lost update then.
pub fn loss_of(of: &Recorded, b: &BadWrite) -> Option<u32>
    requires index { of.now.index.now ≡ of.now.history.now }
    requires acts { HasActs of.now.history.now b.now.second of.now.acts.now }
    requires bad { IsBadWrite of.now.history.now b.now.key b.now.first b.now.second }
    ensures { MatchOption result (¬ IsLostUpdate of.now.history.now b.now.key b.now.first b.now.second)
        (LosesFirstAt of.now.history.now b.now.key b.now.first b.now.second) }
{
    of.history.law();
    let missed = Edge {
        src: b.second,
        dst: b.first,
        kind: Kind::Rw,
        key: b.key,
    };
    let sight = first_sight(of.history, of.index, of.acts, &missed)?;
    let write = of.index.first_write(b.second, b.key)?;
    (sight.place < write).then_some(sight.place)
}
