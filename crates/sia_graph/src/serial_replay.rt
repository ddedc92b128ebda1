//! The serial replay of a history by an order of its committed transactions.
ghost use Rattle.std.specs.Prelude.{◌≡◌, ◌↔◌, ◌<◌, ◌≤◌, ◌≢◌, ◌++◌, ℕ, Contains, Err, IfOk, IsTrue, List, MatchOption, None, OnOk, Option, Some, map};
ghost use Rattle.std.specs.List.Sorted.{IsStrictlyIncreasing};
ghost use Rattle.sia_events.specs.declared.event.Event.{Event};
ghost use Rattle.sia_events.specs.Places.{at_place};
ghost use Rattle.sia_events.specs.Replay.{IsFirstMismatch, IsOrder, MayFollow, Replays, events_of};
ghost use Rattle.sia_events.specs.Transactions.{Wrote};
ghost use Rattle.sia_graph.specs.declared.serial_replay.Mismatch.{Mismatch};
ghost use Rattle.sia_graph.specs.Replaying.{AreCommits, AreFirsts, AreNext, AreWritten, IsRight, IsWrongAt, Tells, first_at, version_in};
ghost use Rattle.sia_graph.specs.declared.serial_replay.ReplayFault.TheVariants as faults;

use sia_events::{Event, History, Key, NoMemory, TxnId, Version};
use std::alloc::Global;
use std::collections::BTreeMap;

/// The first event that isn't right in a replay.
#[derive(Clone, Copy, Debug, PartialEq, Eq)]
pub struct Mismatch {
    /// The event's place in the history.
    pub place: u32,
    /// The least key at which the event isn't right.
    pub key: Key,
    /// The version of that key that the replay had.
    pub found: Version,
}

/// Why a list of transactions isn't replayed.
#[derive(Clone, Copy, Debug, PartialEq, Eq)]
pub enum ReplayFault {
    /// A growth was refused.
    NoMemory,
    /// The list doesn't hold each committed transaction once and nothing else.
    NotAnOrder,
}

impl From<NoMemory> for ReplayFault {
    ghost from_gives = { λ _ e. e ≡ faults.NoMemory };

    fn from(_refused: NoMemory) -> ReplayFault {
        ReplayFault::NoMemory
    }
}

/// Where each committed transaction commits.
fn commit_places(alloc: Global, h: &History) -> Result<BTreeMap<TxnId, u32>, NoMemory>
    ensures { IfOk result (λ commits. AreCommits h.now commits) }
{
    let mut commits = BTreeMap::new(alloc);
    for before in 0..h.len() {
        let place = before + 1;
        if let Some(event) = h.event(place) {
            if let Event::Commit { txn } = event {
                commits.insert(*txn, place)?;
            }
        }
    }
    Ok(commits)
}

fn version_of(versions: &BTreeMap<Key, TxnId>, key: Key) -> Version
    ensures { result ≡ version_in versions.now key }
{
    versions.get(&key).copied().unwrap_or(0)
}

/// The least listed key that was seen at another version than the replay has.
fn wrong_listed(versions: &BTreeMap<Key, TxnId>, listed: &[(Key, Version)]) -> Option<Key>
    requires { IsStrictlyIncreasing (map (λ p. p.0) listed.now) }
    ensures { MatchOption result ((k v : ℕ) → Contains listed.now (k, v) → v ≡ version_in versions.now k)
        (λ key. ((v : ℕ) × Contains listed.now (key, v) × (v ≢ version_in versions.now key))
        × ((k v : ℕ) → k < key → Contains listed.now (k, v) → v ≡ version_in versions.now k)) }
{
    for (key, saw) in listed {
        if version_of(versions, *key) != *saw {
            return Some(*key);
        }
    }
    None
}

/// The least key of the range that isn't listed and that the replay has at another version than 0.
fn wrong_unlisted(
    versions: &BTreeMap<Key, TxnId>,
    lo: Key,
    hi: Key,
    listed: &[(Key, Version)],
) -> Option<Key>
    requires forward { lo ≤ hi }
    requires listed { IsStrictlyIncreasing (map (λ p. p.0) listed.now) }
    ensures { MatchOption result ((k : ℕ) → lo ≤ k → k ≤ hi → ((v : ℕ) → ¬ Contains listed.now (k, v))
        → version_in versions.now k ≡ 0)
        (λ key. (lo ≤ key) × (key ≤ hi) × ((v : ℕ) → ¬ Contains listed.now (key, v))
        × (version_in versions.now key ≢ 0)
        × ((k : ℕ) → k < key → lo ≤ k → ((v : ℕ) → ¬ Contains listed.now (k, v))
        → version_in versions.now k ≡ 0)) }
{
    let mut from = lo;
    'keys: while let Some((key, version)) = versions.range(from..=hi).next() {
        if *version != 0 && listed.binary_search_by_key(key, |pair| pair.0).is_err() {
            return Some(*key);
        }
        if *key == hi {
            break;
        }
        from = *key + 1;
    }
    None
}

/// The least key at which an event isn't right.
fn wrong_key(
    h: &History,
    event: &Event,
    versions: &BTreeMap<Key, TxnId>,
    commits: &BTreeMap<TxnId, u32>,
) -> Option<Key>
    requires event { (p : ℕ) × (at_place h.now p ≡ Some event.now) }
    requires commits { AreCommits h.now commits.now }
    requires written { AreWritten h.now versions.now }
    ensures { MatchOption result ((k : ℕ) → IsRight h.now (version_in versions.now) event.now k)
        (λ key. IsWrongAt h.now (version_in versions.now) event.now key (version_in versions.now key)) }
{
    let _events = h.len();
    match event {
        Event::Read { key, saw, .. } => (version_of(versions, *key) != *saw).then_some(*key),
        Event::Range { lo, hi, listed, .. } => {
            let listed = listed.as_slice();
            let unlisted = wrong_unlisted(versions, *lo, *hi, listed);
            match wrong_listed(versions, listed) {
                None => unlisted,
                Some(key) => Some(unlisted.unwrap_or(key).min(key)),
            }
        }
        Event::Write { txn, key } => {
            let found = version_of(versions, *key);
            if found == 0 || found == *txn {
                return None;
            }
            match (commits.get(&found), commits.get(txn)) {
                (Some(first), Some(second)) => (*first >= *second).then_some(*key),
                _ => Some(*key),
            }
        }
        _ => None,
    }
}

/// Where the first event of each transaction stands, and for each event the place of the next one of its transaction, 0 where
/// there is none.
fn chains(alloc: Global, h: &History) -> Result<(BTreeMap<TxnId, u32>, Vec<u32>), NoMemory>
    ensures firsts { IfOk result (λ r. AreFirsts h.now 0 r.0) }
    ensures next { IfOk result (λ r. AreNext h.now 0 r.1.items) }
{
    let mut firsts = BTreeMap::new(alloc);
    let mut next = vec![in alloc; 0u32; h.len() as usize + 1]?;
    for before in (0..h.len()).rev() {
        let place = before + 1;
        if let Some(event) = h.event(place) {
            let txn = event.txn();
            next[place as usize] = firsts.get(&txn).copied().unwrap_or(0);
            firsts.insert(txn, place)?;
        }
    }
    Ok((firsts, next))
}

/// Replays the events of one transaction, whose first event stands at `first`, up to the first that isn't right.
fn replay_txn(
    h: &History,
    txn: TxnId,
    first: u32,
    next: &[u32],
    commits: &BTreeMap<TxnId, u32>,
    versions: &mut BTreeMap<Key, TxnId>,
) -> Result<Option<Mismatch>, NoMemory>
    requires first { first ≡ first_at txn 1 h.now }
    requires next { AreNext h.now 0 next.now }
    requires commits { AreCommits h.now commits.now }
    requires written { AreWritten h.now versions.old }
    ensures written { IfOk result (λ _. AreWritten h.now versions.new) }
    ensures right { IfOk result (λ found. found ≡ None → (others : List (ℕ × Event)) (told : Option Mismatch)
        → Tells h.now (version_in versions.new) others told
        → Tells h.now (version_in versions.old) (events_of h.now txn ++ others) told) }
    ensures wrong { IfOk result (λ found. (m : Mismatch) → found ≡ Some m → (others : List (ℕ × Event))
        → Tells h.now (version_in versions.old) (events_of h.now txn ++ others) (Some m)) }
{
    let mut at = first;
    while at != 0 {
        if let Some(event) = h.event(at) {
            if let Some(key) = wrong_key(h, event, versions, commits) {
                return Ok(Some(Mismatch {
                    place: at,
                    key,
                    found: version_of(versions, key),
                }));
            }
            if let Event::Write { txn, key } = event {
                versions.insert(*key, *txn)?;
            }
        }
        at = next[at as usize];
    }
    Ok(None)
}

/// Nothing where the order replays the history, else the first mismatch.
pub fn replay(alloc: Global, h: &History, order: &[TxnId]) -> Result<Option<Mismatch>, ReplayFault>
    ensures order { OnOk result (IsOrder h.now order.now) }
    ensures not_an_order { result ≡ Err faults.NotAnOrder → ¬ IsOrder h.now order.now }
    ensures replays { IfOk result (λ found. MatchOption found (Replays h.now order.now)
        (λ m. IsFirstMismatch h.now order.now m.place m.key m.found)) }
{
    let mut left = commit_places(alloc, h)?;
    for txn in order {
        if left.remove(txn).is_none() {
            return Err(ReplayFault::NotAnOrder);
        }
    }
    if !left.is_empty() {
        return Err(ReplayFault::NotAnOrder);
    }
    let commits = commit_places(alloc, h)?;
    let (firsts, next) = chains(alloc, h)?;
    let places = next.as_slice();
    let mut versions = BTreeMap::new(alloc);
    for txn in order {
        let first = firsts.get(txn).copied().unwrap_or(0);
        if let Some(mismatch) = replay_txn(h, *txn, first, places, &commits, &mut versions)? {
            return Ok(Some(mismatch));
        }
    }
    Ok(None)
}
