//! Read events dealt to parts of the keys.
ghost use Rattle.std.specs.Prelude.{◌≡◌, ◌<◌, ◌≤◌, ℕ, List, Some, AllPairs, MatchOption, Contains, IfOk, OnOk, length, ◌-◌};
ghost use Rattle.std.specs.List.{slice_get};
ghost use Rattle.std.specs.List.Sorted.{IsNonDecreasingBy};
ghost use Rattle.sia_events.specs.declared.event.Event.{Event};
ghost use Rattle.sia_events.specs.Events.{Saw};
ghost use Rattle.sia_events.specs.Numbering.{names_of, event_of, IsWithin};
ghost use Rattle.sia_events.specs.Reads.{SawAt};
ghost use Rattle.sia_parts.specs.declared.cutting.Part.{Part as part};
ghost use Rattle.sia_parts.specs.Dealing.{AreReads, Deals, HasReadsOf};
ghost use Rattle.sia_parts.specs.Parts.{IsCutting};
ghost use Rattle.sia_parts.specs.Seeing.{reader_in, txn_in};

use crate::cutting::Part;
use sia_events::{Key, Log, NoMemory, Row};
use sia_index::keyed::{By, ByKey, place_above};
use sia_index::lists::Lists;
use std::alloc::Global;

/// For each of some parts the places of the read events that concern it, which ascend. A part alone has those of all read events,
/// transaction by transaction: of several parts each has few of a transaction, and one way through the log costs less.
#[derive(Drop)]
pub struct Reads {
    pub(crate) dealt: Vec<Vec<u32>>,
}

/// By the log's transaction that reads. No transaction has the number of other events.
struct ByReadingTxn;

impl By<Row> for ByReadingTxn {
    ghost by = { λ row. reader_in row };

    fn number(row: &Row) -> u64 {
        match row {
            Row::Read { txn, .. } | Row::OwnRead { txn, .. } | Row::Range { txn, .. } => {
                u64::from(*txn)
            }
            _ => u64::from(u32::MAX),
        }
    }
}

impl By<Part> for ByKey {
    ghost by = { λ p. p.lo };

    fn number(p: &Part) -> u64 {
        p.lo
    }
}

impl Reads {
    /// Those of the parts that points cut the keys into.
    pub fn of(alloc: Global, log: &Log, parts: &[Part]) -> Result<Reads, NoMemory>
        requires { (points : List ℕ) × IsCutting points parts.now }
        ensures { IfOk result (λ reads. AreReads log.now parts.now reads) }
    {
        let mut dealt = Vec::with_capacity(alloc, parts.len())?;
        if parts.len() == 1 {
            dealt.push(places_of_reads(alloc, log)?)?;
            return Ok(Reads { dealt });
        }
        for _ in 0..parts.len() {
            dealt.push(Vec::new(alloc))?;
        }
        for before in 0..log.len() {
            put_read(log, parts, before + 1, &mut dealt)?;
        }
        Ok(Reads { dealt })
    }

    /// Those of part number `i`, counted from 0.
    pub fn of_part(&self, i: usize) -> &[u32]
        ensures { (h : List Event) (parts : List part) (one : part) → AreReads h parts self.now
            → slice_get parts i ≡ Some one → HasReadsOf h one result.now }
    {
        match self.dealt.get(i) {
            Some(places) => places.as_slice(),
            None => &[],
        }
    }
}

/// The places of all read events, transaction by transaction in the order of the log's numbers, and then by place.
fn places_of_reads(alloc: Global, log: &Log) -> Result<Vec<u32>, NoMemory>
    ensures { IfOk result (λ places. (p t k v : ℕ) → SawAt log.now p t k v → Contains places.items p) }
{
    log.law();
    let count = log.txn_count() as usize;
    let lists = Lists::<u32>::places::<Row, ByReadingTxn>(alloc, count, log.rows())?;
    let mut places = lists.into_rows();
    for place in places.iter_mut() {
        *place += 1;
    }
    Ok(places)
}

/// The first and the last key that the event may have seen, if it is a read.
#[inline(always)]
fn covered(log: &Log, row: Row) -> Option<(Key, Key)>
    requires { IsWithin (names_of log.now) row }
    ensures { MatchOption result ((k v : ℕ) → ¬ Saw (event_of (names_of log.now) row) k v)
        (λ ends. (k v : ℕ) → Saw (event_of (names_of log.now) row) k v → (ends.0 ≤ k) × (k ≤ ends.1)) }
{
    match row {
        Row::Read { key, .. } | Row::OwnRead { key, .. } => {
            let k = log.key(key);
            Some((k, k))
        }
        Row::Range { range, .. } => Some(log.range(range)),
        _ => None,
    }
}

fn put_read(
    log: &Log,
    parts: &[Part],
    place: u32,
    dealt: &mut Vec<Vec<u32>>,
) -> Result<(), NoMemory>
    requires first { IsNonDecreasingBy (λ p. p.lo) parts.now }
    requires apart { AllPairs (λ p q. p.hi < q.lo) parts.now }
    requires long { length parts.now ≤ length dealt.old.items }
    ensures { OnOk result (Deals log.now parts.now place dealt.old.items dealt.new.items) }
{
    if let Some(row) = log.row(place) {
        if let Some((lo, hi)) = covered(log, row) {
            let from = place_above::<Part, ByKey>(parts, lo).saturating_sub(1);
            for i in from..parts.len() {
                if hi < parts[i].lo {
                    return Ok(());
                }
                dealt[i].push(place)?;
            }
        }
    }
    Ok(())
}

/// The log's transaction whose event the row is.
pub fn txn_of(row: Row) -> u32
    ensures { result ≡ txn_in row }
{
    match row {
        Row::Begin { txn, .. } => txn,
        Row::Read { txn, .. } => txn,
        Row::OwnRead { txn, .. } => txn,
        Row::Range { txn, .. } => txn,
        Row::Write { txn, .. } => txn,
        Row::Commit { txn } => txn,
        Row::Abort { txn } => txn,
    }
}
