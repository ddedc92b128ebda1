//! What a range read saw of the keys of a part: the keys that it listed, and those that it passed over.
ghost use Rattle.std.specs.Prelude.{◌≡◌, ◌↔◌, ◌+◌, ◌<◌, ◌≤◌, ℕ, All, Contains, IfOk, OnOk, Some, length};
ghost use Rattle.sia_events.specs.declared.event.Event.TheVariants as events;
ghost use Rattle.sia_events.specs.Numbering.{names_of, pair_at, range_at, ranges_of, AscendByKey, IsPair};
ghost use Rattle.sia_events.specs.Places.{at_place};
ghost use Rattle.sia_events.specs.Reads.{IsDue};
ghost use Rattle.sia_events.specs.Refusals.{IsWellFormed};
ghost use Rattle.sia_index.specs.Info.{HasKeyAt, IsKeyAt};
ghost use Rattle.sia_parts.specs.Accesses.{IsMissAt, IsPassedBy};
ghost use Rattle.sia_parts.specs.Known.{IsKnown};
ghost use Rattle.sia_parts.specs.Seeing.{Gains, IsCover, IsGap, IsListed, IsMiss, HaveUpTo, IsScope, IsSightWithin};
ghost use Rattle.sia_parts.specs.Sights.{Gives};

use crate::accesses::{ByReader, RangeMiss};
use crate::audit::sights::{
    Known, Scope, Seen, View, due_at, numbers_within, put_if_bad, put_position, put_view, stands,
};
use sia_events::{Key, Log, NoMemory};
use sia_index::Index;
use sia_index::keyed::{ByKey, place_from};

/// What a range read covers of a part: the keys from `lo` to `hi`, whose numbers among the written ones are those from `first` to
/// before `end`, and the pairs that it listed of these. Where `own` isn't true, its reader is known not to have written them before.
#[derive(Clone, Copy)]
struct Cover<'a> {
    pub(crate) pairs: &'a [u32],
    pub(crate) lo: Key,
    pub(crate) hi: Key,
    pub(crate) first: u32,
    pub(crate) end: u32,
    pub(crate) own: bool,
}

pub(crate) fn put_range(
    scope: &Scope,
    known: &Known,
    range: u32,
    seen: &mut Seen,
) -> Result<(), NoMemory>
    requires scope { IsScope scope.now }
    requires known { IsKnown scope.now.ix.now known.now }
    requires range { range < length (ranges_of scope.now.ix.now) }
    requires event { at_place scope.now.ix.now known.now.reader.place
        ≡ Some (events.Range known.now.reader.txn (range_at (names_of scope.now.ix.now) range).0
        (range_at (names_of scope.now.ix.now) range).1 (range_at (names_of scope.now.ix.now) range).2) }
    ensures { OnOk result (Gains scope.now.ix.now
        (IsSightWithin scope.now.ix.now known.now.reader.place scope.now.first scope.now.end) seen.old
        seen.new) }
{
    let (from, to) = scope.log.range(range);
    let listed = scope.log.listed(range);
    let lo = from.max(scope.part.lo);
    let hi = to.min(scope.part.hi);
    let pairs = pairs_within(scope.log, listed, (from, to), lo, hi);
    let (first, end) = numbers_within(scope.ix, lo, hi, near_of(scope, pairs, seen.near));
    seen.near = (first, end);
    let cover = Cover {
        pairs,
        lo,
        hi,
        first,
        end,
        own: scope.ix.next_own(known.reader, lo, hi).is_some(),
    };
    put_covered(scope, known, &cover, seen)
}

/// Where the numbers of a range mostly begin and end: at the keys that it lists first and last, or where others did.
fn near_of(scope: &Scope, pairs: &[u32], others: (u32, u32)) -> (u32, u32)
    requires scope { IsScope scope.now }
    requires pairs { All (IsPair (names_of scope.now.log.now)) pairs.now }
{
    let (Some(first), Some(last)) = (pairs.first(), pairs.last()) else {
        return others;
    };
    let first = stands(scope, *first);
    let last = stands(scope, *last);
    match (first, last) {
        (Some(first), Some(last)) => (first.key, last.key.saturating_add(1)),
        _ => others,
    }
}

/// Adds what was seen of the keys listed, and of those between them.
#[inline(never)]
fn put_covered(scope: &Scope, known: &Known, cover: &Cover, seen: &mut Seen) -> Result<(), NoMemory>
    requires scope { IsScope scope.now }
    requires known { IsKnown scope.now.ix.now known.now }
    requires cover { IsCover scope.now.ix.now known.now cover.now }
    ensures { OnOk result (Gains scope.now.ix.now
        (IsSightWithin scope.now.ix.now known.now.reader.place cover.now.first cover.now.end) seen.old
        seen.new) }
{
    // Of copies the fields stay in registers, whatever is called.
    let (here, who, own) = (*scope, *known, cover.own);
    let mut next = cover.first;
    for pair in cover.pairs {
        // Version 0 of a key that isn't written is due to everyone.
        let Some(at) = stands(&here, *pair) else {
            continue;
        };
        if let Some(position) = at.position
            && !own
            && at.key == next
            && here.ix.is_newest(position, who.reader.start)
        {
            put_position(who.number, position, &mut seen.saw)?;
            next += 1;
        } else {
            next = put_listed(scope, known, own, *pair, next, seen)?;
        }
    }
    put_gap(scope.ix, known, cover.own, next, cover.end, seen)
}

/// Adds what was seen of a listed key that is written, and of those from number `next` on before it. Tells the number behind it.
#[cold]
#[inline(never)]
fn put_listed(
    scope: &Scope,
    known: &Known,
    own: bool,
    pair: u32,
    next: u32,
    seen: &mut Seen,
) -> Result<u32, NoMemory>
    requires scope { IsScope scope.now }
    requires known { IsKnown scope.now.ix.now known.now }
    requires listed { IsListed scope.now.ix.now known.now own next pair }
    ensures { IfOk result (λ behind. (i : ℕ) → IsKeyAt scope.now.ix.now i (pair_at (names_of scope.now.ix.now) pair).0
        → (behind ≡ i + 1) × Gains scope.now.ix.now
        (IsSightWithin scope.now.ix.now known.now.reader.place next behind) seen.old seen.new) }
{
    let Some(at) = stands(scope, pair) else {
        return Ok(next);
    };
    put_gap(scope.ix, known, own, next, at.key, seen)?;
    let mine = own && scope.ix.wrote_before(known.reader, scope.log.pair(pair).0);
    put_view(scope, known, &View { pair, at, mine }, seen)?;
    Ok(at.key + 1)
}

/// Adds what was seen of keys from one number to before another, none of which was listed. Without `own` the reader wrote none before.
#[inline(always)]
fn put_gap(
    ix: &Index,
    known: &Known,
    own: bool,
    from: u32,
    to: u32,
    seen: &mut Seen,
) -> Result<(), NoMemory>
    requires well_formed { IsWellFormed ix.now }
    requires known { IsKnown ix.now known.now }
    requires gap { IsGap ix.now known.now own from to }
    ensures { OnOk result (Gains ix.now
        (IsSightWithin ix.now known.now.reader.place from to) seen.old seen.new) }
{
    if from >= to {
        return Ok(());
    }
    let mut next = from;
    // Where another version than 0 was due the read is bad.
    while let Some(number) = next_doubtful(ix, known, own, next, to) {
        let key = ix.written_keys()[number as usize];
        let mine = own && ix.wrote_before(known.reader, key);
        let due = due_at(ix, known, number, mine);
        put_if_bad(known, (key, 0), due, true, &mut seen.wrong)?;
        next = number + 1;
    }
    put_miss(known.number, RangeMiss { from, to }, &mut seen.missed)
}

/// A number of a key, below which version 0 is due to the reader at all keys from the one on.
fn next_doubtful(ix: &Index, known: &Known, own: bool, from: u32, to: u32) -> Option<u32>
    requires well_formed { IsWellFormed ix.now }
    requires known { IsKnown ix.now known.now }
    requires keys { (i : ℕ) → i < to → HasKeyAt ix.now i }
    requires gap { IsGap ix.now known.now own from to }
    ensures { HaveUpTo (λ k. IsDue ix.now known.now.reader.txn known.now.reader.place k 0) ix.now from to
        result }
{
    let visible = ix.next_visible(from, to, known.reader.start);
    let end = visible.unwrap_or(to);
    if !own || from >= end {
        return visible;
    }
    let keys = ix.written_keys();
    let (lo, hi) = (keys[from as usize], keys[end as usize - 1]);
    match ix.next_own(known.reader, lo, hi) {
        Some(key) => Some(place_from::<Key, ByKey>(keys, key) as u32),
        None => visible,
    }
}

/// Adds the miss, if the reader has a number, and what was put last doesn't hold it.
fn put_miss(
    number: Option<u32>,
    miss: RangeMiss,
    missed: &mut ByReader<RangeMiss>,
) -> Result<(), NoMemory>
    requires { miss.from < miss.to }
    ensures misses { OnOk result (Gives IsPassedBy
        (λ at. (number ≡ Some at.0) × IsMissAt miss at.1) missed.old missed.new) }
    ensures some { OnOk result (All IsMiss missed.old → All IsMiss missed.new) }
{
    let Some(reader) = number else {
        return Ok(());
    };
    if let Some((last, held)) = missed.last() {
        if last == reader && held.from <= miss.from && miss.to <= held.to {
            return Ok(());
        }
    }
    Ok(missed.put(reader, miss)?)
}

/// Those of a range's pairs whose keys are from `lo` to `hi`. Where these are all keys of the range nothing is searched for.
fn pairs_within<'a>(log: &Log, pairs: &'a [u32], range: (Key, Key), lo: Key, hi: Key) -> &'a [u32]
    requires numbers { All (IsPair (names_of log.now)) pairs.now }
    requires ascend { AscendByKey log.now pairs.now }
    requires inside { All (λ p. (range.0 ≤ (pair_at (names_of log.now) p).0)
        × ((pair_at (names_of log.now) p).0 ≤ range.1)) pairs.now }
    ensures ascend { AscendByKey log.now result.now }
    ensures each { (p : ℕ) → Contains result.now p ↔ (Contains pairs.now p
        × (lo ≤ (pair_at (names_of log.now) p).0) × ((pair_at (names_of log.now) p).0 ≤ hi)) }
{
    let mut from = 0;
    if range.0 < lo {
        from = log.place_of(pairs, lo);
    }
    let mut to = pairs.len();
    if hi < range.1 {
        to = log.place_of(pairs, hi + 1);
    }
    &pairs[from.min(to)..to]
}
