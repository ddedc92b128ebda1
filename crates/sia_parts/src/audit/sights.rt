//! What a read saw of one key: whether it is bad, and where the version stands.
ghost use Rattle.std.specs.Prelude.{◌≡◌, ◌⊎◌, ◌↔◌, ◌+◌, ◌<◌, ℕ, List, Some, IsSome, IsTrue, OnOk, MatchOption, ◌-◌, ◌≤◌, false};
ghost use Rattle.sia_events.specs.declared.event.Event.{Event};
ghost use Rattle.sia_events.specs.Numbering.{names_of, pair_at, IsPair};
ghost use Rattle.sia_events.specs.Places.{at_place};
ghost use Rattle.sia_events.specs.Reads.{IsDue};
ghost use Rattle.sia_events.specs.Refusals.{IsWellFormed};
ghost use Rattle.sia_events.specs.Transactions.{Wrote, WroteBefore};
ghost use Rattle.sia_index.specs.Info.{HasKeyAt, IsKeyAt};
ghost use Rattle.sia_parts.specs.Known.{IsKnown};
ghost use Rattle.sia_parts.specs.Seeing.{AddsWrong, Gains, IsLoose, IsScope, IsSightWithin, IsVersionAt, IsView, sight_of};
ghost use Rattle.sia_parts.specs.Sights.{Adds, IsSight};
ghost use Rattle.sia_events.specs.declared.event.Event.TheVariants as events;

use crate::accesses::{ByReader, RangeMiss};
use crate::cutting::Part;
use crate::finding::{BadRead, Unexplained};
use sia_events::{Key, Log, NoMemory, Version};
use sia_index::keyed::{ByKey, place_from_near};
use sia_index::{Index, Reader, WriteAt};

/// Where reads are looked at: in a log and its index, at the keys of a part. Among the written keys these have the numbers from
/// `first` to before `end`.
#[derive(Clone, Copy)]
pub(crate) struct Scope<'a> {
    pub(crate) log: &'a Log,
    pub(crate) ix: &'a Index,
    pub(crate) part: Part,
    pub(crate) first: u32,
    pub(crate) end: u32,
}

/// The number of the first written key from `lo` to `hi`, and that behind the last one. Mostly they are those that are near.
pub(crate) fn numbers_within(ix: &Index, lo: Key, hi: Key, near: (u32, u32)) -> (u32, u32)
    requires { IsWellFormed ix.now }
    ensures { (j : ℕ) → ((result.0 ≤ j) × (j < result.1))
        ↔ ((k : ℕ) × IsKeyAt ix.now j k × (lo ≤ k) × (k ≤ hi)) }
{
    let keys = ix.written_keys();
    let from = place_from_near::<Key, ByKey>(keys, lo, near.0 as usize);
    let to = match hi.checked_add(1) {
        Some(next) => place_from_near::<Key, ByKey>(keys, next, near.1 as usize),
        None => keys.len(),
    };
    (from as u32, to as u32)
}

/// What is known of a transaction that reads: its number in the log, and that among the committed ones, if it committed.
#[derive(Clone, Copy)]
pub(crate) struct Known {
    pub(crate) txn: u32,
    pub(crate) reader: Reader,
    pub(crate) number: Option<u32>,
}

/// Reads that saw another version than the one due, and those of them that nothing explains.
#[derive(Drop)]
pub(crate) struct WrongReads {
    pub(crate) bad_reads: Vec<BadRead>,
    pub(crate) unexplained: Vec<Unexplained>,
}

/// What reads saw at the keys of a part: what is wrong with it, and what the committed transactions saw.
#[derive(Drop)]
pub(crate) struct Seen {
    pub(crate) wrong: WrongReads,
    pub(crate) saw: ByReader<u32>,
    pub(crate) missed: ByReader<RangeMiss>,
    /// The numbers of the first key of the last range, and behind the last one. Only searches go by them.
    pub(crate) near: (u32, u32),
}

/// A pair that a reader saw, by its number in the log, and where its version stands. `mine` says whether the reader had written the key before.
#[derive(Clone, Copy)]
pub(crate) struct View {
    pub(crate) pair: u32,
    pub(crate) at: WriteAt,
    pub(crate) mine: bool,
}

/// Where the version of the pair stands, if its key is written.
#[inline(always)]
pub(crate) fn stands(scope: &Scope, pair: u32) -> Option<WriteAt>
    requires scope { IsScope scope.now }
    requires pair { IsPair (names_of scope.now.ix.now) pair }
    ensures { MatchOption result
        ((t : ℕ) → ¬ Wrote scope.now.ix.now t (pair_at (names_of scope.now.ix.now) pair).0)
        (IsVersionAt scope.now.ix.now (pair_at (names_of scope.now.ix.now) pair).0
        (pair_at (names_of scope.now.ix.now) pair).1) }
{
    let (key, write) = scope.log.pair_numbers(pair);
    if write > 0 {
        return Some(scope.ix.write_at(write));
    }
    let number = scope.ix.written_number(key)?;
    Some(WriteAt {
        key: number,
        position: Some(scope.ix.first_position(number)),
    })
}

#[inline(always)]
pub(crate) fn put_read(
    scope: &Scope,
    known: &Known,
    pair: u32,
    mine: bool,
    seen: &mut Seen,
) -> Result<(), NoMemory>
    requires scope { IsScope scope.now }
    requires known { IsKnown scope.now.ix.now known.now }
    requires pair { IsPair (names_of scope.now.ix.now) pair }
    requires event { at_place scope.now.ix.now known.now.reader.place
        ≡ Some (events.Read known.now.reader.txn (pair_at (names_of scope.now.ix.now) pair).0
        (pair_at (names_of scope.now.ix.now) pair).1) }
    requires mine { IsTrue mine ↔ WroteBefore scope.now.ix.now known.now.reader.txn
        (pair_at (names_of scope.now.ix.now) pair).0 known.now.reader.place }
    ensures { OnOk result (Gains scope.now.ix.now
        (IsSightWithin scope.now.ix.now known.now.reader.place scope.now.first scope.now.end) seen.old
        seen.new) }
{
    let Some(at) = stands(scope, pair) else {
        return Ok(());
    };
    if at.key < scope.first || scope.end <= at.key {
        return Ok(());
    }
    // Mostly it was due, which two loads tell. What is seldom made stands in no turn of a loop.
    if !mine
        && let Some(position) = at.position
        && scope.ix.is_newest(position, known.reader.start)
    {
        return put_position(known.number, position, &mut seen.saw);
    }
    put_view(scope, known, &View { pair, at, mine }, seen)
}

/// Adds what was seen of a written key.
#[inline(never)]
pub(crate) fn put_view(
    scope: &Scope,
    known: &Known,
    view: &View,
    seen: &mut Seen,
) -> Result<(), NoMemory>
    requires scope { IsScope scope.now }
    requires known { IsKnown scope.now.ix.now known.now }
    requires view { IsView scope.now.ix.now known.now view.now }
    ensures { OnOk result (Gains scope.now.ix.now
        (IsSightWithin scope.now.ix.now known.now.reader.place view.now.at.key
        (view.now.at.key + 1)) seen.old seen.new) }
{
    let (key, saw) = scope.log.pair(view.pair);
    let due = due_at(scope.ix, known, view.at.key, view.mine);
    let committed = view.at.position.is_some();
    put_if_bad(known, (key, saw), due, committed, &mut seen.wrong)?;
    if saw == known.reader.txn {
        return Ok(());
    }
    match view.at.position {
        Some(position) => put_position(known.number, position, &mut seen.saw),
        None => Ok(()),
    }
}

/// The version due to the reader at the key of this number, which is the reader's own where that had written it before.
pub(crate) fn due_at(ix: &Index, known: &Known, key: u32, mine: bool) -> Version
    requires well_formed { IsWellFormed ix.now }
    requires known { IsKnown ix.now known.now }
    requires key { HasKeyAt ix.now key }
    ensures { (k : ℕ) → IsKeyAt ix.now key k
        → (IsTrue mine ↔ WroteBefore ix.now known.now.reader.txn k known.now.reader.place)
        → IsDue ix.now known.now.reader.txn known.now.reader.place k result }
{
    if mine {
        return known.reader.txn;
    }
    let position = ix.position_as_of(key, known.reader.start);
    match ix.maker_at(position) {
        Some(maker) => ix.committed()[maker as usize],
        None => 0,
    }
}

/// Adds the reader's read of a version, if another one was due. Those of committed transactions and 0 are `committed`.
pub(crate) fn put_if_bad(
    known: &Known,
    pair: (Key, Version),
    due: Version,
    committed: bool,
    wrong: &mut WrongReads,
) -> Result<(), NoMemory>
    ensures { (h : List Event) → IsWellFormed h → IsKnown h known.now
        → IsSight h (sight_of known.now pair.0 pair.1)
        → IsDue h known.now.reader.txn known.now.reader.place pair.0 due
        → ((committed ≡ false) ↔ IsLoose h pair.1)
        → OnOk result (AddsWrong h (λ s. s ≡ sight_of known.now pair.0 pair.1) wrong.old wrong.new) }
{
    let ((key, saw), place, txn) = (pair, known.reader.place, known.reader.txn);
    if due == saw {
        return Ok(());
    }
    wrong.bad_reads.push(BadRead {
        place,
        txn,
        key,
        saw,
        due,
    })?;
    if is_unexplained(known, due, committed) {
        wrong.unexplained.push(Unexplained {
            place,
            txn,
            key,
            saw,
        })?;
    }
    Ok(())
}

/// Whether nothing explains a bad read: its reader committed, and its own write was due, or it saw a version that isn't committed.
fn is_unexplained(known: &Known, due: Version, committed: bool) -> bool
    ensures { IsTrue result ↔ (IsSome known.now.number
        × ((due ≡ known.now.reader.txn) ⊎ (committed ≡ false))) }
{
    known.number.is_some() && (due == known.reader.txn || !committed)
}

/// The reader saw the version at the position, if it has a number.
#[inline(always)]
pub(crate) fn put_position(
    number: Option<u32>,
    position: u32,
    saw: &mut ByReader<u32>,
) -> Result<(), NoMemory>
    ensures { OnOk result (Adds (λ p. (number ≡ Some p.0) × (p.1 ≡ position)) saw.old saw.new) }
{
    if let Some(reader) = number {
        saw.put(reader, position)?;
    }
    Ok(())
}
