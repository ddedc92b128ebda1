//! The audit of a part of the keys: its reads, its writes, and the versions that nothing explains.
ghost use Rattle.std.specs.Prelude.{◌≡◌, IfOk, ◌<◌, OnOk, ◌-◌, Some, length, take};
ghost use Rattle.sia_parts.specs.Dealing.{HasReadsOf};
ghost use Rattle.sia_parts.specs.Findings.{ArePartFindings, ListsBadReads, ListsUnexplained, ListsBadWrites};
ghost use Rattle.sia_parts.specs.Gathering.{IsPartFound};
ghost use Rattle.sia_parts.specs.Parts.{IsInPart};
ghost use Rattle.sia_index.specs.Positions.{HasPosition, IsAtPosition};
ghost use Rattle.sia_index.specs.declared.info.KeyVersion.{KeyVersion as version};
ghost use Rattle.sia_parts.specs.Seeing.{IsScope, Gains, IsSightWithin, txn_in};
ghost use Rattle.sia_parts.specs.Sights.{Adds, IsBadWith};
ghost use Rattle.sia_events.specs.Numbering.{names_of, event_of, IsWithin, IsMarked};
ghost use Rattle.sia_events.specs.Places.{at_place};
ghost use Rattle.sia_parts.specs.Accesses.{AreSights};
ghost use Rattle.sia_parts.specs.Known.{IsKnown};

pub(crate) mod ranges;
pub(crate) mod sights;

use crate::accesses::{ByReader, accesses_at};
use crate::audit::ranges::put_range;
use crate::audit::sights::{Known, Scope, Seen, WrongReads, numbers_within, put_read};
use crate::cutting::Part;
use crate::edges::{edges_at, first_or_end};
use crate::finding::{BadWrite, PartFindings, PartFound};
use crate::reads::{Reads, txn_of};
use sia_events::{History, Key, Log, NoMemory, Row};
use sia_index::ordering::put_in_order;
use sia_index::{Index, Reader};
use std::alloc::Global;

/// The findings at the keys of the part, by an index of the history.
pub fn audit_part(
    alloc: Global,
    h: &History,
    ix: &Index,
    part: Part,
) -> Result<PartFindings, NoMemory>
    requires { ix.now ≡ h.now }
    ensures { IfOk result (λ found. ArePartFindings h.now part found) }
{
    ix.law();
    let log = h.log();
    let all = Part {
        lo: 0,
        hi: Key::MAX,
    };
    let reads = Reads::of(alloc, log, &[all])?;
    let found = find_in_part(alloc, log, ix, part, reads.of_part(0))?;
    let accesses = accesses_at(alloc, ix, Some(part), found.saw, found.missed)?;
    Ok(PartFindings {
        bad_reads: found.bad_reads,
        bad_writes: found.bad_writes,
        unexplained: found.unexplained,
        edges: edges_at(alloc, ix, &accesses, Some(part))?,
    })
}

/// The findings at the keys of the part, by the log of the history, its index, and the places of the part's reads. More places
/// do no harm. They are worked off fastest transaction by transaction.
pub fn find_in_part(
    alloc: Global,
    log: &Log,
    ix: &Index,
    part: Part,
    places: &[u32],
) -> Result<PartFound, NoMemory>
    requires index { ix.now ≡ log.now }
    requires places { HasReadsOf log.now part places.now }
    ensures { IfOk result (IsPartFound log.now (IsInPart part)) }
{
    ix.law();
    let (first, end) = numbers_within(ix, part.lo, part.hi, (0, u32::MAX));
    let scope = Scope {
        log,
        ix,
        part,
        first,
        end,
    };
    let seen = seen_of(alloc, &scope, places)?;
    Ok(PartFound {
        bad_writes: bad_writes_of(alloc, &scope)?,
        bad_reads: seen.wrong.bad_reads,
        unexplained: seen.wrong.unexplained,
        saw: seen.saw,
        missed: seen.missed,
    })
}

fn bad_writes_of(alloc: Global, scope: &Scope) -> Result<Vec<BadWrite>, NoMemory>
    requires { IsScope scope.now }
    ensures { IfOk result (λ bad. ListsBadWrites scope.now.ix.now (IsInPart scope.now.part) bad.items) }
{
    scope.ix.keys_law();
    let mut bad = Vec::new(alloc);
    if scope.first < scope.end {
        let from = scope.ix.first_position(scope.first);
        let to = first_or_end(scope.ix, scope.end);
        for second in from..to {
            put_bad_with(scope.ix, second, &mut bad)?;
        }
    }
    put_in_order(&mut bad)?;
    Ok(bad)
}

/// Adds those of which the version at the position is the second.
fn put_bad_with(ix: &Index, second: u32, bad: &mut Vec<BadWrite>) -> Result<(), NoMemory>
    requires { HasPosition ix.now second }
    ensures { (v : version) → IsAtPosition ix.now second v
        → OnOk result (Adds (IsBadWith ix.now v) bad.old.items bad.new.items) }
{
    ix.law();
    let Some(maker) = ix.maker_at(second) else {
        return Ok(());
    };
    let txns = ix.committed();
    let start = ix.lifetimes()[maker as usize].start;
    let mut at = second;
    while let Some(before) = ix.position_before(at) {
        let Some(first) = ix.maker_at(before) else {
            return Ok(());
        };
        if ix.commit_at(before) <= start {
            return Ok(());
        }
        bad.push(BadWrite {
            key: ix.written_keys()[ix.key_at(second) as usize],
            first: txns[first as usize],
            second: txns[maker as usize],
        })?;
        at = before;
    }
    Ok(())
}

/// What the reads at these places, among which are all of the part, saw at its keys.
fn seen_of(alloc: Global, scope: &Scope, places: &[u32]) -> Result<Seen, NoMemory>
    requires scope { IsScope scope.now }
    requires places { HasReadsOf scope.now.ix.now scope.now.part places.now }
    ensures bad_reads { IfOk result (λ seen. ListsBadReads scope.now.ix.now
        (IsInPart scope.now.part) seen.wrong.bad_reads.items) }
    ensures unexplained { IfOk result (λ seen. ListsUnexplained scope.now.ix.now
        (IsInPart scope.now.part) seen.wrong.unexplained.items) }
    ensures sights { IfOk result (λ seen. AreSights scope.now.ix.now
        (IsInPart scope.now.part) seen.saw seen.missed) }
{
    scope.ix.law();
    scope.ix.keys_law();
    scope.ix.committed();
    let mut seen = Seen {
        wrong: WrongReads {
            bad_reads: Vec::new(alloc),
            unexplained: Vec::new(alloc),
        },
        saw: ByReader::new(alloc),
        missed: ByReader::new(alloc),
        near: (scope.first, scope.end),
    };
    let mut last: Option<Known> = None;
    for place in places {
        let Some(row) = scope.log.row(*place) else {
            continue
        };
        let (txn, place) = (txn_of(row), *place);
        // Where it read last, nothing is looked up.
        let known = match last {
            Some(known) if known.txn == txn => Known {
                reader: Reader {
                    place,
                    ..known.reader
                },
                ..known
            },
            _ => Known {
                txn,
                reader: scope.ix.reader_at(txn, place),
                number: scope.ix.committed_number(txn),
            },
        };
        last = Some(known);
        put_row(scope, &known, row, &mut seen)?;
    }
    put_in_order(&mut seen.wrong.bad_reads)?;
    put_in_order(&mut seen.wrong.unexplained)?;
    Ok(seen)
}

/// Adds what the event saw, if it is a read.
#[inline(always)]
fn put_row(scope: &Scope, known: &Known, row: Row, seen: &mut Seen) -> Result<(), NoMemory>
    requires scope { IsScope scope.now }
    requires known { IsKnown scope.now.ix.now known.now }
    requires txn { known.now.txn ≡ txn_in row }
    requires event { at_place scope.now.ix.now known.now.reader.place
        ≡ Some (event_of (names_of scope.now.ix.now) row) }
    requires within { IsWithin (names_of scope.now.ix.now) row }
    requires marked { IsMarked (names_of scope.now.ix.now)
        (take (known.now.reader.place - 1) scope.now.ix.now) row }
    ensures { OnOk result (Gains scope.now.ix.now
        (IsSightWithin scope.now.ix.now known.now.reader.place scope.now.first scope.now.end) seen.old
        seen.new) }
{
    match row {
        Row::Read { key, saw, .. } => {
            put_read(scope, known, scope.log.pair_of(key, saw), false, seen)
        }
        Row::OwnRead { key, saw, .. } => {
            put_read(scope, known, scope.log.pair_of(key, saw), true, seen)
        }
        Row::Range { range, .. } => put_range(scope, known, range, seen),
        _ => Ok(()),
    }
}
