//! Cutting the keys into parts.
ghost use Rattle.std.specs.Prelude.{◌≡◌, ◌<◌, ◌≤◌, ℕ, List, length, All, IfOk, OnOk, Err};
ghost use Rattle.std.specs.List.Sorted.{IsStrictlyIncreasing};
ghost use Rattle.sia_parts.specs.Parts.{parts_from, IsCutting, HasTooManyCuts, OnePartLaw};
ghost use Rattle.sia_parts.specs.declared.cutting.CutFault.TheVariants as faults;

use sia_events::{Key, Log, NoMemory, Row};
use std::alloc::{AllocError, Global};

/// The greatest number of parts.
const MAX_PARTS: usize = 1024;

/// One event in so many is looked at, and one of so many keys that it listed.
const APART: u32 = 31;

/// So many listed keys of these events are worth sharing: about 200,000 of all.
const FEW: usize = 6500;

/// A part of the keys: those from `lo` to `hi`, both included.
#[derive(Clone, Copy, Debug, PartialEq, Eq)]
pub struct Part {
    pub lo: Key,
    pub hi: Key,
}

/// Why keys aren't cut.
#[derive(Clone, Copy, Debug, PartialEq, Eq)]
pub enum CutFault {
    /// A growth was refused.
    NoMemory,
    /// There are more than 1,023 distinct points that aren't 0.
    TooMany,
}

impl From<AllocError> for CutFault {
    ghost from_gives = { λ _ fault. fault ≡ faults.NoMemory };

    fn from(_refused: AllocError) -> CutFault {
        CutFault::NoMemory
    }
}

/// The parts of the keys between the points, ascending. The points come in any order, repeats count once, and 0 cuts
/// nothing.
pub fn cut(alloc: Global, points: &[Key]) -> Result<Vec<Part>, CutFault>
    ensures parts { IfOk result (λ parts. IsCutting points.now parts.items) }
    ensures few { OnOk result (¬ HasTooManyCuts points.now) }
    ensures too_many { result ≡ Err faults.TooMany → HasTooManyCuts points.now }
    ensures some { IfOk result (λ parts. 0 < length parts.items) }
    ensures bound { IfOk result (λ parts. length parts.items ≤ 1024) }
    ensures ordered { IfOk result (λ parts. All (λ part. part.lo ≤ part.hi) parts.items) }
{
    let mut starts = Vec::with_capacity(alloc, points.len() + 1)?;
    starts.extend_from_slice(points)?;
    starts.extend_from_slice(&[0])?;
    starts.sort_unstable();
    starts.dedup();
    if starts.len() > MAX_PARTS {
        return Err(CutFault::TooMany);
    }
    Ok(parts_of(alloc, &starts)?)
}

fn parts_of(alloc: Global, starts: &[Key]) -> Result<Vec<Part>, AllocError>
    requires { IsStrictlyIncreasing starts.now }
    ensures parts { IfOk result (λ parts. parts.items ≡ parts_from starts.now) }
    ensures ordered { IfOk result (λ parts. All (λ part. part.lo ≤ part.hi) parts.items) }
{
    let mut parts = Vec::with_capacity(alloc, starts.len())?;
    for i in 0..starts.len() {
        let hi = match starts.get(i + 1) {
            Some(next) => next - 1,
            None => Key::MAX,
        };
        parts.push(Part { lo: starts[i], hi })?;
    }
    Ok(parts)
}

/// About so many parts, of which as much was read of one as of another, or one where little was read. Nobody promises which they are.
pub fn even_cutting(alloc: Global, log: &Log, count: u16) -> Result<Vec<Part>, NoMemory>
    ensures parts { IfOk result (λ parts. (points : List ℕ) × IsCutting points parts.items) }
    ensures bound { IfOk result (λ parts. length parts.items ≤ 1024) }
{
    let count = usize::from(count).max(1);
    let keys = sampled(alloc, log)?;
    let distance = keys.len() / count + 1;
    let mut points = Vec::with_capacity(alloc, count)?;
    for key in keys.iter().step_by(distance).skip(1) {
        points.push(*key)?;
    }
    // There are too few points for the other fault.
    let Ok(parts) = cut(alloc, &points) else {
        return Err(NoMemory);
    };
    Ok(parts)
}

/// Some of the keys that range reads listed, ascending, or none where they listed few. Other reads cost too little to be shared.
fn sampled(alloc: Global, log: &Log) -> Result<Vec<Key>, NoMemory> {
    let mut listed = 0usize;
    let mut keys = Vec::new(alloc);
    for number in 0..log.len() / APART {
        if let Some(Row::Range { range, .. }) = log.row(number * APART + 1) {
            let pairs = log.listed(range);
            listed = listed.saturating_add(pairs.len());
            for pair in pairs.iter().step_by(APART as usize) {
                keys.push(log.pair(*pair).0)?;
            }
        }
    }
    if listed < FEW {
        keys.clear();
    }
    keys.sort_unstable();
    Ok(keys)
}

/// A law, and nothing else: each key is in exactly one part of a cutting.
pub fn one_part()
    ensures { OnePartLaw }
{}
