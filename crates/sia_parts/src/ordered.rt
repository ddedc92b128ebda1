//! What was seen, in order and the other way round.
ghost use Rattle.std.specs.Prelude.{◌≡◌, ◌<◌, ◌++◌, ◌∷◌, [], ℕ, List, Option, All, Contains, IfOk, OnOk, length, slice_index_or};
ghost use Rattle.std.specs.List.Sorted.{IsNonDecreasingBy};
ghost use Rattle.sia_index.specs.Positions.{HasPosition};
ghost use Rattle.sia_parts.specs.Accesses.{AreAccesses};
ghost use Rattle.sia_parts.specs.EdgeRows.{AreNewest, AreOrdered, IsNewest};
ghost use Rattle.sia_parts.specs.Parts.{IsWithin};

use crate::accesses::Accesses;
use crate::cutting::Part;
use sia_events::NoMemory;
use sia_index::Index;
use sia_index::lists::Lists;
use std::alloc::Global;

/// What was seen, in order, and who saw each version.
#[derive(Drop)]
pub struct Ordered {
    /// Each one's positions and range misses are in order.
    pub accesses: Accesses,
    /// For each position who saw the version there.
    pub seen: Lists<u32>,
    /// For each position who saw the version there and no newer one of its key.
    pub newest: Lists<u32>,
}

impl Ordered {
    pub fn of(alloc: Global, index: &Index, accesses: &Accesses) -> Result<Ordered, NoMemory>
        requires { (within : Option Part) × AreAccesses index.now (IsWithin within) accesses.now }
        ensures { IfOk result (λ ordered. (within : Option Part)
            → AreAccesses index.now (IsWithin within) accesses.now
            → AreOrdered index.now (IsWithin within) ordered) }
    {
        let positions = index.position_count() as usize;
        let seen = accesses.saw.turned(alloc, positions)?;
        let saw = seen.turned(alloc, accesses.saw.len())?;
        let missed = accesses.missed.in_order(alloc)?;
        let newest = newest_of(alloc, index, &saw)?.turned(alloc, positions)?;
        let accesses = Accesses { saw, missed };
        Ok(Ordered {
            accesses,
            seen,
            newest,
        })
    }
}

/// Of each list the newest position of each key.
fn newest_of(alloc: Global, ix: &Index, saw: &Lists<u32>) -> Result<Lists<u32>, NoMemory>
    requires positions { (i : ℕ) → i < length saw.now → All (HasPosition ix.now) (slice_index_or saw.now i []) }
    requires rise { (i : ℕ) → IsNonDecreasingBy (λ q. q) (slice_index_or saw.now i []) }
    ensures { IfOk result (AreNewest ix.now saw.now) }
{
    let mut newest = Lists::with_capacity(alloc, saw.len(), saw.rows().len())?;
    for reader in 0..saw.len() {
        put_newest(ix, saw.at(reader), &mut newest)?;
    }
    Ok(newest)
}

/// Adds a list of the newest position of each key of which the reader saw some.
fn put_newest(ix: &Index, saw: &[u32], newest: &mut Lists<u32>) -> Result<(), NoMemory>
    requires positions { All (HasPosition ix.now) saw.now }
    requires rise { IsNonDecreasingBy (λ q. q) saw.now }
    ensures { OnOk result ((list : List ℕ) × (newest.new ≡ newest.old ++ list ∷ [])
        × IsNewest ix.now (Contains saw.now) list) }
{
    newest.open()?;
    for i in (0..saw.len()).rev() {
        if i + 1 == saw.len() || ix.key_at(saw[i + 1]) != ix.key_at(saw[i]) {
            newest.put(saw[i])?;
        }
    }
    Ok(())
}
