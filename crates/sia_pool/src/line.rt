//! The parts are placed, and the views given out.
ghost use Rattle.std.specs.Prelude.{◌≡◌, suc, ◌+◌, ◌<◌, ◌≤◌, [], IfOk};
ghost use Rattle.crossbeam_deque.specs.Handles.{worker_view, worker_deque, worker_flavor};
ghost use Rattle.sia_pool.specs.View.{owner_view, stealer_view, line_size};
ghost use Rattle.sia_pool.specs.Taker.{taker_view, taker_deque};
ghost use Rattle.sia_pool.specs.Line.{LinedUp};

use crate::fault::NoMemory;
use crate::owner::Owner;
use crate::rule::{LineSize, OwnerEnd, PartPlaced, ViewGiven};
use crate::stealer::Stealer;
use crate::taker::{Side, Taker};
use std::alloc::Global;
use std::marker::Brand;

/// One more taker, which steals. What can fail comes before its view is given out.
fn new_stealer<K: LineSize>(
    alloc: Global,
    count: u32,
    workers: u32,
    number: u32,
    end: &mut OwnerEnd,
) -> Result<Taker, NoMemory>
    requires flavor { worker_flavor end.old ≡ 0 }
    requires size { K.workers ≡ workers }
    requires more { suc (worker_view end.old).given < workers }
    requires view { let given = (worker_view end.old).given in worker_view end.old
        ≡ owner_view count (line_size workers given) [] given [] }
    ensures flavor { worker_flavor end.new ≡ 0 }
    ensures deque { worker_deque end.new ≡ worker_deque end.old }
    ensures view { IfOk result (λ t. worker_view end.new
        ≡ owner_view count workers [] ((worker_view end.old).given + 1) []) }
    ensures taker { IfOk result (λ t. (taker_deque t ≡ worker_deque end.old)
        × (taker_view t ≡ stealer_view ((worker_view end.old).given + 1) count workers [])) }
{
    let share = Vec::with_capacity(alloc, count as usize)?;
    let steals_from = end.stealer()?;
    let pass = end.another::<ViewGiven<K>>();
    Ok(Taker {
        side: Side::Stealer(Stealer {
            end: steals_from,
            pass,
            share,
            number,
        }),
    })
}

/// One taker for each worker, over one deque with the parts 0 to `count` less 1 and nothing taken. The first owns the
/// deque and pops, and the others steal. Each has the room of its share, so that `next_part` needs no memory.
pub fn line_up(alloc: Global, count: u32, workers: u32) -> Result<Vec<Taker>, NoMemory>
    requires { (count ≤ 1024) × (0 < workers) × (workers ≤ 64) }
    ensures { IfOk result (λ takers. LinedUp count workers takers.items) }
{
    let mut end = OwnerEnd::fifo_as(alloc, count as usize)?;
    for part in 0..count {
        // The deque began with a slot for each part, so none is handed back.
        end.push_as::<PartPlaced>(part).unwrap();
    }
    let mut takers = Vec::new(alloc);
    'giving: for number in 1..workers {
        takers.push(new_stealer::<Brand>(alloc, count, workers, number, &mut end)?)?;
    }
    let share = Vec::with_capacity(alloc, count as usize)?;
    let later = Vec::with_capacity(alloc, workers as usize)?;
    let owner = Taker {
        side: Side::Owner(Owner { end, share, later }),
    };
    takers.insert(0, owner)?;
    Ok(takers)
}
