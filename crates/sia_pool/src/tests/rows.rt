// Answers of single calls, and that each call can succeed.
ghost use Rattle.std.specs.Prelude.{◌≡◌, ◌+◌, ◌<◌};

use crate::{Crew, Job, NoMemory, OpenGate, Taken, Taker, line_up, work_off};
use std::alloc::Global;
use std::test::*;

/// Answers the part plus 100.
#[derive(Drop)]
pub(crate) struct Plus;

impl Job for Plus {
    type Out = u32;

    ghost takes = { λ _ part. part < 1024 };

    ghost owes = { λ _ part out. out ≡ part + 100 };

    fn run(&self, part: u32) -> Result<u32, NoMemory> {
        Ok(part + 100)
    }
}

/// The same, but it may have no memory for one part.
#[derive(Drop)]
struct Lacking {
    part: Option<u32>,
}

impl Job for Lacking {
    type Out = u32;

    ghost takes = { λ _ part. part < 1024 };

    ghost owes = { λ _ part out. out ≡ part + 100 };

    fn run(&self, part: u32) -> Result<u32, NoMemory> {
        if self.part == Some(part) {
            Err(NoMemory)
        } else {
            Ok(part + 100)
        }
    }
}

/// All parts that the shares hold, in ascending order.
fn parts_held(alloc: Global, crew: &Crew<u32>) -> Result<Vec<u32>, NoMemory> {
    let mut all = Vec::new(alloc);
    for share in &crew.shares {
        for part in share {
            all.push(*part)?;
        }
    }
    all.sort_unstable();
    Ok(all)
}

/// Whether the numbers are so many, and each is one more than the one before.
fn are_in_row(numbers: &[u32], first: u32, count: u32) -> bool {
    let mut wanted = first;
    for number in numbers {
        if *number != wanted {
            return false;
        }
        wanted = wanted.saturating_add(1);
    }
    numbers.len() == count as usize
}

/// So many parts and workers. Then the part that there is no memory for, and what the first worker takes first, as far as that is
/// known.
const CREWS: &[(u32, u32, Option<u32>, &[u32])] = &[
    (3, 64, None, &[]),
    (0, 3, None, &[]),
    (1024, 64, None, &[]),
    (3, 1, None, &[0, 1, 2]),
    (3, 2, Some(1), &[]),
];

#[test]
fn crews(rt: HostRuntime) -> Result<(), Fail> {
    assert!(rt; format!(in rt.alloc(); "{NoMemory}")?.as_str() == "no memory");
    for (count, workers, part, first) in CREWS {
        let (count, workers) = (*count, *workers);
        assert!(rt; count <= 1024 && 0 < workers && workers <= 64);
        let job = Lacking { part: *part };
        let worked = work_off(&rt, rt.alloc(), count, workers, &job, &OpenGate);
        if part.is_some() {
            assert!(rt; matches!(worked, Err(NoMemory)));
            continue;
        }
        let crew = worked?;
        let held = parts_held(rt.alloc(), &crew)?;
        assert!(rt; are_in_row(&crew.outs, 100, count) && are_in_row(&held, 0, count));
        assert!(rt; crew.shares.len() == workers as usize && crew.shares[0].starts_with(first));
    }
    Ok(())
}

/// The next answer of a taker that is not `Lost`, of at most 1,000, and its share after that. On one thread a steal may lose only
/// to a step of its own past.
fn settled(takers: &mut [Taker], who: usize) -> Option<(Taken, &[u32])> {
    let taker = takers.get_mut(who)?;
    for _ in 0..1000 {
        match taker.next_part() {
            Taken::Lost => {}
            taken => return Some((taken, taker.share())),
        }
    }
    None
}

/// Whose turn it is, what it takes, and its share after that.
type Turn = (usize, Taken, &'static [u32]);

/// So many parts and workers, and their turns.
const LINES: &[(u32, u32, &[Turn])] = &[
    (
        3,
        2,
        &[
            (0, Taken::Part(0), &[0]),
            (1, Taken::Part(1), &[1]),
            (0, Taken::Part(2), &[0, 2]),
            (0, Taken::Nothing, &[0, 2]),
            (1, Taken::Nothing, &[1]),
        ],
    ),
    (0, 2, &[(0, Taken::Nothing, &[]), (1, Taken::Nothing, &[])]),
    (
        2,
        1,
        &[
            (0, Taken::Part(0), &[0]),
            (0, Taken::Part(1), &[0, 1]),
            (0, Taken::Nothing, &[0, 1]),
        ],
    ),
];

#[test]
fn takers_in_turn(rt: HostRuntime) -> Result<(), Fail> {
    for (count, workers, turns) in LINES {
        let (count, workers) = (*count, *workers);
        assert!(rt; count <= 1024 && 0 < workers && workers <= 64);
        let mut takers = line_up(rt.alloc(), count, workers)?;
        assert!(rt; takers.len() == workers as usize);
        for (who, taken, share) in turns.iter() {
            assert!(rt; settled(&mut takers, *who) == Some((*taken, *share)));
        }
    }
    Ok(())
}
