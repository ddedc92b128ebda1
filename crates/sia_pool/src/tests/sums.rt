// A job of another kind, which uses the pool through its contract alone: no file of proofs speaks of it.
ghost use Rattle.std.specs.Prelude.{◌≡◌, ℕ, ◌+◌, ◌*◌, ◌<◌, ◌≤◌, ◌^◌, length, sum, slice_range, slice_index_or, IfOk};

use crate::{Job, NoMemory, OpenGate, work_off};
use std::alloc::Global;
use std::sync::Wait;
use std::test::*;
use std::thread::Threads;

/// Part k is the 8 numbers from place 8 * k on, of a list that is lent.
#[derive(Drop)]
struct Totals<'a> {
    numbers: &'a [u32],
}

impl Job for Totals<'_> {
    type Out = u64;

    ghost takes = { λ job part. 8 * part + 8 ≤ length job.numbers.now };

    ghost owes = { λ job part out. out ≡ sum (slice_range job.numbers.now (8 * part) (8 * part + 8)) };

    fn run(&self, part: u32) -> Result<u64, NoMemory> {
        let from = 8 * part as usize;
        Ok(sum_of(&self.numbers[from..from + 8]))
    }
}

fn sum_of(numbers: &[u32]) -> u64
    requires { length numbers.now < 2 ^ 32 }
    ensures { result ≡ sum numbers.now }
{
    numbers.iter().map(|&n| u64::from(n)).sum()
}

/// The sums of each 8 numbers, by up to four workers.
fn sums<R: Threads + Wait + Sync>(
    rt: &R,
    alloc: Global,
    numbers: &[u32],
    parts: u32,
) -> Result<Vec<u64>, NoMemory>
    requires { (parts ≤ 1024) × (length numbers.now ≡ 8 * parts) }
    ensures len { IfOk result (λ v. length v.items ≡ parts) }
    ensures each { IfOk result (λ v. (k : ℕ) (d : _) → k < parts → slice_index_or v.items k d ≡ sum (slice_range numbers.now (8 * k) (8 * k + 8))) }
{
    let crew = work_off(rt, alloc, parts, 4, &Totals { numbers }, &OpenGate)?;
    Ok(crew.outs)
}

#[test]
fn sums_of_a_lent_list(rt: HostRuntime) -> Result<(), Fail> {
    let numbers = [
        0, 1, 2, 3, 4, 5, 6, 7, 8, 9, 10, 11, 12, 13, 14, 15, 16, 17, 18, 19, 20, 21, 22, 23,
    ];
    let totals = sums(&rt, rt.alloc(), &numbers, 3)?;
    assert!(rt; totals.as_slice() == [28, 92, 156].as_slice());
    Ok(())
}
