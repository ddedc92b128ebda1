// That several threads run, which no contract says: workers that wait for one another at the gate.
use crate::tests::rows::Plus;
use crate::{Gate, Taker, work_off};
use std::sync::atomic::{AtomicU64, Ordering};
use std::test::*;
use std::thread::sleep;
use std::time::Duration;

/// After so many milliseconds a part gives up waiting for the others, and the test fails. The threads of a busy machine may
/// start late, so that is long.
const PATIENCE: u32 = 40_000;

/// A flag for each part below 8. A part that is held waits until it has seen all flags.
#[derive(Drop)]
struct Meeting<'a> {
    clock: &'a HostRuntime,
    flags: AtomicU64,
    seen: AtomicU64,
    all: u64,
    held: u64,
}

impl Gate for Meeting<'_> {
    fn pass(&self, _worker: u32, part: u32, _taker: &Taker) {
        if part >= 8 {
            return;
        }
        let flag = 1u64 << part;
        self.flags.fetch_or(flag, Ordering::SeqCst);
        if self.held & flag == 0 {
            self.seen.fetch_or(flag, Ordering::SeqCst);
            return;
        }
        for _ in 0..PATIENCE {
            if self.flags.load(Ordering::SeqCst) == self.all {
                self.seen.fetch_or(flag, Ordering::SeqCst);
                return;
            }
            sleep(self.clock, Duration::from_millis(1));
        }
    }
}

/// So many parts and workers, the flags of all parts, and those of the parts that are held. Then the answers, and how many parts
/// each worker takes, or 0 where that is not known.
const MEETINGS: &[(u32, u32, u64, u64, &[u32], usize)] = &[
    (2, 2, 0b11, 0b11, &[100, 101], 1),
    (4, 4, 0b1111, 0b1111, &[100, 101, 102, 103], 1),
    (3, 2, 0b111, 0b001, &[100, 101, 102], 0),
    (3, 2, 0b111, 0b010, &[100, 101, 102], 0),
    (3, 2, 0b111, 0b100, &[100, 101, 102], 0),
];

#[test]
fn workers_meet(rt: HostRuntime) -> Result<(), Fail> {
    for (count, workers, all, held, outs, each) in MEETINGS {
        let (count, workers) = (*count, *workers);
        assert!(rt; count <= 1024 && 0 < workers && workers <= 64);
        let gate = Meeting {
            clock: &rt,
            flags: AtomicU64::new(0),
            seen: AtomicU64::new(0),
            all: *all,
            held: *held,
        };
        let crew = work_off(&rt, rt.alloc(), count, workers, &Plus, &gate)?;
        assert!(rt; gate.seen.load(Ordering::SeqCst) == *all, "held {held}");
        assert!(rt; crew.outs.as_slice() == *outs);
        for share in &crew.shares {
            assert!(rt; *each == 0 || share.len() == *each);
        }
    }
    Ok(())
}
