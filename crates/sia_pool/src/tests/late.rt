// A worker that begins when those before it have ended, and one that begins in time.
use crate::tests::rows::Plus;
use crate::threads::work_in_time;
use crate::{OpenGate, Taken, line_up};
use std::sync::atomic::AtomicBool;
use std::test::*;

/// Whether those before the worker have ended. Then its answers, each beside its part, its share, and what the owner takes after it.
const STEALERS: &[(bool, &[(u32, u32)], &[u32], Taken)] = &[
    (true, &[], &[], Taken::Part(0)),
    (
        false,
        &[(0, 100), (1, 101), (2, 102)],
        &[0, 1, 2],
        Taken::Nothing,
    ),
];

#[test]
fn late_and_in_time(rt: HostRuntime) -> Result<(), Fail> {
    for (have_ended, answers, share, left) in STEALERS {
        let mut takers = line_up(rt.alloc(), 3, 2)?;
        let stealer = takers.pop().unwrap();
        let ended = AtomicBool::new(*have_ended);
        let worked = work_in_time(&rt, rt.alloc(), stealer, &ended, &Plus, &OpenGate)?;
        assert!(rt; worked.answers.as_slice() == *answers && worked.taker.share() == *share);
        assert!(rt; takers[0].next_part() == *left);
    }
    Ok(())
}
