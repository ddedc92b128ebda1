// Options of numbers of workers and cuts.
use crate::options::{Options, OptionsFault};
use sia_events::Key;
use sia_parts::Part;
use std::test::*;

const WHOLE: Part = Part {
    lo: 0,
    hi: Key::MAX,
};

/// A number of workers, the first cut and the one behind the last, and the options' number of workers, how many parts they
/// have, and the first of these.
const ROWS: &[(u8, Key, Key, Result<(u8, usize, Part), OptionsFault>)] = &[
    (0, 0, 0, Err(OptionsFault::Workers)),
    (65, 0, 0, Err(OptionsFault::Workers)),
    (1, 0, 0, Ok((1, 1, WHOLE))),
    (2, 0, 0, Ok((2, 1, WHOLE))),
    (64, 14, 15, Ok((64, 2, Part { lo: 0, hi: 13 }))),
    (1, 1, 1024, Ok((1, 1024, Part { lo: 0, hi: 0 }))),
    (1, 1, 1025, Err(OptionsFault::TooManyCuts)),
];

#[test]
fn workers_and_parts(rt: HostRuntime) -> Result<(), Fail> {
    for (workers, from, to, wanted) in ROWS {
        let mut cuts = Vec::new(rt.alloc());
        for cut in *from..*to {
            cuts.push(cut)?;
        }
        let made = match Options::new(rt.alloc(), *workers, cuts.as_slice()) {
            Ok(options) => Ok((
                options.workers(),
                options.parts().len(),
                options.parts().first().copied().unwrap_or(WHOLE),
            )),
            Err(fault) => Err(fault),
        };
        assert_eq!(rt; made, *wanted);
    }
    Ok(())
}
