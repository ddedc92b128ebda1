//! Workers that take the parts of a job from one work-stealing deque.
//!
//! `work_off` runs a job once on each part and says who took what. `line_up` gives the takers alone, for a caller with
//! threads of its own. No contract says that a second thread ran, which taker takes which part, or how long a call takes.
#![tactic(auto)]

mod fault;
mod job;
mod line;
mod owner;
mod pool;
mod rule;
mod stealer;
mod taker;
mod threads;

pub use fault::NoMemory;
pub use job::{Gate, Job, OpenGate};
pub use line::line_up;
pub use pool::{Crew, work_off};
pub use rule::laws_hold;
pub use taker::{Taken, Taker};

#[cfg(test)]
mod tests;
