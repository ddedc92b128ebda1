//! Pivots, the least order or a cycle, and the replay of a history by an order.
#![tactic(auto)]

mod allowed;
mod cycle;
mod evidence;
mod judgement;
mod laws;
mod listed_edges;
mod neighbours;
mod order;
mod pivot;
mod serial_replay;
mod sparse;
mod ssi;
mod twos;

pub use allowed::is_allowed;
pub use cycle::{Step, Steps};
pub use evidence::Evidence;
pub use judgement::{Judgement, Verdict, danger_of, judge, settle_accesses};
pub use laws::{laws_hold, listing_law, replay_law, ssi_law};
pub use listed_edges::settle;
pub use neighbours::{Neighbour, Neighbours, Role};
pub use order::Txns;
pub use pivot::{Pivot, pivots};
pub use serial_replay::{Mismatch, ReplayFault, replay};
pub use ssi::{Dangerous, dangerous_of, passes, ssi_pass};
