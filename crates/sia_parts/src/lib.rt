//! Parts of the keys, and what is found in a history at the keys of a part.
#![tactic(auto)]

mod accesses;
mod audit;
mod cutting;
mod edges;
mod finding;
mod ordered;
mod reads;
mod reasons;

pub use accesses::{Accesses, ByReader, RangeMiss};
pub use audit::{audit_part, find_in_part};
pub use cutting::{CutFault, Part, cut, even_cutting, one_part};
pub use edges::{EdgeTo, Edges, edges_at, first_or_end};
pub use finding::{
    BadRead, BadWrite, Edge, Findings, Gathering, Kind, PartFindings, PartFound, Unexplained,
    gather,
};
pub use ordered::Ordered;
pub use reads::{Reads, txn_of};
pub use reasons::{
    Act, FirstSight, Recorded, acts_of, anomaly_of, first_sight, loss_of, push_event, push_start,
    push_unless, push_version, reader_of_edge,
};

#[cfg(test)]
mod tests;
