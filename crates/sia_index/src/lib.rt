//! What an index of a history answers: where a transaction starts and how it ends, and the versions of a key.
#![tactic(auto)]

mod index;
mod info;
pub mod keyed;
pub mod lists;
pub mod make;
pub mod minima;
mod names;
pub mod ordering;
mod positions;
mod txns;
mod versions;
mod writes;

pub use index::{Index, counted};
pub use info::{Counts, Fate, KeyVersion, Lifetime, Made, Reader, TxnInfo, WriteAt, overlap};
pub use names::Numbered;
pub use txns::txns_in_order;
