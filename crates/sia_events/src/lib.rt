//! Histories of a multiversion store: their events, their text and the definitions over them.
#![tactic(auto)]

mod draft;
mod event;
mod fault;
mod finder;
mod history;
mod judge;
mod laws;
mod limits;
mod locating;
mod log;
mod mentions;
mod number;
mod own_writes;
mod reader;
mod shown;
mod token;
mod writer;

pub use event::{Anomaly, Event, Key, Listed, TxnId, Version};
pub use fault::{NoMemory, Reason, TextFault};
pub use finder::{Finder, IN_ORDER, Named};
pub use history::History;
pub use laws::laws_hold;
pub use limits::Limits;
pub use locating::{Locator, Place};
pub use log::{Log, Row, TxnEnd, TxnRow, WriteRow};
pub use reader::{TextReader, read_history};
pub use shown::push_shown;
pub use writer::{push_number, write_history};

#[cfg(test)]
mod tests;
