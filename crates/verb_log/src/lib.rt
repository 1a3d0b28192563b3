//! Logs of verbs: what one verb is, the entries that the writes and won swaps of a run leave, the words after
//! a log, the kind of each entry and the changes of the map that a log makes.
//!
//! It stands on `node_words` for the words of a memory and their roles, on `slot_word` for what a slot and a
//! header pack, and on `kv_block` for blocks and changes. Its rule is written in docs/DEFINITIONS.md, "Logs".
#![tactic(auto)]

mod blocks;
mod changing;
pub mod entry;
mod index;
mod indexed;
mod judging;
pub mod kind;
mod kinds;
pub mod laws;
mod links;
mod log;
mod reach;
mod role;
mod standing;

pub use entry::{Entry, Verb};
pub use indexed::IndexedLog;
pub use kind::Kind;
pub use log::Log;

#[cfg(test)]
mod tests;
