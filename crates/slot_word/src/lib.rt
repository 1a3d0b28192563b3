//! The packed words of a table: a slot names a block outside the table, a header says how deep the table is
//! and whether it is being split or filled, and a birth says where the table came from.
//!
//! It stands on nothing but std. Each kind of word has a writer and a reader, and a reader answers a value
//! exactly where the word is the packed form of that value. The layouts are written in docs/FORMATS.md,
//! "Slot word", "Header word" and "Birth word".
#![tactic(auto)]

mod births;
mod heads;
mod slots;
#[cfg(test)]
mod tests;

pub use births::{Birth, birth_word, read_birth};
pub use heads::{Head, State, head_word, read_head};
pub use slots::{Mark, Slot, pack, read_slot};
