//! The audit of a memory's words: whether they are sound, with the map that they hold, or else which word is the first that is
//! not as it must be.
//!
//! `audit_words` walks the tables from the first ones down, each word once, and then the directory. It reads words through the
//! trait `Memory`, so it does not know where they stand. What it answers is said by `specs/Outcome.antt` in the words of
//! `image_laws`; what it keeps on its way stands in `specs/Kept.antt`. It ends for any words: a child that stands in another
//! table, a chain of tables that runs in a circle, a block outside the words that were taken are each the first bad word. Each
//! word is looked at once, each word of a child twice more, and of a slot's block at most 255 words; what is kept is a mark for
//! each cell, an entry for each table, and for each pair its key with its slot's word. The map is made of these at the end, in an
//! order that leaves the nodes of its tree full. docs/DEFINITIONS.md ("Images") has its words.
#![tactic(auto)]

mod audit;
mod auditor;
mod entries;
mod filling;
mod homes;
mod laws;
mod memory;
mod reading;
mod regions;

pub use audit::{Audit, audit_words, first_tables};
pub use laws::law_audit_of_log;
pub use memory::Memory;
