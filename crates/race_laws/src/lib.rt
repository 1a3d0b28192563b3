//! What makes a log of verbs legal, the seven laws that every legal log keeps, and that there are legal logs.
//!
//! A log is legal where each entry has a kind and meets the row of its kind: a Commit follows a sweep, a Flip a copy,
//! a Finish clear places, and so on. The definitions stand in specs/, from chains to legal logs, each with its sentence;
//! the laws are public functions with an empty body whose contract states the law over every legal log. They stand over the
//! definitions alone, so worlds use them on their log and running clients on what they have seen. The crate stands on
//! `verb_log`, `key_hash`, `bucket_group` and `map_model`. Its rules are written in docs/DEFINITIONS.md, its laws with the
//! ideas of their proofs in docs/LAWS.md.
#![tactic(auto)]

mod area;
mod laws;
mod leaving;
#[cfg(test)]
mod tests;

pub use area::Area;
pub use laws::{
    law_absence, law_clear_places, law_commit, law_finality, law_first_insert, law_holder_place,
    law_one_holder, law_presence,
};
pub use leaving::leaves;
