//! Facts of legal logs that the texts of passes, operations and splits need.
//!
//! `specs/` has what is said of a log while a client works on it: where a pass may start, what others have made of a log,
//! which entries use no lock of a client, the words that a client has taken and not yet published, the depth that passes of
//! a key have reached, and the terms of a client among others. `proofs/` has the facts, a family in each file, whose head
//! says whether they hold of every legal log, are kept by every legal entry, or only by those of other clients. Those that
//! read as theorems are public functions with an empty body. The crate stands on `race_laws`, and on `verbs` for the terms;
//! docs/LAWS.md has its facts in words.
#![tactic(auto)]

mod laws;

pub use laws::{
    law_blocks_last, law_directory_starts, law_first_table_starts, law_seen_again, law_start_lasts,
};
