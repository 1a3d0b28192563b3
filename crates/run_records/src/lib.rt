//! The records of a run on threads, which its lines and the changes of its log determine.
//!
//! A run on threads keeps no log, and its lines carry no points. What its clients had seen is known of each call alone: how many
//! changes its client had seen before and after it, and which changes were the client's. `specs/Lines.antt` says what is known of
//! a call, and which records the lines have by the definition: each with the least bounds that the client's own lines show. That
//! these records exist, that there are no others, and that they stand in a legal history are laws (docs/LAWS.md); the functions
//! that have them as their contracts do nothing. The crate stands on `map_model` alone.
#![tactic(auto)]

mod laws;

pub use laws::{law_records_exist, law_records_one, law_records_stand};
