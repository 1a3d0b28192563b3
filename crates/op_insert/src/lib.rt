//! The insert of a key with its value, as a text, as a law and as a machine.
//!
//! An insert looks for its key, chooses a free candidate, takes a block, places it as a pending word, sweeps, and commits. What it
//! does stands in specs/Text.antt as a program, in the order of the sentences of docs/PROTOCOL.md, "The calls"; it is total, and
//! ends within so many verbs whatever is answered (specs/Bound.antt). On each legal log it is safe as a call: no verb but a last
//! Commit changes the map, and after every other end no pending word of its own stands (specs/Law.antt; docs/LAWS.md, "What an
//! insert shows"). `InsertOp` plays it over a work area of its own, `At` over one that the operations of a client share. The
//! crate stands on `work_area`, `scan_pass` and `block_taking` for the pass and the block, on `call_laws` and `pass_laws`
//! for safe calls, on `log_facts` for what a legal log shows, and on `bucket_group` for the choice.
#![tactic(auto)]

mod acts;
mod at;
mod end;
mod insert_op;
mod laws;
mod readings;
mod steps;
mod turns;

pub use at::At;
pub use end::{InsertEnd, InsertOutcome};
pub use insert_op::InsertOp;
pub use laws::law_insert_safe;
