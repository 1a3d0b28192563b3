//! The pass down the chain of one key, as a text: what a pass is started with, how it ends, and the program of its
//! verbs.
//!
//! The text stands in specs/Pass.antt, in the order of the sentences of docs/PROTOCOL.md, "The pass". It is total: it
//! says what is done on words that no legal log has, so that the machine that plays it needs no premise. That it ends
//! within so many verbs, whatever is answered, stands in proofs/Bounds.antt over specs/Bound.antt. This crate has data
//! and no code; it stands on `verbs` for programs, and on the crates of the words that a pass reads.
#![tactic(auto)]

mod job;
mod passed;

pub use job::{Job, Opened, PassMode};
pub use passed::{Held, PassEnd, Passed};
