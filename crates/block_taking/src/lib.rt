//! Taking a block, as a text, as a law and as a machine.
//!
//! An insert and an update write their pair into words that the client has taken: from its area, or from a node. What is done
//! stands in specs/Text.antt as a program, in the order of the sentences of docs/PROTOCOL.md, "Taking a block"; it is total, and
//! ends within so many verbs whatever is answered (specs/Bound.antt). `TakeOp` plays it in place and takes no memory. On each
//! legal log it is safe; at its end the block's words are the client's and are written, and the area is left apart from them
//! (specs/Law.antt; docs/LAWS.md, "What a taking shows"). The crate stands on `log_facts` for what a client has taken, on
//! `pass_laws` for safe programs, on `map_model` for the list of next words, and on `verbs`.
#![tactic(auto)]

mod at;
mod laws;
mod progress;
mod steps;
mod take_op;
mod taking;

pub use laws::law_taking_safe;
pub use take_op::TakeOp;
pub use taking::{Area, TakeEnd, TakeOutcome, Taking};
