//! Naming a child in the directory, as a text, as a law and as a machine.
//!
//! When a split has moved its keys, the directory is doubled where the parent was as deep as it, and then names the child at
//! each index with the child's suffix. What is done stands in specs/Text.antt as a program, in the order of the sentences of
//! docs/PROTOCOL.md, "Naming a child"; it is total, and ends within so many verbs whatever is answered (specs/Bound.antt).
//! `NameOp` plays it in place and takes no memory. On each legal log on which it may begin its entries are legal, and at its
//! end the child is named (specs/Law.antt; docs/LAWS.md, "What naming shows"). The crate stands on `log_facts` for the
//! directory of a legal log, on `pass_laws` for safe programs, and on `verbs`.
#![tactic(auto)]

mod at;
mod laws;
mod name_op;
mod naming;
mod progress;
mod steps;
#[cfg(test)]
mod tests;

pub use laws::law_naming_safe;
pub use name_op::NameOp;
pub use naming::{Named, Naming};
