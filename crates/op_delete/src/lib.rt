//! The delete of a key, as a text, as a law and as a machine.
//!
//! A delete looks for the key, makes a copy live, and swaps the live word to 0; where a counted swap is lost it starts again,
//! while swaps may still be lost. What it does stands in specs/Text.antt as a program; `DeleteOp` plays it over a work area of its
//! own, `At` over one that the operations of a client share; neither takes memory. On each legal log on which the look may begin it is safe as a call: none of its entries but the last, the
//! Remove, changes the map, and its answer has its cause (specs/Law.antt; docs/LAWS.md, "What a delete shows"). The crate
//! stands on `scan_pass` for the look and on `call_laws` for what a Settle and a Remove do. Its rule is written in
//! docs/PROTOCOL.md, "The calls".
#![tactic(auto)]

mod acts;
mod at;
mod delete;
mod end;
mod laws;
mod steps;
#[cfg(test)]
mod tests;

pub use at::At;
pub use delete::DeleteOp;
pub use end::{DeleteEnd, DeleteOutcome};
pub use laws::law_delete_safe;
