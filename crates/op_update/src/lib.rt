//! The update of a key, as a text, as a law and as a machine.
//!
//! An update looks for the key, takes a block for the new value, makes a copy live, and swaps the live word to live of the new
//! block; where a counted swap is lost it starts again with the block that it has, while swaps may still be lost. What it
//! does stands in specs/Text.antt as a program; `UpdateOp` plays it over a work area of its own, `At` over one that the
//! operations of a client share; neither takes memory. On each legal log on which the look may begin it is safe as a call: none of its entries but the last, the Replace, changes the map,
//! and its answer has its cause (specs/Law.antt; docs/LAWS.md, "What an update shows"). The crate stands on `scan_pass` for
//! the look, on `block_taking` for the block, and on `call_laws` for what a Settle and a Replace do. Its rule is written in
//! docs/PROTOCOL.md, "The calls".
#![tactic(auto)]

mod acts;
mod at;
mod end;
mod laws;
mod steps;
#[cfg(test)]
mod tests;
mod update;

pub use at::At;
pub use end::{UpdateEnd, UpdateOutcome};
pub use laws::law_update_safe;
pub use update::UpdateOp;
