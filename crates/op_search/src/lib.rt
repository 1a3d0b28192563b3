//! The search of a key, as a text, as a law and as a machine.
//!
//! A search is one look: where the look ends as Held the key is found, else it is missing. What it does stands in
//! specs/Text.antt as a program; `SearchOp` plays it over the pass that it is given, and takes no memory. On each legal log
//! on which the look may begin it is safe, and what it answers was so at positions of the search (specs/Law.antt;
//! docs/LAWS.md, "What a search shows"). The crate stands on `scan_pass` for the look and on `pass_laws` for what a look
//! shows. Its rule is written in docs/PROTOCOL.md, "The calls".
#![tactic(auto)]

mod end;
mod laws;
mod search;
#[cfg(test)]
mod tests;

pub use end::{SearchEnd, SearchOutcome};
pub use laws::law_search_safe;
pub use search::{SearchOp, search_end};
