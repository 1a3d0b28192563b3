//! The lines of a play by a schedule.
//!
//! A play leaves the records of the answered calls, in the order in which they were answered, and for each client whether a
//! call is unfinished. Its report has the calls client by client. The crate stands on `map_model` (records) and
//! `play_report` (lines). The rules stand in docs/SCRIPTS.md, "The report".
#![tactic(auto)]

mod lines;

pub use lines::play_lines;
