//! The report of a play: its lines, and its text.
//!
//! The report has a line for each call of a play, the pairs of the map in the end, and counts. A line is kept as a few
//! words. The crate stands on `script_value` (the script that was played), `spelling` (words) and `map_model` (replies
//! and the map). The rules stand in docs/SCRIPTS.md, "The report".
#![tactic(auto)]

mod line_words;
mod report;

pub use report::{Line, Lines, Mode, Tag, put_end, reply_text, report_text};
