//! The script of a storm, and the summary of its play.
//!
//! A storm is a script whose calls and schedule are drawn from a seed. Its summary counts the replies of its play. The
//! crate stands on `key_hash` (the mixing of a draw), `script_value` (scripts) and `play_report` (the lines of a play, and
//! the last line of a report). The rules stand in docs/SCRIPTS.md, "Storm".
#![tactic(auto)]

mod draws;
mod storm;
mod summary;

pub use draws::Draws;
pub use storm::storm_script;
pub use summary::summary_text;
