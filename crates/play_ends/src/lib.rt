//! What is told at the end of a play of a script, whether it went by a schedule or on threads.
//!
//! `Played` is the lines of the calls, the map after all changes, the next word of each node, and the log. `nexts_after` tells the
//! next words that stand after a log. `specs/Settings.antt` says by what the log of a script's play is judged. The crate stands on
//! `play_report` and `map_model` for what is told, and on `client_seat` and `verb_log` for logs. The rules are written in
//! docs/SCRIPTS.md, "The report".
#![tactic(auto)]

mod ended;
mod nexts;

pub use ended::Played;
pub use nexts::{nexts_after, node_at};
