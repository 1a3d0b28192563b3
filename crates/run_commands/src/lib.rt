//! The command `run`: the script of a source, played on threads, and its report.
//!
//! `run` reads a source to its end, plays the script that its bytes spell on threads, and writes the report: the lines of the calls with
//! their blocks, the map after all changes, and the next word of each node. `specs/Runs.antt` says what such a report is: its lines are
//! of a play as `thread_play` tells it, so the replies stand in one legal history, and the log that is told is kept by the badge of the
//! memory on which the clients ran, with the trace of each. The crate stands on `thread_play` for the play, on `script_commands` for
//! what comes before it and after it, and on `play_report` for the text. Its rule is written in docs/SCRIPTS.md.
#![tactic(auto)]

mod command;

pub use command::run;
pub use thread_play::play_threads;
