//! The plays of scripts, and the call that reads, plays and reports.
//!
//! `play_replay` plays a script by its schedule on a world of machines, `play_threads` on threads, and `race` is the program's call:
//! the command that its words name, the reading, the play and the writing. `replay` is the part of it that waits for nobody. The
//! crate stands on `verb_core` (worlds), on `run_commands` (the command `run`), on `storm_script` (storms), `play_lines` and
//! `play_report` (the lines and the text of a play), `script_commands` (what comes before a play and after it), `image_commands`,
//! and on sources and sinks. It names again what a store of its own needs: `Memory` with its seats, and `Client`. Its rule is
//! written in docs/SCRIPTS.md.
#![tactic(auto)]

mod command;
mod doing;
mod planning;
mod played;
mod texts;
mod top;

pub use call_machine::Answer;
pub use client_seat::{Front, Memory, Note, Seat, Seats};
pub use command::{Command, command_of};
pub use play_ends::Played;
pub use played::play_replay;
pub use run_commands::play_threads;
pub use running_client::Client;
pub use script_commands::Ended;
pub use storm_script::storm_script;
pub use top::{race, replay};
