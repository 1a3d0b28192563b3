//! What the commands that play a script do before the play and after it.
//!
//! `take_script` reads a source to its end and hands out the script that its bytes spell, or else says how the command ended: the
//! source failed, memory was wanting, or the bytes are no script, and then the line of their refusal is written. `write_play` writes
//! the text that a command makes of a play. A command of this kind is a play between these two calls, and `specs/Writing.antt` says what
//! it did for any text that it makes of the play. The crate stands on `script_reader` (scripts and refusals), on `client_seat` (the
//! log of a run), and on sources and sinks. Its rule is written in docs/SCRIPTS.md, "Statuses".
#![tactic(auto)]

mod ending;
mod reading;
mod writing;

pub use ending::Ended;
pub use reading::take_script;
pub use writing::{Account, write_play};
