//! The play of a script on threads.
//!
//! `play_threads` gives each client of the script a seat of a new memory and a worker; all work at once, each call as soon as the
//! gate lets it begin. Then one more seat meets a note of each client's seat, searches each key that the script names and reads the
//! next word of each node, which gives the map and the next words; all seats are given back and the memory is closed.
//! `specs/Played.antt` says what is then told. The crate stands on `running_play` for the workers, on `run_laws` for what is known
//! of their run, and on `play_ends` for what is told. The rule is written in docs/RUNNING.md.
#![tactic(auto)]

mod lines;
mod named;
mod play;
mod seen;

pub use play::play_threads;
