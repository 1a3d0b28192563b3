//! What is told at the end of a play.

use client_seat::Front;
use map_model::{MapMachine, Nexts};
use play_report::Lines;

/// What is told of a play.
#[derive(Drop)]
pub struct Played {
    /// The answered calls and the unfinished ones, client by client.
    pub lines: Lines,
    /// The map after all changes.
    pub map: MapMachine,
    /// The next word of each node, 1 to 8 of them.
    pub next: Nexts,
    /// The log of the play.
    pub front: Front,
}
