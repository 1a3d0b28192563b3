//! What an update tells in the end.

use block_taking::Area;
use map_model::Nexts;
use scan_pass::Held;

/// What an update answers.
#[derive(Clone, Copy, Debug)]
pub enum UpdateOutcome {
    /// The word was the key's holder, with the old value, and was replaced by the live word of the block at this address.
    Updated { old: Held, at: u64 },
    /// The key was looked for in vain.
    Missing,
    /// As many counted swaps were lost as might be. Nothing has changed in the map.
    Again,
    /// No node has `need` more words for the block: the next word of node `i` was read as number `i` of the list. Nothing has
    /// changed in the map.
    NoBlock { next: Nexts, need: u64 },
}

/// The answer, the address of the table where the last look ended, the area as it was left, and how many counted swaps were lost.
#[derive(Clone, Copy, Debug)]
pub struct UpdateEnd {
    pub outcome: UpdateOutcome,
    pub table: u64,
    pub area: Area,
    pub lost: u32,
}
