//! What an insert tells in the end.

use block_taking::Area;
use map_model::Nexts;
use scan_pass::{Held, Passed};

/// What an insert answers.
#[derive(Clone, Copy, Debug)]
pub enum InsertOutcome {
    /// The pair was inserted, with its block at this address.
    Inserted { at: u64 },
    /// A live word or an answering copy of the key was read.
    Exists(Held),
    /// A look ended so that no candidate of its last table is free. `kept` is the address of the block that this call has
    /// written and never placed, where there is one.
    NeedRoom { passed: Passed, kept: Option<u64> },
    /// As many counted swaps were lost as might be.
    Again,
    /// No node has `need` more words: the next word of node `i` was read as number `i` of the list.
    NoBlock { next: Nexts, need: u64 },
}

/// The answer, the table where the last pass ended, the area as it is left, and how many counted swaps were lost.
#[derive(Clone, Copy, Debug)]
pub struct InsertEnd {
    pub outcome: InsertOutcome,
    pub table: u64,
    pub area: Area,
    pub lost: u32,
}
