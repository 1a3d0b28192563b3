//! What a delete tells in the end.

use scan_pass::Held;

/// What a delete answers.
#[derive(Clone, Copy, Debug)]
pub enum DeleteOutcome {
    /// The word was the key's holder, and was removed: the value is the one that the key had.
    Deleted(Held),
    /// The key was looked for in vain.
    Missing,
    /// As many counted swaps were lost as might be. Nothing has changed in the map.
    Again,
}

/// The answer, the address of the table where the last look ended, and how many counted swaps were lost.
#[derive(Clone, Copy, Debug)]
pub struct DeleteEnd {
    pub outcome: DeleteOutcome,
    pub table: u64,
    pub lost: u32,
}
