//! What a search tells in the end.

use scan_pass::Held;

/// What a search answers.
#[derive(Clone, Copy, Debug)]
pub enum SearchOutcome {
    /// A live word or an answering copy of the key was read.
    Found(Held),
    /// None was, and by the last header the key stays.
    Missing,
}

/// The answer, and the address of the table where the look ended.
#[derive(Clone, Copy, Debug)]
pub struct SearchEnd {
    pub outcome: SearchOutcome,
    pub table: u64,
}
