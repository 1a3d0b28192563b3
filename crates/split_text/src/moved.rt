//! How the judging of one place ends.

/// How one place of the table is left.
#[derive(Clone, Copy, Debug, PartialEq, Eq)]
pub enum MoveOutcome {
    /// The last word read or found there was 0, a word of a key that is not leaving, or a pending word that was dropped.
    Done,
    /// The Flip was won, and Settle was tried: the moved word stands in the table.
    Moved,
    /// As many counted swaps were lost as might be.
    Spent,
}

/// How it is left; the word of the table that was read or found last, after a Moved the moved word; the copy word that stands in
/// the child, 0 where none does; and how many swaps may still be lost.
#[derive(Clone, Copy, Debug)]
pub struct MoveEnd {
    pub outcome: MoveOutcome,
    pub word: u64,
    pub standing: u64,
    pub left: u32,
}
