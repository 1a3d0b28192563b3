//! Where the judging of a place stands.

/// The act to do next, or how the place is left. The numbers that go with it stand in the mover.
#[derive(Clone, Copy, Debug, PartialEq, Eq)]
pub enum MoveAt {
    /// Read the place of the table.
    Read,
    /// Read the next word of the slot's block; `more` words come after it.
    Block,
    /// Ask for the hash of the block's key.
    Ask,
    /// Swap the copy that stands to 0; then the place is done.
    Uncopy,
    /// Swap the copy that stands to 0; then drop the word.
    UncopyFirst,
    /// Swap the pending word to 0.
    Drop,
    /// Swap the place of the child from what stands there to a copy.
    Copy,
    /// Read the place of the table again.
    Reread,
    /// Swap the word to its moved form.
    Flip,
    /// Swap the copy to live.
    Settle,
    /// The place is done.
    Done,
    /// The moved word stands in the table.
    Moved,
    /// As many swaps were lost as might be.
    Spent,
}
