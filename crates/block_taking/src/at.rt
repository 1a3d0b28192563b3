//! Where a taking stands.

/// The verb to do next, or how the taking has ended. The numbers that go with it stand in the progress.
#[derive(Clone, Copy, Debug, PartialEq, Eq)]
pub enum At {
    /// Read the next word of the node.
    Read,
    /// Swap it so that 1,024 words are taken.
    Area,
    /// Swap it so that the block alone is taken.
    Alone,
    /// Write a word of the block.
    Write,
    /// The block's words are the client's, and written.
    Taken,
    /// No node has room for the block.
    NoBlock,
    /// As many Takes were lost as swaps might be.
    Spent,
}
