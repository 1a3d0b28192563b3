//! Where a pass stands.

/// The act to do next, or how the pass has ended. The numbers that go with it stand in the scan.
#[derive(Clone, Copy, Debug, PartialEq, Eq)]
pub enum At {
    /// Read the global depth.
    Depth,
    /// Read the directory word at `next`.
    Directory,
    /// Read the header of the table at `next`.
    Header,
    /// Read the birth of the table that the pass opened with, which is filling.
    Parent,
    /// Read the birth of the table at `next`, which is to be searched first.
    Birth,
    /// Read the candidate of number `index`.
    Slot,
    /// Read the word at `next` of the block of `word`; `more` words come after it.
    Block,
    /// Swap `word` to 0.
    Drop,
    /// Read the key's header.
    KeyHeader,
    /// Read the child word of `level`.
    Child,
    /// The pass has ended: `word` holds the key.
    Held,
    /// The pass has ended: no word holds the key.
    Clear,
    /// The pass has ended: the key has left the table of the own slot.
    Gone,
    /// The pass has ended: as many drops were lost as might be.
    Spent,
}
