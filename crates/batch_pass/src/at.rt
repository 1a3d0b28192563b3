//! Where a posted look stands.

/// The reads that are outstanding, or how the look has ended. The numbers that go with it stand in the scan.
#[derive(Clone, Copy, Debug, PartialEq, Eq)]
pub enum At {
    /// The global depth.
    Depth,
    /// The directory word at `next`.
    Directory,
    /// The header of the table at `next`.
    Header,
    /// The birth of the table that the look opened with, which is filling.
    Parent,
    /// The birth of the table at `next`, which is to be searched first.
    Birth,
    /// All candidates of the table.
    Slots,
    /// The words of the block of `word`.
    Block,
    /// The key's header.
    KeyHeader,
    /// The child word of `level`.
    Child,
    /// The look has ended: `word` holds the key.
    Held,
    /// The look has ended: no word holds the key.
    Clear,
}
