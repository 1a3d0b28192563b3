//! Where a split stands.

/// The part that is under way, or the verb to do next, or how the split has ended. The numbers that go with it stand in the work.
#[derive(Clone, Copy, Debug, PartialEq, Eq)]
pub enum ResizeAt {
    /// The first half.
    Beginning,
    /// It has ended, and the split has not begun.
    NotBegun,
    /// The judging of a place.
    Moving,
    /// Swap the moved word to 0.
    Clear,
    /// Swap the table's header from splitting to the next depth.
    Finish,
    /// Swap a bucket header of the table in the same way.
    Close,
    /// The naming of the child.
    Naming,
    /// Swap a bucket header of the child to plain.
    RipenBucket,
    /// Swap the child's header to plain.
    Ripen,
    /// Give the table's lock back.
    UnlockTable,
    /// Give the child's lock back.
    UnlockChild,
    /// The table is split.
    Split,
    /// As many swaps were lost as might be, and the split is open.
    HeldUp,
}
