//! Where the first half of a split stands.

/// The verb to do next, or how it has ended. The numbers that go with it stand in the starter.
#[derive(Clone, Copy, Debug, PartialEq, Eq)]
pub enum BeginAt {
    /// Swap the lock from 0.
    Lock,
    /// Read the table's header.
    Header,
    /// Read the next word of the node.
    Read,
    /// Swap it, so that the words of a table are taken.
    Take,
    /// Give the lock back: the table has another depth, or the greatest.
    UnlockChanged,
    /// Give the lock back: no node has the words.
    UnlockFull,
    /// Give the lock back: as many swaps were lost as might be.
    UnlockSpent,
    /// Write the child's birth, header, lock, and a bucket header.
    Birth,
    ChildHeader,
    ChildLock,
    Bucket,
    /// Swap the child word of the depth from 0 to the child.
    Link,
    /// Swap a bucket header of the table to splitting.
    Begin,
    /// Swap the table's header to splitting.
    Open,
    /// The split is open.
    Begun,
    Changed,
    Locked,
    Spent,
    FullWords,
}
