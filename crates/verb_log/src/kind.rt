//! The kinds of entries.

/// What an entry of a log does, by the role of its word and by its old and new word.
#[derive(Clone, Copy, PartialEq, Eq, Debug)]
pub enum Kind {
    /// A taken word that is not published: any word to any word.
    Store,
    /// The next word of a node: to a greater number.
    Take,
    /// A slot: 0 to pending.
    Place,
    /// A slot: pending to 0.
    Drop,
    /// A slot: pending of a block to live of it, else equal.
    Commit,
    /// A slot: live of a block to live of another block.
    Replace,
    /// A slot: live to 0.
    Remove,
    /// A lock: 0 to one more than the client's number.
    Lock,
    /// A lock: one more than the client's number to 0.
    Unlock,
    /// A child word: 0 to an address.
    Link,
    /// The header of a bucket: plain to splitting, at one depth.
    Begin,
    /// The header of a table: plain to splitting, at one depth.
    Open,
    /// A slot: 0 or a copy to a copy.
    Copy,
    /// A slot: a copy to 0.
    Uncopy,
    /// A slot: live of a block to moved of it, else equal.
    Flip,
    /// A slot: a copy of a block to live of it, else equal.
    Settle,
    /// A slot: moved to 0.
    Clear,
    /// The header of a table: splitting to plain, at a depth one greater.
    Finish,
    /// The header of a bucket: splitting to plain, at a depth one greater.
    Close,
    /// The header of a table or of a bucket: filling to plain, at one depth.
    Ripen,
    /// A directory word: any word to an address.
    Name,
    /// The global depth: to a depth one greater.
    Deepen,
}
