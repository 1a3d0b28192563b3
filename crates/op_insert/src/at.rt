//! Where an insert stands.

/// The act to do next, or how the part or the insert has ended. The numbers that go with it stand in the work.
#[derive(Clone, Copy, Debug, PartialEq, Eq)]
pub enum At {
    /// The look goes on.
    Look,
    /// Read the parent's header.
    ParentHeader,
    /// Swap the parent's bucket header of number `bucket` to splitting.
    Begin,
    /// Swap the parent's header to splitting.
    Open,
    /// Read the same place of the parent.
    ParentSlot,
    /// Read the word at `next` of the block that the parent's place names; `after` words come after it.
    ParentBlock,
    /// Ask for the hash of that block's key.
    ParentHash,
    /// The block is taken and written.
    Take,
    /// Swap the slot at `own` to the pending word.
    Place,
    /// The sweep goes on.
    Sweep,
    /// Withdraw the pending word: the sweep found the key.
    WithdrawHeld,
    /// Withdraw the pending word: the key has left the table.
    WithdrawGone,
    /// Withdraw the pending word: as many swaps were lost as might be.
    WithdrawSpent,
    /// Swap the pending word to live.
    Commit,
    /// The part has ended: a counted swap was lost.
    Lost,
    /// The part has ended: the key has left the table.
    Left,
    /// The pair was inserted.
    Inserted,
    /// The key exists.
    Exists,
    /// No candidate is free.
    NeedRoom,
    /// As many swaps were lost as might be.
    Again,
    /// No node has room for the block.
    NoBlock,
    /// As many parts were begun as a legal log has at most. No insert on a legal log comes here.
    Out,
}
