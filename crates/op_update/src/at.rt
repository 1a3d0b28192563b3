//! Where an update stands. What goes with it stands in its work.

/// The places of an update.
#[derive(Clone, Copy, Debug)]
pub enum At {
    /// The look goes on.
    Looking,
    /// A block is taken for the new value.
    Taking,
    /// The word that holds the key is a copy, and is to be made live.
    Settle,
    /// The word that holds the key is live, and is to be replaced.
    Replace,
    /// It was replaced.
    Updated,
    /// No word holds the key.
    Missing,
    /// No more swaps may be lost.
    Again,
    /// No node has room for the block.
    NoBlock,
}
