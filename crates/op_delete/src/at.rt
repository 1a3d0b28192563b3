//! Where a delete stands. What goes with it stands in its work.

/// The places of a delete.
#[derive(Clone, Copy, Debug)]
pub enum At {
    /// The look goes on.
    Looking,
    /// The word that holds the key is a copy, and is to be made live.
    Settle,
    /// The word that holds the key is live, and is to be removed.
    Remove,
    /// It was removed.
    Deleted,
    /// No word holds the key.
    Missing,
    /// No more swaps may be lost.
    Again,
}
