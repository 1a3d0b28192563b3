//! The tables that the walk of an image comes to.

/// A table of the walk, with the birth that the way to it gives: the one of its index, or of the level of its parent's child
/// word.
#[derive(Clone, Copy, Debug, PartialEq, Eq)]
pub struct ImageTable {
    /// Its address.
    pub at: u64,
    /// Its birth depth.
    pub depth: u32,
    /// Its birth suffix, below 2^depth.
    pub suffix: u32,
    /// The address of its parent, 0 for a first table.
    pub parent: u64,
}
