//! Words that a client took at once and cuts blocks from.

/// Words that one client took at once and has not yet cut: the `left` words from `at` on.
#[derive(Clone, Copy, Debug, PartialEq, Eq)]
pub struct Area {
    /// The address of the first word that is left.
    pub at: u64,
    /// How many words are left, 0 at first.
    pub left: u32,
}
