//! What a naming remembers.

/// The index whose word is read or swapped, and what was read.
#[derive(Clone, Copy, Debug, Default)]
pub struct Progress {
    /// The directory's depth, up to which the child is named.
    pub depth: u32,
    pub index: u64,
    /// How many indices come after this one.
    pub left: u64,
    /// The directory word that was read or found last.
    pub word: u64,
    /// How many words may be looked at after this one.
    pub looks: u32,
}
