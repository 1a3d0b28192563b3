//! Where a naming stands.

/// The verb to do next. The numbers that go with it stand in the progress.
#[derive(Clone, Copy, Debug, PartialEq, Eq)]
pub enum At {
    /// Read the global depth.
    Depth,
    /// Read the lower word of the upper index.
    Lower,
    /// Swap the upper word from 0 to what was read.
    Upper,
    /// Swap the global depth to the next one.
    Deepen,
    /// Read the word of the index.
    Word,
    /// Read the birth of the table that the word names.
    Birth,
    /// Swap the word to the child.
    Name,
    /// The child is named.
    Done,
}
