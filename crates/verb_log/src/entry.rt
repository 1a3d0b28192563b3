//! Verbs, and the entries that they leave.

/// One verb of a client, on one word.
#[derive(Clone, Copy, PartialEq, Eq, Debug)]
pub enum Verb {
    /// Answers the word that stands at `at`.
    Read { at: u64 },
    /// Puts `word` at `at`.
    Write { at: u64, word: u64 },
    /// Puts `word` at `at` exactly where `expected` stands there, and answers the word found.
    Swap { at: u64, expected: u64, word: u64 },
}

/// One write or one won swap.
#[derive(Clone, Copy, PartialEq, Eq, Debug)]
pub struct Entry {
    /// The client's number, counted from 0.
    pub client: u32,
    /// The address of the word, below the memory's words.
    pub at: u64,
    /// The word that stood there before.
    pub old: u64,
    /// The word that stands there from then on.
    pub new: u64,
}
