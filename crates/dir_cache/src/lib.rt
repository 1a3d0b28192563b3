//! The cached directory of a client: for each index below 2^max_depth the table where a pass ended last, or nothing.
//!
//! An entry is a hint. It is set where a pass has ended, and forgotten where a split has changed its table; a pass that
//! begins at it finds its key as one that begins in the directory does. This crate stands on `node_words` for the sizes
//! of a memory. Its rule is written in docs/PROTOCOL.md, "The pass" and "The split".
#![tactic(auto)]

mod cache;
#[cfg(test)]
mod tests;

pub use cache::DirCache;
