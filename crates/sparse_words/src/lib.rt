//! The words of a large memory of which few were written.
//!
//! `SparseWords` is a list of 64-bit words, all 0 at first. It keeps them in chunks of 8,192, of which each is made at the
//! first write into it. So making a list costs no more than its chunks' places, and words that were never written take no
//! memory. A write takes none either: the chunk that it may need is made before, by `reserve`. The crate stands on no other.
#![tactic(auto)]

mod chunks;
mod words;

pub use words::SparseWords;

#[cfg(test)]
mod tests;
