//! The number of each key: the hash by which it is placed.
//!
//! A key has one number. A script may list numbers for keys; every other key has the number `mixed`, which
//! is FNV-1a of 64 bits over its bytes and then five steps of mixing. The five steps also draw the numbers
//! of a storm and of posted reads. This crate stands on `kv_block` for keys. Its rule is written in
//! docs/FORMATS.md, "Hash".
#![tactic(auto)]

mod mixing;
mod placing;

pub use mixing::mix_word;
pub use placing::{Listed, Mixed, Placer};

#[cfg(test)]
mod tests;
