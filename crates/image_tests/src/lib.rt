//! Tests of the audit of images: each rule of "sound image" and each of "well formed image" broken once, with what is told. They stand in a
//! crate of their own, so that the crates which they test are not proved twice at each change.
#![tactic(auto)]

#[cfg(test)]
mod tests;
