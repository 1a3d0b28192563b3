//! Tests of takings and of inserts, on a memory of few words, while others write between the verbs. They stand in a crate of their own,
//! so that the crates which they test are not proved twice at each change.
#![tactic(auto)]

#[cfg(test)]
mod tests;
