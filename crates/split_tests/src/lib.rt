//! Tests of the split: whole splits on a memory of one node, their two halves, and tickets that are gone on with, while others write
//! between the verbs. The verbs and words are those of docs/PROTOCOL.md, "The split".
#![tactic(auto)]

#[cfg(test)]
mod tests;
