//! The posted look down the chain of one key, as a text beside that of the pass: the reads of one table are posted together,
//! and the network completes them in any order.
//!
//! `specs/Posts.antt` says what a client does of whose verbs several may be outstanding; `specs/Look.antt` is the posted look,
//! in the order of the sentences of docs/PROTOCOL.md, "Posted reads". It reads words and judges them as the pass does, and
//! ends as a pass ends: so it stands on `pass_text`. It is total, as the pass is. Two laws of it stand here, each a function
//! with an empty body: how many verbs are outstanding, and how many there are in all.
#![tactic(auto)]

mod laws;

pub use laws::{law_few_outstanding, law_look_ends};
