//! The pass down the chain of one key, as a machine: a look, a sweep or a walk.
//!
//! What a pass does stands in `pass_text` as a program, sentence by sentence; a `Pass` means what is left of that
//! program, and takes no memory. What it remembers it writes in place: `Task` has the key with its candidates, which are
//! worked out once, `Scan` what was read so far, and `At` is where it stands, an enum without fields. The operations
//! keep one pass each and begin it again in place. This crate stands on `pass_text` and `verbs`, and on `race_laws` for
//! when a key leaves a table. Its rule is written in docs/PROTOCOL.md, "The pass".
#![tactic(auto)]

mod at;
mod block_words;
mod pass;
mod readings;
mod scan;
mod start;
mod steps;
mod task;
#[cfg(test)]
mod tests;

pub use pass::Pass;
pub use pass_text::{Held, Job, PassEnd, PassMode, Passed};
