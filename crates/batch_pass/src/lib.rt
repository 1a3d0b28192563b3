//! The posted look down the chain of one key, as a machine of which several reads may be outstanding.
//!
//! What a posted look does stands in `post_text`, sentence by sentence; a `BatchPass` means what is left of that text, and takes
//! no memory. Its reads are kept in the order of posting, each with its word once it is done (`Outstanding`); when none waits,
//! `At` says what follows their words. What it remembers it writes in place: `Task` has the key with its candidates, `Scan` what
//! was read so far. This crate stands on `post_text`, and on `post_laws` for what the look shows. Its rule is written in
//! docs/PROTOCOL.md, "Posted reads".
#![tactic(auto)]

mod at;
mod batch;
mod outstanding;
mod readings;
mod scan;
mod steps;
mod task;

pub use batch::BatchPass;
pub use pass_text::{Held, PassEnd, Passed};
