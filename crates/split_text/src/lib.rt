//! The split of a table, as a text: what a split is started with, how its parts end, the ticket with which another call of the
//! client goes on with it, and the programs of its verbs.
//!
//! The text stands in specs/Begin.antt (up to the open split), specs/Move.antt (one place of the table) and specs/Text.antt (the
//! whole split), in the order of the sentences of docs/PROTOCOL.md, "The split". It is total: it says what is done on words that
//! no legal log has, so that the machines that play it need no premise. That each part ends within so many acts, whatever is
//! answered, stands in proofs/ over specs/Bound.antt. This crate has data and no code; it stands on `verbs` for programs, on
//! `directory` for the naming of the child, on `pass_text` for reading a block, and on the crates of the words.
#![tactic(auto)]

mod begun;
mod moved;
mod resized;
mod site;

pub use begun::{BeginEnd, BeginOutcome};
pub use moved::{MoveEnd, MoveOutcome};
pub use resized::{ResizeEnd, ResizeOutcome};
pub use site::{Site, SplitJob, Ticket};
