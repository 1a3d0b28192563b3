//! The map as one thread sees it, and what its histories are.
//!
//! Calls and replies, the map machine that answers a call, records of answered calls with their bounds and points,
//! the history that records and changes make, and whether it is legal. Clients, words and schedules are no part of it:
//! a record says what a client asked, what it was answered and which changes it had seen.
//! The crate stands on `kv_block`, which has keys, values and changes, and on `item_list`. The rules stand in docs/DEFINITIONS.md.
#![tactic(auto)]

mod call_words;
pub mod calls;
pub mod histories;
pub mod laws;
pub mod machine;
pub mod nexts;
pub mod plans;
pub mod records;
mod reply_words;
pub mod timeline;

pub use calls::{Call, Calls, Reply};
pub use histories::{history, is_legal};
pub use kv_block::{Change, Changes};
pub use laws::{
    law_any_order, law_each_key, law_founded, law_one_more, law_order, law_points_stay,
};
pub use machine::{MapMachine, map_at};
pub use nexts::Nexts;
pub use plans::{Item, Items, Plan, Plans};
pub use records::{Record, Records};
pub use timeline::Timeline;

#[cfg(test)]
mod tests;
