//! A bounded cache of blocks, by which a client reads a block again without a verb.
//!
//! A published block never changes, so a client may keep blocks by their addresses. A `BlockCache` does the client's verbs on
//! a node. At a block's first word it looks for the block: where it is kept, it becomes the most recent, and this word and the
//! block's further words are served, without a verb. Else the words are read, and after the last the block is written into the
//! least recent entry, which becomes the most recent. How many words a block has follows from the two lengths in its first word.
//! A served word is the word that stands in the client's front, so a served read stands among a call's acts as a read of that
//! moment: what `verbs::run_call` says of a call's acts, answers and log, `run_cached` says of a call through the cache. How many
//! words were served is counted up to the greatest number of 64 bits. Only `BlockCache::make` takes memory.
//! The crate stands on `verbs`, on `kv_block` for the words of blocks, and on the kit's `lru`. Its rule is written in
//! docs/PROTOCOL.md, "The block cache"; what it saves is defined in specs/Saved.antt.
#![tactic(auto)]

mod cache;
mod driver;
mod laws;
mod reading;
mod recent;

pub use cache::BlockCache;
pub use driver::{advance_cached, run_cached};
pub use laws::{law_reads_done, law_saved};
pub use reading::Reading;
pub use recent::KeptBlock;

#[cfg(test)]
mod tests;
