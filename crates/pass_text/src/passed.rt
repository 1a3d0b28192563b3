//! How a pass ends, and what it tells of the tables that it searched.

use bucket_group::{Free, Places};
use kv_block::Value;
use slot_word::Head;

/// The word that holds the key: the address of its slot, the word, and the value in its block.
#[derive(Clone, Copy, Debug)]
pub struct Held {
    pub at: u64,
    pub word: u64,
    pub value: Value,
}

/// How a pass ends.
#[derive(Clone, Copy, Debug)]
pub enum PassEnd {
    /// A live word or an answering copy of the key was read.
    Held(Held),
    /// None was, and by the last header the key stays.
    Clear,
    /// Only of a sweep: by the key's header, read at the table with the call's own slot, the key does not stay.
    Gone,
    /// Only of a sweep: as many drops were lost as might be.
    Spent,
}

/// What a pass tells in the end.
#[derive(Clone, Copy, Debug)]
pub struct Passed {
    pub end: PassEnd,
    /// The table that was searched last.
    pub table: u64,
    /// The header that was read last.
    pub head: Head,
    /// The header of the last table that was read before any candidates. None where the pass read none of it there.
    pub opened: Option<Head>,
    /// The table that was searched before the last one. None exactly where one table was searched alone.
    pub parent: Option<u64>,
    /// Which candidates of the last table were read as 0.
    pub free: Free,
    /// The candidates of the key, the same in every table.
    pub places: Places,
    /// How many drops were lost.
    pub lost: u32,
}
