//! What a taking is started with, and what it tells in the end.

use kv_block::Block;
use map_model::Nexts;
use node_words::Geometry;

/// Words that a client took at once and has not yet cut: so many from an address on. At first it has none.
#[derive(Clone, Copy, Debug, PartialEq, Eq)]
pub struct Area {
    pub at: u64,
    pub left: u32,
}

/// The sizes of the memory, the number of the client, and the block whose words are to be written.
#[derive(Clone, Copy, Debug)]
pub struct Taking {
    pub geometry: Geometry,
    pub client: u32,
    pub block: Block,
}

/// How a taking ends.
#[derive(Clone, Copy, Debug, PartialEq, Eq)]
pub enum TakeOutcome {
    /// The block's words were cut from the area or taken, and written, from this address on.
    Taken { at: u64 },
    /// No node has `need` more words: the next word of node `i` was read as number `i` of the list, and `need` words more go
    /// past that node's end. A number that a lost Take found counts as read.
    NoBlock { next: Nexts, need: u64 },
    /// As many Takes were lost as swaps might be.
    Spent,
}

/// How a taking ended, the area then, and how many more swaps may be lost: 0 exactly where it is Spent, of a taking that might
/// lose one.
#[derive(Clone, Copy, Debug, PartialEq, Eq)]
pub struct TakeEnd {
    pub outcome: TakeOutcome,
    pub area: Area,
    pub left: u32,
}
