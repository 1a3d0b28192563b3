//! Keys, values, changes of the map, and blocks: the words that hold a key with its value on a memory node.
//!
//! A key has 1 to 64 bytes and a value 0 to 1,024. A block is the packed form of such a pair, 2 to 137 words of 64
//! bits, and reading is exact: words are a pair's block, or no block at all. The layout stands in docs/FORMATS.md.
//! A key is also compared, and a value read, on the words alone, where nobody asks for the pair.
//! The crate stands on `item_list`, and only the list `Changes` takes memory.
#![tactic(auto)]

pub mod block;
pub mod bytes;
pub mod changes;
pub mod reading;
pub mod value_words;
pub mod words;

pub use block::{
    BLOCK_WORDS, Block, block_len, push_block, push_marked_block, read_block, write_block,
};
pub use bytes::{KEY_BYTES, Key, VALUE_BYTES, Value, padded};
pub use changes::{Change, Changes};
pub use reading::{block_key, block_value, has_key};
pub use value_words::{push_value, value_of_words};
pub use words::Words;

#[cfg(test)]
mod tests;
