//! The words of a script's lines: numbers, keys, values and names, each spelled in one way, read and written.
//!
//! A line is cut into its words, a word is read as a number, a hash, a key, a value or a name, or it is misspelt.
//! `Writer` writes a text, byte by byte or word by word, and `Page` one into room that was made before. The crate
//! stands on `kv_block` (keys and values) and `item_list` (texts). The rules stand in docs/SCRIPTS.md, "The script".
#![tactic(auto)]

mod name;
mod page;
mod word;
mod writer;

pub use name::{Name, is_byte_of_name};
pub use page::Page;
pub use word::{
    cut, is_plainly_spelled, one_word, read_hex_number, read_key, read_number, read_value,
    two_words,
};
pub use writer::{Text, Writer};
