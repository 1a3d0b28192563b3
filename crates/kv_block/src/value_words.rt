//! A value by itself as words: its number of bytes, and the bytes, eight to a word.
ghost use Rattle.std.specs.Prelude.{◌≡◌, ◌+◌, ◌≤◌, ◌++◌, length, vec_len, vec_capacity};
ghost use Rattle.kv_block.specs.ValueWords.{value_words, value_told};

use crate::block::{push_words, value_in, words_for};
use crate::bytes::{VALUE_BYTES, Value};
use item_list::{word_at, words_from};

/// Appends the words of the value, for which there is room. They tell the value.
#[tactic(auto, using(crate::proofs::ValueWords::told_values))]
pub fn push_value(words: &mut Vec<u64>, value: &Value)
    requires room { vec_len words.old + 129 ≤ vec_capacity words.old }
    ensures items { words.new.items ≡ words.old.items ++ value_words value.now }
    ensures capacity { vec_capacity words.old ≤ vec_capacity words.new }
    ensures most { length (value_words value.now) ≤ 129 }
    ensures told { value_told (value_words value.now) ≡ value.now }
{
    let len = value.bytes().len();
    words.push_reserved(len as u64);
    push_words(words, value.padded(), words_for(len));
}

/// The value that the words tell; that of no byte where they are no value's.
pub fn value_of_words(words: &[u64]) -> Value
    ensures { result ≡ value_told words.now }
{
    let (len, rest) = (word_at(words, 0), words_from(words, 1));
    if len > VALUE_BYTES as u64 || rest.len() != words_for(len as usize) {
        return Value::empty();
    }
    match value_in(rest, len as usize) {
        Some(value) => value,
        None => unreachable!(),
    }
}
