//! What is read of a block's words in place: whether they are of a key, and the key and the value that they tell.
ghost use Rattle.std.specs.Prelude.{◌≡◌, ℕ, ◌+◌, ◌*◌, ◌≤◌, take, length};
ghost use Rattle.kv_block.specs.Packing.{words_of};
ghost use Rattle.kv_block.specs.Reading.{has_key, block_value, block_key};

use crate::block::{key_in, lengths_in, value_in, words_for};
use crate::bytes::{Key, Value};
use byteorder::{ByteOrder, LittleEndian};

// The first words of a key.
fn key_words(key: &Key, count: usize) -> [u64; 8]
    requires { count ≤ 8 }
    ensures { take count result ≡ words_of count key.now }
{
    let mut words = [0; 8];
    LittleEndian::read_u64_into(&key.padded()[..8 * count], &mut words[..count]);
    words
}

/// Whether words that are a block are one of the key: of a pair's block, exactly where the pair has this key.
#[tactic(auto, unfolding(crate::specs::Reading::has_key))]
pub fn has_key(words: &[u64], key: &Key) -> bool
    ensures { result ≡ has_key words.now key.now }
{
    let len = key.bytes().len();
    let count = words_for(len);
    if words.len() <= count || words[0] % 65536 != len as u64 {
        return false;
    }
    let of_key = key_words(key, count);
    words[1..1 + count] == of_key[..count]
}

/// The value that a block tells: of a pair's block the pair's. Words that have no shape of a block tell the value of
/// no byte.
#[tactic(auto, unfolding(crate::specs::Reading::block_value))]
pub fn block_value(words: &[u64]) -> Value
    ensures { result ≡ block_value words.now }
{
    match lengths_in(words) {
        Some((key_len, value_len)) => match value_in(&words[1 + words_for(key_len)..], value_len) {
            Some(value) => value,
            None => unreachable!(),
        },
        None => Value::empty(),
    }
}

/// The key that a block tells: of a pair's block the pair's. Words that have no shape of a block tell the key of one
/// byte that is 0.
#[tactic(auto, unfolding(crate::specs::Reading::block_key))]
pub fn block_key(words: &[u64]) -> Key
    ensures { result ≡ block_key words.now }
{
    match lengths_in(words) {
        Some((key_len, _)) => match key_in(&words[1..1 + words_for(key_len)], key_len) {
            Some(key) => key,
            None => unreachable!(),
        },
        None => match Key::from_bytes(&[0]) {
            Some(key) => key,
            None => unreachable!(),
        },
    }
}
