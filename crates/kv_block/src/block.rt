//! Blocks: the words that hold a key with its value.
ghost use Rattle.std.specs.Prelude.{◌≡◌, ◌≢◌, ℕ, ◌+◌, ◌*◌, ◌<◌, ◌≤◌, [], ◌∷◌, ◌++◌, take, length, slice_index, IfSome, IfNone, Some, vec_len, vec_capacity};
ghost use Rattle.std.specs.Option.{SomeIff, option_map};
ghost use Rattle.kv_block.specs.Bytes.{IsKeyLength, IsValueLength};
ghost use Rattle.kv_block.specs.Filled.{IsFilled};
ghost use Rattle.kv_block.specs.Packing.{Pair, IsPair, HasShape, pair_of, words_for, words_of, bytes_of, key_length, value_length, block_length, packed, unpacked};

use crate::bytes::{KEY_BYTES, Key, VALUE_BYTES, Value};
use byteorder::{ByteOrder, LittleEndian};
use std::marker::Model;

/// The greatest number of words of a block.
pub const BLOCK_WORDS: usize = 137;

/// A block: 2 to 137 words of 64 bits.
#[derive(Clone, Copy, Debug)]
pub struct Block {
    words: [u64; 137],
    len: u8,
}

impl Model for Block {
    ghost use Rattle.std.specs.Prelude.{ℕ, ◌≤◌, List, length, take};
    ghost use Rattle.kv_block.specs.Filled.{filled, IsFilled, length-take_filled};

    ghost Value = { List ℕ };

    ghost view = { λ b. take b.len b.words };

    ghost invariant = { λ b. (2 ≤ b.len) × IsFilled 137 b.len b.words };

    ghost inverse = { λ ws. record { words = filled 137 ws; len = length ws } };

    ghost inverse_ok = { λ b h i. record { words = h.1.rest i; len = length-take_filled 137 b.len b.words h.1 i } };
}

impl Block {
    /// How many words there are: 2 to 137.
    pub fn len(&self) -> u8
        ensures value { result ≡ length self.now }
        ensures least { 2 ≤ result }
        ensures most { result ≤ 137 }
    {
        self.len
    }

    /// The word at place `i`, counted from 0.
    pub fn word(&self, i: u8) -> u64
        requires { i < length self.now }
        ensures { result ≡ slice_index self.now i }
    {
        self.words[i as usize]
    }

    /// The words, in order.
    pub fn words(&self) -> &[u64]
        ensures { result.now ≡ self.now }
    {
        &self.words[..self.len as usize]
    }
}

// How many words hold so many bytes.
pub(crate) fn words_for(bytes: usize) -> usize
    requires { bytes ≤ 1024 }
    ensures { result ≡ words_for bytes }
{
    (bytes + 7) / 8
}

// The first word in an array of zeros.
fn begun(first: u64) -> [u64; 137]
    ensures filled { IsFilled 137 1 result }
    ensures words { take 1 result ≡ first ∷ [] }
{
    let mut words = [0; BLOCK_WORDS];
    words[0] = first;
    words
}

// Puts `count` words of the bytes behind the first `at` words of an array that zeros fill up.
fn put_words(words: &mut [u64; 137], at: usize, bytes: &[u8], count: usize)
    requires filled { IsFilled 137 at words.old }
    requires room { at + count ≤ 137 }
    requires whole { 8 * count ≤ length bytes.now }
    ensures filled { IsFilled 137 (at + count) words.new }
    ensures words { take (at + count) words.new ≡ take at words.old ++ words_of count bytes.now }
{
    LittleEndian::read_u64_into(&bytes[..8 * count], &mut words[at..at + count]);
}

/// The block of a key with its value, from which they are read back.
pub fn write_block(key: &Key, value: &Value) -> Block
    ensures words { result ≡ packed key.now value.now }
    ensures read { unpacked result ≡ Some (record { key = key.now; value = value.now }) }
    ensures pair { IsPair (record { key = key.now; value = value.now }) }
{
    let (key_len, value_len) = (key.bytes().len(), value.bytes().len());
    let (key_words, value_words) = (words_for(key_len), words_for(value_len));
    let mut words = begun(key_len as u64 + 65536 * value_len as u64);
    put_words(&mut words, 1, key.padded(), key_words);
    put_words(&mut words, 1 + key_words, value.padded(), value_words);
    Block {
        words,
        len: (1 + key_words + value_words) as u8,
    }
}

// Appends the first `count` words of the bytes.
#[tactic(auto, using(crate::proofs::WordsOfBytes::one_more))]
pub(crate) fn push_words(words: &mut Vec<u64>, bytes: &[u8], count: usize)
    requires room { vec_len words.old + count ≤ vec_capacity words.old }
    requires whole { 8 * count ≤ length bytes.now }
    ensures items { words.new.items ≡ words.old.items ++ words_of count bytes.now }
    ensures capacity { vec_capacity words.new ≡ vec_capacity words.old }
    ensures len { vec_len words.new ≡ vec_len words.old + count }
{
    for i in 0..count {
        words.push_reserved(LittleEndian::read_u64(&bytes[8 * i..8 * i + 8]));
    }
}

/// How many words a block has, by its first word.
pub fn block_len(first: u64) -> u64
    ensures { result ≡ block_length first }
{
    1 + (first % 65536 + 7) / 8 + (first / 65536 + 7) / 8
}

/// Appends the words of the block of a key with its value, for which there is room.
pub fn push_block(words: &mut Vec<u64>, key: &Key, value: &Value)
    requires room { vec_len words.old + 137 ≤ vec_capacity words.old }
    ensures items { words.new.items ≡ words.old.items ++ packed key.now value.now }
    ensures capacity { vec_capacity words.old ≤ vec_capacity words.new }
    ensures pair { IsPair (record { key = key.now; value = value.now }) }
    ensures most { length (packed key.now value.now) ≤ 137 }
{
    let (key_len, value_len) = (key.bytes().len(), value.bytes().len());
    words.push_reserved(key_len as u64 + 65536 * value_len as u64);
    push_words(words, key.padded(), words_for(key_len));
    push_words(words, value.padded(), words_for(value_len));
}

/// Appends a word, and the words of the block of a key with its value, for which there is room.
pub fn push_marked_block(words: &mut Vec<u64>, mark: u64, key: &Key, value: &Value)
    requires room { vec_len words.old + 138 ≤ vec_capacity words.old }
    ensures items { words.new.items ≡ words.old.items ++ mark ∷ packed key.now value.now }
    ensures capacity { vec_capacity words.old ≤ vec_capacity words.new }
    ensures pair { IsPair (record { key = key.now; value = value.now }) }
    ensures most { length (packed key.now value.now) ≤ 137 }
{
    words.push_reserved(mark);
    push_block(words, key, value);
}

// The key of the first `len` bytes of the words.
pub(crate) fn key_in(words: &[u64], len: usize) -> Option<Key>
    requires words { length words.now ≤ 8 }
    requires len { len ≤ 8 * length words.now }
    ensures { SomeIff result (IsKeyLength len) (take len (bytes_of words.now)) }
{
    let mut bytes = [0; KEY_BYTES];
    LittleEndian::write_u64_into(words, &mut bytes[..8 * words.len()]);
    Key::from_bytes(&bytes[..len])
}

// The value of the first `len` bytes of the words.
pub(crate) fn value_in(words: &[u64], len: usize) -> Option<Value>
    requires words { length words.now ≤ 128 }
    requires len { len ≤ 8 * length words.now }
    ensures { SomeIff result (IsValueLength len) (take len (bytes_of words.now)) }
{
    let mut bytes = [0; VALUE_BYTES];
    LittleEndian::write_u64_into(words, &mut bytes[..8 * words.len()]);
    Value::from_bytes(&bytes[..len])
}

// How many bytes the key and the value have, where the words have the shape of a block.
pub(crate) fn lengths_in(words: &[u64]) -> Option<(usize, usize)>
    ensures { SomeIff result (HasShape words.now)
        (key_length (slice_index words.now 0), value_length (slice_index words.now 0)) }
{
    if words.is_empty() {
        return None;
    }
    let (key_len, value_len) = (words[0] % 65536, words[0] / 65536);
    if key_len == 0 || key_len > 64 || value_len > 1024 {
        return None;
    }
    let (key_len, value_len) = (key_len as usize, value_len as usize);
    if words.len() == 1 + words_for(key_len) + words_for(value_len) {
        Some((key_len, value_len))
    } else {
        None
    }
}

/// The pair whose block the words are; None exactly where they are the block of no pair.
pub fn read_block(words: &[u64]) -> Option<(Key, Value)>
    ensures pair { unpacked words.now ≡ option_map pair_of result }
    ensures some { IfSome result (λ p. words.now ≡ packed p.0 p.1) }
    ensures none { IfNone result ((p : Pair) → IsPair p → words.now ≢ packed p.key p.value) }
{
    let (key_len, value_len) = lengths_in(words)?;
    let key_words = words_for(key_len);
    let key = key_in(&words[1..1 + key_words], key_len)?;
    let value = value_in(&words[1 + key_words..], value_len)?;
    let block = write_block(&key, &value);
    if block.words() == words {
        Some((key, value))
    } else {
        None
    }
}
