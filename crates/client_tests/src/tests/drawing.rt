//! The keys, their hashes and the calls of each client.

use key_hash::{Listed, mix_word};
use kv_block::{Key, Value};
use map_model::Call;
use std::alloc::{AllocError, Global};

/// How many keys there are.
pub const KEYS: u64 = 64;

/// A key: two digits.
pub fn key_at(number: u64) -> Option<Key> {
    let tens = b'0' + (number / 10 % 10) as u8;
    let ones = b'0' + (number % 10) as u8;
    Key::from_bytes(&[tens, ones])
}

/// The hashes of all keys: three fingerprints, and depth bits that differ.
pub fn hashes(alloc: Global) -> Result<Listed, AllocError> {
    let mut listed = Listed::new(alloc)?;
    for number in 0..KEYS {
        if let Some(key) = key_at(number) {
            let hash = mix_word(number) % 65_536 + (number % 3) * 72_057_594_037_927_936;
            listed.add(key, hash)?;
        }
    }
    Ok(listed)
}

/// The number of the key of a drawn number.
pub fn key_of(drawn: u64) -> u64 {
    drawn / 256 % KEYS
}

/// The call of a drawn number: of sixteen, five inserts, four updates, three deletes, three searches and a split.
pub fn call_of(drawn: u64) -> Option<Call> {
    let key = key_at(key_of(drawn))?;
    let value = Value::from_bytes(&[(drawn / 65_536 % 256) as u8])?;
    Some(match drawn % 16 {
        0..=4 => Call::Insert { key, value },
        5..=8 => Call::Update { key, value },
        9..=11 => Call::Delete { key },
        12..=14 => Call::Search { key },
        _ => Call::Resize { key },
    })
}
