//! Work on lists and blocks, for bench/lists to time.
//!
//! The program's one word names the work, and it prints the sum of what the work told: `push_calls` pushes 65,536 short calls
//! into a list, makes 20 such lists and keeps them, and `push_text` appends their text to lists of bytes; `has_key` compares
//! a key with the words of 1,024 blocks, 2,000 times over, and `read_block` reads the pair of each and compares its key. With
//! any other word, or none, it does nothing.
#![tactic(auto)]

use item_list::{List, words_from};
use kv_block::{Key, Value, has_key, read_block};
use map_model::{Call, Calls};
use std::alloc::{AllocError, Global};
use std::{env, io};

const CALLS: u64 = 65_536;

const LISTS: u64 = 20;

const BLOCKS: u64 = 1_024;

const ROUNDS: u64 = 2_000;

// A key of three bytes.
fn key_of(number: u64) -> Option<Key> {
    Key::from_bytes(&number.to_be_bytes()[5..])
}

// So many inserts of short pairs.
fn calls_of(alloc: Global, count: u64) -> Result<Calls, AllocError> {
    let mut calls = Calls::new(alloc);
    for number in 0..count {
        if let (Some(key), Some(value)) = (key_of(number), Value::from_bytes(b"1")) {
            calls.push(Call::Insert { key, value })?;
        }
    }
    Ok(calls)
}

// Their text.
fn text_of(alloc: Global, count: u64) -> Result<List<u8>, AllocError> {
    let mut text = List::new(alloc);
    for number in 0..count {
        if let (Some(key), Some(value)) = (key_of(number), Value::from_bytes(b"1")) {
            text.append(b"insert ")?;
            text.append(key.bytes())?;
            text.append(b" ")?;
            text.append(value.bytes())?;
            text.append(b"\n")?;
        }
    }
    Ok(text)
}

// How many of the blocks are of the key, by their words.
fn count_by_words(calls: &Calls, key: &Key) -> u64 {
    let mut sum = 0u64;
    for i in 0..calls.len() {
        if has_key(words_from(calls.words(i), 1), key) {
            sum = sum.wrapping_add(1);
        }
    }
    sum
}

// The same, by their pairs.
fn count_by_pairs(calls: &Calls, key: &Key) -> u64 {
    let mut sum = 0u64;
    for i in 0..calls.len() {
        if let Some((found, _)) = read_block(words_from(calls.words(i), 1)) {
            if found == *key {
                sum = sum.wrapping_add(1);
            }
        }
    }
    sum
}

// Compares the key of each block, by the words or by the pairs.
fn compare(alloc: Global, by_words: bool) -> Result<u64, AllocError> {
    let calls = calls_of(alloc, BLOCKS)?;
    let mut sum = 0u64;
    for number in 0..ROUNDS {
        if let Some(key) = key_of(number) {
            let found = if by_words {
                count_by_words(&calls, &key)
            } else {
                count_by_pairs(&calls, &key)
            };
            sum = sum.wrapping_add(found);
        }
    }
    Ok(sum)
}

// Pushes lists of calls, keeps them, and counts their calls.
fn push_calls(alloc: Global) -> Result<u64, AllocError> {
    let mut lists = Vec::new(alloc);
    for _ in 0..LISTS {
        lists.push(calls_of(alloc, CALLS)?)?;
    }
    let mut sum = 0u64;
    for list in &lists {
        sum = sum.wrapping_add(list.len() as u64);
    }
    Ok(sum)
}

// Appends texts of calls, keeps them, and counts their bytes.
fn push_text(alloc: Global) -> Result<u64, AllocError> {
    let mut texts = Vec::new(alloc);
    for _ in 0..LISTS {
        texts.push(text_of(alloc, CALLS)?)?;
    }
    let mut sum = 0u64;
    for text in &texts {
        sum = sum.wrapping_add(text.len() as u64);
    }
    Ok(sum)
}

// Does the work that the word names.
fn work(alloc: Global, word: &str) -> Result<u64, AllocError> {
    match word {
        "push_calls" => push_calls(alloc),
        "push_text" => push_text(alloc),
        "has_key" => compare(alloc, true),
        "read_block" => compare(alloc, false),
        _ => Ok(0),
    }
}

fn main(rt: HostRuntime) -> io::Result<()> {
    let args: Vec<String> = env::args(&rt)?.collect(rt.alloc())?;
    let word = match args.get(1) {
        Some(word) => word.as_str(),
        None => "",
    };
    let sum = work(rt.alloc(), word)?;
    println!(rt; "{sum}")
}
