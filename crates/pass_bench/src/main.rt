//! Looks, for bench/pass to time.
//!
//! The program's one word names the work, and it prints how many words the work read: `pass` does 2 million looks by a `Pass`
//! on a node, verb by verb; `node` reads the same words of the node by a plain loop, and `plain` those of a `Vec`. Of the 40 keys
//! that are looked for in turn half are in the table. With any other word, or none, it makes the table alone.
#![tactic(auto)]

ghost use Rattle.std.specs.Prelude.{◌≡◌, IfSome, IfOk};

use bucket_group::{fingerprint, places};
use key_hash::{Mixed, Placer};
use kv_block::{Key, Value, has_key, write_block};
use node_words::{Geometry, header_at, slot_at};
use scan_pass::{Pass, PassMode};
use slot_word::{Mark, Slot, pack, read_slot};
use std::alloc::{AllocError, Global};
use std::{env, io};
use verb_log::Verb;
use verbs::{Machine, PlainNode, Verbs, perform};

/// The one table: behind the next word, the depth and one directory word.
const TABLE: u64 = 3;

const WORDS: u64 = 4_096;

const ROUNDS: u64 = 50_000;

// One node, one group, and tables that never split.
fn geometry() -> Option<Geometry>
    ensures { IfSome result (λ g. g.words ≡ 4_096) }
{
    match Geometry::check(1, 0, 0, 1, WORDS) {
        Ok(geometry) => Some(geometry),
        Err(_) => None,
    }
}

// The keys that are looked for, of one byte each; those with an even number are in the table.
fn keys(alloc: Global) -> Result<Vec<Key>, AllocError> {
    let mut keys = Vec::new(alloc);
    for byte in 0..40u8 {
        if let Some(key) = Key::from_bytes(&[byte]) {
            keys.push(key)?;
        }
    }
    Ok(keys)
}

// Does the verb, where the memory has the address.
fn done(node: &mut PlainNode, verb: &Verb) -> Option<u64>
    requires { node.old.log.geometry.words ≡ 4_096 }
    ensures { node.new.log.geometry ≡ node.old.log.geometry }
{
    let place = match *verb {
        Verb::Read { at } => at,
        Verb::Write { at, .. } => at,
        Verb::Swap { at, .. } => at,
    };
    if place >= WORDS || node.reserve().is_err() {
        return None;
    }
    Some(perform(node, verb))
}

// Puts the key with an empty value into the first candidate that is free, its block at this address.
fn insert(node: &mut PlainNode, geometry: &Geometry, key: &Key, at: u64) -> Option<()>
    requires { node.old.log.geometry.words ≡ 4_096 }
    ensures { node.new.log.geometry ≡ node.old.log.geometry }
{
    if at == 0 || at >= WORDS {
        return None;
    }
    let hash = Mixed.hash(key);
    let block = write_block(key, &Value::empty());
    for i in 0..block.len() {
        let word = block.word(i);
        done(
            node,
            &Verb::Write {
                at: at + u64::from(i),
                word,
            },
        )?;
    }
    let slot = Slot {
        mark: Mark::Live,
        fp: fingerprint(hash),
        len: block.len(),
        at,
    };
    let candidates = places(geometry, hash);
    for i in 0..candidates.len() {
        let place = slot_at(TABLE, candidates.get(i));
        let found = done(
            node,
            &Verb::Swap {
                at: place,
                expected: 0,
                word: pack(&slot),
            },
        )?;
        if found == 0 {
            return Some(());
        }
    }
    None
}

// The node with every second key.
fn filled(alloc: Global, geometry: Geometry, keys: &[Key]) -> Result<PlainNode, AllocError>
    requires { geometry.words ≡ 4_096 }
    ensures { IfOk result (λ node. node.log.geometry.words ≡ 4_096) }
{
    let mut node = PlainNode::make(alloc, geometry)?;
    for (i, key) in keys.iter().enumerate() {
        if i % 2 == 0 {
            insert(&mut node, &geometry, key, 100 + 4 * i as u64);
        }
    }
    Ok(node)
}

// The word that a verb reads. None where it is no read of a word of the memory.
#[inline(always)]
fn word_read(node: &mut PlainNode, verb: &Verb) -> Option<u64>
    requires { node.old.log.geometry.words ≡ 4_096 }
    ensures { node.new.log.geometry ≡ node.old.log.geometry }
{
    match *verb {
        Verb::Read { at } if at < WORDS => {
            if node.reserve().is_err() {
                return None;
            }
            Some(node.read(at))
        }
        _ => None,
    }
}

// Runs a look, which only reads, to its end: how many verbs it had.
#[inline(always)]
fn run(node: &mut PlainNode, pass: &mut Pass) -> u64
    requires { node.old.log.geometry.words ≡ 4_096 }
    ensures { node.new.log.geometry ≡ node.old.log.geometry }
{
    for verbs in 0..10_000 {
        let Some(verb) = pass.next() else {
            return verbs;
        };
        let Some(word) = word_read(node, &verb) else {
            return verbs;
        };
        pass.feed(word);
    }
    0
}

// One look for each key.
fn pass_round(node: &mut PlainNode, geometry: Geometry, pass: &mut Pass, keys: &[Key]) -> u64
    requires { node.old.log.geometry.words ≡ 4_096 }
    ensures { node.new.log.geometry ≡ node.old.log.geometry }
{
    let mut verbs = 0u64;
    for key in keys {
        pass.begin(geometry, Some(TABLE), key, Mixed.hash(key), PassMode::Look);
        verbs = verbs.wrapping_add(run(node, pass));
    }
    verbs
}

// The word of the node at this address.
#[inline(always)]
fn node_word(node: &mut PlainNode, at: u64) -> u64
    requires { node.old.log.geometry.words ≡ 4_096 }
    ensures { node.new.log.geometry ≡ node.old.log.geometry }
{
    match word_read(node, &Verb::Read { at }) {
        Some(word) => word,
        None => 0,
    }
}

// Reads the words of a slot's block.
fn read_words(node: &mut PlainNode, slot: &Slot, words: &mut [u64])
    requires { node.old.log.geometry.words ≡ 4_096 }
    ensures { node.new.log.geometry ≡ node.old.log.geometry }
{
    let mut at = slot.at;
    for word in words.iter_mut().take(usize::from(slot.len)) {
        *word = node_word(node, at);
        at = at.wrapping_add(1);
    }
}

// A look by a plain loop over the node, with room for the words of a block: how many words it read.
fn node_look(
    node: &mut PlainNode,
    geometry: &Geometry,
    key: &Key,
    hash: u64,
    block: &mut [u64],
) -> u64
    requires { node.old.log.geometry.words ≡ 4_096 }
    ensures { node.new.log.geometry ≡ node.old.log.geometry }
{
    let print = fingerprint(hash);
    let row = places(geometry, hash).row();
    let mut reads = 1u64;
    if node_word(node, header_at(TABLE)) != 256 {
        return 0;
    }
    for place in row.iter().take(21) {
        let word = node_word(node, TABLE + 20 + u64::from(*place));
        reads = reads.wrapping_add(1);
        if word != 0 && (word >> 56) as u8 == print {
            if let Some(slot) = read_slot(word) {
                read_words(node, &slot, block);
                reads = reads.wrapping_add(u64::from(slot.len));
                if is_block_of(block, &slot, key) {
                    return reads;
                }
            }
        }
    }
    reads.wrapping_add(u64::from(node_word(node, TABLE + 19 + u64::from(row[0])) == 256))
}

// Whether the words read of a slot's block are of the key.
fn is_block_of(words: &[u64], slot: &Slot, key: &Key) -> bool {
    match words.get(0..usize::from(slot.len)) {
        Some(block) => has_key(block, key),
        None => false,
    }
}

// One plain look over the node for each key.
fn node_round(node: &mut PlainNode, geometry: &Geometry, keys: &[Key], block: &mut [u64]) -> u64
    requires { node.old.log.geometry.words ≡ 4_096 }
    ensures { node.new.log.geometry ≡ node.old.log.geometry }
{
    let mut reads = 0u64;
    for key in keys {
        reads = reads.wrapping_add(node_look(node, geometry, key, Mixed.hash(key), block));
    }
    reads
}

// All looks by plain loops over the node.
fn node_looks(node: &mut PlainNode, geometry: &Geometry, keys: &[Key], block: &mut [u64]) -> u64
    requires { node.old.log.geometry.words ≡ 4_096 }
{
    let mut reads = 0u64;
    for _ in 0..ROUNDS {
        reads = reads.wrapping_add(node_round(node, geometry, keys, block));
    }
    reads
}

// The word at this address.
fn word_at(words: &[u64], at: u64) -> u64 {
    match words.get(at as usize) {
        Some(word) => *word,
        None => 0,
    }
}

// Whether the block of a slot is of the key.
fn is_of(words: &[u64], slot: &Slot, key: &Key) -> bool {
    let from = slot.at as usize;
    match words.get(from..from.saturating_add(usize::from(slot.len))) {
        Some(block) => has_key(block, key),
        None => false,
    }
}

// A look by a plain loop: how many words it read.
fn plain_look(words: &[u64], geometry: &Geometry, key: &Key, hash: u64) -> u64 {
    let print = fingerprint(hash);
    let row = places(geometry, hash).row();
    let mut reads = 1u64;
    if word_at(words, header_at(TABLE)) != 256 {
        return 0;
    }
    for place in row.iter().take(21) {
        let word = word_at(words, TABLE + 20 + u64::from(*place));
        reads = reads.wrapping_add(1);
        if word != 0 && (word >> 56) as u8 == print {
            if let Some(slot) = read_slot(word) {
                reads = reads.wrapping_add(u64::from(slot.len));
                if is_of(words, &slot, key) {
                    return reads;
                }
            }
        }
    }
    reads.wrapping_add(u64::from(word_at(words, TABLE + 19 + u64::from(row[0])) == 256))
}

// One plain look for each key.
fn plain_round(words: &[u64], geometry: &Geometry, keys: &[Key]) -> u64 {
    let mut reads = 0u64;
    for key in keys {
        reads = reads.wrapping_add(plain_look(words, geometry, key, Mixed.hash(key)));
    }
    reads
}

// Does the work that the word names.
fn work(alloc: Global, word: &str) -> Result<u64, AllocError> {
    let Some(geometry) = geometry() else {
        return Ok(0);
    };
    let keys = keys(alloc)?;
    let Some(first) = keys.first() else {
        return Ok(0);
    };
    let mut node = filled(alloc, geometry, &keys)?;
    match word {
        "pass" => {
            let mut pass = Pass::start(geometry, None, first, 0, PassMode::Look);
            Ok(passes(&mut node, geometry, &mut pass, &keys))
        }
        "node" => {
            let mut block = vec![in alloc; 0u64; 137]?;
            Ok(node_looks(&mut node, &geometry, &keys, &mut block))
        }
        "plain" => Ok(plain_looks(&words_of(alloc, &mut node)?, &geometry, &keys)),
        _ => Ok(0),
    }
}

// The words of the node.
fn words_of(alloc: Global, node: &mut PlainNode) -> Result<Vec<u64>, AllocError>
    requires { node.old.log.geometry.words ≡ 4_096 }
{
    let mut words = Vec::new(alloc);
    for at in 0..WORDS {
        if let Some(word) = done(node, &Verb::Read { at }) {
            words.push(word)?;
        }
    }
    Ok(words)
}

// All looks by passes.
fn passes(node: &mut PlainNode, geometry: Geometry, pass: &mut Pass, keys: &[Key]) -> u64
    requires { node.old.log.geometry.words ≡ 4_096 }
{
    let mut verbs = 0u64;
    for _ in 0..ROUNDS {
        verbs = verbs.wrapping_add(pass_round(node, geometry, pass, keys));
    }
    verbs
}

// All looks by plain loops.
fn plain_looks(words: &[u64], geometry: &Geometry, keys: &[Key]) -> u64 {
    let mut reads = 0u64;
    for _ in 0..ROUNDS {
        reads = reads.wrapping_add(plain_round(words, geometry, keys));
    }
    reads
}

fn main(rt: HostRuntime) -> io::Result<()> {
    let args: Vec<String> = env::args(&rt)?.collect(rt.alloc())?;
    let word = match args.get(1) {
        Some(word) => word.as_str(),
        None => "",
    };
    let sum = work(rt.alloc(), word)?;
    println!(rt; "{sum}")
}
