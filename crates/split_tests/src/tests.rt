//! The memory on which the splits are played, and how a machine is run while others write.
ghost use Rattle.std.specs.Prelude.{◌≡◌, IfOk};

use node_words::Geometry;
use std::alloc::Global;
use std::process::Abort;
use std::test::Fail;
use verb_log::Verb;
use verbs::{Machine, PlainNode, perform};

mod places;
mod splits;
mod tickets;

/// The first table of a memory of greatest depth 1 in one group: its header is word 5, its lock word 6, its child word 8, its bucket
/// headers words 24 and 40, its slots words 25 to 47.
const TABLE: u64 = 4;

/// Its child, which is taken at word 51: its header is word 52, its lock word 53, its bucket headers words 71 and 87, its slots words
/// 72 to 94.
const CHILD: u64 = 51;

/// A hash that leaves the table at level 0, and one that stays.
const LEAVES: u64 = 1;

const STAYS: u64 = 2;

/// The live word of a block of three words is this and its address.
const NAMES: u64 = 844_424_930_131_968;

/// The words of the block of `k` and `v` at 48, in the first slot: pending, live, as a copy and moved.
const PENDING: u64 = 914_793_674_309_680;

const LIVE: u64 = NAMES + 48;

const COPY: u64 = 985_162_418_487_344;

const MOVED: u64 = 1_055_531_162_665_008;

/// The live word of the block of `k` and `x` at 95, and its copy.
const LATER: u64 = NAMES + 95;

const LATER_COPY: u64 = 985_162_418_487_391;

/// The block of `k` and `v`, and its live word in the first slot.
const INSERTED: [(u64, u64); 5] = [(0, CHILD), (48, 65_537), (49, 107), (50, 118), (25, LIVE)];

/// A word that another client writes before the verb of a number: the number, the address and the word.
type Other = (u64, u64, u64);

// The sizes of the memory: one group, greatest depth 1, first depth 0, one node of 200 words.
fn sizes() -> Result<Geometry, Fail>
    ensures { IfOk result (λ geometry. geometry.words ≡ 200) }
{
    Ok(Geometry::check(1, 1, 0, 1, 200)?)
}

// Does the verb. None where the memory has no such address, or there is no room.
fn done(node: &mut PlainNode, verb: &Verb) -> Option<u64>
    requires { node.old.log.geometry.words ≡ 200 }
    ensures { node.new.log.geometry ≡ node.old.log.geometry }
{
    let place = match *verb {
        Verb::Read { at } => at,
        Verb::Write { at, .. } => at,
        Verb::Swap { at, .. } => at,
    };
    if node.reserve().is_err() || place >= 200 {
        return None;
    }
    Some(perform(node, verb))
}

// The opened node, with these words written: the address and the word.
fn node_with(alloc: Global, words: &[(u64, u64)]) -> Result<PlainNode, Fail>
    ensures { IfOk result (λ node. node.log.geometry.words ≡ 200) }
{
    let mut node = PlainNode::make(alloc, sizes()?)?;
    for &(at, word) in words {
        if done(&mut node, &Verb::Write { at, word }).is_none() {
            return Err("no such word".into());
        }
    }
    Ok(node)
}

// The others write what comes before the verb of this number.
fn write_before(node: &mut PlainNode, number: u64, others: &[Other]) -> Option<()>
    requires { node.old.log.geometry.words ≡ 200 }
    ensures { node.new.log.geometry ≡ node.old.log.geometry }
{
    for &(before, at, word) in others {
        if before == number {
            done(node, &Verb::Write { at, word })?;
        }
    }
    Some(())
}

// Runs the machine to its end, and tells its verbs. Each key that it asks for is `k`, whose hash is told.
fn run<M: Machine>(
    alloc: Global,
    node: &mut PlainNode,
    machine: &mut M,
    hash: u64,
    others: &[Other],
) -> Result<Vec<Verb>, Fail>
    requires { node.old.log.geometry.words ≡ 200 }
    ensures { node.new.log.geometry ≡ node.old.log.geometry }
{
    let mut verbs = Vec::new(alloc);
    for _act in 0..1000 {
        if let Some(key) = machine.asks() {
            if key.bytes() != b"k".as_slice() {
                return Err("another key".into());
            }
            machine.told(hash);
        } else {
            let Some(verb) = machine.next() else {
                return Ok(verbs);
            };
            if write_before(node, verbs.len() as u64 + 1, others).is_none() {
                return Err("no such word".into());
            }
            let found = done(node, &verb).ok_or("no such word")?;
            machine.feed(found);
            verbs.push(verb)?;
        }
    }
    Err("no end".into())
}

// What stands at an address.
fn word_at(node: &mut PlainNode, at: u64) -> Option<u64>
    requires { node.old.log.geometry.words ≡ 200 }
    ensures { node.new.log.geometry ≡ node.old.log.geometry }
{
    done(node, &Verb::Read { at })
}
