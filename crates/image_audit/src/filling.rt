//! The map of the pairs whose slot words an audit has kept.
ghost use Rattle.std.specs.Prelude.{◌≡◌, ℕ, ◌<◌, IfOk, OnOk, Some, slice_get, length};
ghost use Rattle.std.specs.BTreeMap.{IsOrdered, values};
ghost use Rattle.std.specs.FinMap as fin;
ghost use Rattle.kv_block.specs.Bytes.{key_cmp};
ghost use Rattle.kv_block.specs.Packing.{pair_of};
ghost use Rattle.image_audit.specs.Held.{Filled, Hold, HoldsPair, IsHeld, map_walked, place_at};

use crate::memory::Memory;
use crate::reading::{live_block, read_pair};
use kv_block::{Change, Key, Value};
use map_model::MapMachine;
use std::alloc::{AllocError, Global};
use std::collections::BTreeMap;

/// The slot words that were kept, in the order of their keys.
fn words_by_key(alloc: Global, blocks: BTreeMap<Key, u64>) -> Result<Vec<u64>, AllocError>
    ensures words { IfOk result (λ words. words.items ≡ values blocks) }
    ensures ordered { OnOk result (IsOrdered key_cmp blocks) }
{
    let words = blocks.into_values().collect(alloc)?;
    Ok(words)
}

/// The place of the word whose pair is put in this turn: first those at odd places, and then those at even ones. A tree that takes
/// every second pair in ascending order is left with nodes that are half full, and the pairs between them fill these.
fn place_at(turn: usize, count: usize) -> usize
    requires { turn < count }
    ensures place { result ≡ place_at turn count }
    ensures low { result < count }
{
    let half = count / 2;
    if turn < half {
        2 * turn + 1
    } else {
        2 * (turn - half)
    }
}

/// The pair that a slot word holds.
fn held_pair<M: Memory>(memory: &M, word: u64) -> (Key, Value)
    requires { IsHeld (M.shape memory.now) (M.words memory.now) (map_walked (M.shape memory.now) (M.words memory.now)) word }
    ensures { HoldsPair (M.shape memory.now) (M.words memory.now) word (pair_of result) }
{
    let Some(slot) = live_block(word) else {
        unreachable!()
    };
    let Some(pair) = read_pair(memory, &slot) else {
        unreachable!()
    };
    pair
}

/// Puts the pairs that these words hold into the empty map.
fn put_pairs<M: Memory>(map: &mut MapMachine, memory: &M, words: &[u64]) -> Result<(), AllocError>
    requires empty { map.old ≡ fin.empty }
    requires held { (i word : ℕ) → slice_get words.now i ≡ Some word → IsHeld (M.shape memory.now) (M.words memory.now) (map_walked (M.shape memory.now) (M.words memory.now)) word }
    ensures { OnOk result (Filled (M.shape memory.now) (M.words memory.now) (map_walked (M.shape memory.now) (M.words memory.now)) map.new words.now (length words.now)) }
{
    for turn in 0..words.len() {
        let (key, value) = held_pair(memory, words[place_at(turn, words.len())]);
        map.apply(&Change {
            key,
            value: Some(value),
        })?;
    }
    Ok(())
}

/// The map of the pairs that the kept words hold.
pub(crate) fn fill_map<M: Memory>(
    alloc: Global,
    memory: &M,
    blocks: BTreeMap<Key, u64>,
) -> Result<MapMachine, AllocError>
    requires { Hold (M.shape memory.now) (M.words memory.now) blocks (map_walked (M.shape memory.now) (M.words memory.now)) }
    ensures { IfOk result (λ map. map ≡ map_walked (M.shape memory.now) (M.words memory.now)) }
{
    let words = words_by_key(alloc, blocks)?;
    let mut map = MapMachine::new(alloc);
    put_pairs(&mut map, memory, &words)?;
    Ok(map)
}
