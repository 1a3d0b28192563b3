//! The global depth and the directory, behind the words of all tables.
ghost use Rattle.std.specs.Prelude.{◌≡◌, ◌≢◌, ℕ, ◌%◌, ◌<◌, ◌≤◌, ◌^◌, ◌↔◌, IsTrue, IfOk, MatchOption, List};
ghost use Rattle.key_hash.specs.Placing.{Pairs};
ghost use Rattle.image_laws.specs.Walk.{WalkWord, last_words};
ghost use Rattle.image_laws.specs.Sound.{DirectoryRule, Rule};
ghost use Rattle.image_audit.specs.Breaks.{AllMeet, Breaks};
ghost use Rattle.image_audit.specs.Kept.{Indexes, IndexesAll, setting_of};

use crate::memory::Memory;
use image_laws::ImageTable;
use std::alloc::{AllocError, Global};
use std::collections::BTreeMap;

/// The tables by their addresses.
pub(crate) fn index(
    alloc: Global,
    tables: &[ImageTable],
) -> Result<BTreeMap<u64, ImageTable>, AllocError>
    ensures { IfOk result (λ index. Indexes index tables.now) }
{
    let mut index = BTreeMap::new(alloc);
    for table in tables {
        index.insert(table.at, *table)?;
    }
    Ok(index)
}

/// Whether a directory index is not below 2^depth.
fn is_high(depth: u32, j: u64) -> bool
    requires { depth ≤ 16 }
    ensures { IsTrue result ↔ (2 ^ depth ≤ j) }
{
    let end: u64 = 1 << depth;
    end <= j
}

/// 2^depth.
pub(crate) fn two_to(depth: u32) -> u64
    requires { depth ≤ 16 }
    ensures { result ≡ 2 ^ depth }
{
    1 << depth
}

/// Whether a table has the suffix of a directory index.
fn has_suffix(table: &ImageTable, j: u64) -> bool
    requires { table.now.depth ≤ 16 }
    ensures { IsTrue result ↔ (j % 2 ^ table.now.depth ≡ table.now.suffix) }
{
    j % (1 << table.depth) == u64::from(table.suffix)
}

/// Whether directory word `j` meets its rule, where the global depth meets its own.
fn is_named<M: Memory>(memory: &M, index: &BTreeMap<u64, ImageTable>, depth: u32, j: u64) -> bool
    requires depth { depth ≡ M.words memory.now 1 }
    requires low { depth ≤ 16 }
    requires place { j < 2 ^ 16 }
    requires index { IndexesAll (M.shape memory.now) (M.words memory.now) index.now }
    ensures { IsTrue result ↔ DirectoryRule (M.shape memory.now) (M.words memory.now) j }
{
    let word = memory.word(2 + j);
    if word == 0 {
        return is_high(depth, j);
    }
    match index.get(&word) {
        Some(table) => has_suffix(table, j),
        None => false,
    }
}

/// Walks the global depth and the directory, behind the words of all tables: None where each meets its rule, else the address
/// of the first that does not.
pub(crate) fn walk_directory<M: Memory>(
    memory: &M,
    index: &BTreeMap<u64, ImageTable>,
) -> Option<u64>
    requires index { IndexesAll (M.shape memory.now) (M.words memory.now) index.now }
    ensures { (listed : Pairs) (before : List WalkWord) → MatchOption result
        (AllMeet (Rule (setting_of (M.shape memory.now) listed) (M.words memory.now)) before (last_words (2 ^ (M.shape memory.now).max_depth)))
        (λ at. Breaks (Rule (setting_of (M.shape memory.now) listed) (M.words memory.now)) before (last_words (2 ^ (M.shape memory.now).max_depth)) at) }
{
    let geometry = memory.geometry();
    let depth = memory.word(1);
    if depth < u64::from(geometry.first_depth) {
        return Some(1);
    }
    if depth > u64::from(geometry.max_depth) {
        return Some(1);
    }
    let count = two_to(geometry.max_depth);
    for j in 0..count {
        let fine = is_named(memory, index, depth as u32, j);
        if !fine {
            return Some(2 + j);
        }
    }
    None
}
