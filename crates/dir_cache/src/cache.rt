//! The entries, each in one word, and what sets and forgets them.
ghost use Rattle.std.specs.Prelude.{ℕ, ◌≡◌, ◌≢◌, ◌%◌, ◌^◌, ◌<◌, None, Some, IfOk, replicate, slice_set, map};
ghost use Rattle.dir_cache.specs.Cached.{entry_of, unless_names, entry_in};

use node_words::Geometry;
use std::alloc::{AllocError, Global};
use std::marker::Model;

/// One entry for each index below 2^max_depth: the address of a table, or unknown. It takes 8 bytes an entry, and takes
/// memory in `make` alone.
#[derive(Debug, Drop)]
pub struct DirCache {
    depth: u32,
    // An entry that names a table is the table's address plus 1, one that is unknown is 0.
    words: Vec<u64>,
}

impl Model for DirCache {
    ghost use Rattle.std.specs.Prelude.{◌≡◌, ◌≤◌, ◌^◌, length, map};
    ghost use Rattle.dir_cache.specs.Cached.{Cached, entry_in};

    ghost Value = { Cached };

    ghost view = { λ c. record { depth = c.depth; entries = map entry_in c.words.items } };

    ghost invariant = { λ c. (c.depth ≤ 16) × (length c.words.items ≡ 2 ^ c.depth) };
}

impl DirCache {
    /// The cached directory for this geometry, of which no entry is known.
    pub fn make(alloc: Global, geometry: &Geometry) -> Result<DirCache, AllocError>
        ensures depth { IfOk result (λ cache. cache.depth ≡ geometry.now.max_depth) }
        ensures unknown { IfOk result (λ cache. cache.entries ≡ replicate (2 ^ geometry.now.max_depth) None) }
        ensures each { IfOk result (λ cache. (h : ℕ) → entry_of cache h ≡ None) }
    {
        let count = entries(geometry);
        Ok(DirCache {
            depth: geometry.max_depth,
            words: vec![in alloc; 0; count]?,
        })
    }

    // The index of a hash.
    fn index(&self, hash: u64) -> usize
        ensures { result ≡ hash % 2 ^ self.now.depth }
    {
        (hash % (1 << self.depth)) as usize
    }

    /// The table that the entry of `hash mod 2^max_depth` names. None exactly where that entry is unknown.
    pub fn entry(&self, hash: u64) -> Option<u64>
        ensures { result ≡ entry_of self.now hash }
    {
        named_by(self.words[self.index(hash)])
    }

    /// The entry of `hash mod 2^max_depth`, and no other, names this table from now on. The table is an address, and so
    /// below 2^46.
    pub fn refresh(&mut self, hash: u64, table: u64)
        requires { table < 2 ^ 46 }
        ensures entries { self.new.entries ≡ slice_set self.old.entries (hash % 2 ^ self.old.depth) (Some table) }
        ensures depth { self.new.depth ≡ self.old.depth }
        ensures is { entry_of self.new hash ≡ Some table }
        ensures others { (h : ℕ) → h % 2 ^ self.old.depth ≢ hash % 2 ^ self.old.depth → entry_of self.new h ≡ entry_of self.old h }
    {
        let index = self.index(hash);
        self.words[index] = table + 1;
    }

    /// Each entry that names this table, and no other, is unknown from now on.
    pub fn forget(&mut self, table: u64)
        ensures entries { self.new.entries ≡ map (unless_names table) self.old.entries }
        ensures depth { self.new.depth ≡ self.old.depth }
        ensures each { (h : ℕ) → entry_of self.new h ≡ unless_names table (entry_of self.old h) }
    {
        forget_in(self.words.as_mut_slice(), table);
    }
}

// How many entries there are.
fn entries(geometry: &Geometry) -> usize
    ensures { result ≡ 2 ^ geometry.now.max_depth }
{
    1 << geometry.max_depth
}

// The entry that a word keeps.
fn named_by(word: u64) -> Option<u64>
    ensures { result ≡ entry_in word }
{
    if word == 0 { None } else { Some(word - 1) }
}

// Each word that names this table becomes 0.
fn forget_in(words: &mut [u64], table: u64)
    ensures { map entry_in words.new ≡ map (unless_names table) (map entry_in words.old) }
{
    for word in words.iter_mut() {
        *word = unless_named(*word, table);
    }
}

// The word, or 0 where it names this table.
fn unless_named(word: u64, table: u64) -> u64
    ensures { entry_in result ≡ unless_names table (entry_in word) }
{
    if word.wrapping_sub(1) == table {
        0
    } else {
        word
    }
}
