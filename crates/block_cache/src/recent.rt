//! Blocks by address, the most recent first, in entries that are made at once.
ghost use Rattle.std.specs.Prelude.{◌≡◌, ◌-◌, ◌<◌, ◌≤◌, [], ◌∷◌, length, take, is_some, option_copied, Some, IfOk, OnOk};
ghost use Rattle.std.specs.Option.{option_map};
ghost use Rattle.lru.specs.LruCache.{last_entry};
ghost use Rattle.block_cache.specs.Recent.{key_of, kept, key_holding, IsPacked, first, found, to_front};

use kv_block::Words;
use lru::LruCache;
use std::alloc::{AllocError, Global};
use std::marker::Model;
use std::num::NonZeroUsize;

/// A block with its address, `at`, and its words so far as they were read.
#[derive(Debug, Drop)]
pub struct KeptBlock {
    pub at: u64,
    pub words: Words,
}

// The key of the entry that has the block at this address.
fn key_holding(entries: &LruCache<u32, Option<KeptBlock>>, block: u64) -> Option<u32>
    ensures { result ≡ key_holding block entries.now.entries }
{
    for (key, held) in entries {
        if let Some(held) = held {
            if held.at == block {
                return Some(*key);
            }
        }
    }
    None
}

// The key of the least recent entry.
fn last_key(entries: &LruCache<u32, Option<KeptBlock>>) -> Option<u32>
    ensures { result ≡ option_map key_of (last_entry entries.now.entries) }
{
    match entries.peek_lru() {
        Some((key, _)) => Some(*key),
        None => None,
    }
}

// Makes the entry that has the block at this address the most recent. False where none has it, and then nothing changes.
fn promote(entries: &mut LruCache<u32, Option<KeptBlock>>, block: u64) -> bool
    requires { IsPacked entries.old.entries }
    ensures found { result ≡ is_some (found block (kept entries.old.entries)) }
    ensures kept { kept entries.new.entries ≡ to_front block (kept entries.old.entries) }
    ensures packed { IsPacked entries.new.entries }
    ensures len { length entries.new.entries ≡ length entries.old.entries }
{
    // Its clause says that the keys are distinct.
    let _ = entries.len();
    match key_holding(entries, block) {
        Some(key) => entries.promote(&key),
        None => false,
    }
}

// Writes a block into the least recent entry, whose key is there, so that this takes no memory. It becomes the most recent.
fn put(entries: &mut LruCache<u32, Option<KeptBlock>>, held: KeptBlock)
    requires packed { IsPacked entries.old.entries }
    requires some { 1 ≤ length entries.old.entries }
    ensures kept { kept entries.new.entries ≡ held ∷ take (length entries.old.entries - 1) (kept entries.old.entries) }
    ensures packed { IsPacked entries.new.entries }
    ensures len { length entries.new.entries ≡ length entries.old.entries }
{
    let _ = entries.len();
    let Some(key) = last_key(entries) else {
        unreachable!()
    };
    let Ok(_) = entries.put(key, Some(held)) else {
        unreachable!()
    };
}

// The block of the most recent entry.
fn first(entries: &LruCache<u32, Option<KeptBlock>>) -> Option<&KeptBlock>
    requires { IsPacked entries.now.entries }
    ensures { option_copied result ≡ first (kept entries.now.entries) }
{
    match entries.peek_mru() {
        Some((_, Some(held))) => Some(held),
        Some((_, None)) => None,
        None => None,
    }
}

// Puts an entry without a block under each key from 0 to `blocks - 1`.
fn fill(entries: &mut LruCache<u32, Option<KeptBlock>>, blocks: u32) -> Result<(), AllocError>
    requires empty { entries.old.entries ≡ [] }
    requires room { entries.old.cap ≡ blocks }
    ensures kept { OnOk result (kept entries.new.entries ≡ []) }
    ensures len { OnOk result (length entries.new.entries ≡ blocks) }
{
    for key in 0..blocks {
        let Ok(_) = entries.put(key, None) else {
            return Err(AllocError);
        };
    }
    Ok(())
}

/// A bounded number of blocks, the most recent first. Only `make` takes memory.
#[derive(Drop)]
pub struct RecentBlocks {
    entries: LruCache<u32, Option<KeptBlock>>,
}

impl Model for RecentBlocks {
    ghost use Rattle.std.specs.Prelude.{◌≤◌, length};
    ghost use Rattle.block_cache.specs.Recent.{kept, IsPacked, Bounded};

    ghost Value = { Bounded };

    ghost view = { λ s. record { kept = kept s.entries.entries; blocks = length s.entries.entries } };

    ghost invariant = { λ s. IsPacked s.entries.entries × (1 ≤ length s.entries.entries) };
}

impl RecentBlocks {
    /// No block, and room for so many. It takes all memory that the blocks will need.
    pub fn make(alloc: Global, blocks: u32) -> Result<RecentBlocks, AllocError>
        requires { 1 ≤ blocks }
        ensures kept { IfOk result (λ recent. recent.kept ≡ []) }
        ensures blocks { IfOk result (λ recent. recent.blocks ≡ blocks) }
    {
        let Some(cap) = NonZeroUsize::new(blocks as usize) else {
            unreachable!()
        };
        let mut entries = LruCache::new(alloc, cap)?;
        fill(&mut entries, blocks)?;
        Ok(RecentBlocks { entries })
    }

    /// Makes the block at an address the most recent. False where it is not kept, and then nothing changes.
    pub fn promote(&mut self, block: u64) -> bool
        ensures found { result ≡ is_some (found block self.old.kept) }
        ensures kept { self.new.kept ≡ to_front block self.old.kept }
        ensures blocks { self.new.blocks ≡ self.old.blocks }
    {
        promote(&mut self.entries, block)
    }

    /// The most recent block. None where none is kept.
    pub fn first(&self) -> Option<&KeptBlock>
        ensures { option_copied result ≡ first self.now.kept }
    {
        first(&self.entries)
    }

    /// Keeps a block as the most recent. Where there are as many as may be, the least recent one is gone.
    pub fn put(&mut self, held: KeptBlock)
        ensures kept { self.new.kept ≡ held ∷ take (self.old.blocks - 1) self.old.kept }
        ensures blocks { self.new.blocks ≡ self.old.blocks }
    {
        put(&mut self.entries, held);
    }
}
