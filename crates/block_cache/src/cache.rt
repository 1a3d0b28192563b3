//! The cache that does a client's verbs, or serves them.
ghost use Rattle.std.specs.Prelude.{◌≡◌, ◌<◌, ◌≤◌, ◌^◌, [], ◌∷◌, IfOk, IfSome, Some, is_some, slice_index, true, false};
ghost use Rattle.kv_block.specs.Packing.{block_length};
ghost use Rattle.verb_log.specs.declared.entry.Verb.TheVariants.{Read};
ghost use Rattle.verbs.specs.Logs.{Begins, place_of, word};
ghost use Rattle.verbs.specs.Terms.{SeenAgain, BlocksLast, ReadsBlock, Allowed, Step, HasRoom, LeftRoom, told};
ghost use Rattle.block_cache.specs.Recent.{first, found};
ghost use Rattle.block_cache.specs.Cache.{HasWord, fronted, served, begun, taken_by, next_in, went, went_read, serves, serves_read};
ghost use Rattle.block_cache.specs.Keeps.{Keeps, ReadsIts};
ghost use Rattle.block_cache.specs.declared.reading.Reading.TheVariants.{Idle};

use crate::reading::Reading;
use crate::recent::{KeptBlock, RecentBlocks};
use kv_block::{Words, block_len};
use std::alloc::{AllocError, Global};
use std::marker::Model;
use std::mem;
use verb_log::Verb;
use verbs::{Verbs, perform};

/// The blocks that a client keeps, at most 1,024, and how many words it has served of them.
#[derive(Drop)]
pub struct BlockCache {
    recent: RecentBlocks,
    reading: Reading,
    saved: u64,
}

impl Model for BlockCache {
    ghost use Rattle.block_cache.specs.Cache.{Cache, CanGoOn};

    ghost Value = { Cache };

    ghost view = { λ c. record { kept = c.recent.kept; blocks = c.recent.blocks; reading = c.reading; saved = c.saved } };

    ghost invariant = { λ c. CanGoOn c.reading c.recent.kept };
}

impl BlockCache {
    /// A cache that may keep so many blocks, 1 to 1,024, and keeps none. It takes all the memory that the cache will need;
    /// an error where there is not so much.
    pub fn make(alloc: Global, blocks: u32) -> Result<BlockCache, AllocError>
        requires some { 1 ≤ blocks }
        requires few { blocks ≤ 1024 }
        ensures { IfOk result (λ cache. cache ≡ record { kept = []; blocks = blocks; reading = Idle; saved = 0 }) }
    {
        Ok(BlockCache {
            recent: RecentBlocks::make(alloc, blocks)?,
            reading: Reading::Idle,
            saved: 0,
        })
    }

    /// How many words were served, and at most the greatest number of 64 bits, at which it stays.
    pub fn saved(&self) -> u64
        ensures { result ≡ self.now.saved }
    {
        self.saved
    }

    /// Does or serves one verb, and answers as `verbs::perform` does: the word read, the word that a swap found, or 0 after a
    /// write. It needs what the verb needs. Where `block` is Some, the verb reads a word of the block that is published at this
    /// address. The first word of a kept block is served, and so is each further word of it that is read in order; any other verb
    /// is done. It takes no memory.
    #[tactic(auto, using(crate::proofs::KeptLemmas::served_stands))]
    pub fn perform<V: Verbs>(&mut self, node: &mut V, verb: &Verb, block: Option<u64>) -> u64
        requires place { place_of verb.now < (V.terms (V.home node.old)).geometry.words }
        requires room { HasRoom 1 (V.room node.old) }
        requires rule { Allowed (V.terms (V.home node.old)) (V.front node.old) verb.now }
        requires still { (V.terms (V.home node.old)).grows (V.front node.old) (V.front node.old) }
        requires again { SeenAgain (V.terms (V.home node.old)) }
        requires last { BlocksLast (V.terms (V.home node.old)) }
        requires keeps { Keeps (V.terms (V.home node.old)) (V.front node.old) self.old }
        requires reads { ReadsIts (V.terms (V.home node.old)) (V.front node.old) block verb.now }
        ensures step { Step (V.terms (V.home node.old)) (V.front node.old) verb.now (V.front node.new) result }
        ensures cache { self.new ≡ went self.old block verb.now result }
        ensures still { (V.terms (V.home node.new)).grows (V.front node.new) (V.front node.new) }
        ensures keeps { Keeps (V.terms (V.home node.new)) (V.front node.new) self.new }
        ensures served { serves self.old block verb.now ≡ true → node.new ≡ node.old }
        ensures stands { serves self.old block verb.now ≡ true → result ≡ word (V.terms (V.home node.old)).geometry (V.front node.old) (place_of verb.now) }
        ensures done { serves self.old block verb.now ≡ false → V.trace node.new ≡ told (V.trace node.old) ((verb.now, result) ∷ []) }
        ensures longer { Begins (V.front node.old) (V.front node.new) }
        ensures home { V.home node.new ≡ V.home node.old }
        ensures room { LeftRoom (V.room node.old) (V.room node.new) }
    {
        let Some(block) = block else {
            return perform(node, verb);
        };
        let Verb::Read { at } = *verb else {
            return perform(node, verb);
        };
        self.read(node, block, at)
    }

    // Reads a word of a block, or serves it.
    fn read<V: Verbs>(&mut self, node: &mut V, block: u64, at: u64) -> u64
        requires place { at < (V.terms (V.home node.old)).geometry.words }
        requires room { HasRoom 1 (V.room node.old) }
        requires still { (V.terms (V.home node.old)).grows (V.front node.old) (V.front node.old) }
        requires last { BlocksLast (V.terms (V.home node.old)) }
        requires keeps { Keeps (V.terms (V.home node.old)) (V.front node.old) self.old }
        requires reads { ReadsBlock (V.terms (V.home node.old)) (V.front node.old) block (Read at) }
        ensures step { Step (V.terms (V.home node.old)) (V.front node.old) (Read at) (V.front node.new) result }
        ensures cache { self.new ≡ went_read self.old block at result }
        ensures keeps { Keeps (V.terms (V.home node.new)) (V.front node.new) self.new }
        ensures served { serves_read self.old block at ≡ true → node.new ≡ node.old }
        ensures done { serves_read self.old block at ≡ false → V.trace node.new ≡ told (V.trace node.old) ((Read at, result) ∷ []) }
        ensures longer { Begins (V.front node.old) (V.front node.new) }
        ensures home { V.home node.new ≡ V.home node.old }
        ensures room { LeftRoom (V.room node.old) (V.room node.new) }
    {
        if at == block {
            if self.front(block) {
                return self.serve(0);
            }
            let word = node.read(at);
            self.begin(block, word);
            return word;
        }
        if let Some(next) = self.next_served(block, at) {
            return self.serve(next);
        }
        let word = node.read(at);
        self.take(block, at, word);
        word
    }

    // Leaves what is under way, and makes a block the most recent. False where it is not kept.
    fn front(&mut self, block: u64) -> bool
        ensures found { result ≡ is_some (found block self.old.kept) }
        ensures cache { self.new ≡ fronted self.old block }
    {
        self.reading = Reading::Idle;
        self.recent.promote(block)
    }

    // Serves the word at place `i` of the most recent block.
    fn serve(&mut self, i: u8) -> u64
        requires { HasWord i self.old.kept }
        ensures word { IfSome (first self.old.kept) (λ held. result ≡ slice_index held.words i) }
        ensures cache { self.new ≡ served self.old i }
    {
        let Some(held) = self.recent.first() else {
            unreachable!()
        };
        let len = held.words.len();
        let word = held.words.word(i);
        let more = i + 1 < len;
        self.reading = if more {
            Reading::Serving { next: i + 1 }
        } else {
            Reading::Idle
        };
        self.saved = self.saved.saturating_add(1);
        word
    }

    // The place of the word at an address, where it is the next one of the block that is being served.
    fn next_served(&self, block: u64, at: u64) -> Option<u8>
        ensures next { result ≡ next_in self.now.reading self.now.kept block at }
        ensures word { IfSome result (λ next. HasWord next self.now.kept) }
    {
        let Reading::Serving { next } = self.reading else {
            return None;
        };
        let Some(held) = self.recent.first() else {
            return None;
        };
        if held.at == block && at >= block && at - block == u64::from(next) {
            Some(next)
        } else {
            None
        }
    }

    // Takes the first word of a block, which tells the lengths of the key and of the value.
    fn begin(&mut self, block: u64, word: u64)
        requires least { 2 ≤ block_length word }
        requires most { block_length word ≤ 137 }
        ensures { self.new ≡ begun self.old block word }
    {
        let total = block_len(word);
        let mut words = Words::new();
        words.push(word);
        self.reading = Reading::Taking {
            held: KeptBlock { at: block, words },
            total,
        };
    }

    // Takes a further word of the block that is being read, and keeps the block after its last.
    fn take(&mut self, block: u64, at: u64, word: u64)
        ensures { self.new ≡ taken_by self.old self.old.reading block at word }
    {
        match mem::replace(&mut self.reading, Reading::Idle) {
            Reading::Taking { held, total } => {
                let mut held = held;
                let len = u64::from(held.words.len());
                if held.at == block && at >= block && at - block == len {
                    held.words.push(word);
                    if len + 1 == total {
                        self.recent.put(held);
                    } else {
                        self.reading = Reading::Taking { held, total };
                    }
                } else {
                    self.reading = Reading::Taking { held, total };
                }
            }
            Reading::Serving { next } => self.reading = Reading::Serving { next },
            Reading::Idle => {}
        }
    }
}
