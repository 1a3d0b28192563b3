//! Words of a table and blocks, as an audit reads them.
ghost use Rattle.std.specs.Prelude.{◌≡◌, ◌+◌, ◌<◌, ◌≤◌, ◌^◌, ◌↔◌, IsTrue, IfSome, IfNone, Some, take, length};
ghost use Rattle.slot_word.specs.declared.slots.Mark.TheVariants.{Live};
ghost use Rattle.slot_word.specs.Births.{birth_word as packed_birth};
ghost use Rattle.kv_block.specs.Packing.{Pair, pair_of};
ghost use Rattle.verb_log.specs.Decoded.{Body, Full, content, header};
ghost use Rattle.verb_log.specs.Contents.{body_of};
ghost use Rattle.race_laws.specs.Standing.{depth};
ghost use Rattle.image_laws.specs.Sound.{AreTaken, words_from, pair_from};
ghost use Rattle.image_audit.specs.Kept.{IsPlainWithin, IsSmall};

use crate::memory::Memory;
use image_laws::ImageTable;
use kv_block::{Key, Value, read_block};
use slot_word::{Birth, Mark, Slot, State, birth_word, read_head, read_slot};

/// The depth that a header word says, 0 where it is no header.
#[tactic(auto, unfolding(verb_log::specs::Decoded::header))]
pub(crate) fn depth_of(word: u64) -> u32
    ensures { result ≡ depth (header word) }
{
    match read_head(word) {
        Some(head) => head.depth,
        None => 0,
    }
}

/// The birth word of a table.
pub(crate) fn birth_word_of(table: &ImageTable) -> u64
    requires { IsSmall table.now }
    ensures { result ≡ packed_birth (record { depth = table.now.depth; suffix = table.now.suffix; parent = table.now.parent }) }
{
    birth_word(&Birth {
        depth: table.depth,
        suffix: u64::from(table.suffix),
        parent: table.parent,
    })
}

/// Whether a header word is plain, with a depth between two.
#[tactic(auto, unfolding(verb_log::specs::Decoded::header))]
pub(crate) fn is_plain_from(word: u64, from: u32, to: u32) -> bool
    ensures { IsTrue result ↔ IsPlainWithin from to (header word) }
{
    match read_head(word) {
        Some(head) => head.state == State::Plain && from <= head.depth && head.depth <= to,
        None => false,
    }
}

/// The block of a live slot word; None exactly where the word is no live slot word.
#[tactic(auto, using(std::proofs::lemmas::Bool::Decides::nat_tests), unfolding(verb_log::specs::Decoded::content))]
pub(crate) fn live_block(word: u64) -> Option<Slot>
    ensures some { IfSome result (λ slot. (content word ≡ Full Live (body_of slot)) × (slot.at < 2 ^ 46)) }
    ensures none { IfNone result ((b : Body) → content word ≡ Full Live b → ⊥) }
{
    if word == 0 {
        return None;
    }
    let slot = read_slot(word)?;
    if slot.mark == Mark::Live {
        Some(slot)
    } else {
        None
    }
}

/// The `count` words from an address on, behind them zeros; None exactly where one of them was not taken.
fn read_words<M: Memory>(memory: &M, at: u64, count: usize) -> Option<[u64; 256]>
    requires at { at < 2 ^ 46 }
    requires count { count ≤ 256 }
    ensures some { IfSome result (λ words. (take count words ≡ words_from (M.words memory.now) at count) × (length words ≡ 256) × AreTaken (M.shape memory.now) (M.words memory.now) at count) }
    ensures none { IfNone result (AreTaken (M.shape memory.now) (M.words memory.now) at count → ⊥) }
{
    let mut words = [0; 256];
    for i in 0..count {
        let from = at + i as u64;
        let Some(_) = memory.cell(from) else {
            return None;
        };
        words[i] = memory.word(from);
    }
    Some(words)
}

/// The pair of a block; None exactly where one of its words was not taken, or they are the block of no pair.
pub(crate) fn read_pair<M: Memory>(memory: &M, slot: &Slot) -> Option<(Key, Value)>
    requires at { slot.now.at < 2 ^ 46 }
    ensures some { IfSome result (λ p. (pair_from (M.words memory.now) (body_of slot.now) ≡ Some (pair_of p)) × AreTaken (M.shape memory.now) (M.words memory.now) slot.now.at slot.now.len) }
    ensures none { IfNone result (AreTaken (M.shape memory.now) (M.words memory.now) slot.now.at slot.now.len → (q : Pair) → pair_from (M.words memory.now) (body_of slot.now) ≡ Some q → ⊥) }
{
    let count = slot.len as usize;
    let words = read_words(memory, slot.at, count)?;
    read_block(&words[..count])
}
