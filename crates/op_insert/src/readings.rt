//! What an insert reads off the words, and the words that it writes.

ghost use Rattle.std.specs.Prelude.{◌≡◌, ◌-◌, ◌%◌, ◌^◌, ◌<◌};
ghost use Rattle.log_facts.specs.SlotWords.{plain_of, splitting_of};
ghost use Rattle.pass_text.specs.Words.{head_in};
ghost use Rattle.op_insert.specs.Text.{is_plain_at};

use slot_word::{State, read_head};

/// The lowest bits of a hash, as many as the depth says.
#[tactic(auto, using(crate::proofs::Bits::low_all))]
pub fn low_bits(hash: u64, depth: u32) -> u64
    ensures { result ≡ hash % 2 ^ depth }
{
    if depth < 64 {
        hash % (1 << depth)
    } else {
        hash
    }
}

/// The depth of the split by which a table of this birth depth was made.
pub fn split_depth(depth: u32) -> u32
    ensures { result ≡ depth - 1 }
{
    depth.saturating_sub(1)
}

/// Whether the word packs a plain header of this depth. A word that packs none stands for (0, plain).
#[tactic(auto, unfolding(pass_text::specs::Words::head_in))]
pub fn is_plain_at(depth: u32, word: u64) -> bool
    ensures { result ≡ is_plain_at depth (head_in word) }
{
    match read_head(word) {
        Some(head) => matches!(head.state, State::Plain) && head.depth == depth,
        None => depth == 0,
    }
}

/// The word of a plain header of this depth.
#[tactic(auto, unfolding(slot_word::specs::Heads::head_word))]
pub fn plain_of(depth: u32) -> u64
    ensures { result ≡ plain_of depth }
{
    256 + u64::from(depth)
}

/// The word of a splitting header of this depth.
#[tactic(auto, unfolding(slot_word::specs::Heads::head_word))]
pub fn splitting_of(depth: u32) -> u64
    ensures { result ≡ splitting_of depth }
{
    512 + u64::from(depth)
}
