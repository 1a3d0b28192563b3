//! What a posted look reads off the words.
#![tactic(auto, unfolding(pass_text::specs::Words::address_of, pass_text::specs::Words::head_in, pass_text::specs::Words::moved_form, verb_log::specs::Decoded::birth))]

ghost use Rattle.std.specs.Prelude.{◌≡◌, ◌<◌, ◌^◌, ◌≤◌, IfSome};
ghost use Rattle.slot_word.specs.Slots.{IsSlot};
ghost use Rattle.verb_log.specs.Decoded.{birth};
ghost use Rattle.pass_text.specs.Words.{address_of, head_in, is_filling, moved_form, level_left};

use race_laws::leaves;
use slot_word::{Birth, Head, Mark, Slot, State, pack, read_birth, read_head};

/// The address that a directory word or a child word names.
pub fn address_of(word: u64) -> u64
    ensures value { result ≡ address_of word }
    ensures low { result < 2 ^ 46 }
{
    word % (1 << 46)
}

/// The header that a word packs, (0, plain) where it packs none.
pub fn head_in(word: u64) -> Head
    ensures { result ≡ head_in word }
{
    match read_head(word) {
        Some(head) => head,
        None => Head {
            depth: 0,
            state: State::Plain,
        },
    }
}

/// The birth that a word packs, (0, 0, 0) where it packs none.
pub fn birth_in(word: u64) -> Birth
    ensures value { result ≡ birth word }
    ensures depth { result.depth ≤ 16 }
    ensures parent { result.parent < 2 ^ 46 }
{
    match read_birth(word) {
        Some(birth) => birth,
        None => Birth {
            depth: 0,
            suffix: 0,
            parent: 0,
        },
    }
}

/// Whether the table of this header is filling.
pub fn is_filling(head: &Head) -> bool
    ensures { result ≡ is_filling head.now.state }
{
    matches!(head.state, State::Filling)
}

/// The moved word of the same block.
pub fn moved_form(slot: &Slot) -> u64
    requires { IsSlot slot.now }
    ensures { result ≡ moved_form slot.now }
{
    pack(&Slot {
        mark: Mark::Moved,
        fp: slot.fp,
        len: slot.len,
        at: slot.at,
    })
}

/// The level at which the key is leaving or has left a table of this birth depth, by this header.
pub fn level_left(hash: u64, birth_depth: u32, head: &Head) -> Option<u32>
    requires { birth_depth ≤ 16 }
    ensures value { result ≡ level_left hash birth_depth head.now }
    ensures low { IfSome result (λ level. level < 16) }
{
    leaves(hash, birth_depth, head)
}
