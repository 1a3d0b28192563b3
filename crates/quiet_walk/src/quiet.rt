//! Whether a word of a table is quiet.
ghost use Rattle.std.specs.Prelude.{◌≡◌, ◌<◌, ◌↔◌, ◌^◌, IsTrue};
ghost use Rattle.slot_word.specs.declared.slots.Mark.{Mark as MarkKind};
ghost use Rattle.slot_word.specs.declared.slots.Mark.TheVariants.{Live};
ghost use Rattle.node_words.specs.Addresses.{table_words};
ghost use Rattle.verb_log.specs.Decoded.{Body, Full, content, header};
ghost use Rattle.race_laws.specs.Standing.{IsPlain};
ghost use Rattle.image_laws.specs.Walk.{TableWord};
ghost use Rattle.image_laws.specs.Quiet.{QuietAt};

use image_audit::Memory;
use image_laws::ImageTable;
use slot_word::{Mark, State, read_head, read_slot};

/// Whether a word is a plain header.
#[tactic(auto, unfolding(verb_log::specs::Decoded::header))]
fn is_plain(word: u64) -> bool
    ensures { IsTrue result ↔ IsPlain (header word) }
{
    match read_head(word) {
        Some(head) => head.state == State::Plain,
        None => false,
    }
}

/// Whether a mark is live.
fn is_live(mark: Mark) -> bool
    ensures { IsTrue result ↔ (mark ≡ Live) }
{
    matches!(mark, Mark::Live)
}

/// Whether a word is no slot word with a mark other than live.
#[tactic(auto, using(std::proofs::lemmas::Bool::Decides::nat_tests), unfolding(verb_log::specs::Decoded::content))]
fn is_settled(word: u64) -> bool
    ensures { IsTrue result ↔ ((m : MarkKind) (b : Body) → content word ≡ Full m b → m ≡ Live) }
{
    if word == 0 {
        return true;
    }
    match read_slot(word) {
        Some(slot) => is_live(slot.mark),
        None => true,
    }
}

/// Whether word `offset` of a table is quiet.
pub(crate) fn is_quiet<M: Memory>(memory: &M, table: &ImageTable, offset: u64) -> bool
    requires table { table.now.at < 2 ^ 24 }
    requires offset { offset < table_words (M.shape memory.now) }
    ensures { IsTrue result ↔ QuietAt (M.words memory.now) (TableWord table.now offset) }
{
    let word = memory.word(table.at + offset);
    if offset == 1 {
        return is_plain(word);
    }
    if offset == 2 {
        return word == 0;
    }
    if offset < 20 {
        return true;
    }
    let place = offset - 20;
    if place % 8 != 0 {
        return is_settled(word);
    }
    if place % 24 == 8 {
        return true;
    }
    is_plain(word)
}
