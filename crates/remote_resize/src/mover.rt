//! What the judging of a place is started with, and what it remembers.
ghost use Rattle.std.specs.Prelude.{◌≡◌, [], false};

use kv_block::Words;
use slot_word::{Mark, Slot};
use split_text::Site;

/// The split, and the place.
#[derive(Clone, Copy, Debug)]
pub struct Place {
    pub site: Site,
    pub place: u64,
}

/// The word of the table that is judged and the copy word that stands in the child, 0 where none does.
#[derive(Debug, Drop)]
pub struct Mover {
    /// How many swaps may still be lost.
    pub left: u32,
    pub word: u64,
    pub standing: u64,
    /// Whether the word was read again after a lost Copy.
    pub again: bool,
    /// What the word packs.
    pub slot: Slot,
    /// The address of the next word of its block, how many come after it, and those that were read.
    pub next: u64,
    pub more: u64,
    pub words: Words,
}

impl Mover {
    /// Nothing is judged yet.
    pub fn new(standing: u64, left: u32) -> Mover
        ensures left { result.left ≡ left }
        ensures standing { result.standing ≡ standing }
    {
        Mover {
            left,
            word: 0,
            standing,
            again: false,
            slot: Slot {
                mark: Mark::Live,
                fp: 0,
                len: 0,
                at: 1,
            },
            next: 0,
            more: 0,
            words: Words::new(),
        }
    }
}
