//! Birth words: how deep a table was made, for which suffix and from which table.
ghost use Rattle.std.specs.Prelude.{◌≡◌, ◌^◌, ◌<◌, ◌≤◌, IfSome};
ghost use Rattle.slot_word.specs.declared.births.Birth.{Birth};
ghost use Rattle.slot_word.specs.Births.{IsBirth, birth_of, birth_word as word_of_birth};

/// Where a table came from: its depth when it was made, 0 to 16, the bits of a hash that its keys have in
/// common, below 2^depth, and the address of its parent, below 2^40, or 0 where it is a first table.
#[derive(Clone, Copy, Debug, PartialEq, Eq)]
pub struct Birth {
    /// The depth when the table was made.
    pub depth: u32,
    /// The lowest `depth` bits of the hash of each key.
    pub suffix: u64,
    /// The address of the table that it was split from, or 0.
    pub parent: u64,
}

/// The greatest depth of a table.
const GREATEST_DEPTH: u64 = 16;

/// The word of a birth: bits 7..0 the depth, bits 23..8 the suffix, bits 63..24 the address of the parent.
#[tactic(auto, unfolding(crate::specs::Births::birth_word))]
pub fn birth_word(birth: &Birth) -> u64
    requires depth { birth.now.depth ≤ 16 }
    requires suffix { birth.now.suffix < 2 ^ birth.now.depth }
    requires parent { birth.now.parent < 2 ^ 40 }
    ensures word { result ≡ word_of_birth birth.now }
    ensures back { birth_of result ≡ Some birth.now }
{
    (birth.parent << 24) + (birth.suffix << 8) + birth.depth as u64
}

/// The birth that a word packs. None comes exactly where the word is not the word of a birth: its depth is
/// above 16, or its suffix is not below 2^depth.
#[tactic(auto, unfolding(crate::specs::Births::birth_of))]
pub fn read_birth(word: u64) -> Option<Birth>
    ensures value { result ≡ birth_of word }
    ensures packed { IfSome result (λ birth. IsBirth birth × (word_of_birth birth ≡ word)) }
    ensures each { (birth : Birth) → IsBirth birth → word_of_birth birth ≡ word → result ≡ Some birth }
{
    let depth = word % 256;
    let suffix = (word >> 8) % 65536;
    if depth > GREATEST_DEPTH || suffix >= 1 << depth {
        return None;
    }
    Some(Birth {
        depth: depth as u32,
        suffix,
        parent: word >> 24,
    })
}
