//! The words with which a memory opens.
ghost use Rattle.std.specs.Prelude.{◌≡◌, ◌<◌, ◌+◌, ◌*◌, ◌^◌, ◌-◌, ◌/◌};
ghost use Rattle.node_words.specs.Addresses.{table_words, first_table};
ghost use Rattle.node_words.specs.Roles.{offset_role, outer_role};
ghost use Rattle.node_words.specs.Opening.{opening_word, role_word};

use crate::geometry::{Geometry, two_to};
use crate::region::Region;

impl Geometry {
    /// The word that stands at an address below `words` before the first change. The next word of node 0
    /// is the first free address and that of node k above 0 its second word; the global depth is the first
    /// depth; directory word j below 2^first_depth names first table j; first table j has birth
    /// (first_depth, j, 0) and, as each of its bucket headers, header (first_depth, plain); all other words
    /// are 0.
    pub fn opening_word(&self, at: u64) -> u64
        requires { at < self.now.words }
        ensures { result ≡ opening_word self.now at }
    {
        let tables = self.first_table_at();
        if at < tables || self.first_free() <= at {
            return self.word_outside(at);
        }
        let words = self.table_words();
        self.word_inside((at - tables) / words, (at - tables) % words)
    }

    /// The opening word of an address below `words` that stands in no first table.
    #[tactic(auto, using(std::proofs::lemmas::Bool::Decides::nat_tests, crate::proofs::OpeningWords::words_outside))]
    fn word_outside(&self, at: u64) -> u64
        requires { at < self.now.words }
        ensures { result ≡ role_word self.now (outer_role self.now at) }
    {
        match self.region_of(at) {
            Region::Next(0) => self.first_free(),
            Region::Next(_) => at + 1,
            Region::Depth => u64::from(self.first_depth),
            Region::Directory(index) if index < two_to(self.first_depth) => self.first_table(index),
            Region::Directory(_) | Region::Heap => 0,
        }
    }

    /// The opening word of first table `index` at an offset in it.
    #[tactic(auto, using(std::proofs::lemmas::Bool::Decides::nat_tests, crate::proofs::OpeningWords::word_birth), unfolding(crate::specs::Roles::offset_role))]
    fn word_inside(&self, index: u64, offset: u64) -> u64
        requires index { index < 2 ^ self.now.first_depth }
        requires offset { offset < table_words self.now }
        ensures { result ≡ role_word self.now (offset_role (first_table self.now index) offset) }
    {
        let depth = u64::from(self.first_depth);
        match offset {
            0 => depth + 256 * index,
            1 => depth + 256,
            2..20 => 0,
            _ if (offset - 20) % 8 == 0 && (offset - 20) % 24 != 8 => depth + 256,
            _ => 0,
        }
    }
}
