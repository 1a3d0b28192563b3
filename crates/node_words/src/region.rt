//! The parts of a memory, and the part in which an address stands.
ghost use Rattle.std.specs.Prelude.{◌≡◌, ◌<◌};
ghost use Rattle.node_words.specs.Roles.{region_at, StandsIn};

use crate::geometry::Geometry;

/// The part of the memory in which an address stands. Every table, the first ones too, is a part of the
/// heap here.
#[derive(Clone, Copy, Debug, PartialEq, Eq, Hash)]
pub enum Region {
    /// The next free word of this node, which is its first word.
    Next(u32),
    /// The global depth.
    Depth,
    /// The directory word of this index.
    Directory(u64),
    /// Every other word.
    Heap,
}

impl Geometry {
    /// The region of an address below `words`, which is the only one that it stands in.
    pub fn region_of(&self, at: u64) -> Region
        requires { at < self.now.words }
        ensures region { result ≡ region_at self.now at }
        ensures stands { StandsIn self.now at result }
    {
        self.region_by_tests(at)
    }

    /// The region of an address, by tests of its number.
    #[tactic(auto, using(std::proofs::lemmas::Bool::Decides::nat_tests), unfolding(crate::specs::Roles::region_at, crate::specs::Addresses::node_size))]
    fn region_by_tests(&self, at: u64) -> Region
        requires { at < self.now.words }
        ensures { result ≡ region_at self.now at }
    {
        let node_size = self.words / u64::from(self.nodes);
        if at % node_size == 0 {
            Region::Next((at / node_size) as u32)
        } else if at == 1 {
            Region::Depth
        } else if at < self.first_table_at() {
            Region::Directory(at - 2)
        } else {
            Region::Heap
        }
    }
}
