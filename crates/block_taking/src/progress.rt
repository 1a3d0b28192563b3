//! What a taking remembers.

use crate::taking::Area;

/// The area, the node that is tried, what was read of each node, and the words that are written.
#[derive(Clone, Copy, Debug)]
pub struct Progress {
    pub area: Area,
    /// How many more swaps may be lost.
    pub left: u32,
    /// The node that is tried, and how many come after it.
    pub node: u32,
    pub more: u32,
    /// The next word of the node, as it was read or found last.
    pub next: u64,
    /// By the numbers of the nodes that were tried, the last number read of each.
    pub nexts: [u64; 8],
    /// The address of the block.
    pub block: u64,
    /// The number of the word that is written, and how many come after it.
    pub index: u8,
    pub after: u8,
}

impl Progress {
    ghost use Rattle.std.specs.Prelude.{◌≡◌};

    /// Nothing is taken yet.
    pub fn new(area: Area) -> Progress
        ensures area { result.area ≡ area }
        ensures left { result.left ≡ 0 }
    {
        Progress {
            area,
            left: 0,
            node: 0,
            more: 0,
            next: 0,
            nexts: [0; 8],
            block: 0,
            index: 0,
            after: 0,
        }
    }
}
