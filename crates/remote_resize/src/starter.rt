//! What the first half of a split remembers.
ghost use Rattle.std.specs.Prelude.{◌≡◌};

/// The node that is tried, what was read of each node, the child, and the bucket header that is written or begun.
#[derive(Clone, Copy, Debug)]
pub struct Starter {
    /// How many swaps may still be lost.
    pub left: u32,
    /// The node that is tried, and how many come after it.
    pub node: u32,
    pub more: u32,
    /// The next word of the node, as it was read or found last.
    pub next: u64,
    /// By the numbers of the nodes that were tried, the last number read of each.
    pub nexts: [u64; 8],
    /// The address of the child.
    pub child: u64,
    /// The number of the bucket header, and how many come after it.
    pub index: u32,
    pub after: u32,
}

impl Starter {
    /// Nothing is done yet.
    pub fn new(left: u32) -> Starter
        ensures left { result.left ≡ left }
    {
        Starter {
            left,
            node: 0,
            more: 0,
            next: 0,
            nexts: [0; 8],
            child: 0,
            index: 0,
            after: 0,
        }
    }
}
