//! How the first half of a split ends.

use map_model::Nexts;

/// How steps 1 to 5 of a split end.
#[derive(Clone, Copy, Debug)]
pub enum BeginOutcome {
    /// The split is open, and this is the child.
    Begun { child: u64 },
    /// The table's depth, read under the lock, was not the depth that was given, or was the greatest.
    Changed,
    /// The lock swap was lost, and swaps may still be lost.
    Locked,
    /// As many counted swaps were lost as might be.
    Spent,
    /// No node has the words of a table: the last number read of each node, in the order of nodes, and the words that a table
    /// needs.
    FullWords { next: Nexts, need: u64 },
}

/// How it ends, and how many swaps may still be lost.
#[derive(Clone, Copy, Debug)]
pub struct BeginEnd {
    pub outcome: BeginOutcome,
    pub left: u32,
}
