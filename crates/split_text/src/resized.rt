//! How a split ends.

use crate::site::Ticket;
use map_model::Nexts;

/// How a split, or going on with one, ends.
#[derive(Clone, Copy, Debug)]
pub enum ResizeOutcome {
    /// The table is split, and has this depth now.
    Split { table: u64, depth: u32 },
    /// The table's depth, read under the lock, was not the depth that was given, or was the greatest.
    Changed,
    /// The lock swap was lost, and swaps may still be lost.
    Locked,
    /// As many counted swaps were lost as might be. The ticket is there exactly where the split has begun.
    Again { ticket: Option<Ticket> },
    /// No node has the words of a table: the last number read of each node, in the order of nodes, and the words that a table
    /// needs.
    FullWords { next: Nexts, need: u64 },
}

/// How it ends, and how many swaps may still be lost.
#[derive(Clone, Copy, Debug)]
pub struct ResizeEnd {
    pub outcome: ResizeOutcome,
    pub left: u32,
}
