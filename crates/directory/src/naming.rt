//! What a naming is started with, and what it tells in the end.

use node_words::Geometry;
use slot_word::Birth;

/// The sizes of the memory, the address of the child, and the child's birth: its depth is one more than the depth that the
/// parent had before it was split, and its suffix is that of the directory indices that may name the child.
#[derive(Clone, Copy, Debug)]
pub struct Naming {
    pub geometry: Geometry,
    pub child: u64,
    pub birth: Birth,
}

/// The child is named.
#[derive(Clone, Copy, Debug, PartialEq, Eq)]
pub struct Named {
    /// The global depth that was read last, found or set, and at most the greatest depth: the indices below 2^depth were
    /// looked at.
    pub depth: u32,
}
