//! What a pass is started with, and the header with which it opens.

use kv_block::Key;
use node_words::Geometry;
use slot_word::Head;

/// The three modes of a pass.
#[derive(Clone, Copy, Debug, PartialEq, Eq)]
pub enum PassMode {
    /// Reads the candidates of the key and looks for a live word or an answering copy of it.
    Look,
    /// Does so too, but for the slot at address `own`, which has the call's own pending word, and drops the other
    /// pending words of the key, until `left` swaps are lost. `left` is at least 1.
    Sweep { own: u64, left: u32 },
    /// Reads no candidates, and only finds the table where the chain ends.
    Walk,
}

/// What a pass is started with besides the cached table: the sizes of the memory, the key, its hash and the mode.
#[derive(Clone, Copy, Debug)]
pub struct Job {
    pub geometry: Geometry,
    pub key: Key,
    pub hash: u64,
    pub mode: PassMode,
}

/// The table that the cache or the directory named, and its header as it was read first.
#[derive(Clone, Copy, Debug)]
pub struct Opened {
    pub table: u64,
    pub head: Head,
}
