//! What a split is started with, and what is known of it once it has begun.

use node_words::Geometry;

/// What a split is started with: the sizes of the memory, the client's number, the address of the table, its depth by the last
/// header read, and its suffix, which is the lowest `depth` bits of the key's hash.
#[derive(Clone, Copy, Debug)]
pub struct SplitJob {
    pub geometry: Geometry,
    pub client: u32,
    pub table: u64,
    pub depth: u32,
    pub suffix: u64,
}

/// A split that has begun: the table and its depth before the split, the child, and the suffix of the keys that leave for it.
#[derive(Clone, Copy, Debug)]
pub struct Site {
    pub table: u64,
    pub depth: u32,
    pub child: u64,
    pub suffix: u64,
}

/// An open split, from its first Begin to its last Unlock, as a client keeps it between calls: `word` of slot number `slot` of
/// the table is to be judged, beside the copy word that the split left in the child there (0 where it left none); the slots of
/// higher numbers follow.
#[derive(Clone, Copy, Debug)]
pub struct Ticket {
    pub geometry: Geometry,
    pub client: u32,
    pub site: Site,
    pub slot: u32,
    pub word: u64,
    pub copy: u64,
}
