//! The reading of a block that is under way.
use crate::recent::KeptBlock;

/// How far the reading of a block has come. `Idle`: no word of a block is awaited. `Serving`: the most recent block is
/// served, and its word at place `next` comes next. `Taking`: a block is read that is not kept; `held` has the words read,
/// and `total` is how many the block has.
#[derive(Debug, Drop)]
pub enum Reading {
    Idle,
    Serving { next: u8 },
    Taking { held: KeptBlock, total: u64 },
}
