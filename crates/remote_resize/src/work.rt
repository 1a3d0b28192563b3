//! What a split works on.

ghost use Rattle.std.specs.Prelude.{◌<◌, ◌≤◌, ◌^◌};

use crate::begin_op::BeginOp;
use crate::move_op::MoveOp;
use directory::NameOp;
use node_words::Geometry;
use split_text::Site;

/// The parts of a split, one after another, and the numbers between them.
#[derive(Debug, Drop)]
pub struct Work {
    pub geometry: Geometry,
    pub client: u32,
    pub site: Site,
    pub begin: BeginOp,
    pub mover: MoveOp,
    pub name: NameOp,
    /// How many swaps may still be lost.
    pub left: u32,
    /// The number of the slot that is judged, and how many come after it.
    pub slot: u64,
    pub more: u64,
    /// The moved word that is cleared.
    pub word: u64,
    /// The number of the bucket header, and how many come after it.
    pub index: u32,
    pub after: u32,
    pub ghost low_table: { site.table < 2 ^ 40 },
    pub ghost low_child: { site.child < 2 ^ 40 },
    pub ghost low_depth: { site.depth ≤ 15 },
    pub ghost low_client: { client < 2 ^ 32 },
}
