//! What a call goes by.
ghost use Rattle.std.specs.Prelude.{◌<◌, ◌^◌};

use crate::forgotten::Forgotten;
use block_taking::Area;
use kv_block::{Key, Value};
use node_words::Geometry;
use split_text::Ticket;

/// Who calls, the key with its hash and the value, no byte where the call has none; and from what the present part has
/// started, as an `Inserting` of `call_texts`. A call that inserts nothing has its area, its ticket and its swaps that may still
/// be lost there too.
#[derive(Debug, Drop)]
pub struct Task {
    pub geometry: Geometry,
    pub client: u32,
    pub tries: u32,
    pub hash: u64,
    pub key: Key,
    pub value: Value,
    pub start: Option<u64>,
    pub kept: Option<u64>,
    pub left: u32,
    pub full: Option<u64>,
    pub forgotten: Forgotten,
    pub area: Area,
    pub ticket: Option<Ticket>,
    /// The table where the last pass ended, and its depth by the last header read, where a split or a refusal comes after it.
    pub table: u64,
    pub depth: u32,
    pub ghost low: { table < 2 ^ 46 },
}
