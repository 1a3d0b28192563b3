//! The machines of a call.

use kv_block::Key;
use node_words::Geometry;
use remote_resize::ResizeOp;
use work_area::Work;

/// What the parts of a call work on: the area that the searches, deletes, updates, inserts and walks share, and the split. They are changed in
/// place, from call to call.
#[derive(Debug, Drop)]
pub struct Machines {
    pub work: Work,
    pub split: ResizeOp,
}

impl Machines {
    /// No part has begun.
    pub fn idle(geometry: Geometry, client: u32, key: &Key) -> Machines {
        Machines {
            work: Work::idle(geometry, client, key),
            split: ResizeOp::start(geometry, client, 0, 0, 0, 1),
        }
    }
}
