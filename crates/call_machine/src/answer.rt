//! What a call answers.

use map_model::Reply;

/// What a call answers: the reply, and the blocks that it is of. For a change these are the block before and after, 0 for none.
/// For Found and Exists both are the block that was read. Else both are 0.
#[derive(Clone, Copy, Debug, PartialEq, Eq)]
pub struct Answer {
    pub reply: Reply,
    pub from: u64,
    pub to: u64,
}
