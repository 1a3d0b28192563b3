//! The split of a table, as machines: `ResizeOp` the whole, `BeginOp` and `MoveOp` its two halves.
//!
//! Each plays its text of `split_text` in place, verb by verb, and takes no memory. On each legal log on which it may begin its
//! entries are legal, and its end says what was done or why not (`move_laws`, `begin_laws`, `split_laws`).
#![tactic(auto)]

mod begin_at;
mod begin_op;
mod begin_steps;
mod move_at;
mod move_op;
mod move_steps;
mod mover;
mod resize_at;
mod resize_op;
mod resize_steps;
mod sites;
mod starter;
mod work;

pub use begin_op::BeginOp;
pub use move_op::MoveOp;
pub use resize_op::ResizeOp;
