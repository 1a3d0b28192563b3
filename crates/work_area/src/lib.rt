//! What the operations of a client work on: one pass, one block, and the numbers that go with where an operation stands.
//!
//! An operation is a small place in its text, and all that goes with the place stands here; so a client that goes from one operation
//! to the next begins it in the same memory, and no kilobyte is made, cleared or copied for a verb. One operation at a time works on
//! the area. Its users are `op_delete`, `op_update`, `op_insert` and `call_machine`.
#![tactic(auto)]

mod numbers;
mod parent_words;
mod work;

pub use numbers::{Numbers, Removal, Replacement};
pub use parent_words::ParentWords;
pub use work::Work;
