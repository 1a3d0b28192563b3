//! An example of calls that start again, and of a call inside a call.
//!
//! Word 1 of a memory holds a depth that only rises, up to 16, and word 2 holds a mark. The call `Rise` reads the depth until it
//! reads one twice in turn, and then swaps it into word 2 where 0 stands there; a lost swap makes it start again, for so many
//! tries. It ends since each start lowers a rank: the tries and the depths that are left. The call `Twice` does a whole `Rise`,
//! reads the depth again, and starts again where it has risen: its rank is the depths that are left. `rise_on` and `twice_on`
//! run them on a handle, and are proved to answer within a number of acts. The crate stands on `verbs`, and no other crate uses
//! it: it shows the form of calls, of their proofs, and of a contract that tells a run.
#![tactic(auto)]

mod on_node;
mod rise;
mod twice;

pub use on_node::rise_on;
pub use rise::{Rise, RiseEnd, Start};
pub use twice::Twice;

#[cfg(test)]
mod tests;
