//! The machine of a whole call, and what a client keeps from call to call.
//!
//! What the five calls do stands in `call_texts` as programs whose parts start again; a `CallMachine` means what is left of
//! one, and takes no memory. It has one operation at a time, which it changes in place, and goes on to the next one where a
//! split is wanted or another part begins. `ClientState` is what a client keeps: its sizes and number, the cached directory,
//! the ticket of a split that is open, and its area. The rule is written in docs/PROTOCOL.md, "The calls". The crate stands on
//! the machines of the operations, on `remote_resize` for the split, and on `dir_cache`.
#![tactic(auto)]

mod acts;
mod answer;
mod at;
mod begin;
mod call;
mod end;
mod ends;
mod fed;
mod forgotten;
mod machines;
mod state;
mod steps;
mod task;

pub use answer::Answer;
pub use call::CallMachine;
pub use state::ClientState;
