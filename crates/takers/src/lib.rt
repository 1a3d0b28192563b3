//! An example of clients on running words.
//!
//! A `Taker` takes three words at the first node and stores a word in each. It stops where it lost the swap, or where the node
//! has no three words left. `take_on` runs it at a seat of a memory, and is proved to leave the word in the seat's front,
//! whatever others do. `both_take` runs two of them in two threads and closes the memory: the words of both stand in the one log. `take_and_tell` hands a note to another thread.
//! The crate stands on `client_seat`, and on `log_facts` and `pass_laws` for what a client knows of the words that it took. No
//! other crate uses it: it shows the form of a machine that threads run, and of what is known after they are joined. The rule of
//! running words is written in docs/RUNNING.md.
#![tactic(auto)]

mod both;
mod taker;
mod told;

pub use both::{both_take, take_on};
pub use taker::Taker;
pub use told::take_and_tell;

#[cfg(test)]
mod tests;
