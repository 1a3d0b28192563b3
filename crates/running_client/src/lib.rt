//! A client on words that threads share.
//!
//! A `Client` is a seat of a `Memory` with what it keeps from call to call: the cached directory, the ticket of an open split and
//! its area. Its five calls play the machine of a whole call verb by verb on the running words, while others do theirs. They take
//! no memory, wait for nobody and return. `specs/Called.antt` says what each of them does: its verbs are those of the call's text,
//! no more than its bound; its answer is the text's, and is right at a point between the front before it and the front after it;
//! and where it changes the map, it does so by its last entry alone. A note of what a client has seen goes to another client by a
//! meeting. A client may have a cache of blocks (`block_cache`), from which reads of blocks are served: `specs/Through.antt` says what its
//! calls do, with the served reads in their traces. That calls are safe is the law of `world_texts`, the same as in worlds; the crate stands on it, on `call_machine` and
//! on `client_seat`. The rule is written in docs/RUNNING.md.
#![tactic(auto)]

mod begin;
mod call;
mod client;
mod drive;
mod laws;
mod through;

pub use call::{Went, call_through, call_within};
pub use client::Client;
pub use laws::{law_met_is_seen, law_saved_over_calls};

#[cfg(test)]
mod tests;
