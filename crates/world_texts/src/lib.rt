//! Whole calls as a world sees them.
//!
//! A world of clients does one outstanding verb of one client after another, and knows of a call its text alone: the verbs
//! that are outstanding, and what is left once one of them has its answer. `specs/Sorts.antt` says what it knows of a sort of
//! calls, `specs/Texts.antt` makes one of the calls of `call_texts`, of which one verb is outstanding and each hash that is
//! asked for is told at once, and `specs/Safety.antt` says when calls are safe: whichever outstanding verb is done next, and
//! whatever others do between. That the calls of `call_texts` are so is a law (docs/LAWS.md), from the laws of `whole_calls`;
//! the function that has it as its contract does nothing.
#![tactic(auto)]

mod laws;

pub use laws::law_calls_in_worlds;
