//! The first half of a split is legal: its text, on any legal log that others lengthen between its verbs.
//!
//! `specs/Law.antt` says how steps 1 to 5 of a split end: with the child of an open split, or with the cause why there is none. It
//! also says what a split leaves alone: the words that the client had taken and not published. The crate stands on `log_facts`,
//! `pass_laws`, `split_text`, and on `move_laws` for what holds of an open split.
#![tactic(auto)]

mod laws;

pub use laws::law_begin_safe;
