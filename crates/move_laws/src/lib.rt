//! Moving one place of a table under split is legal: its text, on any legal log that others lengthen between its verbs.
//!
//! `specs/States.antt` says what holds of a log while a split is under way, and what is known of one place and of the copy that
//! stands beside it; each of these facts is kept by entries that use no lock of the client. `specs/Law.antt` says how the judging of
//! a place ends: done and clear, moved and settled, or spent with a word that is still to be judged. The crate stands on
//! `log_facts`, `pass_laws` and `split_text`.
#![tactic(auto)]

mod laws;

pub use laws::law_move_safe;
