//! The pass is legal: its text, on any legal log that others lengthen between its verbs.
//!
//! `specs/SafeIn.antt` says what a safe program is on logs that stand newest entry first, with a rule of what the client's
//! own entries are besides legal; `proofs/Bridge.antt` makes `Safe` of it. `specs/HasPassed.antt` says what the end of a
//! pass tells of the log: the key's holder with its value, or that the key was looked for or swept, with the last header
//! and the slots read as 0, or that it leaves the table of the own slot, or that the lost drops are spent. The law is over
//! the one text, that of `pass_text`; its proof goes over a second form of the pass, by lists of candidates
//! (proofs/ListPass.antt), which does the same acts. The crate stands on `log_facts` and `pass_text`.
#![tactic(auto)]

mod laws;

pub use laws::law_pass_safe;
