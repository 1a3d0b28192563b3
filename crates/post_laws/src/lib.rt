//! The posted look is safe: its text, on any legal log that others lengthen between the completions of its reads, in whatever
//! order these come.
//!
//! `specs/SafePosts.antt` says what a safe text is of whose verbs several may be outstanding: whichever of them is done next.
//! `specs/HasLooked.antt` says what the end of a posted look tells of the log: the key's holder with its value, or that the key
//! was looked for with the readings of each table in any order, with the last header and the slots read as 0. From the latter
//! follows by `law_spread_absence` that the map lacked the key. The crate stands on `pass_laws` and `post_text`; docs/LAWS.md
//! has the idea, "What a posted look shows".
#![tactic(auto)]

mod laws;

pub use laws::{law_posted_look_safe, law_spread_absence};
