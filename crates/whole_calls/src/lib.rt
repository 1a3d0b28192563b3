//! Whole calls of a client: what they are answered, and what they leave.
//!
//! `specs/Fits.antt` says when what a client keeps from call to call (cache, area, ticket) fits a log, `specs/Right.antt`
//! when a call is answered rightly, and `specs/Law.antt` what is proved. The laws are functions with an empty body whose
//! contract is the law, over every legal log and every state that fits it (docs/LAWS.md). The crate stands on the laws of the
//! operations and of the split; the texts are those of `call_texts`.
#![tactic(auto)]

mod laws;

pub use laws::{
    law_delete_call, law_insert_call, law_resize_call, law_search_call, law_states_fit,
    law_update_call,
};
