//! Whole calls of a client, as texts.
//!
//! A whole call is made of the operations: a search, a delete and an update are one each, a resize is a walk and a split, and
//! an insert is inserts and splits in turn. `specs/State.antt` is what a client keeps from call to call and what a call
//! comes to, `specs/Text.antt` the five calls as programs whose parts start again from a stage, and `specs/Bound.antt` how
//! many verbs a call does at most (docs/PROTOCOL.md, "The calls"). This crate has no code; it stands on the texts of the
//! operations and of the split.
#![tactic(auto)]
