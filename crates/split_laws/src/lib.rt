//! The whole split is legal: its text, on any legal log that others lengthen between its verbs; and so is going on with one.
//!
//! `specs/Ticket.antt` says when a client may go on with a ticket, `specs/Law.antt` how a split ends: the table is split and its child
//! named, or the cause why not, or a ticket that fits. The parts of a split are laws of `begin_laws`, `move_laws` and `directory`; what
//! stands here are Finish, Close, Ripen and Unlock, and how one part follows another.
#![tactic(auto)]

mod laws;

pub use laws::{law_resume_safe, law_split_safe, law_ticket_stands};
