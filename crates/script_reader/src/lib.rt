//! Reading scripts: the script that bytes spell, or their refusal.
//!
//! A refusal names the first line that breaks a rule, and the first rule that it breaks. A script's text is read as
//! that script, and no two scripts have one text. The crate stands on `spelling` (words) and `script_value` (what is
//! read). The rules, in their order, stand in docs/SCRIPTS.md, "The script" and "Refusals".
#![tactic(auto)]

mod command;
mod draft;
mod fault;
pub mod limits;
mod lines;
mod reading;
mod table;

pub use fault::{Refusal, ScriptFault, ScriptKind, refusal_text};
pub use reading::{one_text, read_script};
