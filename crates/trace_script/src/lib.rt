//! Scripts and reports: the bytes that a play reads, and those that it writes.
//!
//! The crate names what its users want of the crates below: `spelling` (texts), `script_value` (scripts and their
//! text), `script_reader` (the script that bytes spell, or their refusal), `play_report` (the text of a play) and
//! `map_model` (plans and items). The rules of both texts stand in docs/SCRIPTS.md.
#![tactic(auto)]

pub use map_model::{Item, Items, Plan, Plans};
pub use play_report::{Line, Lines, Mode, Tag, reply_text, report_text};
pub use script_reader::{
    Refusal, ScriptFault, ScriptKind, limits, one_text, read_script, refusal_text,
};
pub use script_value::{Script, script_text};
pub use spelling::Text;
