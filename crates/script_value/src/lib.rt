//! Scripts as values, and their text.
//!
//! A script has a version, the table's sizes, listed hashes, clients with their calls, stops, and the schedule. Each
//! script has one text, which `script_text` writes. `Script::of_calls` makes a script from plans and items. The crate
//! stands on `spelling` (words and names), `key_hash` (listed hashes), `node_words` (geometries) and `map_model`
//! (calls, plans and items). The rules stand in docs/SCRIPTS.md, "The script".
#![tactic(auto)]

mod body;
mod made;
mod script;
mod writing;

pub use body::Body;
pub use made::LINE_ITEMS;
pub use script::Script;
pub use writing::{put_call, script_text};
