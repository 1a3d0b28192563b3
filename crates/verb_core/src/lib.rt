//! Worlds: clients with their plans on one node, under any schedule of verbs, with one history.
//!
//! A world does one verb of one client after another on words in one place: it begins the client's calls in the order of its
//! plan, keeps the call under way as a machine, and makes a record of each call that answers. Its log is legal and its records
//! stand in a legal history over the log's changes. `AnyWorld` is written once over what a machine has outstanding
//! (`Playable`); `World` is it with the machine of whole calls, of which one verb is outstanding. What a verb makes of a world
//! is the relation `Turn` of specs/Play.antt, and the events of a script are the relation `Plays` of specs/Schedules.antt.
//! That each client's events are the traces of its calls, and that the events of a script are one list, are laws: functions
//! that do nothing, whose contracts they are (docs/LAWS.md). The crate stands on `world_texts` for what is known of calls, on
//! `call_machine`, on `verbs` for the words, and on `map_model` for plans, records and histories.
#![tactic(auto)]

mod any_world;
mod chooser;
mod laws;
mod machine;
mod playable;
mod player;
mod world;

pub use any_world::{AnyWorld, Stepped};
pub use call_machine::{Answer, CallMachine, ClientState};
pub use chooser::{Chooser, First};
pub use laws::{law_again_traces, law_client_traces, law_one_drawn, law_one_run};
pub use map_model::{Item, Items, Plan, Plans};
pub use playable::Playable;
pub use world::World;
