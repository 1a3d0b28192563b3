//! Images: when the words of a memory, as they stand in an image, are one map, and that the words of a log are.
//!
//! Words are a function of the address here, so that what is said holds of the words of an image as of those of a log.
//! `specs/Walk.antt` has the walk, which finds the tables from the first ones down; `specs/Sound.antt` the rule of each word
//! of the walk, "sound image" and quiet words; `specs/Answers.antt` the slots that answer for a key, as holders do at a
//! position of a log, and the map that an audit prints. The laws are public functions with an empty body. They stand on the
//! laws of legal logs alone; docs/DEFINITIONS.md ("Images") has their words.
#![tactic(auto)]

mod laws;
mod table;

pub use laws::{
    law_answers_are_holders, law_image_keeps, law_opening_is_quiet, law_quiet_is_sound,
    law_sound_is_one_map,
};
pub use table::ImageTable;
