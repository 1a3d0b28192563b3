//! What is known of a run of clients on running words, once its memory is closed.
//!
//! Each call of a client is right between two fronts of its own. `specs/Lives.antt` says what the calls of a client are, one after
//! another; `specs/Whole.antt` and `specs/Headline.antt` what then holds of the whole log: a reply that is right between two fronts is
//! right over the changes of the log; who has met all others has seen the whole log, and what it finds then is the map after all
//! changes; and the records of all clients stand in one legal history, also where one client more has only looked. Each is a law (docs/LAWS.md); the functions that have them as
//! their contracts do nothing. The crate stands on `running_client`, on `run_records`, and on `client_seat` for closed memories.
#![tactic(auto)]

mod laws;

pub use laws::{
    law_changes_are_asked, law_headline_beside, law_headline_for_run, law_last_looks, law_met_all,
    law_right_over_all,
};
