//! What calls need beyond the pass.
//!
//! `specs/Judged.antt` says by what a call of a client is judged: the rule of legal logs, among others who keep it, where a
//! log tells its changes of the map. `proofs/LastSwap.antt` is the last verb of a call, which alone may change the map,
//! `proofs/QuietParts.antt` what comes before it, `proofs/Once.antt` both for a program as a call of one part, and
//! `proofs/Changing.antt` what a Settle, a Remove and a Replace of a key's holder do to the map. `specs/Settling.antt` is
//! how a copy is made live before it is replaced or removed. The laws are those of the map at a moment of a log
//! (`specs/Moments.antt`). The crate stands on `pass_laws` and `log_facts`, and serves the operations and whole calls.
#![tactic(auto)]

mod laws;
mod live;

pub use laws::{law_holds_at_moments, law_lacks_at_moments};
pub use live::live_form;
