//! How many verbs and hashes the parts of whole calls do, with each lost swap counted once.
//!
//! B, the bound of a call, has a share for each swap that the call may lose, and not for each that each of its parts may lose. So what
//! a part costs is said together with what the swaps that it did not lose may still cost later (`Costs` of `verbs`): a pass, a taking,
//! a part of an insert, a split. `specs/Bound.antt` has the numbers, `specs/Law.antt` what is proved, whatever is answered; the laws
//! are functions with an empty body whose contract is the law (docs/LAWS.md). The whole calls within B are laws of `whole_calls`.
#![tactic(auto)]

mod laws;

pub use laws::{
    law_inserts_cost, law_parts_cost, law_parts_fit, law_passes_cost, law_splits_cost,
    law_takings_cost,
};
