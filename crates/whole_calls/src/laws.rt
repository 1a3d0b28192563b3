//! The laws of whole calls.
ghost use Rattle.whole_calls.specs.Fits.{FreshFits, StaysFitting};
ghost use Rattle.whole_calls.specs.Law.{LeavesFitting, SearchIsSafe, DeleteIsSafe, UpdateIsSafe, InsertIsSafe, ResizeIsSafe};

/// A fresh state fits each legal log, a state that fits a log fits each that others make of it, and what a call leaves fits
/// the log at its end.
pub fn law_states_fit()
    ensures fresh { FreshFits }
    ensures longer { StaysFitting }
    ensures after { LeavesFitting }
{}

/// Each search of a client whose state fits is safe within P, and its answer is right.
pub fn law_search_call()
    ensures { SearchIsSafe }
{}

/// Each delete of a client whose state fits is safe within B, and its answer is right.
pub fn law_delete_call()
    ensures { DeleteIsSafe }
{}

/// Each update of a client whose state fits is safe within B, and its answer is right.
pub fn law_update_call()
    ensures { UpdateIsSafe }
{}

/// Each insert of a client whose state fits, with its splits, is safe within B, and its answer is right.
pub fn law_insert_call()
    ensures { InsertIsSafe }
{}

/// Each resize of a client whose state fits is safe within B, and its answer is right.
pub fn law_resize_call()
    ensures { ResizeIsSafe }
{}
