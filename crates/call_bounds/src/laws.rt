//! The laws of what the parts of calls cost.
ghost use Rattle.call_bounds.specs.Law.{PassesCost, TakingsCost, PartsCost, InsertsCost, SplitsCost, ResumesCost, PartsFit};

/// Each pass, whatever is answered, searches no more tables than the greatest depth and one, and each lost drop costs it one block more.
pub fn law_passes_cost()
    ensures { PassesCost }
{}

/// Each taking of a block, whatever is answered, reads each node once, takes and writes the block once, and each lost Take costs one more.
pub fn law_takings_cost()
    ensures { TakingsCost }
{}

/// Each part of an insert, whatever is answered, does two passes and what is between them.
pub fn law_parts_cost()
    ensures { PartsCost }
{}

/// Each insert without its splits, whatever is answered, does so many parts.
pub fn law_inserts_cost()
    ensures { InsertsCost }
{}

/// Each split, from its Lock or from a ticket on, whatever is answered, does no more than S but for its lost swaps.
pub fn law_splits_cost()
    ensures whole { SplitsCost }
    ensures rest { ResumesCost }
{}

/// As many parts of an insert as a legal log has, each with a split, and the swaps that the call may lose fit into B.
pub fn law_parts_fit()
    ensures { PartsFit }
{}
