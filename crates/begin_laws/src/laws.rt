//! What is proved of the first half of a split.
ghost use Rattle.begin_laws.specs.Law.{BeginIsSafe};

/// The first half of a split of any table whose suffix is the lowest bits of a hash, by any client: on each legal log, whatever
/// others add between its verbs, each entry is legal and changes nothing in the map, and the words that the client had taken and not
/// published stay as they are. In the end the split is open, with all places of the table to come; or the table had another depth,
/// or the greatest, at a position; or its lock was another's; or each node was full; or as many swaps were lost as might be.
pub fn law_begin_safe()
    ensures { BeginIsSafe }
{}
