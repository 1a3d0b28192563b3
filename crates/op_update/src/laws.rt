//! What is proved of an update.
ghost use Rattle.op_update.specs.Law.{UpdateIsSafe};

/// An update of any client, of a pair of a key and a value, on each legal log on which its look may begin, with an area that
/// is the client's and one swap or more that it may lose: whatever others add between its verbs, it ends within its bound,
/// each of its entries may follow, none but the last changes the map, and each answer has its cause.
pub fn law_update_safe()
    ensures { UpdateIsSafe }
{}
