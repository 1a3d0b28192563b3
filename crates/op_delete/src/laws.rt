//! What is proved of a delete.
ghost use Rattle.op_delete.specs.Law.{DeleteIsSafe};

/// A delete of any client, for a key of bytes, on each legal log on which its look may begin, with one swap or more that it
/// may lose: whatever others add between its verbs, it ends within its bound, each of its entries may follow, none but the
/// last changes the map, and each answer has its cause.
pub fn law_delete_safe()
    ensures { DeleteIsSafe }
{}
