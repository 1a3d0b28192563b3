//! What is proved of an insert.
ghost use Rattle.op_insert.specs.Law.{InsertIsSafe};

/// An insert of any client, of a pair of bytes, on each legal log on which its look may begin, from an area and a kept block that
/// are the client's: whatever others add between its verbs, each of its entries is legal, and none but a last Commit changes the
/// map. Inserted: that entry added the pair, and the map had no such key. Every other answer has its cause, leaves the map as it
/// was, and no pending word that the insert has placed stands.
pub fn law_insert_safe()
    ensures { InsertIsSafe }
{}
