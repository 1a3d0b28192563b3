//! What is proved of moving one place.
ghost use Rattle.move_laws.specs.Law.{MoveIsSafe};

/// The judging of a place of a table under split, by the client that has its lock, begun by reading its word or gone on with a
/// word that was read or found: on each legal log, whatever others add between its verbs, each entry is legal, changes nothing in
/// the map and names no new block, and in the end the place is clear, or moved and settled, or as many swaps were lost as might
/// be and a word is still to be judged.
pub fn law_move_safe()
    ensures { MoveIsSafe }
{}
