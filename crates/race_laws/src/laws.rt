//! The seven laws of legal logs, and one that says that legal logs are possible. Each function has an empty body, and its
//! contract is the law, over every checked geometry and hashes that never change. docs/LAWS.md has the idea of each proof.
ghost use Rattle.race_laws.specs.FirstInsert.{InsertIsLegal};
ghost use Rattle.race_laws.specs.Laws.{OneHolder, HolderPlace, Finality, ClearPlaces, CommitLaw, Absence, Presence};

/// One holder: at each position a key has at most one holder, it has one exactly where the map of the changes so far has the
/// key, and the map's value is that of the holder's block.
pub fn law_one_holder()
    ensures { OneHolder }
{}

/// The holder's place: while the map has a key, its holder keeps its slot, or goes at a Flip to the same place of the child
/// table.
pub fn law_holder_place()
    ensures { HolderPlace }
{}

/// Finality: a key that has left a table has left it at each later position, and a table that is not filling never fills
/// again; the same of each bucket header.
pub fn law_finality()
    ensures { Finality }
{}

/// Clear places: after a position at which a place was clear it never again has a live or moved word of a key that leaves
/// its table.
pub fn law_clear_places()
    ensures { ClearPlaces }
{}

/// Commit: at a Commit the map has no such key.
pub fn law_commit()
    ensures { CommitLaw }
{}

/// Absence: where a key was looked for between two positions and not found, the map lacks it at some position between them,
/// in whatever order the slots of each table were read.
pub fn law_absence()
    ensures { Absence }
{}

/// Presence: a live word of a key in a candidate slot of a table on its chain is the key's holder, and so is a copy in the
/// child after a position at which the same place of the parent was moved of its block.
pub fn law_presence()
    ensures { Presence }
{}

/// Legal logs are possible: in every geometry, by every client, of every pair whose key has a hash below 2^64 (as each placer
/// answers), on a node with room for its block and at each candidate of its key, a first insert is a legal log (the words of a
/// block are taken and stored, the block is placed in an empty slot, a sweep finds nothing, and the block is committed), and
/// its slot is then the key's holder.
pub fn law_first_insert()
    ensures { InsertIsLegal }
{}
