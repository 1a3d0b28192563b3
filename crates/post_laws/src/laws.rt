//! What is proved of the posted look.
ghost use Rattle.post_laws.specs.Law.{LookIsSafe, SpreadAbsence};

/// A posted look of any client for any key, from a table where it may start or through the directory: on each legal log,
/// whatever others add between the completions of its reads and in whatever order these come, each block that it reads is
/// published, it adds no entry, and what it tells in the end was so at positions of the look.
pub fn law_posted_look_safe()
    ensures { LookIsSafe }
{}

/// Spread absence: where a key was looked for between two positions and not found, the readings of each table standing in any
/// order, the map lacks the key at some position between them.
pub fn law_spread_absence()
    ensures { SpreadAbsence }
{}
