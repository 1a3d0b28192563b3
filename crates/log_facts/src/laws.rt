//! The laws of where passes may start, and of the terms of a client among others. Each function has an empty body, and its
//! contract is the law, over every checked geometry and hashes that never change.
ghost use Rattle.log_facts.specs.StartLaws.{StartLasts, FirstTableStarts, DirectoryStarts, PublishedLasts, SeenOnce};

/// A table at which a pass for a hash may start is one at each later position of the log: so a cached table serves as long
/// as the log goes on.
pub fn law_start_lasts()
    ensures { StartLasts }
{}

/// A pass may start at the first table of its hash.
pub fn law_first_table_starts()
    ensures { FirstTableStarts }
{}

/// A pass may start at the table that the directory names: at the word of the hash's lowest bits, as many as a global depth
/// that was read no later.
pub fn law_directory_starts()
    ensures { DirectoryStarts }
{}

/// Among others on a legal log, a published block has the shape of a block, its words stand at its address, and it stays
/// published.
pub fn law_blocks_last()
    ensures { PublishedLasts }
{}

/// Among others on a legal log, a verb may be done at once on each log that was seen.
pub fn law_seen_again()
    ensures { SeenOnce }
{}
