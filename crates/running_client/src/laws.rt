//! The laws of meetings, and of what caches save.
ghost use Rattle.running_client.specs.Points.{MetIsSeen};
ghost use Rattle.running_client.specs.Saving.{GoOnThrough, SavesOver, DoesOver};

use block_cache::{law_reads_done, law_saved};

/// A call after a meeting has its point at or after all changes that the noting client had seen.
pub fn law_met_is_seen()
    ensures { MetIsSeen }
{}

/// What was done and served in one call after another is what was done and served in all. Over a client's calls, where each of its
/// reads of a block's words is one of a reading, of which the last may be cut short and all others are of whole blocks, its cache
/// has served as many reads as are saved over the readings, up to the greatest number of 64 bits, and its trace has the others.
pub fn law_saved_over_calls()
    ensures then { GoOnThrough }
    ensures saved { SavesOver }
    ensures done { DoesOver }
{
    law_saved();
    law_reads_done();
}
