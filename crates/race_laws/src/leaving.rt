//! When a key leaves a table.
ghost use Rattle.std.specs.Prelude.{◌≡◌, ◌↔◌, ℕ, Some, IsTrue};
ghost use Rattle.bucket_group.specs.ExitLevel.{exit_level as level_of};
ghost use Rattle.verb_log.specs.Decoded.{header_with};
ghost use Rattle.race_laws.specs.Standing.{IsGone};

use bucket_group::exit_level;
use slot_word::{Head, State};

/// The exit level of a key with this hash in a table of this birth depth, exactly where the key is leaving or has left by
/// this header: the table splits at the exit level, or its depth is above it. None where the key stays.
pub fn leaves(hash: u64, birth_depth: u32, head: &Head) -> Option<u32>
    ensures { (i : ℕ) → (result ≡ Some i)
        ↔ ((level_of hash birth_depth ≡ Some i) × IsGone (header_with head.now.depth head.now.state) i) }
{
    let level = exit_level(hash, birth_depth)?;
    is_gone(head, level).then_some(level)
}

/// Whether a key with this exit level is leaving or has left by this header.
fn is_gone(head: &Head, level: u32) -> bool
    ensures { IsTrue result ↔ IsGone (header_with head.now.depth head.now.state) level }
{
    match head.state {
        State::Splitting => level <= head.depth,
        State::Plain | State::Filling => level < head.depth,
    }
}
