//! Where a key may stand.
ghost use Rattle.std.specs.Prelude.{◌≡◌, ℕ, ◌≤◌, ◌↔◌, IsTrue, Some};
ghost use Rattle.bucket_group.specs.Buckets.{candidates};
ghost use Rattle.bucket_group.specs.ExitLevel.{exit_level};
ghost use Rattle.race_laws.specs.Standing.{IsIn};
ghost use Rattle.image_audit.specs.Kept.{IsAtHome, IsSmall};

use bucket_group::{fingerprint, places};
use image_laws::ImageTable;
use node_words::Geometry;

/// Whether a place is among the candidates of a hash.
fn is_candidate(geometry: &Geometry, hash: u64, place: u32) -> bool
    ensures { IsTrue result ↔ IsIn place (candidates geometry.now.groups hash) }
{
    let places = places(geometry, hash);
    for i in 0..places.len() {
        if places.get(i) == place {
            return true;
        }
    }
    false
}

/// Whether a key of this hash stays in a table of this birth depth and depth, by its exit level.
fn stays(hash: u64, birth: u32, depth: u32) -> bool
    ensures { IsTrue result ↔ ((i : ℕ) → exit_level hash birth ≡ Some i → depth ≤ i) }
{
    match bucket_group::exit_level(hash, birth) {
        Some(level) => depth <= level,
        None => true,
    }
}

/// Whether a key of this hash may stand at a place of a table of this depth, with this fingerprint.
pub(crate) fn is_at_home(
    geometry: &Geometry,
    hash: u64,
    table: &ImageTable,
    depth: u32,
    place: u32,
    print: u8,
) -> bool
    requires { IsSmall table.now }
    ensures { IsTrue result ↔ IsAtHome geometry.now.groups hash table.now depth place print }
{
    print == fingerprint(hash)
        && hash % (1 << table.depth) == u64::from(table.suffix)
        && stays(hash, table.depth, depth)
        && is_candidate(geometry, hash, place)
}
