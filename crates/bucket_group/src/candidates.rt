//! The candidates of a hash: two main buckets, each with its overflow bucket.
ghost use Rattle.std.specs.Prelude.{ℕ, ◌≡◌, ◌<◌, ◌*◌, length, slice_index};
ghost use Rattle.bucket_group.specs.Buckets.{candidates, first_bucket, main_place, overflow_place, neighbour, IsBucketStart, IsSlotPlace};

use crate::place_list::{Combined, Places};
use node_words::Geometry;

/// The first main bucket of a hash, below twice the groups. Its header is the one that a key looks at.
#[tactic(auto, unfolding(crate::specs::Buckets::first_bucket))]
pub fn first_bucket(geometry: &Geometry, hash: u64) -> u32
    ensures bucket { result ≡ first_bucket geometry.now.groups hash }
    ensures below { result < 2 * geometry.now.groups }
{
    let mains = 2 * u64::from(geometry.groups);
    ((hash >> 16) % mains) as u32
}

/// The candidates of a hash in every table of this geometry. The first main bucket is drawn by the bits
/// from 16 on and the second by the bits from 32 on, each modulo twice the groups; where both are equal the
/// second is the first with its lowest bit flipped. Each is the place of a slot of the table, and none comes
/// twice.
pub fn places(geometry: &Geometry, hash: u64) -> Places
    ensures places { result ≡ candidates geometry.now.groups hash }
    ensures slots { (i : ℕ) → i < length result → IsSlotPlace geometry.now.groups (slice_index result i) }
    ensures distinct { (i j : ℕ) → i < length result → j < length result
        → slice_index result i ≡ slice_index result j → i ≡ j }
{
    buckets_of(geometry, hash)
}

/// The two main buckets of a hash, each with its overflow bucket.
#[tactic(auto, unfolding(crate::specs::Buckets::candidates, crate::specs::Buckets::second_bucket, crate::specs::Buckets::drawn_bucket))]
fn buckets_of(geometry: &Geometry, hash: u64) -> Places
    ensures { result ≡ candidates geometry.now.groups hash }
{
    let mains = 2 * u64::from(geometry.groups);
    let first = first_bucket(geometry, hash);
    let drawn = ((hash >> 32) % mains) as u32;
    let second = if drawn == first {
        neighbour(first)
    } else {
        drawn
    };
    Places {
        first: combined(first),
        second: combined(second),
    }
}

/// The main bucket of the same group.
fn neighbour(bucket: u32) -> u32
    requires { bucket < 128 }
    ensures { result ≡ neighbour bucket }
{
    if bucket % 2 == 0 {
        bucket + 1
    } else {
        bucket - 1
    }
}

/// A main bucket, by its number, with its overflow bucket.
fn combined(bucket: u32) -> Combined
    requires { bucket < 128 }
    ensures main { result.main ≡ main_place bucket }
    ensures overflow { result.overflow ≡ overflow_place bucket }
    ensures starts { IsBucketStart result.main × IsBucketStart result.overflow }
{
    let group = 24 * (bucket / 2);
    Combined {
        main: group + 16 * (bucket % 2),
        overflow: group + 8,
    }
}
