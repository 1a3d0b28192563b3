//! Where a key goes by its hash: its candidate slots in a table, which of the free ones an insert takes,
//! and at which level the key leaves a table that splits.
//!
//! A hash names two main buckets of each table. Each has an overflow bucket that it shares with its
//! neighbour, and the slots of these buckets are the key's candidates. Of a hash the bits 0 to 15 are its
//! depth bits, the bits from 16 and from 32 on draw the two main buckets, and the bits 56 to 63 are its
//! fingerprint. This crate stands on `node_words` for the sizes of a table. Its rule is written in
//! docs/FORMATS.md, "Hash", "Candidates" and "Exit level".
#![tactic(auto)]

mod candidates;
mod choice;
mod exit;
mod place_list;

ghost use Rattle.std.specs.Prelude.{◌≡◌};
ghost use Rattle.bucket_group.specs.Buckets.{fingerprint_of};

pub use candidates::{first_bucket, places};
pub use choice::{Free, choose};
pub use exit::exit_level;
pub use place_list::Places;

/// The eight highest bits of a hash, which a slot keeps beside the address of its block.
pub fn fingerprint(hash: u64) -> u8
    ensures { result ≡ fingerprint_of hash }
{
    (hash >> 56) as u8
}

#[cfg(test)]
mod tests {
    use super::*;
    use node_words::Geometry;

    /// One group: both main buckets share the overflow bucket, so there are 21 candidates.
    #[test]
    fn places_in_one_group(rt: HostRuntime) {
        let geometry = Geometry::check(1, 0, 0, 1, 100)
            .ok()
            .expect(&rt, "a geometry");
        let places = places(&geometry, 0);
        assert_eq!(rt; places.len(), 21);
        for (i, place) in [(0, 1), (7, 9), (14, 17)] {
            assert!(rt; i < places.len() && places.get(i) == place, "candidate {i}");
        }
    }

    /// Two groups: main buckets 1 and 3, each with an overflow bucket of its own.
    #[test]
    fn places_in_two_groups(rt: HostRuntime) {
        let geometry = Geometry::check(2, 0, 0, 1, 100)
            .ok()
            .expect(&rt, "a geometry");
        let hash = 0x0000_0003_0001_0000;
        let places = places(&geometry, hash);
        assert_eq!(rt; places.len(), 28);
        assert_eq!(rt; first_bucket(&geometry, hash), 1);
        for i in 0..places.len() {
            let place = match i / 7 {
                0 => 17 + i,
                1 => 9 + i - 7,
                2 => 41 + i - 14,
                _ => 33 + i - 21,
            };
            assert!(rt; places.get(i) as usize == place, "candidate {i}");
        }
    }

    /// The combined bucket with fewer slots that are not free, the first where both have as many.
    #[test]
    fn choices(rt: HostRuntime) {
        let geometry = Geometry::check(2, 0, 0, 1, 100)
            .ok()
            .expect(&rt, "a geometry");
        let places = places(&geometry, 0x0000_0003_0001_0000);
        let mut free = Free::new();
        assert!(rt; choose(&places, &free) == None);
        for (i, choice) in [(27, 27), (9, 9), (20, 20), (3, 3)] {
            free.set(i, true);
            assert!(rt;
                free.get(i) && choose(&places, &free) == Some(choice),
                "after {i}"
            );
        }
    }

    #[test]
    fn parts_of_a_hash(rt: HostRuntime) {
        assert_eq!(rt; fingerprint(0x0300_0000_0000_0000), 3);
        for ((hash, birth_depth), level) in [((6, 0), Some(1)), ((6, 2), Some(2)), ((6, 3), None)] {
            assert!(rt;
                exit_level(hash, birth_depth) == level,
                "{hash} {birth_depth}"
            );
        }
    }
}
