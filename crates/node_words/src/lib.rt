//! The sizes of a memory, the addresses of its words, and the words with which it opens.
//!
//! A memory is one to eight nodes of 64-bit words that compute nothing. Node 0 begins with its next
//! free word, the global depth, the directory and the first tables; every other node begins with its
//! next free word. This crate says which sizes are allowed, at which address each of these words
//! stands, what the role of an address is, and which number stands there before the first change.
//! It stands on no other crate of this repository. Its rule is written in docs/FORMATS.md, "Node", "Table" and "Opening".
#![tactic(auto)]

mod geometry;
mod opening;
mod region;
mod table;

pub use geometry::{Geometry, GeometryFault};
pub use region::Region;
pub use table::{birth_at, bucket_header_at, child_at, header_at, lock_at, slot_at};

#[cfg(test)]
mod tests {
    use super::*;

    /// Numbers that are no geometry, each with its fault.
    #[test]
    fn faults_come_in_order(rt: HostRuntime) {
        for ((groups, max_depth, first_depth, nodes, words), fault) in [
            ((3, 2, 0, 1, 400), GeometryFault::GroupsBad(3)),
            ((1, 17, 0, 1, 400), GeometryFault::DepthBad(17)),
            ((1, 2, 3, 1, 400), GeometryFault::DepthBad(3)),
            ((1, 2, 0, 1, 16777217), GeometryFault::WordsMany(16777217)),
            (
                (1, 2, 0, 1, 49),
                GeometryFault::WordsFew { need: 50, have: 49 },
            ),
            ((1, 0, 0, 9, 900), GeometryFault::NodesBad(9)),
            ((1, 0, 0, 2, 101), GeometryFault::NodesBad(2)),
        ] {
            let found = Geometry::check(groups, max_depth, first_depth, nodes, words).err();
            assert!(rt;
                found == Some(fault),
                "{groups} {max_depth} {first_depth} {nodes} {words}"
            );
        }
        assert!(rt; Geometry::check(1, 2, 0, 1, 50).is_ok());
    }

    /// Four first tables of one group, behind a directory of four words.
    #[test]
    fn four_first_tables(rt: HostRuntime) {
        let geometry = Geometry::check(1, 2, 2, 1, 400)
            .ok()
            .expect(&rt, "a geometry");
        assert_eq!(rt; geometry.table_words(), 44);
        assert_eq!(rt; geometry.first_free(), 182);
        for (index, at) in [(0, 6), (1, 50), (2, 94), (3, 138)] {
            assert_eq!(rt; geometry.first_table(index), at);
            assert_eq!(rt; geometry.opening_word(geometry.directory_at(index)), at);
            assert_eq!(rt; geometry.opening_word(birth_at(at)), 2 + 256 * index);
        }
    }

    /// Two nodes: their next words are 47 and 51.
    #[test]
    fn two_nodes(rt: HostRuntime) {
        let geometry = Geometry::check(1, 0, 0, 2, 100)
            .ok()
            .expect(&rt, "a geometry");
        assert_eq!(rt; geometry.opening_word(0), 47);
        assert_eq!(rt; geometry.opening_word(50), 51);
        for (at, region) in [
            (0, Region::Next(0)),
            (1, Region::Depth),
            (2, Region::Directory(0)),
            (3, Region::Heap),
            (50, Region::Next(1)),
            (51, Region::Heap),
        ] {
            assert!(rt; geometry.region_of(at) == region, "the region of {at}");
        }
    }

    /// The smallest memory: one table of one group at word 3.
    #[test]
    fn one_table(rt: HostRuntime) {
        let geometry = Geometry::check(1, 0, 0, 1, 100)
            .ok()
            .expect(&rt, "a geometry");
        for at in 0..100 {
            let word = match at {
                0 => 47,
                2 => 3,
                4 | 23 | 39 => 256,
                _ => 0,
            };
            assert_eq!(rt; geometry.opening_word(at), word, "the word at {at}");
        }
        assert_eq!(rt; header_at(3), 4);
        assert_eq!(rt; lock_at(3), 5);
        assert_eq!(rt; child_at(3, 15), 22);
        assert_eq!(rt; slot_at(3, 1), 24);
        assert_eq!(rt; bucket_header_at(3, 0), 23);
        assert_eq!(rt; bucket_header_at(3, 1), 39);
    }
}
