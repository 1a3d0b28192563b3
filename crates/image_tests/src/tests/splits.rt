//! An image of one group, greatest depth 2 and one node of 200 words, whose first table at 6 has split twice: its children stand at 50
//! and 94, and the key k, of hash 1, in the slot at word 71 of the first of them. Word 0 is number 10.
use super::{Row, Told, first_other};
use std::test::Fail;

/// The head, the listed key, the next word, the global depth, four directory words, three tables, the block.
const SPLITS: [u64; 151] = [
    3_550_891_808_294_912_338,
    1,
    2,
    0,
    1,
    200,
    1,
    1,
    107,
    1,
    141,
    2,
    6,
    50,
    94,
    50,
    0,
    258,
    0,
    0,
    50,
    94,
    0,
    0,
    0,
    0,
    0,
    0,
    0,
    0,
    0,
    0,
    0,
    0,
    0,
    0,
    258,
    0,
    0,
    0,
    0,
    0,
    0,
    0,
    0,
    0,
    0,
    0,
    0,
    0,
    0,
    0,
    258,
    0,
    0,
    0,
    0,
    0,
    0,
    0,
    100_663_553,
    257,
    0,
    0,
    0,
    0,
    0,
    0,
    0,
    0,
    0,
    0,
    0,
    0,
    0,
    0,
    0,
    0,
    0,
    0,
    257,
    844_424_930_132_106,
    0,
    0,
    0,
    0,
    0,
    0,
    0,
    0,
    0,
    0,
    0,
    0,
    0,
    0,
    257,
    0,
    0,
    0,
    0,
    0,
    0,
    0,
    100_663_810,
    258,
    0,
    0,
    0,
    0,
    0,
    0,
    0,
    0,
    0,
    0,
    0,
    0,
    0,
    0,
    0,
    0,
    0,
    0,
    258,
    0,
    0,
    0,
    0,
    0,
    0,
    0,
    0,
    0,
    0,
    0,
    0,
    0,
    0,
    0,
    258,
    0,
    0,
    0,
    0,
    0,
    0,
    0,
    65_537,
    107,
    49,
];

/// The rules of sound words.
const RULES: &[Row] = &[
    // as it is
    (&[], Told::Sound),
    // no child of level 0
    (&[(20, 0)], Told::Bad(10)),
    // no child of level 1
    (&[(21, 0)], Told::Bad(11)),
    // two children in one region
    (&[(21, 50)], Told::Bad(11)),
    // children that overlap
    (&[(21, 60)], Told::Bad(11)),
    // a child that is the table
    (&[(20, 6)], Told::Bad(10)),
    // a child behind the next word
    (&[(20, 98)], Told::Bad(10)),
    // a child behind all nodes
    (&[(21, 16_777_216)], Told::Bad(11)),
    // the greatest address
    (&[(21, 18_446_744_073_709_551_615)], Told::Bad(11)),
    // a child of a level too deep
    (&[(22, 94)], Told::Bad(12)),
    // a birth of another suffix
    (&[(60, 100_663_297)], Told::Bad(50)),
    // a birth of another parent
    (&[(60, 257)], Told::Bad(50)),
    // a depth whose child is 0
    (&[(61, 258)], Told::Bad(55)),
    // a depth below the birth depth
    (&[(61, 256)], Told::Bad(51)),
    // a depth below the children
    (&[(17, 257)], Told::Bad(11)),
    // a depth above the greatest
    (&[(17, 259)], Told::Bad(7)),
    // a birth word of no birth
    (&[(104, 1)], Told::Bad(94)),
    // a hash of another suffix
    (&[(9, 2)], Told::Bad(71)),
    // a hash of the same suffix
    (&[(9, 3)], Told::Sound),
    // a key that has left its table
    (&[(9, 2), (81, 0), (37, 844_424_930_132_106)], Told::Bad(27)),
    // a key that stays in the first table
    (&[(9, 4), (81, 0), (37, 844_424_930_132_106)], Told::Sound),
    // a hash of another fingerprint
    (&[(9, 72_057_594_037_927_936)], Told::Bad(71)),
    // a global depth above the greatest
    (&[(11, 3)], Told::Bad(1)),
    // a smaller global depth
    (&[(11, 0)], Told::Sound),
    // a directory word of another suffix
    (&[(12, 50)], Told::Bad(2)),
    // a directory word that is 0
    (&[(13, 0)], Told::Bad(3)),
    // a hint that is old
    (&[(14, 6)], Told::Sound),
    // the last directory word
    (&[(15, 0)], Told::Bad(5)),
    // a word that the global depth does not reach
    (&[(11, 1), (15, 0)], Told::Sound),
    // a word that it reaches
    (&[(11, 1), (13, 0)], Told::Bad(3)),
];

#[test]
fn splits(rt: HostRuntime) -> Result<(), Fail> {
    assert_eq!(rt; first_other(rt.alloc(), &SPLITS, RULES)?, None);
    Ok(())
}
