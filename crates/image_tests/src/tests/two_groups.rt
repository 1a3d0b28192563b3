//! An image of two groups, depth 0 and one node of 100 words, with the key k, of hash 0, in the slot at word 24, whose candidates are the
//! slots of the first group. Word 0 is number 10.
use super::{Row, Told, first_other};
use std::test::Fail;

/// The head, the listed key, the next word, the global depth, the directory word, the table, the block.
const TWO_GROUPS: [u64; 84] = [
    3_550_891_808_294_912_338,
    2,
    0,
    0,
    1,
    100,
    1,
    1,
    107,
    0,
    74,
    0,
    3,
    0,
    256,
    0,
    0,
    0,
    0,
    0,
    0,
    0,
    0,
    0,
    0,
    0,
    0,
    0,
    0,
    0,
    0,
    0,
    0,
    256,
    844_424_930_132_039,
    0,
    0,
    0,
    0,
    0,
    0,
    0,
    0,
    0,
    0,
    0,
    0,
    0,
    0,
    256,
    0,
    0,
    0,
    0,
    0,
    0,
    0,
    256,
    0,
    0,
    0,
    0,
    0,
    0,
    0,
    0,
    0,
    0,
    0,
    0,
    0,
    0,
    0,
    256,
    0,
    0,
    0,
    0,
    0,
    0,
    0,
    65_537,
    107,
    49,
];

/// The rule that a key stands in a candidate slot.
const RULES: &[Row] = &[
    // as it is
    (&[], Told::Sound),
    // the second bucket
    (&[(34, 0), (50, 844_424_930_132_039)], Told::Sound),
    // the overflow bucket
    (&[(34, 0), (42, 844_424_930_132_039)], Told::Sound),
    // the first bucket of the other group
    (&[(34, 0), (58, 844_424_930_132_039)], Told::Bad(48)),
    // its overflow bucket
    (&[(34, 0), (66, 844_424_930_132_039)], Told::Bad(56)),
    // its second bucket
    (&[(34, 0), (74, 844_424_930_132_039)], Told::Bad(64)),
    // its last slot
    (&[(34, 0), (80, 844_424_930_132_039)], Told::Bad(70)),
    // a hash of the first buckets of both groups
    (&[(9, 131_072)], Told::Sound),
    // the first bucket of the other group, of this hash
    (
        &[(9, 131_072), (34, 0), (58, 844_424_930_132_039)],
        Told::Sound,
    ),
    // its overflow bucket, of this hash
    (
        &[(9, 131_072), (34, 0), (66, 844_424_930_132_039)],
        Told::Sound,
    ),
    // the second bucket, of this hash
    (
        &[(9, 131_072), (34, 0), (50, 844_424_930_132_039)],
        Told::Bad(40),
    ),
    // the second bucket of the other group, of this hash
    (
        &[(9, 131_072), (34, 0), (74, 844_424_930_132_039)],
        Told::Bad(64),
    ),
];

#[test]
fn two_groups(rt: HostRuntime) -> Result<(), Fail> {
    assert_eq!(rt; first_other(rt.alloc(), &TWO_GROUPS, RULES)?, None);
    Ok(())
}
