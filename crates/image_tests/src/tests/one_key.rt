//! An image of one group, depth 0 and one node of 100 words, with the key k in the slot at word 24. Word 0 is number 10.
use super::{Row, Told, audited, first_other, spelled};
use std::test::Fail;

/// The head, the listed key with hash 0, the next word, the global depth, the directory word, the table, the block.
pub(super) const ONE_KEY: [u64; 60] = [
    3_550_891_808_294_912_338,
    1,
    0,
    0,
    1,
    100,
    1,
    1,
    107,
    0,
    50,
    0,
    3,
    0,
    256,
    0,
    0,
    0,
    0,
    0,
    0,
    0,
    0,
    0,
    0,
    0,
    0,
    0,
    0,
    0,
    0,
    0,
    0,
    256,
    844_424_930_132_015,
    0,
    0,
    0,
    0,
    0,
    0,
    0,
    0,
    0,
    0,
    0,
    0,
    0,
    0,
    256,
    0,
    0,
    0,
    0,
    0,
    0,
    0,
    65_537,
    107,
    49,
];

/// The rules of sound words.
const RULES: &[Row] = &[
    // as it is
    (&[], Told::Sound),
    // birth
    (&[(13, 1)], Told::Bad(3)),
    // a header that splits
    (&[(14, 512)], Told::Bad(4)),
    // a header that fills
    (&[(14, 768)], Told::Bad(4)),
    // a lock that is held
    (&[(15, 1)], Told::Bad(5)),
    // word 3 of a table
    (&[(16, 1)], Told::Bad(6)),
    // a child at a depth that the table has not left
    (&[(17, 3)], Told::Bad(7)),
    // a child of level 15
    (&[(32, 3)], Told::Bad(22)),
    // a bucket header of another depth
    (&[(33, 257)], Told::Bad(23)),
    // a bucket header that splits
    (&[(49, 512)], Told::Bad(39)),
    // word 0 of an overflow bucket
    (&[(41, 1)], Told::Bad(31)),
    // a pending word
    (&[(34, 914_793_674_309_679)], Told::Bad(24)),
    // a copy
    (&[(34, 985_162_418_487_343)], Told::Bad(24)),
    // another fingerprint
    (&[(34, 72_902_018_968_059_951)], Told::Bad(24)),
    // a block behind the next word
    (&[(34, 844_424_930_132_016)], Told::Bad(24)),
    // another length
    (&[(34, 1_125_899_906_842_671)], Told::Bad(24)),
    // a block that begins in a table
    (&[(34, 844_424_930_132_014)], Told::Bad(24)),
    // a word of no block
    (&[(34, 140_737_488_355_328)], Told::Bad(24)),
    // a block at 0
    (&[(34, 844_424_930_131_968)], Told::Bad(24)),
    // the key twice
    (&[(35, 844_424_930_132_015)], Told::Bad(25)),
    // a block whose padding is not 0
    (&[(59, 305)], Told::Bad(24)),
    // a block of another key length
    (&[(57, 65_538)], Told::Bad(24)),
    // a global depth above the greatest
    (&[(11, 1)], Told::Bad(1)),
    // no directory word
    (&[(12, 0)], Told::Bad(2)),
    // a directory word that names no table
    (&[(12, 4)], Told::Bad(2)),
    // a directory word that names a block
    (&[(12, 47)], Told::Bad(2)),
    // another hash, which keeps the key at home
    (&[(9, 5)], Told::Sound),
];

/// The rules of well formed images.
const FORM: &[Row] = &[
    // another name
    (&[(0, 3_550_891_808_294_912_339)], Told::Malformed),
    // groups
    (&[(1, 3)], Told::Malformed),
    // groups above 32 bits
    (&[(1, 4_294_967_297)], Told::Malformed),
    // greatest depth
    (&[(2, 17)], Told::Malformed),
    // first depth
    (&[(3, 1)], Told::Malformed),
    // no nodes
    (&[(4, 0)], Told::Malformed),
    // nodes that do not divide the words
    (&[(4, 3)], Told::Malformed),
    // too few words
    (&[(5, 46)], Told::Malformed),
    // too many words
    (&[(5, 16_777_217)], Told::Malformed),
    // no listed key
    (&[(6, 0)], Told::Malformed),
    // two listed keys
    (&[(6, 2)], Told::Malformed),
    // 2^63 listed keys
    (&[(6, 9_223_372_036_854_775_808)], Told::Malformed),
    // a key of no bytes
    (&[(7, 0)], Told::Malformed),
    // a key of 65 bytes
    (&[(7, 65)], Told::Malformed),
    // a key of 9 bytes
    (&[(7, 9)], Told::Malformed),
    // a length above 16 bits
    (&[(7, 65_537)], Told::Malformed),
    // padding of a key
    (&[(8, 363)], Told::Malformed),
    // a next word below its opening
    (&[(10, 46)], Told::Malformed),
    // a word behind the next word
    (&[(10, 49)], Told::Malformed),
    // a word too few
    (&[(10, 51)], Told::Malformed),
    // a next word behind the node
    (&[(10, 101)], Told::Malformed),
    // the greatest next word
    (&[(10, 18_446_744_073_709_551_615)], Told::Malformed),
];

#[test]
fn one_key(rt: HostRuntime) -> Result<(), Fail> {
    assert_eq!(rt; first_other(rt.alloc(), &ONE_KEY, RULES)?, None);
    assert_eq!(rt; first_other(rt.alloc(), &ONE_KEY, FORM)?, None);
    Ok(())
}

#[test]
fn prefixes(rt: HostRuntime) -> Result<(), Fail> {
    let alloc = rt.alloc();
    let bytes = spelled(alloc, &ONE_KEY)?;
    for len in 0..bytes.len() {
        assert_eq!(rt; audited(alloc, &bytes[..len])?, Told::Malformed);
    }
    Ok(())
}
