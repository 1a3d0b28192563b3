//! The command `image`: the image of one key, with sources and sinks that fail.

use crate::plays::expect;
use byteorder::{ByteOrder, LittleEndian};
use std::alloc::{AllocError, Global};
use std::test::Fail;

/// The smallest run with the hash of its key, which an image lists.
const ONE_KEY_SCRIPT: &[u8] = b"race 1\n\
    table groups=1 depth=0 words=100 tries=3\n\
    hash k 0000000000000000\n\
    client a\n\
    insert k 1\n\
    search k\n\
    search j\n\
    end\n";

/// How many numbers the image of one key has.
const NUMBERS: usize = 60;

/// Its numbers that are not 0, each by its place: the first word of the node is number 10.
const ONE_KEY: [(usize, u64); 16] = [
    // the name of the format, and the sizes
    (0, 3_550_891_808_294_912_338),
    (1, 1),
    (4, 1),
    (5, 100),
    // the listed key with hash 0
    (6, 1),
    (7, 1),
    (8, 107),
    // the next word, the global depth and the directory
    (10, 50),
    (12, 3),
    (14, 256),
    // the table: its bucket headers, and the slot of the key
    (33, 256),
    (34, 844_424_930_132_015),
    (49, 256),
    // the block
    (57, 65_537),
    (58, 107),
    (59, 49),
];

// The bytes of that image.
fn one_key(alloc: Global) -> Result<Vec<u8>, AllocError> {
    let mut numbers = [0u64; NUMBERS];
    for (place, number) in ONE_KEY {
        if let Some(it) = numbers.get_mut(place) {
            *it = number;
        }
    }
    let mut bytes = Vec::new(alloc);
    for number in numbers {
        let mut eight = [0; 8];
        LittleEndian::write_u64(&mut eight, number);
        bytes.extend_from_slice(&eight)?;
    }
    Ok(bytes)
}

// The whole script comes at the first take, and the second finds its end; the whole image goes at the first put.
#[test]
fn one_key_and_faults(rt: HostRuntime) -> Result<(), Fail> {
    let image = one_key(rt.alloc())?;
    for (takes, puts, room, status, len) in [
        ([].as_slice(), [].as_slice(), 480, 0, 480),
        (&[1], &[], 480, 4, 0),
        (&[2], &[], 480, 4, 0),
        (&[3], &[], 480, 0, 480),
        (&[4], &[], 480, 0, 480),
        (&[], &[1], 480, 5, 0),
        (&[], &[2], 480, 0, 480),
        (&[], &[3], 480, 0, 480),
        (&[], &[4], 480, 0, 480),
        (&[], &[], 10, 5, 10),
    ] {
        if len > image.len() {
            return Err("a short image".into());
        }
        let written = &image[..len];
        expect(
            &rt,
            rt.alloc(),
            "image",
            ONE_KEY_SCRIPT,
            takes,
            puts,
            room,
            status,
            written,
        )?;
    }
    Ok(())
}
