//! The image of a log without an entry: one group, depth 0 and one node of 100 words, without a listed key. Word 0 is number 7.
use super::{Told, audited, spelled};
use key_hash::Listed;
use node_image::{Imaged, image_of};
use node_words::Geometry;
use std::test::Fail;
use verb_log::Log;

/// The head, the next word, the global depth, the directory word, the table.
const OPENING: [u64; 54] = [
    3_550_891_808_294_912_338,
    1,
    0,
    0,
    1,
    100,
    0,
    47,
    0,
    3,
    0,
    256,
    0,
    0,
    0,
    0,
    0,
    0,
    0,
    0,
    0,
    0,
    0,
    0,
    0,
    0,
    0,
    0,
    0,
    0,
    256,
    0,
    0,
    0,
    0,
    0,
    0,
    0,
    0,
    0,
    0,
    0,
    0,
    0,
    0,
    0,
    256,
    0,
    0,
    0,
    0,
    0,
    0,
    0,
];

#[test]
fn opening(rt: HostRuntime) -> Result<(), Fail> {
    let alloc = rt.alloc();
    let wanted = spelled(alloc, &OPENING)?;
    assert_eq!(rt; audited(alloc, &wanted)?, Told::Sound);
    if let Ok(geometry) = Geometry::check(1, 0, 0, 1, 100) {
        let listed = Listed::new(alloc)?;
        let log = Log::new(alloc, geometry);
        if let Imaged::Bytes(bytes) = image_of(alloc, &log, &geometry, &listed)? {
            assert_eq!(rt; bytes.as_slice(), wanted.as_slice());
            return Ok(());
        }
    }
    assert!(rt; false);
    Ok(())
}
