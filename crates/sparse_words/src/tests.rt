//! Words of several chunks.
use crate::SparseWords;
use std::test::Fail;

// 20,000 words in three chunks. Each row is an address and a word: put there, and then read there.
#[test]
fn words_of_three_chunks(rt: HostRuntime) -> Result<(), Fail> {
    let put = [(0, 7), (8191, 8), (8192, u64::MAX), (19999, 10), (8191, 11)];
    let read = [
        (0, 7),
        (1, 0),
        (8191, 11),
        (8192, u64::MAX),
        (8193, 0),
        (16383, 0),
        (16384, 0),
        (19998, 0),
        (19999, 10),
    ];
    let mut words = SparseWords::zeroed(rt.alloc(), 20_000)?;
    for (at, word) in put {
        words.reserve()?;
        if at < words.len() {
            words.set(at, word);
        }
    }
    for (at, word) in read {
        assert!(rt; at < words.len(), "{at}");
        assert_eq!(rt; words.get(at), word, "{at}");
    }
    Ok(())
}
