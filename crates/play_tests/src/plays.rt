//! What the tests of both kinds of plays share.

use race_io::{MemorySink, MemorySource, OpenGate};
use race_play::race;
use std::alloc::{AllocError, Global};
use std::process::Abort;
use std::thread::Threads;

/// One client inserts a key, finds it, and misses another.
pub const SMALLEST_RUN_SCRIPT: &[u8] = b"race 1\n\
    table groups=1 depth=0 words=100 tries=3\n\
    client a\n\
    insert k 1\n\
    search k\n\
    search j\n\
    end\n";

/// Does a command of one word on a script, from a source and to a sink some of whose calls fail: the status, and that the sink took
/// this. A log is told where the script was played.
pub fn expect<R: Abort + Threads + Sync>(
    rt: &R,
    alloc: Global,
    word: &str,
    script: &[u8],
    takes: &[u64],
    puts: &[u64],
    room: usize,
    status: u8,
    written: &[u8],
) -> Result<(), AllocError> {
    let mut source = MemorySource::new(script, takes);
    let mut sink = MemorySink::new(vec![in alloc; 0u8; room]?, puts);
    let ended = race(rt, alloc, &[word], &mut source, &mut sink, &OpenGate);
    assert_eq!(rt; ended.status, status);
    assert_eq!(rt; ended.front.is_some(), status == 0 || status == 5);
    assert_eq!(rt; sink.taken(), written);
    Ok(())
}

/// Texts, one after another.
pub fn joined(alloc: Global, parts: &[&str]) -> Result<Vec<u8>, AllocError> {
    let mut text = Vec::new(alloc);
    for part in parts {
        text.extend_from_slice(part.as_bytes())?;
    }
    Ok(text)
}
