//! The command `audit` on the image of one key, as it is and spoiled, with sources and sinks that fail.
use super::one_key::ONE_KEY;
use super::{changed, spelled};
use image_commands::audit;
use race_io::{MemorySink, MemorySource};
use std::alloc::{AllocError, Global};
use std::process::Abort;
use std::test::Fail;

/// The map of the image of one key.
const MAP: &[u8] = b"race audit\nmap k 1\nkeys 1\n";

/// Numbers of the image that are changed, each by its place; the status, and what is written.
type Row = (&'static [(usize, u64)], u8, &'static [u8]);

const SPOILED: &[Row] = &[
    (&[], 0, MAP),
    // word 49 raised by 256
    (&[(59, 305)], 8, b"bad 24\n"),
    // word 25 made equal to word 24
    (&[(35, 844_424_930_132_015)], 8, b"bad 25\n"),
    // word 5 made 1
    (&[(15, 1)], 8, b"bad 5\n"),
];

/// Audits bytes from a source and to a sink some of whose calls fail: the status, and what the sink took.
fn expect<R: Abort>(
    rt: &R,
    alloc: Global,
    bytes: &[u8],
    takes: &[u64],
    puts: &[u64],
    room: usize,
    status: u8,
    written: &[u8],
) -> Result<(), AllocError> {
    let mut source = MemorySource::new(bytes, takes);
    let mut sink = MemorySink::new(vec![in alloc; 0u8; room]?, puts);
    assert_eq!(rt; audit(alloc, &mut source, &mut sink), status);
    assert_eq!(rt; sink.taken(), written);
    Ok(())
}

#[test]
fn spoiled_images(rt: HostRuntime) -> Result<(), Fail> {
    let alloc = rt.alloc();
    for i in 0..SPOILED.len() {
        let (changes, status, written) = SPOILED[i];
        let bytes = spelled(alloc, &changed(alloc, &ONE_KEY, changes)?)?;
        expect(&rt, alloc, &bytes, &[], &[], 64, status, written)?;
    }
    Ok(())
}

#[test]
fn lengths(rt: HostRuntime) -> Result<(), Fail> {
    let alloc = rt.alloc();
    let mut bytes = spelled(alloc, &ONE_KEY)?;
    let refused = b"refused image\n";
    let len = bytes.len();
    if len > 0 {
        expect(&rt, alloc, &bytes[..len - 1], &[], &[], 64, 3, refused)?;
    }
    bytes.push(0)?;
    expect(&rt, alloc, &bytes, &[], &[], 64, 3, refused)?;
    Ok(())
}

// The whole image comes at the first take, and the second finds its end; the whole text goes at the first put.
#[test]
fn faults(rt: HostRuntime) -> Result<(), Fail> {
    let alloc = rt.alloc();
    let bytes = spelled(alloc, &ONE_KEY)?;
    for (takes, puts, status, written) in [
        ([1].as_slice(), [].as_slice(), 4, b"".as_slice()),
        (&[2], &[], 4, b""),
        (&[3], &[], 0, MAP),
        (&[4], &[], 0, MAP),
        (&[], &[1], 5, b""),
        (&[], &[2], 0, MAP),
        (&[], &[3], 0, MAP),
        (&[], &[4], 0, MAP),
    ] {
        expect(&rt, alloc, &bytes, takes, puts, 64, status, written)?;
    }
    expect(&rt, alloc, &bytes, &[], &[], 10, 5, b"race audit")?;
    let bad = spelled(alloc, &changed(alloc, &ONE_KEY, &[(15, 1)])?)?;
    expect(&rt, alloc, &bad, &[], &[1], 64, 8, b"")?;
    expect(&rt, alloc, b"RACEIMG1", &[], &[], 3, 3, b"ref")?;
    Ok(())
}
