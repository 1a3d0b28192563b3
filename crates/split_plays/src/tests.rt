//! A split, a change between its verbs, and the call that goes on with it.

use map_model::Reply;
use race_play::play_replay;
use std::alloc::{AllocError, Global};
use std::test::Fail;
use trace_script::{Line, read_script};

/// A split has 60 verbs, and those that it does anew after a change.
const LAST_VERB: u32 = 75;

// A script of two clients: `a` inserts `k`, splits its table and splits it again; after so many verbs of the first split `b` makes
// its change and looks. No swap may be lost twice.
fn script(alloc: Global, hash: &[u8], verbs: u32, change: &[u8]) -> Result<Vec<u8>, AllocError> {
    let mut text = Vec::new(alloc);
    let number = format!(in alloc; "{verbs}")?;
    for part in [
        b"race 1\ntable groups=1 depth=1 words=400 tries=1\nhash k ".as_slice(),
        hash,
        b"\nclient a\ninsert k 1\nresize k\nresize k\nclient b\n",
        change,
        b"\nsearch k\nschedule a! a*",
        number.as_bytes(),
        b" b! b!\nend\n",
    ] {
        text.extend_from_slice(part)?;
    }
    Ok(text)
}

// The replies to the calls of the script. None where there are not five.
fn replies(alloc: Global, script: &[u8]) -> Result<Option<[Reply; 5]>, Fail> {
    let Ok(script) = read_script(alloc, script) else {
        return Ok(None);
    };
    let played = play_replay(alloc, &script)?;
    let lines: Vec<Line> = played.lines.unpacked(alloc)?;
    let mut all = [Reply::Missing; 5];
    for (i, line) in lines.iter().enumerate() {
        if let (Some(reply), Some(place)) = (line.reply, all.get_mut(i)) {
            *place = reply;
        }
    }
    Ok((lines.len() == 5).then_some(all))
}

// Whether the split was done: at once, after which the table is as deep as may be; or by the call that goes on with the ticket of the
// one that had lost its swap.
fn is_split_once(first: &Reply, second: &Reply) -> bool {
    matches!(
        (first, second),
        (Reply::Split { .. }, Reply::FullDepth { depth: 1 })
            | (Reply::Again { lost: 1 }, Reply::Split { .. })
    )
}

// Plays the script with a change after each number of verbs, of a key with this hash. Whether some change made the split lose a swap.
fn play_all(
    alloc: Global,
    hash: &[u8],
    change: &[u8],
    changed: &Reply,
    found: &Reply,
) -> Result<bool, Fail> {
    let mut lost = false;
    for verbs in 2..=LAST_VERB {
        let script = script(alloc, hash, verbs, change)?;
        let [inserted, first, second, other, last] = replies(alloc, &script)?.ok_or(
            "no five lines",
        )?;
        if inserted != Reply::Inserted || other != *changed || last != *found {
            return Err("another map".into());
        }
        if !is_split_once(&first, &second) {
            return Err("no split".into());
        }
        lost = lost || matches!(first, Reply::Again { .. });
    }
    Ok(lost)
}

// A key that leaves its table for the child, and one that stays, replaced or removed after each of so many verbs. An update also takes
// words, which the split may lose its own Take to.
#[test]
fn a_change_after_each_verb(rt: HostRuntime) -> Result<(), Fail> {
    let one = kv_block::Value::from_bytes(b"1").ok_or("no value")?;
    let two = kv_block::Value::from_bytes(b"2").ok_or("no value")?;
    for (hash, may_lose_to_delete) in [
        (b"0000000000000001".as_slice(), true),
        (b"0000000000000000".as_slice(), false),
    ] {
        let replaced = play_all(
            rt.alloc(),
            hash,
            b"update k 2",
            &Reply::Updated(one),
            &Reply::Found(two),
        )?;
        let removed = play_all(
            rt.alloc(),
            hash,
            b"delete k",
            &Reply::Deleted(one),
            &Reply::Missing,
        )?;
        assert!(rt; replaced);
        assert_eq!(rt; removed, may_lose_to_delete);
    }
    Ok(())
}
