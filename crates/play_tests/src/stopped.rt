//! A client that stops for ever in the middle of its split, after each number of its verbs: the searches of another client find what
//! they would have found, and nothing is lost.

use crate::plays::{expect, joined};
use std::alloc::{AllocError, Global};
use std::test::Fail;

/// The verbs of the split: after the last one it has answered.
const SPLIT_VERBS: u32 = 60;

/// The verbs up to the one that takes the words of the child.
const TAKEN_AFTER: u32 = 8;

// `m` splits the table of `k` and stops after so many verbs; `r` searches after Copy, after Flip, after Settle, and then.
fn script(alloc: Global, verbs: u32) -> Result<Vec<u8>, AllocError> {
    let number = format!(in alloc; "{verbs}")?;
    joined(
        alloc,
        &[
            "race 1\n\
            table groups=1 depth=1 words=200 tries=3\n\
            hash k 0000000000000001\n\
            client s\n\
            insert k 1\n\
            client m\n\
            resize k\n\
            client r\n\
            search k\n\
            search k\n\
            search k\n\
            search k\n\
            stop m ",
            &number,
            "\nschedule s! m*22 r! m r! m r! m! r!\nend\n",
        ],
    )
}

// What is told then: a call that has done no verb has no line, and one that has not answered is open.
fn report(alloc: Global, verbs: u32) -> Result<Vec<u8>, AllocError> {
    let (line, end) = match verbs {
        0 => ("", "end calls=5 open=0 "),
        SPLIT_VERBS => ("m 1 resize k split 4 1\n", "end calls=6 open=0 "),
        _ => ("m 1 resize k open\n", "end calls=5 open=1 "),
    };
    let next = if verbs < TAKEN_AFTER {
        "changes=1 next=51\n"
    } else {
        "changes=1 next=95\n"
    };
    joined(
        alloc,
        &[
            "race 1 replay\ns 1 insert k 1 inserted @0\n",
            line,
            "r 1 search k found 1 @1\n\
            r 2 search k found 1 @1\n\
            r 3 search k found 1 @1\n\
            r 4 search k found 1 @1\n\
            map k 1\n",
            end,
            next,
        ],
    )
}

#[test]
fn a_stop_after_each_verb(rt: HostRuntime) -> Result<(), Fail> {
    for verbs in 0..=SPLIT_VERBS {
        let script = script(rt.alloc(), verbs)?;
        let report = report(rt.alloc(), verbs)?;
        expect(
            &rt,
            rt.alloc(),
            "replay",
            &script,
            &[],
            &[],
            4096,
            0,
            &report,
        )?;
    }
    Ok(())
}
