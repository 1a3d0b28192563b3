//! Whole splits, and their first half.
use super::{
    CHILD, COPY, INSERTED, LEAVES, LIVE, MOVED, Other, TABLE, node_with, run, sizes, word_at,
};
use kv_block::Key;
use remote_resize::{BeginOp, ResizeOp};
use scan_pass::{Pass, PassMode};
use split_text::{BeginOutcome, ResizeOutcome};
use std::alloc::{AllocError, Global};
use std::process::Abort;
use std::test::Fail;
use verb_log::Verb;

/// The walk, and the verbs 5 to 25, up to the Clear of the first slot.
const WALK: [Verb; 4] = [
    Verb::Read { at: 1 },
    Verb::Read { at: 2 },
    Verb::Read { at: 5 },
    Verb::Read { at: 24 },
];

const BEFORE_THE_SLOTS: [Verb; 21] = [
    Verb::Swap {
        at: 6,
        expected: 0,
        word: 1,
    },
    Verb::Read { at: 5 },
    Verb::Read { at: 0 },
    Verb::Swap {
        at: 0,
        expected: 51,
        word: 95,
    },
    Verb::Write {
        at: 51,
        word: 67_109_121,
    },
    Verb::Write { at: 52, word: 769 },
    Verb::Write { at: 53, word: 1 },
    Verb::Write { at: 71, word: 769 },
    Verb::Write { at: 87, word: 769 },
    Verb::Swap {
        at: 8,
        expected: 0,
        word: 51,
    },
    Verb::Swap {
        at: 24,
        expected: 256,
        word: 512,
    },
    Verb::Swap {
        at: 40,
        expected: 256,
        word: 512,
    },
    Verb::Swap {
        at: 5,
        expected: 256,
        word: 512,
    },
    Verb::Read { at: 25 },
    Verb::Read { at: 48 },
    Verb::Read { at: 49 },
    Verb::Read { at: 50 },
    Verb::Swap {
        at: 72,
        expected: 0,
        word: COPY,
    },
    Verb::Swap {
        at: 25,
        expected: LIVE,
        word: MOVED,
    },
    Verb::Swap {
        at: 72,
        expected: COPY,
        word: LIVE,
    },
    Verb::Swap {
        at: 25,
        expected: MOVED,
        word: 0,
    },
];

/// The other slots, and the verbs 46 to 60.
const SLOTS: [u64; 20] = [
    26, 27, 28, 29, 30, 31, 33, 34, 35, 36, 37, 38, 39, 41, 42, 43, 44, 45, 46, 47,
];

const AFTER_THE_SLOTS: [Verb; 15] = [
    Verb::Swap {
        at: 5,
        expected: 512,
        word: 257,
    },
    Verb::Swap {
        at: 24,
        expected: 512,
        word: 257,
    },
    Verb::Swap {
        at: 40,
        expected: 512,
        word: 257,
    },
    Verb::Read { at: 1 },
    Verb::Read { at: 2 },
    Verb::Swap {
        at: 3,
        expected: 0,
        word: 4,
    },
    Verb::Swap {
        at: 1,
        expected: 0,
        word: 1,
    },
    Verb::Read { at: 3 },
    Verb::Read { at: 4 },
    Verb::Swap {
        at: 3,
        expected: 4,
        word: 51,
    },
    Verb::Swap {
        at: 71,
        expected: 769,
        word: 257,
    },
    Verb::Swap {
        at: 87,
        expected: 769,
        word: 257,
    },
    Verb::Swap {
        at: 52,
        expected: 769,
        word: 257,
    },
    Verb::Swap {
        at: 6,
        expected: 1,
        word: 0,
    },
    Verb::Swap {
        at: 53,
        expected: 1,
        word: 0,
    },
];

/// How a split is to end: at which table and depth; with which number read of the node.
#[derive(Clone, Copy, PartialEq)]
enum Wanted {
    Split(u64, u32),
    Changed,
    Locked,
    /// Again, with no ticket.
    Again,
    /// Again, with a ticket.
    Kept,
    FullWords(u64),
}

// How a split has ended.
fn told(outcome: ResizeOutcome) -> Wanted {
    match outcome {
        ResizeOutcome::Split { table, depth } => Wanted::Split(table, depth),
        ResizeOutcome::Changed => Wanted::Changed,
        ResizeOutcome::Locked => Wanted::Locked,
        ResizeOutcome::Again { ticket } => {
            if ticket.is_some() {
                Wanted::Kept
            } else {
                Wanted::Again
            }
        }
        ResizeOutcome::FullWords { next, need } => {
            Wanted::FullWords(if need == 44 { next.get(0) } else { 0 })
        }
    }
}

// The verbs 5 to 60.
fn split_verbs(alloc: Global) -> Result<Vec<Verb>, AllocError> {
    let mut verbs = Vec::new(alloc);
    for verb in BEFORE_THE_SLOTS {
        verbs.push(verb)?;
    }
    for at in SLOTS {
        verbs.push(Verb::Read { at })?;
    }
    for verb in AFTER_THE_SLOTS {
        verbs.push(verb)?;
    }
    Ok(verbs)
}

// The verbs 1 to 60 of a whole split with one key in the first slot.
#[test]
fn splits_a_table(rt: HostRuntime) -> Result<(), Fail> {
    let wanted = split_verbs(rt.alloc())?;
    let key = Key::from_bytes(b"k").ok_or("no key")?;
    let mut node = node_with(rt.alloc(), &INSERTED)?;
    let mut pass = Pass::start(sizes()?, None, &key, LEAVES, PassMode::Walk);
    let walked = run(rt.alloc(), &mut node, &mut pass, LEAVES, &[])?;
    assert!(rt; walked.as_slice() == WALK.as_slice(), "the walk");
    let mut split = ResizeOp::start(sizes()?, 0, pass.table(), pass.head().depth, 0, 1);
    let verbs = run(rt.alloc(), &mut node, &mut split, LEAVES, &[])?;
    assert!(rt; verbs.as_slice() == wanted.as_slice(), "{verbs:?}");
    let outcome = split.outcome().ok_or("no end")?;
    assert!(rt;
        told(outcome) == Wanted::Split(TABLE, 1) && split.lost() == 0,
        "the end"
    );
    Ok(())
}

// Which words others write before which verbs of a split of this depth, that may lose so many swaps; its verbs, its end, and
// how many swaps it lost.
#[test]
fn begins_or_tells_why_not(rt: HostRuntime) -> Result<(), Fail> {
    let rows: [(&[Other], u32, u32, usize, Wanted, u32); 13] = [
        (&[], 0, 1, 56, Wanted::Split(TABLE, 1), 0),
        // others begin a bucket header, and all of it
        (&[(11, 24, 512)], 0, 1, 56, Wanted::Split(TABLE, 1), 0),
        (
            &[(11, 24, 512), (11, 40, 512), (11, 5, 512)],
            0,
            1,
            56,
            Wanted::Split(TABLE, 1),
            0,
        ),
        // the lock is another's
        (&[(1, 6, 2)], 0, 2, 1, Wanted::Locked, 1),
        (&[(1, 6, 2)], 0, 1, 1, Wanted::Again, 1),
        // the table is deeper than it was, or as deep as may be
        (&[(1, 5, 257)], 0, 1, 3, Wanted::Changed, 0),
        (&[(1, 5, 257)], 1, 1, 3, Wanted::Changed, 0),
        // the words of a table are there to the last, or one is missing
        (&[(3, 0, 156)], 0, 1, 56, Wanted::Split(TABLE, 1), 0),
        (&[(3, 0, 157)], 0, 1, 4, Wanted::FullWords(157), 0),
        // the Take is lost to another's
        (&[(4, 0, 60)], 0, 2, 57, Wanted::Split(TABLE, 1), 1),
        (&[(4, 0, 60)], 0, 1, 5, Wanted::Again, 1),
        // .. which leaves too few words
        (&[(4, 0, 160)], 0, 2, 5, Wanted::FullWords(160), 1),
        // no tries are left for the third
        (
            &[(4, 0, 60), (5, 0, 70), (6, 0, 80)],
            0,
            3,
            7,
            Wanted::Again,
            3,
        ),
    ];
    for (others, depth, tries, count, wanted, lost) in rows {
        if tries == 0 {
            return Err("no tries".into());
        }
        let mut node = node_with(rt.alloc(), &INSERTED)?;
        let mut split = ResizeOp::start(sizes()?, 0, TABLE, depth, 0, tries);
        let verbs = run(rt.alloc(), &mut node, &mut split, LEAVES, others)?;
        assert!(rt; verbs.len() == count, "verbs at {others:?}: {verbs:?}");
        let outcome = split.outcome().ok_or("no end")?;
        assert!(rt;
            told(outcome) == wanted && split.lost() == lost,
            "end at {others:?}"
        );
        assert!(rt; word_at(&mut node, 6) != Some(1), "lock at {others:?}");
    }
    Ok(())
}

// The first half alone: it ends with the child, and the table is splitting.
#[test]
fn opens_a_split(rt: HostRuntime) -> Result<(), Fail> {
    let mut node = node_with(rt.alloc(), &INSERTED)?;
    let mut begin = BeginOp::start(sizes()?, 2, TABLE, 0, 0, 1);
    assert!(rt; begin.outcome().is_none());
    let verbs = run(rt.alloc(), &mut node, &mut begin, LEAVES, &[])?;
    let begun = matches!(begin.outcome(), Some(BeginOutcome::Begun { child: CHILD }));
    assert!(rt;
        begun && verbs.len() == 13 && begin.lost() == 0,
        "{verbs:?}"
    );
    let words = [(5, 512), (6, 3), (8, CHILD), (52, 769), (53, 3), (87, 769)];
    for (at, word) in words {
        assert!(rt; word_at(&mut node, at) == Some(word), "word {at}");
    }
    Ok(())
}
