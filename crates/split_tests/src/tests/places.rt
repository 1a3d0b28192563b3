//! The judging of one place.
use super::{
    CHILD, COPY, INSERTED, LATER, LATER_COPY, LEAVES, LIVE, MOVED, Other, PENDING, STAYS, TABLE,
    node_with, run, sizes, word_at,
};
use remote_resize::MoveOp;
use slot_word::Birth;
use split_text::MoveOutcome;
use std::process::Abort;
use std::test::Fail;

// What stands in the first slot, in the table and in the child; the hash of its key; which words others write before which verbs;
// how many swaps may be lost. The verbs, how the place is left, how many swaps were lost, and what stands there then.
#[test]
fn judges_a_place(rt: HostRuntime) -> Result<(), Fail> {
    let rows: [(
        (u64, u64),
        u64,
        &[Other],
        u32,
        usize,
        MoveOutcome,
        u32,
        (u64, u64),
    ); 14] = [
        // no key, and one that stays, also beside a copy
        ((0, 0), LEAVES, &[], 1, 1, MoveOutcome::Done, 0, (0, 0)),
        ((0, COPY), LEAVES, &[], 1, 2, MoveOutcome::Done, 0, (0, 0)),
        ((LIVE, 0), STAYS, &[], 1, 4, MoveOutcome::Done, 0, (LIVE, 0)),
        (
            (LIVE, LATER_COPY),
            STAYS,
            &[],
            1,
            5,
            MoveOutcome::Done,
            0,
            (LIVE, 0),
        ),
        // a pending word is dropped, and its copy before it
        (
            (PENDING, 0),
            LEAVES,
            &[],
            1,
            5,
            MoveOutcome::Done,
            0,
            (0, 0),
        ),
        (
            (PENDING, COPY),
            LEAVES,
            &[],
            1,
            6,
            MoveOutcome::Done,
            0,
            (0, 0),
        ),
        (
            (PENDING, 0),
            STAYS,
            &[],
            1,
            4,
            MoveOutcome::Done,
            0,
            (PENDING, 0),
        ),
        // the Drop is lost to the Commit, and the live word moves
        (
            (PENDING, 0),
            LEAVES,
            &[(5, 25, LIVE)],
            2,
            11,
            MoveOutcome::Moved,
            1,
            (MOVED, LIVE),
        ),
        (
            (PENDING, 0),
            LEAVES,
            &[(5, 25, LIVE)],
            1,
            5,
            MoveOutcome::Spent,
            1,
            (LIVE, 0),
        ),
        // a live word moves, also over the copy of another block, and where others settle it
        (
            (LIVE, 0),
            LEAVES,
            &[],
            1,
            7,
            MoveOutcome::Moved,
            0,
            (MOVED, LIVE),
        ),
        (
            (LIVE, LATER_COPY),
            LEAVES,
            &[],
            1,
            7,
            MoveOutcome::Moved,
            0,
            (MOVED, LIVE),
        ),
        (
            (LIVE, 0),
            LEAVES,
            &[(7, 72, LIVE)],
            1,
            7,
            MoveOutcome::Moved,
            0,
            (MOVED, LIVE),
        ),
        // the Copy is lost: the key was removed, and its place in the child used by another
        (
            (LIVE, 0),
            LEAVES,
            &[(5, 25, 0), (5, 72, LATER)],
            1,
            6,
            MoveOutcome::Done,
            0,
            (0, LATER),
        ),
        // the Flip is lost to a Remove, and the copy is taken away
        (
            (LIVE, 0),
            LEAVES,
            &[(6, 25, 0)],
            2,
            7,
            MoveOutcome::Done,
            1,
            (0, 0),
        ),
    ];
    for ((word, standing), hash, others, tries, count, wanted, lost, (left, copied)) in rows {
        if tries == 0 {
            return Err("no tries".into());
        }
        let mut node = node_with(rt.alloc(), &INSERTED)?;
        let both = [(1, 25, word), (1, 72, standing)];
        let before = super::write_before(&mut node, 1, &both);
        assert!(rt; before.is_some());
        let birth = Birth {
            depth: 1,
            suffix: 1,
            parent: TABLE,
        };
        let mut place = MoveOp::start(sizes()?, CHILD, birth, 1, standing, tries);
        let verbs = run(rt.alloc(), &mut node, &mut place, hash, others)?;
        assert!(rt;
            verbs.len() == count,
            "verbs at {word} {others:?}: {verbs:?}"
        );
        assert!(rt;
            place.outcome() == Some(wanted) && place.lost() == lost && place.standing() == 0,
            "end at {word} {others:?}"
        );
        assert!(rt;
            word_at(&mut node, 25) == Some(left) && word_at(&mut node, 72) == Some(copied),
            "words at {word} {others:?}"
        );
    }
    Ok(())
}
