//! Namings of a child, with and without doubling.
ghost use Rattle.std.specs.Prelude.{◌≡◌, IfOk};

use crate::{NameOp, Named};
use node_words::Geometry;
use slot_word::Birth;
use std::alloc::{AllocError, Global};
use std::process::Abort;
use std::test::Fail;
use verb_log::Verb;
use verbs::{Machine, PlainNode, perform};

/// The split of the first table, word 4, of a memory of greatest depth 1, after its last Close: the address and the word of
/// what counts for the directory. The table's header shows depth 1, and its child at 51 has its birth.
const CLOSED: [(u64, u64); 3] = [(8, 51), (5, 257), (51, 67_109_121)];

/// The child's birth.
const BIRTH: Birth = Birth {
    depth: 1,
    suffix: 1,
    parent: 4,
};

// Does the verb. None where the memory has no such address, or there is no room.
fn done(node: &mut PlainNode, verb: &Verb) -> Option<u64>
    requires { node.old.log.geometry.words ≡ 200 }
    ensures { node.new.log.geometry ≡ node.old.log.geometry }
{
    let place = match *verb {
        Verb::Read { at } => at,
        Verb::Write { at, .. } => at,
        Verb::Swap { at, .. } => at,
    };
    if node.reserve().is_err() || place >= 200 {
        return None;
    }
    Some(perform(node, verb))
}

// The node after the last Close.
fn closed(alloc: Global) -> Result<PlainNode, Fail>
    ensures { IfOk result (λ node. node.log.geometry.words ≡ 200) }
{
    let geometry = Geometry::check(1, 1, 0, 1, 200)?;
    let mut node = PlainNode::make(alloc, geometry)?;
    for (at, word) in CLOSED {
        if done(&mut node, &Verb::Write { at, word }).is_none() {
            return Err("no such word".into());
        }
    }
    Ok(node)
}

// Of the worked split the verbs 49 to 55: the directory is doubled, the global depth becomes 1, and directory word 1 names
// the child.
#[test]
fn names_the_child_of_a_split(rt: HostRuntime) -> Result<(), Fail> {
    let verbs = [
        Verb::Read { at: 1 },
        Verb::Read { at: 2 },
        Verb::Swap {
            at: 3,
            expected: 0,
            word: 4,
        },
        Verb::Swap {
            at: 1,
            expected: 0,
            word: 1,
        },
        Verb::Read { at: 3 },
        Verb::Read { at: 4 },
        Verb::Swap {
            at: 3,
            expected: 4,
            word: 51,
        },
    ];
    let mut node = closed(rt.alloc())?;
    let mut op = NameOp::start(Geometry::check(1, 1, 0, 1, 200)?, 51, BIRTH);
    for verb in &verbs {
        assert!(rt; op.next() == Some(*verb), "{verb:?}");
        let word = done(&mut node, verb).ok_or("no such word")?;
        if op.next().is_some() {
            op.feed(word);
        }
    }
    assert!(rt; op.next().is_none());
    assert!(rt; op.outcome() == Some(Named { depth: 1 }));
    let words = [(1, 1), (2, 4), (3, 51)];
    for (at, word) in words {
        assert!(rt;
            done(&mut node, &Verb::Read { at }) == Some(word),
            "word {at}"
        );
    }
    Ok(())
}

// Feeds the answers while there is a verb; the verbs that were done.
fn fed(alloc: Global, op: &mut NameOp, answers: &[u64]) -> Result<Vec<Verb>, AllocError> {
    let mut verbs = Vec::new(alloc);
    for &word in answers {
        let Some(verb) = op.next() else {
            return Ok(verbs);
        };
        verbs.push(verb)?;
        op.feed(word);
    }
    Ok(verbs)
}

// A read of a word.
fn read(at: u64) -> Verb {
    Verb::Read { at }
}

// A swap of a word.
fn swap(at: u64, expected: u64, word: u64) -> Verb {
    Verb::Swap { at, expected, word }
}

// A child at 100 is named in a directory of greatest depth 2, whose first table is word 6; a birth word below 17 is a birth
// of that depth. What is answered, and which verbs are done.
#[test]
fn words_that_others_name(rt: HostRuntime) -> Result<(), Fail> {
    let geometry = Geometry::check(1, 2, 0, 1, 200)?;
    let rows: [(u32, u64, &[u64], &[Verb], u32); 9] = [
        // The directory is deeper than the parent was: two words have the suffix, and the second names a deeper table.
        (
            1,
            1,
            &[2, 6, 0, 6, 53, 2],
            &[
                read(1),
                read(3),
                read(6),
                swap(3, 6, 100),
                read(5),
                read(53),
            ],
            2,
        ),
        // A lost Name found a table that was born as deep.
        (
            2,
            3,
            &[2, 6, 0, 53, 2],
            &[read(1), read(5), read(6), swap(5, 6, 100), read(53)],
            2,
        ),
        // A lost Name found a table that was born less deep: the word is looked at again.
        (
            2,
            3,
            &[2, 6, 0, 53, 1, 53],
            &[
                read(1),
                read(5),
                read(6),
                swap(5, 6, 100),
                read(53),
                swap(5, 53, 100),
            ],
            2,
        ),
        // No legal log loses so often: the word is passed over.
        (
            1,
            3,
            &[1, 6, 0, 7, 0, 8],
            &[
                read(1),
                read(3),
                read(6),
                swap(3, 6, 100),
                read(7),
                swap(3, 7, 100),
            ],
            1,
        ),
        // The directory is not as deep as the parent was.
        (2, 3, &[0], &[read(1)], 0),
        // Another has made it deeper meanwhile: a lost word and a lost depth.
        (
            1,
            1,
            &[0, 6, 53, 2, 53, 1, 53, 1],
            &[
                read(1),
                read(2),
                swap(3, 0, 6),
                swap(1, 0, 1),
                read(3),
                read(53),
                read(5),
                read(53),
            ],
            2,
        ),
        // Two lower words are named in the upper half.
        (
            2,
            2,
            &[1, 6, 0, 53, 0, 1, 6, 0, 6],
            &[
                read(1),
                read(2),
                swap(4, 0, 6),
                read(3),
                swap(5, 0, 53),
                swap(1, 1, 2),
                read(4),
                read(6),
                swap(4, 6, 100),
            ],
            2,
        ),
        // The parent was as deep as may be, which no legal log has.
        (3, 3, &[2], &[read(1)], 2),
        // A depth that no legal log has.
        (2, 1, &[9, 53, 2], &[read(1), read(3), read(53)], 2),
    ];
    for (depth, suffix, answers, verbs, deep) in rows {
        let birth = Birth {
            depth,
            suffix,
            parent: 6,
        };
        let mut op = NameOp::start(geometry, 100, birth);
        let were = fed(rt.alloc(), &mut op, answers)?;
        assert!(rt; were.as_slice() == verbs, "verbs at {answers:?}");
        assert!(rt;
            op.outcome() == Some(Named { depth: deep }),
            "end at {answers:?}"
        );
        assert!(rt; op.next().is_none(), "verb at {answers:?}");
    }
    Ok(())
}
