//! Tests of takings: areas, lost Takes, nodes that are full. Their rules stand in docs/PROTOCOL.md, "Taking a block".
use block_taking::{Area, TakeEnd, TakeOp, TakeOutcome};
use kv_block::{Key, Value, write_block};
use map_model::Nexts;
use node_words::Geometry;
use std::process::Abort;
use std::test::Fail;
use verb_log::Verb;
use verbs::{Machine, PlainNode, perform};

/// No words are left.
const NO_AREA: Area = Area { at: 0, left: 0 };

/// An area with the words of two blocks, and one that lacks a word of a block.
const TWO: Area = Area { at: 100, left: 6 };

const FEW: Area = Area { at: 100, left: 2 };

/// An entry of another client: its address and its word.
type Put = (u64, u64);

// Does the verb. None where the memory has no such address, or there is no room.
fn done(node: &mut PlainNode, verb: &Verb) -> Option<u64> {
    let words = node.log().geometry().words;
    let place = match *verb {
        Verb::Read { at } => at,
        Verb::Write { at, .. } => at,
        Verb::Swap { at, .. } => at,
    };
    if node.reserve().is_err() || place >= words {
        return None;
    }
    Some(perform(node, verb))
}

// Runs the taking to its end, and counts its verbs. Before the verb of the number that is told another client writes a word.
fn run(node: &mut PlainNode, take: &mut TakeOp, number: u64, (at, word): Put) -> Option<u64> {
    for verbs in 0..100 {
        let Some(verb) = take.next() else {
            return Some(verbs);
        };
        if verbs + 1 == number {
            done(node, &Verb::Write { at, word })?;
        }
        let found = done(node, &verb)?;
        take.feed(found);
    }
    None
}

// How a taking has ended.
fn taken(at: u64, area: Area, left: u32) -> TakeEnd {
    TakeEnd {
        outcome: TakeOutcome::Taken { at },
        area,
        left,
    }
}

fn full(next: Nexts, left: u32) -> TakeEnd {
    TakeEnd {
        outcome: TakeOutcome::NoBlock { next, need: 3 },
        area: NO_AREA,
        left,
    }
}

// Of a taking of a block of three words, from a memory whose node 0 has its next word at 48 and the others behind their first:
// the nodes, the words of all, the client, the area, how many swaps may be lost, three words that were written before, before
// which of its verbs another client writes which word; its verbs, and how it ends.
#[test]
fn takes_and_ends(rt: HostRuntime) -> Result<(), Fail> {
    let none = [(0, 48); 3];
    let rows: [(u32, u64, u32, Area, u32, [Put; 3], (u64, Put), u64, TakeEnd); 14] = [
        // cut from the area's front; an area with too few words stays
        (
            1,
            200,
            0,
            TWO,
            1,
            none,
            (0, (0, 0)),
            3,
            taken(100, Area { at: 103, left: 3 }, 1),
        ),
        (
            1,
            200,
            0,
            NO_AREA,
            1,
            none,
            (0, (0, 0)),
            5,
            taken(48, NO_AREA, 1),
        ),
        (1, 200, 0, FEW, 1, none, (0, (0, 0)), 5, taken(48, FEW, 1)),
        // where 65,536 words are left it is given up for a new one
        (
            1,
            65_583,
            0,
            FEW,
            1,
            none,
            (0, (0, 0)),
            5,
            taken(48, FEW, 1),
        ),
        (
            1,
            65_584,
            0,
            FEW,
            1,
            none,
            (0, (0, 0)),
            5,
            taken(
                48,
                Area {
                    at: 51,
                    left: 1_021,
                },
                1,
            ),
        ),
        // the Take is lost
        (
            1,
            200,
            0,
            NO_AREA,
            2,
            none,
            (2, (0, 60)),
            6,
            taken(60, NO_AREA, 1),
        ),
        (
            1,
            200,
            0,
            NO_AREA,
            2,
            none,
            (2, (0, 198)),
            2,
            full(Nexts::one(198), 1),
        ),
        (
            1,
            200,
            0,
            NO_AREA,
            1,
            none,
            (2, (0, 60)),
            2,
            TakeEnd {
                outcome: TakeOutcome::Spent,
                area: NO_AREA,
                left: 0,
            },
        ),
        // the last words of a node, and one word too few
        (
            1,
            200,
            0,
            NO_AREA,
            1,
            [(0, 197); 3],
            (0, (0, 0)),
            5,
            taken(197, NO_AREA, 1),
        ),
        (
            1,
            200,
            0,
            NO_AREA,
            1,
            [(0, 198); 3],
            (0, (0, 0)),
            1,
            full(Nexts::one(198), 1),
        ),
        // three nodes, from the client's own on
        (
            3,
            600,
            5,
            NO_AREA,
            1,
            none,
            (0, (0, 0)),
            5,
            taken(401, NO_AREA, 1),
        ),
        (
            3,
            600,
            1,
            NO_AREA,
            1,
            [(200, 398), (400, 600), (0, 48)],
            (0, (0, 0)),
            7,
            taken(48, NO_AREA, 1),
        ),
        (
            3,
            600,
            1,
            NO_AREA,
            1,
            [(200, 398), (400, 600), (0, 199)],
            (0, (0, 0)),
            3,
            full(Nexts::one(199).with(398).with(600), 1),
        ),
        // a number that a lost Take found counts as read
        (
            3,
            600,
            1,
            NO_AREA,
            2,
            [(400, 600), (0, 199), (0, 199)],
            (2, (200, 399)),
            4,
            full(Nexts::one(199).with(399).with(600), 1),
        ),
    ];
    for (nodes, words, client, area, left, before, (number, put), verbs, wanted) in rows {
        let geometry = Geometry::check(1, 1, 0, nodes, words)?;
        let mut node = PlainNode::make(rt.alloc(), geometry)?;
        for (at, word) in before {
            done(&mut node, &Verb::Write { at, word }).ok_or("no such word")?;
        }
        let key = Key::from_bytes(b"k").ok_or("no key")?;
        let value = Value::from_bytes(b"v").ok_or("no value")?;
        let mut take = TakeOp::start(geometry, client, write_block(&key, &value), area, left);
        let ran = run(&mut node, &mut take, number, put);
        assert!(rt; ran == Some(verbs), "verbs of {wanted:?}");
        assert!(rt;
            take.has_ended() && take.outcome() == Some(wanted),
            "end {wanted:?}"
        );
        if let TakeOutcome::Taken { at } = wanted.outcome {
            assert!(rt; take.is_taken() && take.taken_at() == at, "block {at}");
            assert!(rt;
                done(&mut node, &Verb::Read { at }) == Some(65_537),
                "words at {at}"
            );
        }
        assert!(rt;
            take.area() == wanted.area && take.need() == 3,
            "area {wanted:?}"
        );
    }
    Ok(())
}
