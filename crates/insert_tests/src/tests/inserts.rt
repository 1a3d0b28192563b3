//! Tests of inserts: their numbers of verbs, lost swaps, filling tables, and want of room. Their rules stand in docs/PROTOCOL.md,
//! "The calls".
ghost use Rattle.std.specs.Prelude.{◌≡◌, IfOk};

use block_taking::Area;
use kv_block::{Key, Value};
use node_words::Geometry;
use op_insert::{InsertOp, InsertOutcome};
use std::alloc::Global;
use std::process::Abort;
use std::test::Fail;
use verb_log::Verb;
use verbs::{Machine, PlainNode, perform};

/// The hash of `k`: in one group its candidates are the 21 slots of the table in order, and it leaves the first table at
/// level 0.
const HASH: u64 = 1;

/// The first table of a memory of greatest depth 1: its header is word 5, its lock word 6, its bucket headers words 24 and 40
/// and its slots 25 to 31, 33 to 39 and 41 to 47. The first free word is 48.
const TABLE: u64 = 4;

/// Its child, whose first slot is word 72.
const CHILD: u64 = 51;

/// The live word of a block of three words is this and its address, and the pending word; and a live word of another
/// fingerprint of the block at 150.
const NAMES: u64 = 844_424_930_131_968;

const PENDING: u64 = 914_793_674_309_632;

const OTHER: u64 = 72_902_018_968_060_054;

/// A block of `k` and `x` at 150 and an insert of `k` and `v`, as the words that the entries write: the address and the word.
const HELD: [(u64, u64); 8] = [
    (0, 120),
    (150, 65_537),
    (151, 107),
    (152, 120),
    (48, 65_537),
    (49, 107),
    (50, 118),
    (25, NAMES + 48),
];

/// The split of the table as far as its Open, and then a block of `j` with its word in the first slot.
const SPLIT: [(u64, u64); 15] = [
    (0, 120),
    (6, 2),
    (51, 67_109_121),
    (52, 769),
    (53, 2),
    (71, 769),
    (87, 769),
    (8, CHILD),
    (24, 512),
    (40, 512),
    (5, 512),
    (150, 65_537),
    (151, 106),
    (152, 118),
    (25, OTHER),
];

/// No words are left.
const NO_AREA: Area = Area { at: 0, left: 0 };

/// What an insert is to answer: with the block; with the old value and the slot; with the block that is kept; with the next
/// word.
#[derive(Clone, Copy, Debug, PartialEq)]
enum Wanted {
    Inserted(u64),
    Exists(u8, u64),
    NeedRoom(Option<u64>),
    Again,
    NoBlock(u64),
}

// What an insert has answered: the old value has one byte, and there is one node.
fn told(outcome: InsertOutcome) -> Wanted {
    match outcome {
        InsertOutcome::Inserted { at } => Wanted::Inserted(at),
        InsertOutcome::Exists(held) => {
            let bytes = held.value.bytes();
            let byte = if bytes.len() == 1 { bytes[0] } else { 0 };
            Wanted::Exists(byte, held.at)
        }
        InsertOutcome::NeedRoom { kept, .. } => Wanted::NeedRoom(kept),
        InsertOutcome::Again => Wanted::Again,
        InsertOutcome::NoBlock { next, need } => {
            Wanted::NoBlock(if need == 3 { next.get(0) } else { 0 })
        }
    }
}

// The node after these entries.
fn node_after(alloc: Global, entries: &[(u64, u64)]) -> Result<PlainNode, Fail>
    ensures { IfOk result (λ node. node.log.geometry.words ≡ 200) }
{
    let geometry = Geometry::check(1, 1, 0, 1, 200)?;
    let mut node = PlainNode::make(alloc, geometry)?;
    for &(at, word) in entries {
        if done(&mut node, &Verb::Write { at, word }).is_none() {
            return Err("no such word".into());
        }
    }
    Ok(node)
}

// Does the verb. None where the memory has no such address, or there is no room.
fn done(node: &mut PlainNode, verb: &Verb) -> Option<u64>
    requires { node.old.log.geometry.words ≡ 200 }
    ensures { node.new.log.geometry ≡ node.old.log.geometry }
{
    let place = match *verb {
        Verb::Read { at } => at,
        Verb::Write { at, .. } => at,
        Verb::Swap { at, .. } => at,
    };
    if node.reserve().is_err() || place >= 200 {
        return None;
    }
    Some(perform(node, verb))
}

// Runs the insert to its end, where another key has this hash, and counts its verbs. Before the verb of the number that is told
// another client writes a word.
fn run(
    node: &mut PlainNode,
    insert: &mut InsertOp,
    pushed: (u64, u64, u64),
    other: u64,
) -> Option<u64>
    requires { node.old.log.geometry.words ≡ 200 }
    ensures { node.new.log.geometry ≡ node.old.log.geometry }
{
    let (number, at, word) = pushed;
    for verbs in 0..1000 {
        if insert.asks().is_some() {
            insert.told(other);
        }
        let Some(verb) = insert.next() else {
            return Some(verbs);
        };
        if verbs + 1 == number {
            done(node, &Verb::Write { at, word })?;
        }
        let found = done(node, &verb)?;
        insert.feed(found);
    }
    None
}

// The insert of `k` with `w` by client 0.
fn insert_of(
    entry: Option<u64>,
    kept: Option<u64>,
    area: Area,
    tries: u32,
) -> Result<InsertOp, Fail> {
    let geometry = Geometry::check(1, 1, 0, 1, 200)?;
    let key = Key::from_bytes(b"k").ok_or("no key")?;
    let value = Value::from_bytes(b"w").ok_or("no value")?;
    Ok(InsertOp::start(geometry, 0, HASH, &key, &value, entry, kept, area, tries))
}

// Of an insert of `k`: after how many entries, from which entry of the cache, how many swaps it may lose, before which of its
// verbs another client writes which word; its verbs, its answer, how many swaps it lost, and the word in a slot after it.
#[test]
fn inserts_and_starts_again(rt: HostRuntime) -> Result<(), Fail> {
    let rows: [(
        usize,
        Option<u64>,
        u32,
        (u64, u64, u64),
        u64,
        Wanted,
        u32,
        (u64, u64),
    ); 14] = [
        // an empty table
        (
            0,
            None,
            1,
            (0, 0, 0),
            54,
            Wanted::Inserted(48),
            0,
            (25, NAMES + 48),
        ),
        (
            0,
            Some(TABLE),
            1,
            (0, 0, 0),
            52,
            Wanted::Inserted(48),
            0,
            (25, NAMES + 48),
        ),
        // live in the first slot
        (
            8,
            None,
            1,
            (0, 0, 0),
            7,
            Wanted::Exists(118, 25),
            0,
            (25, NAMES + 48),
        ),
        // the Take is lost, also so that it leaves no room
        (
            0,
            None,
            2,
            (27, 0, 60),
            55,
            Wanted::Inserted(60),
            1,
            (25, NAMES + 60),
        ),
        (0, None, 1, (27, 0, 60), 27, Wanted::Again, 1, (25, 0)),
        (
            0,
            None,
            2,
            (27, 0, 198),
            27,
            Wanted::NoBlock(198),
            1,
            (25, 0),
        ),
        (
            0,
            None,
            1,
            (26, 0, 198),
            26,
            Wanted::NoBlock(198),
            0,
            (25, 0),
        ),
        // the Place is lost: the block is kept, and the second bucket is the emptier one
        (
            0,
            None,
            2,
            (31, 25, OTHER),
            78,
            Wanted::Inserted(48),
            1,
            (41, NAMES + 48),
        ),
        (
            0,
            None,
            1,
            (31, 25, OTHER),
            31,
            Wanted::Again,
            1,
            (25, OTHER),
        ),
        // the Commit is lost: a new block is taken
        (
            0,
            None,
            2,
            (54, 25, 0),
            106,
            Wanted::Inserted(51),
            1,
            (25, NAMES + 51),
        ),
        (0, None, 1, (54, 25, 0), 54, Wanted::Again, 1, (25, 0)),
        // .. to a live word of the key
        (
            4,
            None,
            2,
            (54, 25, NAMES + 150),
            59,
            Wanted::Exists(120, 25),
            1,
            (25, NAMES + 150),
        ),
        // the sweep finds the key, and the own word is withdrawn; and it drops a pending word of the key
        (
            4,
            None,
            1,
            (32, 26, NAMES + 150),
            37,
            Wanted::Exists(120, 26),
            0,
            (25, 0),
        ),
        (
            4,
            None,
            1,
            (32, 26, PENDING + 150),
            58,
            Wanted::Inserted(120),
            0,
            (26, 0),
        ),
    ];
    for (count, entry, tries, pushed, verbs, wanted, lost, (slot, word)) in rows {
        if count > 8 {
            return Err("no such entries".into());
        }
        let mut node = node_after(rt.alloc(), &HELD[..count])?;
        let mut insert = insert_of(entry, None, NO_AREA, tries)?;
        let ran = run(&mut node, &mut insert, pushed, 0);
        assert!(rt; ran == Some(verbs), "verbs of {wanted:?} at {verbs}");
        let end = Machine::outcome(&insert).ok_or("no end")?;
        let answer = insert.outcome().ok_or("no answer")?;
        assert!(rt;
            told(end.outcome) == wanted && told(answer) == wanted,
            "answer {wanted:?} at {verbs}"
        );
        assert!(rt;
            end.lost == lost
                && insert.lost() == lost
                && end.table == TABLE
                && insert.table() == TABLE,
            "lost {lost} at {verbs}"
        );
        let left = done(&mut node, &Verb::Read { at: slot });
        assert!(rt; left == Some(word), "slot at {verbs}");
    }
    Ok(())
}

// Into a child that fills: after how many entries of the split, before which of its verbs another client writes which word,
// the hash of `j`; its verbs, its slot and its block. The parent's split is then open.
#[test]
fn inserts_into_a_filling_table(rt: HostRuntime) -> Result<(), Fail> {
    let rows: [(usize, (u64, u64, u64), u64, u64, u64, u64); 5] = [
        // the parent's place has 0
        (11, (0, 0, 0), 0, 103, 72, 120),
        // its split is helped
        (9, (0, 0, 0), 0, 106, 72, 120),
        // a key that stays does no harm, and one that leaves does
        (15, (0, 0, 0), 2, 106, 72, 120),
        (15, (0, 0, 0), 3, 107, 88, 120),
        // the key leaves the table where its word was placed
        (8, (53, 24, 512), 0, 158, 72, 123),
    ];
    for (count, pushed, other, verbs, slot, block) in rows {
        if count > 15 || slot >= 200 {
            return Err("no such entries".into());
        }
        let mut node = node_after(rt.alloc(), &SPLIT[..count])?;
        let mut insert = insert_of(None, None, NO_AREA, 1)?;
        let ran = run(&mut node, &mut insert, pushed, other);
        assert!(rt; ran == Some(verbs), "verbs {verbs}");
        let answer = insert.outcome().ok_or("no answer")?;
        assert!(rt;
            told(answer) == Wanted::Inserted(block),
            "answer at {verbs}"
        );
        assert!(rt;
            insert.table() == CHILD && insert.lost() == 0,
            "table at {verbs}"
        );
        let live = done(&mut node, &Verb::Read { at: slot });
        assert!(rt; live == NAMES.checked_add(block), "slot at {verbs}");
        let first = done(&mut node, &Verb::Read { at: 24 });
        let second = done(&mut node, &Verb::Read { at: 40 });
        let header = done(&mut node, &Verb::Read { at: 5 });
        assert!(rt;
            first == Some(512) && second == Some(512) && header == Some(512),
            "split at {verbs}"
        );
    }
    Ok(())
}

// In a table whose slots but one are full, or all: the open slot, the block that is kept, the area, before which of its verbs
// another client writes which word; its verbs, its answer, and the area after it.
#[test]
fn needs_room(rt: HostRuntime) -> Result<(), Fail> {
    let rows: [(u64, Option<u64>, Area, (u64, u64, u64), u64, Wanted, Area); 5] = [
        (
            0,
            None,
            NO_AREA,
            (0, 0, 0),
            25,
            Wanted::NeedRoom(None),
            NO_AREA,
        ),
        (
            0,
            Some(150),
            NO_AREA,
            (0, 0, 0),
            25,
            Wanted::NeedRoom(Some(150)),
            NO_AREA,
        ),
        // the Place is lost, and the block is kept
        (
            36,
            None,
            NO_AREA,
            (31, 36, OTHER),
            54,
            Wanted::NeedRoom(Some(48)),
            NO_AREA,
        ),
        // the kept block is placed; and a block of the area
        (
            47,
            Some(150),
            NO_AREA,
            (0, 0, 0),
            49,
            Wanted::Inserted(150),
            NO_AREA,
        ),
        (
            25,
            None,
            Area { at: 100, left: 10 },
            (0, 0, 0),
            52,
            Wanted::Inserted(100),
            Area { at: 103, left: 7 },
        ),
    ];
    for (open, kept, area, pushed, verbs, wanted, after) in rows {
        let mut node = node_after(rt.alloc(), &full_but(open))?;
        let mut insert = insert_of(None, kept, area, 2)?;
        let ran = run(&mut node, &mut insert, pushed, 0);
        assert!(rt; ran == Some(verbs), "verbs of {wanted:?}");
        let answer = insert.outcome().ok_or("no answer")?;
        assert!(rt;
            told(answer) == wanted && insert.has_ended(),
            "answer {wanted:?}"
        );
        assert!(rt; insert.area() == after, "area {wanted:?}");
    }
    Ok(())
}

// A word of another fingerprint in each slot of the table but the open one.
fn full_but(open: u64) -> [(u64, u64); 21] {
    let mut entries = [(25, OTHER); 21];
    let slots = [
        25, 26, 27, 28, 29, 30, 31, 33, 34, 35, 36, 37, 38, 39, 41, 42, 43, 44, 45, 46, 47,
    ];
    for (entry, at) in entries.iter_mut().zip(slots) {
        *entry = (at, if at == open { 0 } else { OTHER });
    }
    entries
}
