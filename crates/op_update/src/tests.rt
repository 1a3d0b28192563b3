//! Updates with lost swaps, of copies, with areas, and without room.
ghost use Rattle.std.specs.Prelude.{◌≡◌, IfOk};

use crate::{UpdateOp, UpdateOutcome};
use block_taking::Area;
use kv_block::{Key, Value};
use node_words::Geometry;
use std::alloc::Global;
use std::process::Abort;
use std::test::Fail;
use verb_log::Verb;
use verbs::{Machine, PlainNode, perform};

/// The hash of `k`: in one group its candidates are the 21 slots of the table in order, and it leaves the first table at
/// level 0.
const HASH: u64 = 1;

/// The first table of a memory of greatest depth 1: its header is word 5, the key's header word 24, its slots 25 to 47.
const TABLE: u64 = 4;

/// Its child, whose first slot is word 72.
const CHILD: u64 = 51;

/// The live word of a block of three words is this and its address; that of `k` and `v` at 48 as live, moved and copy.
const NAMES: u64 = 844_424_930_131_968;

const LIVE: u64 = NAMES + 48;

const MOVED: u64 = 1_055_531_162_665_008;

const COPY: u64 = 985_162_418_487_344;

/// A block of `k` and `x` at 150 and an insert of `k` and `v`; the split of its table as far as the answering copy, as the
/// words that the entries write: the address and the word.
const ENTRIES: [(u64, u64); 19] = [
    (0, 120),
    (150, 65_537),
    (151, 107),
    (152, 120),
    (48, 65_537),
    (49, 107),
    (50, 118),
    (25, LIVE),
    (6, 2),
    (51, 67_109_121),
    (52, 769),
    (53, 2),
    (71, 769),
    (87, 769),
    (8, CHILD),
    (24, 512),
    (5, 512),
    (72, COPY),
    (25, MOVED),
];

/// No words are left.
const NO_AREA: Area = Area { at: 0, left: 0 };

/// What an update is to answer: with the old value, the slot and the new block.
#[derive(Clone, Copy, PartialEq)]
enum Wanted {
    Updated(u8, u64, u64),
    Missing,
    Again,
    NoBlock(u64),
}

// What an update has answered: the old value has one byte, and there is one node.
fn told(outcome: UpdateOutcome) -> Wanted {
    match outcome {
        UpdateOutcome::Updated { old, at } => {
            let bytes = old.value.bytes();
            let byte = if bytes.len() == 1 { bytes[0] } else { 0 };
            Wanted::Updated(byte, old.at, at)
        }
        UpdateOutcome::Missing => Wanted::Missing,
        UpdateOutcome::Again => Wanted::Again,
        UpdateOutcome::NoBlock { next, need } => {
            Wanted::NoBlock(if need == 3 { next.get(0) } else { 0 })
        }
    }
}

// The node after so many of the entries.
fn node_after(alloc: Global, count: usize) -> Result<PlainNode, Fail>
    ensures { IfOk result (λ node. node.log.geometry.words ≡ 200) }
{
    let geometry = Geometry::check(1, 1, 0, 1, 200)?;
    let mut node = PlainNode::make(alloc, geometry)?;
    for &(at, word) in ENTRIES.iter().take(count) {
        if done(&mut node, &Verb::Write { at, word }).is_none() {
            return Err("no such word".into());
        }
    }
    Ok(node)
}

// Does the verb. None where the memory has no such address, or there is no room.
fn done(node: &mut PlainNode, verb: &Verb) -> Option<u64>
    requires { node.old.log.geometry.words ≡ 200 }
    ensures { node.new.log.geometry ≡ node.old.log.geometry }
{
    let place = match *verb {
        Verb::Read { at } => at,
        Verb::Write { at, .. } => at,
        Verb::Swap { at, .. } => at,
    };
    if node.reserve().is_err() || place >= 200 {
        return None;
    }
    Some(perform(node, verb))
}

// Runs the update to its end, and counts its verbs. Before the verb of the number that is told another client writes a word.
fn run(node: &mut PlainNode, update: &mut UpdateOp, number: u64, at: u64, word: u64) -> Option<u64>
    requires { node.old.log.geometry.words ≡ 200 }
    ensures { node.new.log.geometry ≡ node.old.log.geometry }
{
    for verbs in 0..1000 {
        let Some(verb) = update.next() else {
            return Some(verbs);
        };
        if verbs + 1 == number {
            done(node, &Verb::Write { at, word })?;
        }
        let found = done(node, &verb)?;
        update.feed(found);
    }
    None
}

// Of an update of `k` to `w`: after how many of the entries and from which entry of the cache, how many swaps it may lose,
// before which of its verbs another client writes which word; its verbs, its answer, how many swaps it lost, and the table
// where it ended.
#[test]
fn updates_and_starts_again(rt: HostRuntime) -> Result<(), Fail> {
    let rows: [(
        usize,
        Option<u64>,
        u32,
        (u64, u64, u64),
        u64,
        Wanted,
        u32,
        u64,
    ); 13] = [
        // not there
        (1, None, 1, (0, 0, 0), 25, Wanted::Missing, 0, TABLE),
        // live in the first slot
        (
            8,
            None,
            1,
            (0, 0, 0),
            13,
            Wanted::Updated(118, 25, 120),
            0,
            TABLE,
        ),
        (
            8,
            Some(TABLE),
            1,
            (0, 0, 0),
            11,
            Wanted::Updated(118, 25, 120),
            0,
            TABLE,
        ),
        // an answering copy in the child is settled first, also by another client
        (
            19,
            None,
            1,
            (0, 0, 0),
            37,
            Wanted::Updated(118, 72, 120),
            0,
            CHILD,
        ),
        (
            19,
            None,
            1,
            (36, 72, LIVE),
            37,
            Wanted::Updated(118, 72, 120),
            0,
            CHILD,
        ),
        // the Settle is lost to 0, and the new look finds nothing
        (19, None, 2, (36, 72, 0), 83, Wanted::Missing, 1, CHILD),
        (19, None, 1, (36, 72, 0), 36, Wanted::Again, 1, CHILD),
        // the Take is lost to another one
        (
            8,
            None,
            2,
            (9, 0, 130),
            14,
            Wanted::Updated(118, 25, 130),
            1,
            TABLE,
        ),
        (8, None, 1, (9, 0, 130), 9, Wanted::Again, 1, TABLE),
        // .. which leaves no room
        (8, None, 2, (9, 0, 198), 9, Wanted::NoBlock(198), 1, TABLE),
        (8, None, 1, (8, 0, 198), 8, Wanted::NoBlock(198), 0, TABLE),
        // the Replace is lost to 0
        (8, None, 3, (13, 25, 0), 36, Wanted::Missing, 1, TABLE),
        // the Replace is lost to another block of the key: the new look finds its value, and the block is kept
        (
            8,
            None,
            3,
            (13, 25, NAMES + 150),
            19,
            Wanted::Updated(120, 25, 120),
            1,
            TABLE,
        ),
    ];
    for (count, entry, tries, (number, at, word), verbs, wanted, lost, table) in rows {
        let geometry = Geometry::check(1, 1, 0, 1, 200)?;
        let mut node = node_after(rt.alloc(), count)?;
        let key = Key::from_bytes(b"k").ok_or("no key")?;
        let value = Value::from_bytes(b"w").ok_or("no value")?;
        if tries == 0 {
            return Err("no tries".into());
        }
        let mut update = UpdateOp::start(geometry, 0, HASH, &key, &value, entry, NO_AREA, tries);
        let ran = run(&mut node, &mut update, number, at, word);
        assert!(rt; ran == Some(verbs), "verbs after {count} at {number}");
        let end = Machine::outcome(&update).ok_or("no end")?;
        assert!(rt;
            end.table == table && update.table() == table && update.has_ended(),
            "table after {count} at {number}"
        );
        assert!(rt;
            end.lost == lost && update.lost() == lost && update.area() == NO_AREA,
            "lost after {count} at {number}"
        );
        assert!(rt;
            told(end.outcome) == wanted,
            "answer after {count} at {number}"
        );
        if let Wanted::Updated(_, slot, block) = wanted {
            let left = done(&mut node, &Verb::Read { at: slot });
            assert!(rt; left == NAMES.checked_add(block), "slot after {count}");
        }
    }
    Ok(())
}

// A block is cut from the area's front, and its words are written there; of an area with too few words none is cut.
#[test]
fn takes_its_block_from_the_area(rt: HostRuntime) -> Result<(), Fail> {
    let rows: [(Area, u64, u64, Area); 2] = [
        (
            Area { at: 100, left: 10 },
            11,
            100,
            Area { at: 103, left: 7 },
        ),
        (
            Area { at: 100, left: 2 },
            13,
            120,
            Area { at: 100, left: 2 },
        ),
    ];
    for (area, verbs, block, after) in rows {
        let geometry = Geometry::check(1, 1, 0, 1, 200)?;
        let mut node = node_after(rt.alloc(), 8)?;
        let key = Key::from_bytes(b"k").ok_or("no key")?;
        let value = Value::from_bytes(b"w").ok_or("no value")?;
        let mut update = UpdateOp::start(geometry, 0, HASH, &key, &value, None, area, 1);
        let ran = run(&mut node, &mut update, 0, 0, 0);
        assert!(rt; ran == Some(verbs) && update.area() == after, "area");
        if block >= 198 {
            return Err("no such block".into());
        }
        let first = done(&mut node, &Verb::Read { at: block });
        let last = done(&mut node, &Verb::Read { at: block + 2 });
        assert!(rt; first == Some(65_537) && last == Some(119), "words");
    }
    Ok(())
}
