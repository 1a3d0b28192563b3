//! Deletes with lost swaps, of copies, and of keys that are not there.
ghost use Rattle.std.specs.Prelude.{◌≡◌, ◌≤◌, IfOk};

use crate::{DeleteOp, DeleteOutcome};
use kv_block::Key;
use node_words::Geometry;
use std::alloc::Global;
use std::process::Abort;
use std::test::Fail;
use verb_log::Verb;
use verbs::{Machine, PlainNode, perform};

/// The hash of `k`: in one group its candidates are the 21 slots of the table in order, and it leaves the first table at
/// level 0.
const HASH: u64 = 1;

/// The first table of a memory of greatest depth 1: its header is word 5, the key's header word 24, its slots 25 to 47.
const TABLE: u64 = 4;

/// Its child, whose first slot is word 72.
const CHILD: u64 = 51;

/// The block of `k` and `v` at 48, in the first slot: live, moved and as a copy.
const LIVE: u64 = 844_424_930_132_016;

const MOVED: u64 = 1_055_531_162_665_008;

const COPY: u64 = 985_162_418_487_344;

/// The live word of a block at 150.
const OTHER: u64 = LIVE + 102;

/// A block of `j` and one of `k` and `w` at 150; an insert of `k`, and the split of its table as far as the answering copy,
/// as the words that the entries write: the address and the word.
const ENTRIES: [(u64, u64); 18] = [
    (48, 65_537),
    (49, 107),
    (50, 118),
    (25, LIVE),
    (6, 2),
    (51, 67_109_121),
    (52, 769),
    (53, 2),
    (71, 769),
    (87, 769),
    (8, CHILD),
    (24, 512),
    (40, 512),
    (5, 512),
    (150, 65_537),
    (152, 119),
    (72, COPY),
    (25, MOVED),
];

// The node after so many of the entries.
fn node_after(alloc: Global, count: usize) -> Result<PlainNode, Fail>
    ensures { IfOk result (λ node. node.log.geometry.words ≡ 200) }
{
    let geometry = Geometry::check(1, 1, 0, 1, 200)?;
    let mut node = PlainNode::make(alloc, geometry)?;
    for &(at, word) in ENTRIES.iter().take(count) {
        put(&mut node, at, word)?;
    }
    Ok(node)
}

// Does the verb. None where the memory has no such address, or there is no room.
fn done(node: &mut PlainNode, verb: &Verb) -> Option<u64>
    requires { node.old.log.geometry.words ≡ 200 }
    ensures { node.new.log.geometry ≡ node.old.log.geometry }
{
    let place = match *verb {
        Verb::Read { at } => at,
        Verb::Write { at, .. } => at,
        Verb::Swap { at, .. } => at,
    };
    if node.reserve().is_err() || place >= 200 {
        return None;
    }
    Some(perform(node, verb))
}

// Writes a word.
fn put(node: &mut PlainNode, at: u64, word: u64) -> Result<(), Fail>
    requires { node.old.log.geometry.words ≡ 200 }
    ensures { node.new.log.geometry ≡ node.old.log.geometry }
{
    match done(node, &Verb::Write { at, word }) {
        Some(_) => Ok(()),
        None => Err("no such word".into()),
    }
}

// Runs the delete to its end, and counts its verbs. Before the verb of the number that is told another client writes a word.
fn run(node: &mut PlainNode, delete: &mut DeleteOp, number: u64, at: u64, word: u64) -> Option<u64>
    requires { node.old.log.geometry.words ≡ 200 }
    ensures { node.new.log.geometry ≡ node.old.log.geometry }
{
    for verbs in 0..1000 {
        let Some(verb) = delete.next() else {
            return Some(verbs);
        };
        if verbs + 1 == number {
            done(node, &Verb::Write { at, word })?;
        }
        let found = done(node, &verb)?;
        delete.feed(found);
    }
    None
}

// Of a delete of `k`: from which entry of the cache and after how many of the entries, how many swaps it may lose, before
// which of its verbs another client writes which word; its verbs, the value and the slot of the word that it removed, how
// many swaps it lost, and the table where it ended.
#[test]
fn deletes_and_starts_again(rt: HostRuntime) -> Result<(), Fail> {
    let rows: [(
        usize,
        Option<u64>,
        u32,
        (u64, u64, u64),
        u64,
        Option<(&str, u64)>,
        u32,
        u64,
    ); 13] = [
        // not there
        (0, None, 1, (0, 0, 0), 25, None, 0, TABLE),
        // live in the first slot
        (4, None, 1, (0, 0, 0), 8, Some(("v", 25)), 0, TABLE),
        (14, Some(TABLE), 1, (0, 0, 0), 6, Some(("v", 25)), 0, TABLE),
        // an answering copy in the child is settled first
        (18, None, 1, (0, 0, 0), 32, Some(("v", 72)), 0, CHILD),
        // .. which another client has done: that loss is not counted
        (18, None, 1, (31, 72, LIVE), 32, Some(("v", 72)), 0, CHILD),
        // the Settle is lost to 0, and the new look finds nothing
        (18, None, 2, (31, 72, 0), 78, None, 1, CHILD),
        // .. where no more may be lost
        (18, None, 1, (31, 72, 0), 31, None, 1, CHILD),
        // the Remove is lost to 0
        (4, None, 3, (8, 25, 0), 31, None, 1, TABLE),
        (4, None, 1, (8, 25, 0), 8, None, 1, TABLE),
        // the Remove is lost to another block of the key: its value is told
        (16, None, 3, (8, 25, OTHER), 14, Some(("w", 25)), 1, TABLE),
        (
            16,
            Some(TABLE),
            2,
            (6, 25, OTHER),
            12,
            Some(("w", 25)),
            1,
            TABLE,
        ),
        // .. which was there from the start
        (16, None, 1, (1, 25, OTHER), 8, Some(("w", 25)), 0, TABLE),
        // a copy that does not answer is passed over
        (17, None, 1, (0, 0, 0), 8, Some(("v", 25)), 0, TABLE),
    ];
    for (count, entry, tries, (number, at, word), verbs, removed, lost, table) in rows {
        let geometry = Geometry::check(1, 1, 0, 1, 200)?;
        let mut node = node_after(rt.alloc(), count)?;
        put(&mut node, 151, 107)?;
        let key = Key::from_bytes(b"k").ok_or("no key")?;
        if tries == 0 {
            return Err("no tries".into());
        }
        let mut delete = DeleteOp::start(geometry, HASH, &key, entry, tries);
        let ran = run(&mut node, &mut delete, number, at, word);
        assert!(rt; ran == Some(verbs), "verbs after {count} at {number}");
        let end = Machine::outcome(&delete).ok_or("no end")?;
        assert!(rt;
            end.table == table && delete.table() == table,
            "table after {count} at {number}"
        );
        assert!(rt;
            delete.has_ended() && end.lost == lost && delete.lost() == lost,
            "lost after {count} at {number}"
        );
        match (end.outcome, removed) {
            (DeleteOutcome::Deleted(held), Some((value, slot))) => {
                assert!(rt;
                    held.value.bytes() == value.as_bytes() && held.at == slot,
                    "value after {count} at {number}"
                );
                let left = done(&mut node, &Verb::Read { at: slot });
                assert!(rt; left == Some(0), "slot after {count} at {number}");
            }
            (DeleteOutcome::Missing, None) => assert!(rt; lost < tries, "missing"),
            (DeleteOutcome::Again, None) => assert!(rt; lost == tries, "again"),
            _ => assert!(rt; false, "answer after {count} at {number}"),
        }
    }
    Ok(())
}

// A live word of another key with the fingerprint of the key stands before the word of the key.
#[test]
fn another_key_with_its_fingerprint_stays(rt: HostRuntime) -> Result<(), Fail> {
    let geometry = Geometry::check(1, 1, 0, 1, 200)?;
    let mut node = node_after(rt.alloc(), 16)?;
    put(&mut node, 151, 106)?;
    put(&mut node, 25, OTHER)?;
    put(&mut node, 26, LIVE)?;
    let key = Key::from_bytes(b"k").ok_or("no key")?;
    let mut delete = DeleteOp::start(geometry, HASH, &key, None, 1);
    let ran = run(&mut node, &mut delete, 0, 0, 0);
    assert!(rt; ran == Some(12), "verbs");
    let first = done(&mut node, &Verb::Read { at: 25 });
    let second = done(&mut node, &Verb::Read { at: 26 });
    assert!(rt; first == Some(OTHER) && second == Some(0), "slots");
    Ok(())
}
