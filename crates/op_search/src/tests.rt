//! Searches through each state of a split.
ghost use Rattle.std.specs.Prelude.{◌≡◌, ◌≤◌, IfOk};

use crate::{SearchOp, SearchOutcome};
use kv_block::Key;
use node_words::Geometry;
use scan_pass::{Pass, PassMode};
use std::alloc::Global;
use std::process::Abort;
use std::test::Fail;
use verb_log::Verb;
use verbs::{Machine, PlainNode, perform};

/// The hash of `k`: in one group its candidates are the 21 slots of the table in order, and it leaves the first table at
/// level 0.
const HASH: u64 = 1;

/// The first table of a memory of greatest depth 1: its header is word 5, the key's header word 24, its slots 25 to 47.
const TABLE: u64 = 4;

/// Its child, whose first slot is word 72.
const CHILD: u64 = 51;

/// The block of `k` and `v` at 48, in the first slot: live, moved and as a copy.
const LIVE: u64 = 844_424_930_132_016;

const MOVED: u64 = 1_055_531_162_665_008;

const COPY: u64 = 985_162_418_487_344;

/// An insert of `k` and the split of its table, as the words that the entries write: the address and the word.
const ENTRIES: [(u64, u64); 32] = [
    (0, 51),
    (48, 65_537),
    (49, 107),
    (50, 118),
    (25, 914_793_674_309_680),
    (25, LIVE),
    (6, 2),
    (0, 95),
    (51, 67_109_121),
    (52, 769),
    (53, 2),
    (71, 769),
    (87, 769),
    (8, CHILD),
    (24, 512),
    (40, 512),
    (5, 512),
    (72, COPY),
    (25, MOVED),
    (72, LIVE),
    (25, 0),
    (5, 257),
    (24, 257),
    (40, 257),
    (3, TABLE),
    (1, 1),
    (3, CHILD),
    (71, 257),
    (87, 257),
    (52, 257),
    (6, 0),
    (53, 0),
];

// The node after so many of the entries.
fn node_after(alloc: Global, count: usize) -> Result<PlainNode, Fail>
    ensures { IfOk result (λ node. node.log.geometry.words ≡ 200) }
{
    let geometry = Geometry::check(1, 1, 0, 1, 200)?;
    let mut node = PlainNode::make(alloc, geometry)?;
    for &(at, word) in ENTRIES.iter().take(count) {
        put(&mut node, at, word)?;
    }
    Ok(node)
}

// Does the verb. None where the memory has no such address, or there is no room.
fn done(node: &mut PlainNode, verb: &Verb) -> Option<u64>
    requires { node.old.log.geometry.words ≡ 200 }
    ensures { node.new.log.geometry ≡ node.old.log.geometry }
{
    let place = match *verb {
        Verb::Read { at } => at,
        Verb::Write { at, .. } => at,
        Verb::Swap { at, .. } => at,
    };
    if node.reserve().is_err() || place >= 200 {
        return None;
    }
    Some(perform(node, verb))
}

// Writes a word.
fn put(node: &mut PlainNode, at: u64, word: u64) -> Result<(), Fail>
    requires { node.old.log.geometry.words ≡ 200 }
    ensures { node.new.log.geometry ≡ node.old.log.geometry }
{
    match done(node, &Verb::Write { at, word }) {
        Some(_) => Ok(()),
        None => Err("no such word".into()),
    }
}

// Runs the search to its end, and counts its verbs.
fn run(node: &mut PlainNode, search: &mut SearchOp) -> Option<u64>
    requires { node.old.log.geometry.words ≡ 200 }
    ensures { node.new.log.geometry ≡ node.old.log.geometry }
{
    for verbs in 0..1000 {
        let Some(verb) = search.next() else {
            return Some(verbs);
        };
        let word = done(node, &verb)?;
        search.feed(word);
    }
    None
}

// A search of a key with the hash, from this entry of the cache, after so many of the entries: its verbs, the slot that holds
// the key, and the table where it ended.
#[test]
fn searches_through_a_split(rt: HostRuntime) -> Result<(), Fail> {
    let rows: [(usize, &str, Option<u64>, u64, Option<u64>, u64); 10] = [
        (0, "k", None, 25, None, TABLE),
        (5, "k", None, 25, None, TABLE),
        (5, "k", Some(TABLE), 23, None, TABLE),
        (6, "k", None, 7, Some(25), TABLE),
        (6, "j", None, 28, None, TABLE),
        (18, "k", Some(TABLE), 5, Some(25), TABLE),
        (19, "k", None, 30, Some(72), CHILD),
        (19, "k", Some(CHILD), 29, Some(72), CHILD),
        (32, "k", Some(CHILD), 6, Some(72), CHILD),
        (32, "k", Some(TABLE), 28, Some(72), CHILD),
    ];
    for (count, name, entry, verbs, at, table) in rows {
        let geometry = Geometry::check(1, 1, 0, 1, 200)?;
        let mut node = node_after(rt.alloc(), count)?;
        let key = Key::from_bytes(name.as_bytes()).ok_or("no key")?;
        let pass = Pass::start(geometry, entry, &key, HASH, PassMode::Look);
        let mut search = SearchOp::start(pass);
        let ran = run(&mut node, &mut search);
        assert!(rt; ran == Some(verbs), "verbs after {count}");
        let end = Machine::outcome(&search).ok_or("no end")?;
        assert!(rt;
            end.table == table && search.table() == table,
            "table after {count}"
        );
        assert!(rt;
            search.has_ended() && search.lost() == 0,
            "end after {count}"
        );
        let found = match end.outcome {
            SearchOutcome::Found(held) => {
                assert!(rt;
                    held.value.bytes() == b"v".as_slice(),
                    "value after {count}"
                );
                Some(held.at)
            }
            SearchOutcome::Missing => None,
        };
        assert!(rt; found == at, "holder after {count}");
    }
    Ok(())
}
