//! Passes through each state of a split, with their numbers of verbs.
ghost use Rattle.std.specs.Prelude.{◌≡◌, ◌≤◌, IfOk};

use crate::{Job, Pass, PassEnd, PassMode};
use kv_block::Key;
use node_words::Geometry;
use std::alloc::Global;
use std::process::Abort;
use std::test::Fail;
use verb_log::Verb;
use verbs::{Machine, PlainNode, perform};

/// The hash of `k`: in one group its candidates are the 21 slots of the table in order, and it leaves the first table at
/// level 0.
const HASH: u64 = 1;

/// The first table of a memory of greatest depth 1: its header is word 5, the key's header word 24, its slots 25 to 47.
const TABLE: u64 = 4;

/// Its child, whose first slot is word 72.
const CHILD: u64 = 51;

/// The block of `k` and `v` at 48, in the first slot: live, moved and as a copy.
const LIVE: u64 = 844_424_930_132_016;

const MOVED: u64 = 1_055_531_162_665_008;

const COPY: u64 = 985_162_418_487_344;

/// The same pair in a block at 60, pending.
const PENDING: u64 = 914_793_674_309_692;

/// The words of a block of `k` and `v`.
const BLOCK: [u64; 3] = [65_537, 107, 118];

/// An insert of `k` and the split of its table, as the words that the entries write: the address and the word.
const ENTRIES: [(u64, u64); 32] = [
    (0, 51),
    (48, 65_537),
    (49, 107),
    (50, 118),
    (25, 914_793_674_309_680),
    (25, LIVE),
    (6, 2),
    (0, 95),
    (51, 67_109_121),
    (52, 769),
    (53, 2),
    (71, 769),
    (87, 769),
    (8, CHILD),
    (24, 512),
    (40, 512),
    (5, 512),
    (72, COPY),
    (25, MOVED),
    (72, LIVE),
    (25, 0),
    (5, 257),
    (24, 257),
    (40, 257),
    (3, TABLE),
    (1, 1),
    (3, CHILD),
    (71, 257),
    (87, 257),
    (52, 257),
    (6, 0),
    (53, 0),
];

// The node after so many of the entries.
fn node_after(alloc: Global, count: usize) -> Result<PlainNode, Fail>
    ensures { IfOk result (λ node. node.log.geometry.words ≡ 200) }
{
    let geometry = Geometry::check(1, 1, 0, 1, 200)?;
    let mut node = PlainNode::make(alloc, geometry)?;
    for &(at, word) in ENTRIES.iter().take(count) {
        put(&mut node, at, word)?;
    }
    Ok(node)
}

// Does the verb. None where the memory has no such address, or there is no room.
fn done(node: &mut PlainNode, verb: &Verb) -> Option<u64>
    requires { node.old.log.geometry.words ≡ 200 }
    ensures { node.new.log.geometry ≡ node.old.log.geometry }
{
    let place = match *verb {
        Verb::Read { at } => at,
        Verb::Write { at, .. } => at,
        Verb::Swap { at, .. } => at,
    };
    if node.reserve().is_err() || place >= 200 {
        return None;
    }
    Some(perform(node, verb))
}

// Writes a word.
fn put(node: &mut PlainNode, at: u64, word: u64) -> Result<(), Fail>
    requires { node.old.log.geometry.words ≡ 200 }
    ensures { node.new.log.geometry ≡ node.old.log.geometry }
{
    match done(node, &Verb::Write { at, word }) {
        Some(_) => Ok(()),
        None => Err("no such word".into()),
    }
}

// Runs the pass to its end, and counts its verbs.
fn run(node: &mut PlainNode, pass: &mut Pass) -> Option<u64>
    requires { node.old.log.geometry.words ≡ 200 }
    ensures { node.new.log.geometry ≡ node.old.log.geometry }
{
    for verbs in 0..1000 {
        let Some(verb) = pass.next() else {
            return Some(verbs);
        };
        let word = done(node, &verb)?;
        pass.feed(word);
    }
    None
}

// A pass for `k`.
fn pass_for(entry: Option<u64>, mode: PassMode) -> Result<Pass, Fail> {
    let geometry = Geometry::check(1, 1, 0, 1, 200)?;
    let key = Key::from_bytes(b"k").ok_or("no key")?;
    Ok(Pass::start(geometry, entry, &key, HASH, mode))
}

// What each state of a split shows: how many entries were made, the entry of the cache, the verbs of a look, the slot that
// holds the key, and the table searched before. Before and after Begin, after Open, Copy, Flip, Settle, Clear, Finish,
// Close, Name and Ripen.
#[test]
fn looks_through_a_split(rt: HostRuntime) -> Result<(), Fail> {
    let rows = [
        (14, None, 7, 25, None),
        (16, None, 7, 25, None),
        (16, Some(CHILD), 6, 25, None),
        (17, None, 7, 25, None),
        (18, None, 7, 25, None),
        (18, Some(TABLE), 5, 25, None),
        (19, None, 30, 72, Some(TABLE)),
        (19, Some(TABLE), 28, 72, Some(TABLE)),
        (19, Some(CHILD), 29, 72, Some(TABLE)),
        (20, None, 30, 72, Some(TABLE)),
        (21, None, 30, 72, Some(TABLE)),
        (22, None, 30, 72, Some(TABLE)),
        (24, None, 30, 72, Some(TABLE)),
        (27, None, 31, 72, Some(TABLE)),
        (29, None, 31, 72, Some(TABLE)),
        (30, None, 8, 72, None),
        (32, Some(CHILD), 6, 72, None),
        (32, Some(TABLE), 28, 72, Some(TABLE)),
    ];
    for (count, entry, verbs, at, parent) in rows {
        let mut node = node_after(rt.alloc(), count)?;
        let mut pass = pass_for(entry, PassMode::Look)?;
        let ran = run(&mut node, &mut pass);
        assert!(rt; ran == Some(verbs), "verbs after {count}");
        assert!(rt;
            pass.is_held() && pass.held_at() == at,
            "holder after {count}"
        );
        assert!(rt; pass.parent() == parent, "parent after {count}");
        assert!(rt;
            pass.held_value().bytes() == b"v".as_slice(),
            "value after {count}"
        );
    }
    Ok(())
}

// The word of the table's first slot and that of the child's, after Flip: a copy answers only where the table's word was
// read as moved of its block, and a word of another fingerprint is not read.
#[test]
fn copies_that_answer(rt: HostRuntime) -> Result<(), Fail> {
    let rows = [
        (MOVED, COPY, Some(72), 28),
        (MOVED + 1, COPY, None, 46),
        (0, COPY, None, 46),
        (0, LIVE, Some(72), 28),
        (LIVE + (1 << 56), COPY, None, 46),
        (MOVED, LIVE + (1 << 56), None, 46),
        (LIVE, 0, Some(25), 5),
    ];
    for (word, below, held, verbs) in rows {
        let mut node = node_after(rt.alloc(), 19)?;
        put(&mut node, 25, word)?;
        put(&mut node, 72, below)?;
        let mut pass = pass_for(Some(TABLE), PassMode::Look)?;
        let ran = run(&mut node, &mut pass);
        assert!(rt; ran == Some(verbs), "verbs at {word} {below}");
        let at = if pass.is_held() {
            Some(pass.held_at())
        } else {
            None
        };
        assert!(rt; at == held, "holder at {word} {below}");
    }
    Ok(())
}

// Passes in an empty table, but for the call's own pending word in the first slot, and in one row another pending word of
// the key in the next: the mode, the entry of the cache and the verbs.
#[test]
fn counts_of_verbs(rt: HostRuntime) -> Result<(), Fail> {
    let sweep = PassMode::Sweep { own: 25, left: 1 };
    let rows = [
        (PassMode::Look, None, 0, 25),
        (PassMode::Look, Some(TABLE), 0, 23),
        (PassMode::Walk, None, 0, 4),
        (PassMode::Walk, Some(TABLE), 0, 2),
        (sweep, Some(TABLE), 0, 22),
        (sweep, Some(TABLE), PENDING, 26),
        (PassMode::Look, Some(TABLE), PENDING, 23),
    ];
    for (mode, entry, second, verbs) in rows {
        let mut node = node_after(rt.alloc(), 5)?;
        put(&mut node, 60, BLOCK[0])?;
        put(&mut node, 61, BLOCK[1])?;
        put(&mut node, 62, BLOCK[2])?;
        put(&mut node, 26, second)?;
        let mut pass = pass_for(entry, mode)?;
        let ran = run(&mut node, &mut pass);
        assert!(rt; ran == Some(verbs), "{mode:?} {second}");
        let passed = pass.passed().ok_or("no end")?;
        assert!(rt; matches!(passed.end, PassEnd::Clear), "end of {mode:?}");
        assert!(rt;
            passed.table == TABLE && passed.opened.is_some(),
            "{mode:?}"
        );
        let left = done(&mut node, &Verb::Read { at: 26 });
        let dropped = matches!(mode, PassMode::Sweep { .. });
        assert!(rt; left == Some(if dropped { 0 } else { second }), "{mode:?}");
    }
    Ok(())
}

// The ends of a pass, without what was held.
#[derive(Clone, Copy, Debug, PartialEq, Eq)]
enum End {
    Held,
    Clear,
    Gone,
    Spent,
}

// Feeds answers while the pass has a verb; how many it took.
fn fed(pass: &mut Pass, answers: &[u64]) -> usize {
    for (count, &word) in answers.iter().enumerate() {
        if pass.next().is_none() {
            return count;
        }
        pass.feed(word);
    }
    answers.len()
}

// A sweep reads the header, a pending word of the key in the second slot and its block, and its drop finds another word.
// How many swaps may be lost, the answers from that one on, how many of them are taken, and the end.
#[test]
fn lost_drops(rt: HostRuntime) -> Result<(), Fail> {
    let clear = [0; 21];
    let held = [LIVE, BLOCK[0], BLOCK[1], BLOCK[2], 0];
    let again = [PENDING + 3, BLOCK[0], BLOCK[1], BLOCK[2], PENDING, 0];
    let mut gone = [0; 21];
    gone[0] = PENDING;
    gone[20] = 512;
    let rows: [(u32, &[u64], usize, End); 5] = [
        (1, &clear, 1, End::Spent),
        (2, &clear, 21, End::Clear),
        (2, &held, 4, End::Held),
        (2, &again, 5, End::Spent),
        (2, &gone, 21, End::Gone),
    ];
    for (left, answers, taken, end) in rows {
        let mut pass = pass_for(Some(TABLE), PassMode::Sweep { own: 25, left })?;
        let start = [256, PENDING, BLOCK[0], BLOCK[1], BLOCK[2]];
        assert!(rt; fed(&mut pass, &start) == 5, "the start of {end:?}");
        assert!(rt; pass.block() == None, "the drop of {end:?}");
        assert!(rt; fed(&mut pass, answers) == taken, "{end:?} {left}");
        let passed = pass.passed().ok_or("no end")?;
        let named = match passed.end {
            PassEnd::Held(_) => End::Held,
            PassEnd::Clear => End::Clear,
            PassEnd::Gone => End::Gone,
            PassEnd::Spent => End::Spent,
        };
        assert!(rt; named == end, "{end:?} {left}");
    }
    Ok(())
}
