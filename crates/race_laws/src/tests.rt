//! Small logs, and which of their entries meet their rows.
ghost use Rattle.std.specs.Prelude.{◌≡◌, ◌*◌, ◌^◌, ◌<◌, IfOk};

mod steps;

use crate::leaves;
use bucket_group::{fingerprint, first_bucket, places};
use kv_block::{Key, Value, read_block};
use map_model::{Call, Reply, map_at};
use node_words::{Geometry, birth_at, bucket_header_at, header_at, slot_at};
use slot_word::{Head, Mark, Slot, State, read_birth, read_head, read_slot};
use std::alloc::Global;
use std::process::Abort;
use std::test::Fail;
use steps::{
    BEGUN, CHILD, CLEARED, COMMITTED, COMMITTED_AGAIN, COPIED, COPIED_OLD, FINISHED, FLIPPED,
    IN_CHILD, IN_GROUP_0, IN_GROUP_1, INSERTED_BELOW, LINKED, LIVE, LOWER, MOVED_NEW, MOVING,
    OPENED, OPENED_FIRST, OTHER, PLACED, PLACED_AGAIN, REMOVED, REPLACED, RIPENED, SETTLED, SPLIT,
    STORED, STORED_AGAIN, STORED_WIDE, Step, TABLE, UNCOPIED, UPDATED_BELOW, UPPER,
};
use verb_log::{Entry, Log};

/// The hash of `k`: the slots of group 0 are its candidates, and it leaves the first table at level 0 and the child never.
const HASH: u64 = 1;

// The log of these steps, each of which has its kind.
fn logged(rt: &impl Abort, alloc: Global, geometry: Geometry, steps: &[Step]) -> Result<Log, Fail>
    ensures { IfOk result (λ log. log.geometry ≡ geometry) }
{
    let mut log = Log::new(alloc, geometry);
    for &(client, at, old, new, _) in steps {
        assert!(rt; at < geometry.words, "the address {at}");
        let found = log.word(at);
        assert_eq!(rt; found, old, "the word at {at}");
        log.push(Entry {
            client,
            at,
            old: found,
            new,
        })?;
    }
    for (n, &(_, _, _, _, kind)) in steps.iter().enumerate() {
        let number = n as u64;
        assert!(rt; number < log.len(), "{n} entries");
        assert!(rt; log.kind_of(number) == Some(kind), "the kind of entry {n}");
    }
    Ok(log)
}

// The memory of the tests, with this many groups in a table.
fn memory(groups: u32) -> Result<Geometry, Fail> {
    Ok(Geometry::check(groups, 2, 0, 1, 200)?)
}

// The words of a memory after a log.
fn words_of(alloc: Global, geometry: &Geometry, log: &Log) -> Result<Vec<u64>, Fail>
    requires { log.now.geometry ≡ geometry.now }
{
    let mut words = Vec::new(alloc);
    for at in 0..geometry.words {
        words.push(log.word(at))?;
    }
    Ok(words)
}

// The words after the steps of these parts and of the rest, and the reply of a search by the changes of the map.
fn play(
    rt: &impl Abort,
    alloc: Global,
    groups: u32,
    parts: &[&[Step]],
    rest: &[&[Step]],
) -> Result<(Vec<u64>, Option<Reply>), Fail> {
    let geometry = memory(groups)?;
    let mut steps = Vec::new(alloc);
    for &part in parts {
        steps.extend_from_slice(part)?;
    }
    for &part in rest {
        steps.extend_from_slice(part)?;
    }
    let log = logged(rt, alloc, geometry, &steps)?;
    let changes = log.changes(alloc)?;
    let mut map = map_at(alloc, &changes, changes.len() as u64)?;
    let key = Key::from_bytes(b"k").ok_or("no key")?;
    let reply = map.step(&Call::Search { key })?;
    Ok((words_of(alloc, &geometry, &log)?, reply))
}

// The reply of a search that finds a value of one digit, or none.
fn reply_of(digit: Option<u8>) -> Result<Reply, Fail> {
    match digit {
        Some(digit) => Ok(Reply::Found(Value::from_bytes(&[digit]).ok_or("no value")?)),
        None => Ok(Reply::Missing),
    }
}

// The slot at a place of a table.
fn slot_in(words: &[u64], table: u64, place: u32) -> Option<Slot>
    requires table { table < 2 ^ 46 }
    requires place { place < 24 * 64 }
{
    read_slot(*words.get(slot_at(table, place) as usize)?)
}

// Whether a slot answers for its key: it is live, or a copy of a block that the same place of the parent has as moved.
fn answers(slot: &Slot, parent: Option<Slot>) -> bool {
    match (slot.mark, parent) {
        (Mark::Live, _) => true,
        (Mark::Copied, Some(above)) => above.mark == Mark::Moved && above.at == slot.at,
        _ => false,
    }
}

// The candidate slots of a table that answer for `k`, with the words at the position at which its parent was read.
fn answering(
    alloc: Global,
    groups: u32,
    words: &[u64],
    table: u64,
    before: Option<&[u64]>,
) -> Result<Vec<u64>, Fail>
    requires { table < 2 ^ 46 }
{
    let candidates = places(&memory(groups)?, HASH);
    let mut found = Vec::new(alloc);
    for i in 0..candidates.len() {
        let place = candidates.get(i);
        let above = match before {
            Some(words) => slot_in(words, TABLE, place),
            None => None,
        };
        if let Some(slot) = slot_in(words, table, place) {
            if answers(&slot, above) {
                found.push(slot_at(table, place))?;
            }
        }
    }
    Ok(found)
}

// Whether a key with this hash is leaving or has left a table by the header at an address.
fn is_gone(hash: u64, words: &[u64], table: u64, header: u64) -> Option<bool>
    requires { table < 2 ^ 46 }
{
    let birth = read_birth(*words.get(birth_at(table) as usize)?)?;
    let head = read_head(*words.get(header as usize)?)?;
    Some(leaves(hash, birth.depth, &head).is_some())
}

// The holders of `k`: the slots that answer for it in the tables of its chain.
fn holders(alloc: Global, groups: u32, words: &[u64]) -> Result<Vec<u64>, Fail> {
    let mut held = answering(alloc, groups, words, TABLE, None)?;
    if is_gone(HASH, words, TABLE, header_at(TABLE)).ok_or("no header")? {
        held.extend_from_slice(&answering(alloc, groups, words, CHILD, Some(words))?)?;
    }
    Ok(held)
}

// Whether a table does not fill, so that a pass may begin there.
fn is_ripe(words: &[u64], table: u64) -> bool
    requires { table < 2 ^ 46 }
{
    match words.get(header_at(table) as usize) {
        Some(&word) => match read_head(word) {
            Some(head) => head.state != State::Filling,
            None => false,
        },
        None => false,
    }
}

/// What comes after `MOVING`, the holders of `k`, and the digit of its value.
const MOVES: [(&str, &[&[Step]], &[u64], u8); 12] = [
    ("legal: not moved yet", &[], &[UPPER], b'1'),
    ("legal: flipped", &[COPIED, FLIPPED], &[LOWER], b'1'),
    (
        "legal: moved",
        &[COPIED, FLIPPED, SETTLED, CLEARED],
        &[LOWER],
        b'1',
    ),
    (
        "legal: the copy is taken back",
        &[COPIED, UNCOPIED],
        &[UPPER],
        b'1',
    ),
    (
        "legal: an update is moved",
        &[STORED_AGAIN, REPLACED, MOVED_NEW],
        &[LOWER],
        b'2',
    ),
    ("a Flip with no copy", &[FLIPPED], &[], b'1'),
    (
        "a Settle with no moved word",
        &[COPIED, SETTLED],
        &[UPPER, LOWER],
        b'1',
    ),
    (
        "an Uncopy beside a moved word",
        &[COPIED, FLIPPED, UNCOPIED],
        &[],
        b'1',
    ),
    (
        "a Clear beside a copy",
        &[COPIED, FLIPPED, CLEARED],
        &[],
        b'1',
    ),
    (
        "a Copy over one that answers",
        &[STORED_AGAIN, REPLACED, MOVED_NEW, COPIED_OLD],
        &[],
        b'2',
    ),
    (
        "an insert after a Finish beside a live word",
        &[FINISHED, RIPENED, STORED_AGAIN, INSERTED_BELOW],
        &[UPPER, LOWER],
        b'2',
    ),
    (
        "an insert after a Ripen before the Finish",
        &[RIPENED, STORED_AGAIN, INSERTED_BELOW],
        &[UPPER, LOWER],
        b'2',
    ),
];

/// Each entry has its kind, and the map has `k` with this value. In a legal move it has one holder all along; where a row's
/// clause fails it has none, or two.
#[test]
fn what_falls_without_a_clause(rt: HostRuntime) -> Result<(), Fail> {
    for (name, rest, held, digit) in MOVES {
        let (words, reply) = play(&rt, rt.alloc(), 1, MOVING, rest)?;
        assert!(rt; reply == Some(reply_of(Some(digit))?), "{name}");
        let found = holders(rt.alloc(), 1, &words)?;
        assert!(rt; found.as_slice() == held, "{name}");
    }
    Ok(())
}

/// What comes after the first Place, the holders of `k`, and the digit of its value.
const INSERTS: [(&str, &[&[Step]], &[u64], Option<u8>); 4] = [
    ("both are placed", &[PLACED_AGAIN], &[], None),
    (
        "legal: one commits",
        &[PLACED_AGAIN, COMMITTED],
        &[UPPER],
        Some(b'1'),
    ),
    (
        "no sweep",
        &[COMMITTED, PLACED_AGAIN, COMMITTED_AGAIN],
        &[UPPER, OTHER],
        Some(b'2'),
    ),
    (
        "two sweeps by a pending word",
        &[PLACED_AGAIN, COMMITTED, COMMITTED_AGAIN],
        &[UPPER, OTHER],
        Some(b'2'),
    ),
];

/// Two inserts of one key. The second commits without a sweep; or both sweep when both are placed, where no holder stands, and
/// then commit: the map has the key once, and it has two holders.
#[test]
fn two_inserts_that_commit(rt: HostRuntime) -> Result<(), Fail> {
    for (name, rest, held, digit) in INSERTS {
        let (words, reply) = play(&rt, rt.alloc(), 1, &[STORED, PLACED], rest)?;
        assert!(rt; reply == Some(reply_of(digit)?), "{name}");
        let found = holders(rt.alloc(), 1, &words)?;
        assert!(rt; found.as_slice() == held, "{name}");
    }
    Ok(())
}

/// A log in two parts, the holders of `k`, and the slots of the child that answer for it.
const LOOKS: [(&str, &[&[Step]], &[&[Step]], &[u64], &[u64]); 4] = [
    (
        "legal",
        MOVING,
        &[COPIED, FLIPPED, SETTLED, CLEARED, FINISHED, RIPENED],
        &[LOWER],
        &[LOWER],
    ),
    (
        "a Finish beside a live word",
        MOVING,
        &[FINISHED, RIPENED],
        &[UPPER],
        &[],
    ),
    (
        "a Ripen before the Finish",
        MOVING,
        &[RIPENED],
        &[UPPER],
        &[],
    ),
    (
        "an Open before the bucket headers",
        OPENED_FIRST,
        &[FINISHED, RIPENED],
        &[UPPER],
        &[],
    ),
];

/// The map has `k`, it has one holder, and the child is on its chain and fills no more. A look that begins in the child finds
/// the holder after a legal split; where a clause fails the holder stands above, and it finds nothing.
#[test]
fn a_look_below_the_holder(rt: HostRuntime) -> Result<(), Fail> {
    let one = reply_of(Some(b'1'))?;
    for (name, parts, rest, held, seen) in LOOKS {
        let (words, reply) = play(&rt, rt.alloc(), 1, parts, rest)?;
        assert!(rt; reply == Some(one), "{name}");
        assert!(rt;
            holders(rt.alloc(), 1, &words)?.as_slice() == held,
            "{name}"
        );
        assert!(rt;
            is_gone(HASH, &words, TABLE, header_at(TABLE)) == Some(true),
            "{name}"
        );
        assert!(rt; is_ripe(&words, CHILD), "{name}");
        let found = answering(rt.alloc(), 1, &words, CHILD, None)?;
        assert!(rt; found.as_slice() == seen, "{name}");
    }
    Ok(())
}

/// Right after the Open a place of the table is clear. Where the bucket headers have begun, the header of `k` shows it gone, so
/// no sweep ends in the table; where they have not, one does, and a live word comes to the clear place.
#[test]
fn a_place_that_was_clear(rt: HostRuntime) -> Result<(), Fail> {
    let header = bucket_header_at(TABLE, first_bucket(&memory(1)?, HASH));
    let rows: [(&[&[Step]], bool); 2] = [
        (&[STORED, LINKED, BEGUN, OPENED], true),
        (&[STORED, LINKED, OPENED], false),
    ];
    for (parts, gone) in rows {
        let (words, _) = play(&rt, rt.alloc(), 1, parts, &[])?;
        assert!(rt; slot_in(&words, TABLE, 1) == None);
        assert!(rt; is_gone(HASH, &words, TABLE, header_at(TABLE)) == Some(true));
        assert!(rt; is_gone(HASH, &words, TABLE, header) == Some(gone));
    }
    let (words, _) = play(&rt, rt.alloc(), 1, OPENED_FIRST, &[])?;
    let slot = slot_in(&words, TABLE, 1).ok_or("no slot")?;
    assert!(rt; slot.mark == Mark::Live);
    Ok(())
}

// The slots of the child that answer for `k` where the first table was read before.
fn answering_below(alloc: Global, words: &[u64], before: &[u64]) -> Result<Vec<u64>, Fail> {
    answering(alloc, 1, words, CHILD, Some(before))
}

/// What comes after `MOVING`, and the slots of the child that answer for `k`.
const REMOVALS: [(&str, &[&[Step]], &[u64]); 2] = [
    ("legal", &[COPIED, FLIPPED, SETTLED, CLEARED, REMOVED], &[]),
    (
        "copied again",
        &[COPIED, FLIPPED, SETTLED, CLEARED, REMOVED, COPIED],
        &[LOWER],
    ),
];

/// `k` was moved and then removed. A look that read the first table while `k` was moved there finds nothing in the child; where
/// its block is copied once more, beside the cleared place, it finds that copy, which is no holder.
#[test]
fn a_copy_that_comes_again(rt: HostRuntime) -> Result<(), Fail> {
    let (before, _) = play(&rt, rt.alloc(), 1, MOVING, &[COPIED, FLIPPED])?;
    for (name, rest, seen) in REMOVALS {
        let (words, reply) = play(&rt, rt.alloc(), 1, MOVING, rest)?;
        assert!(rt; reply == Some(Reply::Missing), "{name}");
        let held = holders(rt.alloc(), 1, &words)?;
        assert!(rt; held.is_empty(), "{name}");
        let found = answering_below(rt.alloc(), &words, &before)?;
        assert!(rt; found.as_slice() == seen, "{name}");
    }
    Ok(())
}

/// Where `k` is committed, and the slots that answer for it.
const GROUPS: [(&[Step], &[u64]); 2] = [(IN_GROUP_0, &[UPPER]), (IN_GROUP_1, &[])];

/// In tables of two groups `k` has candidates in group 0 alone. Committed in group 1 it is in the map, but no look for it reads
/// that slot.
#[test]
fn a_place_that_is_no_candidate(rt: HostRuntime) -> Result<(), Fail> {
    for (inserted, seen) in GROUPS {
        let (words, reply) = play(&rt, rt.alloc(), 2, &[STORED_WIDE], &[inserted])?;
        assert!(rt; reply == Some(reply_of(Some(b'1'))?));
        let found = answering(rt.alloc(), 2, &words, TABLE, None)?;
        assert!(rt; found.as_slice() == seen);
    }
    Ok(())
}

/// `k` is committed in the child of a split that is finished. Its hash leads there; a hash of which bit 0 is not set stays in the
/// first table, which does not have the key.
#[test]
fn a_table_off_the_chain(rt: HostRuntime) -> Result<(), Fail> {
    let (words, reply) = play(&rt, rt.alloc(), 1, SPLIT, &[IN_CHILD])?;
    assert!(rt; reply == Some(reply_of(Some(b'1'))?));
    let above = answering(rt.alloc(), 1, &words, TABLE, None)?;
    assert!(rt; above.is_empty());
    let below = answering(rt.alloc(), 1, &words, CHILD, None)?;
    assert!(rt; below.as_slice() == [LOWER].as_slice());
    for (hash, gone) in [(HASH, true), (0, false)] {
        let found = is_gone(hash, &words, TABLE, header_at(TABLE));
        assert!(rt; found == Some(gone), "{hash}");
    }
    Ok(())
}

/// A hash of which bit 1 alone is set: its key leaves at level 1, where the header says so.
#[test]
fn levels(rt: HostRuntime) {
    for (hash, birth_depth, depth, state, level) in [
        (2, 0, 1, State::Splitting, Some(1)),
        (2, 0, 0, State::Splitting, None),
        (2, 0, 1, State::Plain, None),
        (2, 0, 2, State::Plain, Some(1)),
        (2, 0, 1, State::Filling, None),
        (2, 2, 3, State::Plain, None),
        (0, 0, 3, State::Splitting, None),
    ] {
        let head = Head { depth, state };
        assert!(rt; leaves(hash, birth_depth, &head) == level, "{hash} {depth}");
    }
}

/// An update between a Flip and its Clear. Before its last entry the child fills, the place of the parent is moved, so was never
/// clear, and the same place of the child is live with `k`: the place is a candidate of `k`, and the parent's header leads to the
/// child, so it is the holder. The new block is that of `k` and `2`, with the print of `k`, in words that the client took for it.
#[test]
fn an_update_below_a_moved_place(rt: HostRuntime) -> Result<(), Fail> {
    let geometry = Geometry::check(1, 1, 0, 1, 600)?;
    let (table, child, place) = (4, 51, 1);
    let log = logged(&rt, rt.alloc(), geometry, UPDATED_BELOW)?;
    let mut before = words_of(rt.alloc(), &geometry, &log)?;
    if let Some(word) = before.get_mut(72) {
        *word = LIVE + 48;
    }
    assert!(rt; !is_ripe(&before, child));
    let above = slot_in(&before, table, place).ok_or("no slot")?;
    let held = slot_in(&before, child, place).ok_or("no slot")?;
    assert!(rt; above.mark == Mark::Moved && held.mark == Mark::Live && held.at == above.at);
    let candidates = places(&geometry, HASH);
    assert!(rt; candidates.len() > 0 && candidates.get(0) == place);
    assert!(rt; is_gone(HASH, &before, table, header_at(table)) == Some(true));
    let words = words_of(rt.alloc(), &geometry, &log)?;
    let slot = slot_in(&words, child, place).ok_or("no slot")?;
    assert!(rt;
        slot.mark == Mark::Live && slot.fp == fingerprint(HASH) && slot.at == 95 && slot.len == 3
    );
    let block = words.get(95..98).ok_or("no block")?;
    let (key, value) = read_block(block).ok_or("no pair")?;
    assert!(rt; key == Key::from_bytes(b"k").ok_or("no key")?);
    assert!(rt; value == Value::from_bytes(b"2").ok_or("no value")?);
    let changes = log.changes(rt.alloc())?;
    let mut map = map_at(rt.alloc(), &changes, changes.len() as u64)?;
    assert!(rt; map.step(&Call::Search { key })? == Some(reply_of(Some(b'2'))?));
    Ok(())
}
