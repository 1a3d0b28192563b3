//! Logs of few entries with their kinds and changes.
use crate::{Entry, Kind, Log};
use kv_block::{Change, Key, Value};
use node_words::Geometry;
use std::alloc::Global;
use std::process::Abort;
use std::test::Fail;

/// An entry with its kind: the client, the address, the old word, the new word.
type Judged = (u32, u64, u64, u64, Option<Kind>);

/// Pushes the entries, with a look at the word before each, and then looks at their kinds. Each change is that of the key
/// "k", to the value of one digit or to none.
fn play(
    rt: &impl Abort,
    alloc: Global,
    geometry: Geometry,
    entries: &[Judged],
    values: &[Option<u8>],
) -> Result<(), Fail> {
    let mut log = Log::new(alloc, geometry);
    for &(client, at, old, new, _) in entries {
        assert!(rt; at < geometry.words, "the address {at}");
        let found = log.word(at);
        assert_eq!(rt; found, old, "the word at {at}");
        log.push(Entry {
            client,
            at,
            old: found,
            new,
        })?;
    }
    for (n, &(client, at, old, new, kind)) in entries.iter().enumerate() {
        let number = n as u64;
        assert!(rt; number < log.len(), "{n} entries");
        let entry = Entry {
            client,
            at,
            old,
            new,
        };
        assert!(rt; log.entry(number) == entry, "entry {n}");
        assert!(rt; log.kind_of(number) == kind, "the kind of entry {n}");
    }
    let indexed = log.indexed(alloc)?;
    for (n, &(_, _, _, _, kind)) in entries.iter().enumerate() {
        let number = n as u64;
        assert!(rt; number < indexed.len(), "{n} entries");
        assert!(rt;
            indexed.kind_of(number) == kind,
            "the kind of entry {n} by the index"
        );
    }
    let changes = log.changes(alloc)?;
    assert_eq!(rt; changes.len(), values.len());
    for (change, digit) in changes.iter().zip(values) {
        let key = Key::from_bytes(b"k").ok_or("no key")?;
        let value = match *digit {
            Some(digit) => Some(Value::from_bytes(&[digit]).ok_or("no value")?),
            None => None,
        };
        assert!(rt; change == Change { key, value });
    }
    Ok(())
}

fn geometry_of(max_depth: u32, first_depth: u32, nodes: u32, words: u64) -> Result<Geometry, Fail> {
    Ok(
        Geometry::check(1, max_depth, first_depth, nodes, words)
            .ok()
            .ok_or("no geometry")?,
    )
}

/// Two inserts of one key that are both placed: one of them draws back, and so does the other before it tries again.
#[test]
fn two_inserts(rt: HostRuntime) -> Result<(), Fail> {
    let entries = [
        (0, 0, 47, 50, Some(Kind::Take)),
        (0, 47, 0, 65537, Some(Kind::Store)),
        (0, 48, 0, 107, Some(Kind::Store)),
        (0, 49, 0, 49, Some(Kind::Store)),
        (0, 24, 0, 914793674309679, Some(Kind::Place)),
        (1, 0, 50, 53, Some(Kind::Take)),
        (1, 50, 0, 65537, Some(Kind::Store)),
        (1, 51, 0, 107, Some(Kind::Store)),
        (1, 52, 0, 50, Some(Kind::Store)),
        (1, 40, 0, 914793674309682, Some(Kind::Place)),
        (1, 24, 914793674309679, 0, Some(Kind::Drop)),
        (0, 40, 914793674309682, 0, Some(Kind::Drop)),
        (0, 0, 53, 56, Some(Kind::Take)),
        (0, 53, 0, 65537, Some(Kind::Store)),
        (0, 54, 0, 107, Some(Kind::Store)),
        (0, 55, 0, 49, Some(Kind::Store)),
        (0, 24, 0, 914793674309685, Some(Kind::Place)),
        (0, 24, 914793674309685, 844424930132021, Some(Kind::Commit)),
    ];
    play(
        &rt,
        rt.alloc(),
        geometry_of(0, 0, 1, 100)?,
        &entries,
        &[Some(b'1')],
    )
}

/// Two nodes, with two first tables: the block lies in node 0, behind the tables.
#[test]
fn two_nodes(rt: HostRuntime) -> Result<(), Fail> {
    let entries = [
        (0, 0, 94, 97, Some(Kind::Take)),
        (0, 94, 0, 65537, Some(Kind::Store)),
        (0, 95, 0, 107, Some(Kind::Store)),
        (0, 96, 0, 49, Some(Kind::Store)),
        (0, 71, 0, 914793674309726, Some(Kind::Place)),
        (0, 71, 914793674309726, 844424930132062, Some(Kind::Commit)),
    ];
    play(
        &rt,
        rt.alloc(),
        geometry_of(2, 1, 2, 200)?,
        &entries,
        &[Some(b'1')],
    )
}

/// An insert, two splits one after the other, an update and a delete; then a pending word and a copy that come and go, and
/// entries that are of no kind.
#[test]
fn two_splits(rt: HostRuntime) -> Result<(), Fail> {
    let entries = [
        (0, 0, 50, 53, Some(Kind::Take)),
        (0, 50, 0, 65537, Some(Kind::Store)),
        (0, 51, 0, 107, Some(Kind::Store)),
        (0, 52, 0, 49, Some(Kind::Store)),
        (0, 27, 0, 914793674309682, Some(Kind::Place)),
        (0, 27, 914793674309682, 844424930132018, Some(Kind::Commit)),
        (0, 8, 0, 1, Some(Kind::Lock)),
        (0, 0, 53, 97, Some(Kind::Take)),
        (0, 53, 0, 100663553, Some(Kind::Store)),
        (0, 54, 0, 769, Some(Kind::Store)),
        (0, 55, 0, 1, Some(Kind::Store)),
        (0, 73, 0, 769, Some(Kind::Store)),
        (0, 89, 0, 769, Some(Kind::Store)),
        (0, 10, 0, 53, Some(Kind::Link)),
        (0, 26, 256, 512, Some(Kind::Begin)),
        (0, 42, 256, 512, Some(Kind::Begin)),
        (0, 7, 256, 512, Some(Kind::Open)),
        (0, 74, 0, 985162418487346, Some(Kind::Copy)),
        (0, 27, 844424930132018, 1055531162665010, Some(Kind::Flip)),
        (0, 74, 985162418487346, 844424930132018, Some(Kind::Settle)),
        (0, 27, 1055531162665010, 0, Some(Kind::Clear)),
        (0, 7, 512, 257, Some(Kind::Finish)),
        (0, 26, 512, 257, Some(Kind::Close)),
        (0, 42, 512, 257, Some(Kind::Close)),
        (0, 3, 0, 6, Some(Kind::Name)),
        (0, 1, 0, 1, Some(Kind::Deepen)),
        (0, 3, 6, 53, Some(Kind::Name)),
        (0, 73, 769, 257, Some(Kind::Ripen)),
        (0, 89, 769, 257, Some(Kind::Ripen)),
        (0, 54, 769, 257, Some(Kind::Ripen)),
        (0, 8, 1, 0, Some(Kind::Unlock)),
        (0, 55, 1, 0, Some(Kind::Unlock)),
        (0, 55, 0, 1, Some(Kind::Lock)),
        (0, 0, 97, 141, Some(Kind::Take)),
        (0, 97, 0, 889193218, Some(Kind::Store)),
        (0, 98, 0, 770, Some(Kind::Store)),
        (0, 99, 0, 1, Some(Kind::Store)),
        (0, 117, 0, 770, Some(Kind::Store)),
        (0, 133, 0, 770, Some(Kind::Store)),
        (0, 58, 0, 97, Some(Kind::Link)),
        (0, 73, 257, 513, Some(Kind::Begin)),
        (0, 89, 257, 513, Some(Kind::Begin)),
        (0, 54, 257, 513, Some(Kind::Open)),
        (0, 54, 513, 258, Some(Kind::Finish)),
        (0, 73, 513, 258, Some(Kind::Close)),
        (0, 89, 513, 258, Some(Kind::Close)),
        (0, 4, 0, 6, Some(Kind::Name)),
        (0, 5, 0, 53, Some(Kind::Name)),
        (0, 1, 1, 2, Some(Kind::Deepen)),
        (0, 5, 53, 97, Some(Kind::Name)),
        (0, 117, 770, 258, Some(Kind::Ripen)),
        (0, 133, 770, 258, Some(Kind::Ripen)),
        (0, 98, 770, 258, Some(Kind::Ripen)),
        (0, 55, 1, 0, Some(Kind::Unlock)),
        (0, 99, 1, 0, Some(Kind::Unlock)),
        (0, 0, 141, 144, Some(Kind::Take)),
        (0, 141, 0, 65537, Some(Kind::Store)),
        (0, 142, 0, 107, Some(Kind::Store)),
        (0, 143, 0, 50, Some(Kind::Store)),
        (0, 74, 844424930132018, 844424930132109, Some(Kind::Replace)),
        (0, 74, 844424930132109, 0, Some(Kind::Remove)),
        (1, 28, 0, 914793674309773, Some(Kind::Place)),
        (1, 28, 914793674309773, 0, Some(Kind::Drop)),
        (2, 28, 0, 985162418487437, Some(Kind::Copy)),
        (2, 28, 985162418487437, 0, Some(Kind::Uncopy)),
        (0, 141, 65537, 1, None),
        (0, 144, 0, 1, None),
        (0, 8, 0, 2, None),
        (0, 6, 0, 1, None),
        (0, 26, 257, 514, None),
        (0, 28, 0, 844424930132109, None),
        (0, 34, 0, 1, None),
    ];
    play(
        &rt,
        rt.alloc(),
        geometry_of(2, 0, 1, 200)?,
        &entries,
        &[Some(b'1'), Some(b'2'), None],
    )
}

/// A log that is not legal: its entries with their kinds.
type Illegal = (&'static str, &'static [Judged]);

const ILLEGAL: [Illegal; 6] = [
    (
        "a word of a table that was taken is stored: the row Store stands first",
        &[
            (0, 0, 47, 3, None),
            (0, 0, 3, 47, Some(Kind::Take)),
            (256, 4, 256, 5, Some(Kind::Store)),
        ],
    ),
    (
        "whatever its role: a slot, a lock, a child word and the next word itself",
        &[
            (0, 0, 47, 0, None),
            (0, 0, 0, 47, Some(Kind::Take)),
            (0, 24, 0, PLACED, Some(Kind::Store)),
            (0, 5, 0, 1, Some(Kind::Store)),
            (0, 7, 0, 60, Some(Kind::Store)),
            (0, 0, 47, 50, Some(Kind::Store)),
        ],
    ),
    (
        "a store to a child word links no table, and one to a next word takes no word",
        &[
            (0, 0, 47, 0, None),
            (0, 0, 0, 47, Some(Kind::Take)),
            (0, 7, 0, 60, Some(Kind::Store)),
            (0, 62, 0, 1, None),
            (0, 0, 47, 50, Some(Kind::Store)),
            (0, 48, 0, 1, None),
        ],
    ),
    (
        "a published word is stored no more, and has its role's kinds",
        &[
            (0, 0, 47, 50, Some(Kind::Take)),
            (0, 7, 0, 47, Some(Kind::Link)),
            (0, 47, 0, 1, None),
            (0, 49, 0, 1, Some(Kind::Lock)),
        ],
    ),
    (
        "an address is at most the words less 1",
        &[
            (0, 7, 0, 100, None),
            (0, 2, 3, 100, None),
            (0, 2, 100, 99, Some(Kind::Name)),
            (0, 7, 100, 0, None),
            (0, 7, 0, 99, Some(Kind::Link)),
        ],
    ),
    (
        "an address is not 0",
        &[(0, 2, 3, 0, None), (0, 7, 0, 0, None)],
    ),
];

/// The word of a pending slot whose block of 3 words is at 48.
const PLACED: u64 = 914793674309680;

/// Logs of no legal run: where several rows fit an entry, the first of the table is its kind, and where none does it has none.
#[test]
fn logs_that_are_not_legal(rt: HostRuntime) -> Result<(), Fail> {
    for (_, entries) in ILLEGAL {
        play(&rt, rt.alloc(), geometry_of(0, 0, 1, 100)?, entries, &[])?;
    }
    Ok(())
}

/// A Take that runs past its node takes no word of the next one: in the second node word 150 is taken by no Take of the first.
#[test]
fn a_take_past_its_node(rt: HostRuntime) -> Result<(), Fail> {
    let entries = [
        (0, 0, 47, 160, Some(Kind::Take)),
        (0, 99, 0, 1, Some(Kind::Store)),
        (0, 150, 0, 1, None),
        (0, 100, 101, 151, Some(Kind::Take)),
        (0, 150, 1, 2, Some(Kind::Store)),
    ];
    play(&rt, rt.alloc(), geometry_of(0, 0, 2, 200)?, &entries, &[])
}
