//! Steps of the map, points, and histories that are legal or not.
use super::*;
use kv_block::{Key, Value};
use std::alloc::Global;
use std::test::Fail;

fn key(bytes: &[u8]) -> Result<Key, Fail> {
    Ok(Key::from_bytes(bytes).ok_or("no key")?)
}

fn value(bytes: &[u8]) -> Result<Value, Fail> {
    Ok(Value::from_bytes(bytes).ok_or("no value")?)
}

fn answered(
    call: &Call,
    reply: Reply,
    client: u32,
    number: u32,
    lo: u64,
    hi: u64,
    point: u64,
) -> Record {
    Record {
        client,
        number,
        call: *call,
        reply,
        lo,
        hi,
        point,
    }
}

// The calls of four clients: three of the first, then an insert and a delete of one key between the verbs of an insert.
fn calls() -> Result<[Call; 6], Fail> {
    let (x, y, k) = (key(b"x")?, key(b"y")?, key(b"k")?);
    let nine = value(b"9")?;
    Ok([
        Call::Insert {
            key: x,
            value: nine,
        },
        Call::Insert {
            key: y,
            value: nine,
        },
        Call::Delete { key: x },
        Call::Insert {
            key: k,
            value: value(b"1")?,
        },
        Call::Delete { key: k },
        Call::Insert {
            key: k,
            value: value(b"2")?,
        },
    ])
}

fn replies() -> Result<[Reply; 6], Fail> {
    Ok([
        Reply::Inserted,
        Reply::Inserted,
        Reply::Deleted(value(b"9")?),
        Reply::Inserted,
        Reply::Deleted(value(b"1")?),
        Reply::Inserted,
    ])
}

fn records() -> Result<[Record; 6], Fail> {
    let (calls, replies) = (calls()?, replies()?);
    Ok([
        answered(&calls[0], replies[0], 0, 1, 0, 1, 0),
        answered(&calls[1], replies[1], 0, 2, 1, 2, 1),
        answered(&calls[2], replies[2], 0, 3, 2, 3, 2),
        answered(&calls[3], replies[3], 1, 1, 2, 4, 3),
        answered(&calls[4], replies[4], 3, 1, 4, 5, 4),
        answered(&calls[5], replies[5], 2, 1, 3, 6, 5),
    ])
}

fn changes_of(alloc: Global, calls: &[Call]) -> Result<Changes, Fail> {
    let mut changes = Changes::new(alloc);
    for call in calls {
        if let Some(change) = call.change() {
            changes.reserve()?;
            changes.push(change)?;
        }
    }
    Ok(changes)
}

// The records, with one of them replaced.
fn listed(alloc: Global, given: &[Record], place: usize, other: Record) -> Result<Records, Fail> {
    let mut records = Records::new(alloc);
    for (i, one) in given.iter().enumerate() {
        records.reserve()?;
        records.push(if i == place { other } else { *one })?;
    }
    Ok(records)
}

#[test]
fn a_finished_insert_is_kept(rt: HostRuntime) -> Result<(), Fail> {
    let alloc = rt.alloc();
    let (calls, good) = (calls()?, records()?);
    let changes = changes_of(alloc, &calls)?;
    let (second, delete) = (good[1], good[4]);
    let other_reply = Reply::Deleted(value(b"2")?);
    assert!(rt; is_legal(alloc, &changes, &listed(alloc, &good, 4, delete)?)?);
    assert!(rt;
        !is_legal(
            alloc,
            &changes,
            &listed(
                alloc,
                &good,
                4,
                Record {
                    reply: other_reply,
                    ..delete
                }
            )?
        )?
    );
    assert!(rt;
        !is_legal(
            alloc,
            &changes,
            &listed(alloc, &good, 4, Record { lo: 5, ..delete })?
        )?
    );
    assert!(rt;
        !is_legal(
            alloc,
            &changes,
            &listed(
                alloc,
                &good,
                1,
                Record {
                    number: 1,
                    ..second
                }
            )?
        )?
    );
    let mut other_change = changes_of(alloc, &calls[..5])?;
    other_change.push(Change {
        key: key(b"k")?,
        value: Some(value(b"3")?),
    })?;
    assert!(rt; !is_legal(alloc, &other_change, &listed(alloc, &good, 4, delete)?)?);
    Ok(())
}

#[test]
fn quiet_calls_stand_before_the_change_of_their_point(rt: HostRuntime) -> Result<(), Fail> {
    let alloc = rt.alloc();
    let k = key(b"k")?;
    let changes = changes_of(alloc, &calls()?)?;
    let mut given = Records::new(alloc);
    given.push(records()?[3])?;
    given.push(answered(&Call::Search { key: k }, Reply::Missing, 4, 1, 0, 3, 3))?;
    given.push(answered(
        &Call::Resize { key: k },
        Reply::Again { lost: 1 },
        4,
        2,
        3,
        3,
        3,
    ))?;
    let ordered = history(alloc, &changes, &given)?;
    assert_eq!(rt; ordered.len(), 2);
    assert!(rt; ordered.get(0).reply == Reply::Missing);
    let mut timeline = Timeline::new(alloc);
    for change in changes.iter() {
        timeline.push(alloc, &change)?;
    }
    assert_eq!(rt; timeline.len(), 6);
    let search = Call::Search { key: k };
    assert_eq!(rt; timeline.first(4, &search, &Reply::Missing), 5);
    assert_eq!(rt; timeline.first(6, &search, &Reply::Missing), 7);
    assert_eq!(rt; timeline.first(0, &search, &Reply::Found(value(b"2")?)), 6);
    Ok(())
}

#[test]
fn the_machine_answers(rt: HostRuntime) -> Result<(), Fail> {
    let mut map = MapMachine::new(rt.alloc());
    let k = key(b"k")?;
    let (one, two) = (value(b"1")?, value(b"2")?);
    assert!(rt; map.step(&Call::Update { key: k, value: one })? == Some(Reply::Missing));
    assert!(rt; map.step(&Call::Insert { key: k, value: one })? == Some(Reply::Inserted));
    assert!(rt; map.step(&Call::Insert { key: k, value: two })? == Some(Reply::Exists(one)));
    assert!(rt; map.step(&Call::Update { key: k, value: two })? == Some(Reply::Updated(one)));
    assert!(rt; map.step(&Call::Search { key: k })? == Some(Reply::Found(two)));
    assert!(rt; map.step(&Call::Resize { key: k })?.is_none());
    assert_eq!(rt; map.pairs().count(), 1);
    assert!(rt; map.step(&Call::Delete { key: k })? == Some(Reply::Deleted(two)));
    assert!(rt; map.step(&Call::Search { key: k })? == Some(Reply::Missing));
    Ok(())
}

#[test]
fn lists_grow(rt: HostRuntime) -> Result<(), Fail> {
    let alloc = rt.alloc();
    let mut calls = Calls::new(alloc);
    calls.reserve()?;
    calls.push(Call::Search { key: key(b"k")? })?;
    assert_eq!(rt; calls.len(), 1);
    let mut plans = Plans::new(alloc);
    plans.reserve()?;
    plans.push(Plan {
        calls,
        stop: Some(7),
    })?;
    assert_eq!(rt; plans.len(), 1);
    assert_eq!(rt; plans.get(0).stop, Some(7));
    let mut items = Items::new(alloc);
    items.reserve()?;
    items.push(Item::Call { client: 3 })?;
    assert!(rt; *items.get(0) == Item::Call { client: 3 });
    let next = Nexts::one(5).with(8);
    assert_eq!(rt; next.len(), 2);
    assert_eq!(rt; next.get(1), 8);
    Ok(())
}
