//! Clients of one memory, each call once.
ghost use Rattle.std.specs.Prelude.{◌≡◌, ◌≤◌, IfSome};

use crate::Client;
use client_seat::{Memory, Seat};
use key_hash::Mixed;
use kv_block::{Key, Value};
use map_model::Reply;
use node_words::Geometry;
use std::alloc::Global;
use std::test::Fail;

// A client that may lose three swaps a call. None where there is no memory.
fn client_at<'a>(alloc: Global, memory: &'a Memory<Mixed>, seat: Seat) -> Option<Client<'a, Mixed>>
    requires { seat.home ≡ memory.now }
    ensures { IfSome result (λ client. client.seat ≡ seat) }
{
    match Client::new(alloc, memory, seat, 3) {
        Ok(client) => Some(client),
        Err(_refused) => None,
    }
}

// The same, with a cache of so many blocks.
fn cached_at<'a>(
    alloc: Global,
    memory: &'a Memory<Mixed>,
    seat: Seat,
    blocks: u32,
) -> Option<Client<'a, Mixed>>
    requires home { seat.home ≡ memory.now }
    requires some { 1 ≤ blocks }
    requires few { blocks ≤ 1024 }
    ensures { IfSome result (λ client. client.seat ≡ seat) }
{
    match Client::with_cache(alloc, memory, seat, 3, blocks) {
        Ok(client) => Some(client),
        Err(_refused) => None,
    }
}

// Each call of one client, on a table that may not be split.
#[test]
fn each_call_once(rt: HostRuntime) -> Result<(), Fail> {
    let geometry = Geometry::check(1, 0, 0, 1, 200)?;
    let (memory, mut seats) = Memory::make(rt.alloc(), geometry, Mixed, 1)?;
    let key = Key::from_bytes(b"k").ok_or("no key")?;
    let one = Value::from_bytes(b"1").ok_or("no value")?;
    let two = Value::from_bytes(b"2").ok_or("no value")?;
    let seat = seats.take().ok_or("no seat")?;
    let mut client = client_at(rt.alloc(), &memory, seat).ok_or("no memory")?;
    assert_eq!(rt; client.search(&key).reply, Reply::Missing);
    assert_eq!(rt; client.insert(&key, &one).reply, Reply::Inserted);
    assert_eq!(rt; client.insert(&key, &two).reply, Reply::Exists(one));
    assert_eq!(rt; client.update(&key, &two).reply, Reply::Updated(one));
    assert_eq!(rt; client.resize(&key).reply, Reply::FullDepth { depth: 0 });
    assert_eq!(rt; client.delete(&key).reply, Reply::Deleted(two));
    assert_eq!(rt; client.update(&key, &one).reply, Reply::Missing);
    assert_eq!(rt; client.delete(&key).reply, Reply::Missing);
    assert_eq!(rt; client.leave().number(), 0);
    Ok(())
}

// What one client has done another finds, once it has met a note.
#[test]
fn found_after_a_meeting(rt: HostRuntime) -> Result<(), Fail> {
    let geometry = Geometry::check(1, 1, 0, 1, 300)?;
    let (memory, mut seats) = Memory::make(rt.alloc(), geometry, Mixed, 2)?;
    let key = Key::from_bytes(b"k").ok_or("no key")?;
    let value = Value::from_bytes(b"1").ok_or("no value")?;
    let first = seats.take().ok_or("no seat")?;
    let second = seats.take().ok_or("one seat")?;
    let mut one = client_at(rt.alloc(), &memory, first).ok_or("no memory")?;
    let mut other = client_at(rt.alloc(), &memory, second).ok_or("no memory")?;
    let added = one.insert(&key, &value);
    let note = one.note();
    other.meet(note);
    let found = other.search(&key);
    assert_eq!(rt; found.reply, Reply::Found(value));
    assert_eq!(rt; found.from, added.to);
    assert_eq!(rt; found.to, added.to);
    Ok(())
}

// The block of a short pair has three words: one of lengths, one of the key and one of the value. A search of a kept block serves them.
#[test]
fn a_kept_block_is_served(rt: HostRuntime) -> Result<(), Fail> {
    let geometry = Geometry::check(1, 0, 0, 1, 200)?;
    let (memory, mut seats) = Memory::make(rt.alloc(), geometry, Mixed, 1)?;
    let key = Key::from_bytes(b"k").ok_or("no key")?;
    let other = Key::from_bytes(b"m").ok_or("no key")?;
    let value = Value::from_bytes(b"1").ok_or("no value")?;
    let seat = seats.take().ok_or("no seat")?;
    let mut client = cached_at(rt.alloc(), &memory, seat, 1).ok_or("no memory")?;
    assert_eq!(rt; client.insert(&key, &value).reply, Reply::Inserted);
    assert_eq!(rt; client.insert(&other, &value).reply, Reply::Inserted);
    assert_eq!(rt; client.saved(), 0);
    assert_eq!(rt; client.search(&key).reply, Reply::Found(value));
    assert_eq!(rt; client.saved(), 0);
    assert_eq!(rt; client.search(&key).reply, Reply::Found(value));
    assert_eq!(rt; client.saved(), 3);
    assert_eq!(rt; client.search(&other).reply, Reply::Found(value));
    assert_eq!(rt; client.search(&key).reply, Reply::Found(value));
    assert_eq!(rt; client.saved(), 3);
    assert_eq!(rt; client.update(&key, &value).reply, Reply::Updated(value));
    assert_eq!(rt; client.saved(), 6);
    assert_eq!(rt; client.leave().number(), 0);
    Ok(())
}
