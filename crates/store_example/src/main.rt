//! A store of two clients, each on a thread of its own: one inserts a key while the other looks for it, and the other finds it once it
//! has met the first one's note. It prints `found: true`. The program is the README's example for those who build a store.
#![tactic(auto)]

ghost use Rattle.std.specs.Prelude.{◌≡◌, IfSome};

use key_hash::Mixed;
use kv_block::{Key, Value};
use map_model::Reply;
use node_words::Geometry;
use race_play::{Client, Memory, Note, Seat};
use std::alloc::Global;
use std::thread::Threads;
use std::{io, thread};

// A client at this seat inserts a pair, and notes what it has seen then. None where there is no memory.
fn insert(
    alloc: Global,
    memory: &Memory<Mixed>,
    seat: Seat,
    key: &Key,
    value: &Value,
) -> Option<Note>
    requires { seat.home ≡ memory.now }
    ensures { IfSome result (λ note. note.home ≡ memory.now) }
{
    let Ok(mut client) = Client::new(alloc, memory, seat, 3) else {
        return None;
    };
    client.insert(key, value);
    Some(client.note())
}

// A client at this seat looks for a key, and leaves. None where there is no memory.
fn look(alloc: Global, memory: &Memory<Mixed>, seat: Seat, key: &Key) -> Option<Seat>
    requires { seat.home ≡ memory.now }
    ensures { IfSome result (λ seat. seat.home ≡ memory.now) }
{
    let Ok(mut client) = Client::new(alloc, memory, seat, 3) else {
        return None;
    };
    client.search(key);
    Some(client.leave())
}

// A client at this seat meets the note and finds the key: whether with this value. None where there is no memory.
fn finds(
    memory: &Memory<Mixed>,
    alloc: Global,
    seat: Seat,
    note: Note,
    key: &Key,
    value: &Value,
) -> Option<bool>
    requires seat { seat.home ≡ memory.now }
    requires note { note.home ≡ memory.now }
{
    let Ok(mut client) = Client::new(alloc, memory, seat, 3) else {
        return None;
    };
    client.meet(note);
    Some(client.search(key).reply == Reply::Found(*value))
}

// Whether a client finds what another has inserted meanwhile. None where there is no memory.
fn is_found<R: Threads + Sync>(rt: &R, alloc: Global, key: &Key, value: &Value) -> Option<bool> {
    let geometry = Geometry::check(1, 4, 0, 1, 4_096).ok()?;
    let Ok((memory, mut seats)) = Memory::make(alloc, geometry, Mixed, 2) else {
        return None;
    };
    let Some(first) = seats.take() else {
        return None;
    };
    let Some(second) = seats.take() else {
        return None;
    };
    let shared = &memory;
    let (note, seat) = thread::join(
        rt,
        move ||
            requires { first.home ≡ shared.now }
            ensures { IfSome result (λ note. note.home ≡ shared.entry.now) }
        { insert(alloc, shared, first, key, value) },
        move ||
            requires { second.home ≡ shared.now }
            ensures { IfSome result (λ seat. seat.home ≡ shared.entry.now) }
        { look(alloc, shared, second, key) },
    );
    let (Some(note), Some(seat)) = (note, seat) else {
        return None;
    };
    finds(shared, alloc, seat, note, key, value)
}

fn main(rt: HostRuntime) -> io::Result<()> {
    let found = match (Key::from_bytes(b"key"), Value::from_bytes(b"value")) {
        (Some(key), Some(value)) => is_found(&rt, rt.alloc(), &key, &value),
        _ => None,
    };
    println!(rt; "found: {}", found == Some(true))
}
