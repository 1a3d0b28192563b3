//! One client more, which looks when all others have ended.
ghost use Rattle.std.specs.Prelude.{◌≡◌, ◌<◌, ◌≤◌, ℕ, [], None, length, vec_len, slice_index_or, IfOk, OnOk};
ghost use Rattle.std.specs.FinMap as fin;
ghost use Rattle.client_seat.specs.Seated.{Seated};
ghost use Rattle.running_play.specs.declared.worker.Worked.{Worked};
ghost use Rattle.call_machine.specs.Fresh.{fresh_state};
ghost use Rattle.thread_play.specs.Seen.{value_found, put_found, Looks, ReadsNext, ReadNexts, HasSeen};

use client_seat::{Memory, Seat, TableNode};
use key_hash::Listed;
use kv_block::{Change, Key, Value};
use map_model::{MapMachine, Nexts, Reply};
use node_words::Geometry;
use play_ends::node_at;
use running_client::Client;
use running_play::{Worked, meet_all};
use std::alloc::{AllocError, Global};
use verbs::Verbs;

/// What the client has learnt: the map, and the next word of each node. Its seat is handed back.
#[derive(Drop)]
pub(crate) struct Seen {
    pub(crate) seat: Seat,
    pub(crate) map: MapMachine,
    pub(crate) next: Nexts,
}

// The value that a search has found.
fn value_found(reply: &Reply) -> Option<Value>
    ensures { result ≡ value_found reply.now }
{
    match reply {
        Reply::Found(value) => Some(*value),
        _ => None,
    }
}

// Puts what was found of the key into the map.
fn put_found(map: &mut MapMachine, key: Key, found: Option<Value>) -> Result<(), AllocError>
    ensures { OnOk result (map.new ≡ put_found map.old key found) }
{
    match found {
        Some(value) => map.apply(&Change {
            key,
            value: Some(value),
        }),
        None => Ok(()),
    }
}

// Searches each key, and puts what it finds into the map.
fn learn<'a>(
    client: &mut Client<'a, Listed>,
    keys: &[Key],
    map: &mut MapMachine,
) -> Result<(), AllocError>
    requires none { client.old.cache ≡ None }
    requires empty { map.old ≡ fin.empty }
    ensures { OnOk result (Looks keys.now client.old.seat client.old.state client.new.seat map.new) }
{
    for i in 0..keys.len() {
        let key = keys[i];
        let answer = client.search(&key);
        put_found(map, key, value_found(&answer.reply))?;
    }
    Ok(())
}

// Reads the next word of a node.
fn next_of<'a>(node: &mut TableNode<'a, Listed>, geometry: &Geometry, number: u32) -> u64
    requires sizes { geometry.now ≡ node.old.home.setting.geometry }
    requires number { number < geometry.now.nodes }
    ensures { ReadsNext node.old number node.new result }
{
    node.read(node_at(geometry, number))
}

// Reads the next word of each node.
fn read_nexts<'a>(node: &mut TableNode<'a, Listed>, geometry: &Geometry) -> Nexts
    requires { geometry.now ≡ node.old.home.setting.geometry }
    ensures { ReadNexts node.old geometry.now.nodes node.new result }
{
    let mut next = Nexts::one(next_of(node, geometry, 0));
    for number in 1..geometry.nodes {
        next = next.with(next_of(node, geometry, number));
    }
    next
}

// Searches each key at a seat, and reads the next word of each node.
fn look(
    alloc: Global,
    memory: &Memory<Listed>,
    tries: u32,
    seat: Seat,
    keys: &[Key],
) -> Result<Seen, AllocError>
    requires home { seat.home ≡ memory.now }
    requires some { 1 ≤ tries }
    requires few { tries ≤ 64 }
    ensures { IfOk result (λ seen. (last : Seated) × Looks keys.now seat (fresh_state memory.now.setting.geometry seat.client tries) last seen.map
        × ReadNexts last memory.now.setting.geometry.nodes seen.seat seen.next) }
{
    let mut client = match Client::new(alloc, memory, seat, tries) {
        Ok(client) => client,
        Err((refusal, _seat)) => return Err(refusal),
    };
    let mut map = MapMachine::new(alloc);
    learn(&mut client, keys, &mut map)?;
    let mut node = TableNode::of(memory, client.leave());
    let geometry = memory.geometry();
    let next = read_nexts(&mut node, &geometry);
    Ok(Seen {
        seat: node.leave(),
        map,
        next,
    })
}

/// Meets a note of each worker's seat, searches each key and reads the next word of each node. It fails only for want of memory.
pub(crate) fn see_all(
    alloc: Global,
    memory: &Memory<Listed>,
    tries: u32,
    seat: Seat,
    all: &mut Vec<Worked>,
    keys: &[Key],
) -> Result<Seen, AllocError>
    requires home { seat.home ≡ memory.now }
    requires seats { (i : ℕ) (d : Worked) → i < vec_len all.old → (slice_index_or all.old.items i d).seat.home ≡ memory.now }
    requires some { 1 ≤ tries }
    requires few { tries ≤ 64 }
    ensures seen { IfOk result (λ seen. HasSeen memory.now seat all.old.items keys.now seen.seat seen.map seen.next) }
    ensures same { all.new.items ≡ all.old.items }
{
    let mut node = TableNode::of(memory, seat);
    meet_all(memory, &mut node, all);
    look(alloc, memory, tries, node.leave(), keys)
}
