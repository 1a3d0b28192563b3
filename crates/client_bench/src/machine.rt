//! The same calls by the machine of a call, on a node of one client.
ghost use Rattle.std.specs.Prelude.{◌≡◌, IfOk, IfSome};

use crate::draws::{CALLS, Draws, KEYS, key_at, value_at};
use call_machine::{CallMachine, ClientState};
use key_hash::{Mixed, Placer};
use map_model::{Call, Reply};
use node_words::Geometry;
use std::alloc::{AllocError, Global};
use std::io;
use std::time::{Clock, Instant};
use verb_log::Verb;
use verbs::{PlainNode, perform};

/// How many words the node has.
pub const WORDS: u64 = 8_388_608;

/// The sizes: sixteen groups, and 32 first tables that are never split.
pub fn sizes() -> Option<Geometry>
    ensures { IfSome result (λ geometry. geometry.words ≡ 8_388_608) }
{
    match Geometry::check(16, 5, 5, 1, WORDS) {
        Ok(geometry) => Some(geometry),
        Err(_) => None,
    }
}

// Does the verb. None where the memory has no such address, or there is no room.
#[inline(always)]
fn done(node: &mut PlainNode, verb: &Verb) -> Option<u64>
    requires { node.old.log.geometry.words ≡ 8_388_608 }
    ensures { node.new.log.geometry ≡ node.old.log.geometry }
{
    let place = match *verb {
        Verb::Read { at } => at,
        Verb::Write { at, .. } => at,
        Verb::Swap { at, .. } => at,
    };
    if place >= WORDS || node.reserve().is_err() {
        return None;
    }
    Some(perform(node, verb))
}

/// Does the machine's next act. None where the memory has no such address, or there is no room.
#[inline(always)]
pub fn act(node: &mut PlainNode, machine: &mut CallMachine) -> Option<()>
    requires { node.old.log.geometry.words ≡ 8_388_608 }
    ensures { node.new.log.geometry ≡ node.old.log.geometry }
{
    if let Some(verb) = machine.next() {
        let word = done(node, &verb)?;
        machine.feed(word);
    } else if let Some(key) = machine.asks() {
        machine.told(Mixed.hash(&key));
    }
    Some(())
}

// Does a call: its reply. None where the memory has no such address, or there is no room.
fn answer(node: &mut PlainNode, state: &mut ClientState, call: &Call) -> Option<Reply>
    requires { node.old.log.geometry.words ≡ 8_388_608 }
    ensures { node.new.log.geometry ≡ node.old.log.geometry }
{
    let mut machine = CallMachine::start(state, Mixed.hash(&call.key()), call);
    for _verb in 0..100_000u32 {
        if machine.has_answered() {
            let reply = machine.answer()?.reply;
            machine.finish(state);
            return Some(reply);
        }
        act(node, &mut machine)?;
    }
    None
}

// Inserts a key.
fn insert(node: &mut PlainNode, state: &mut ClientState, number: u64) -> Option<Reply>
    requires { node.old.log.geometry.words ≡ 8_388_608 }
    ensures { node.new.log.geometry ≡ node.old.log.geometry }
{
    let key = key_at(number)?;
    let value = value_at(number)?;
    answer(node, state, &Call::Insert { key, value })
}

/// A node with all keys, filled by a client of this state.
pub fn filled(
    alloc: Global,
    geometry: Geometry,
    state: &mut ClientState,
) -> Result<PlainNode, AllocError>
    requires { geometry.words ≡ 8_388_608 }
    ensures { IfOk result (λ node. node.log.geometry.words ≡ 8_388_608) }
{
    let mut node = PlainNode::make(alloc, geometry)?;
    for number in 0..KEYS {
        let _ = insert(&mut node, state, number);
    }
    Ok(node)
}

// Does the calls of a thread: how many found their key.
fn work(node: &mut PlainNode, state: &mut ClientState, draws: Draws) -> u64
    requires { node.old.log.geometry.words ≡ 8_388_608 }
{
    let mut found = 0u64;
    for number in 0..CALLS {
        if let Some(call) = draws.call(0, number) {
            let reply = answer(node, state, &call);
            found = found.wrapping_add(u64::from(matches!(
                reply,
                Some(Reply::Found(_) | Reply::Updated(_))
            )));
        }
    }
    found
}

/// The calls of one client that found their key, and the nanoseconds.
pub fn run<R: Clock>(rt: &R, alloc: Global, draws: Draws) -> io::Result<(u64, u64)> {
    let Some(geometry) = sizes() else {
        return Ok((0, 0));
    };
    let mut state = ClientState::make(alloc, &geometry, 0, 64)?;
    let mut node = filled(alloc, geometry, &mut state)?;
    let start = Instant::now(rt)?;
    let found = work(&mut node, &mut state, draws);
    let nanoseconds = u64::try_from(start.elapsed(rt)?.as_nanos()).unwrap_or(0);
    Ok((found, nanoseconds))
}
