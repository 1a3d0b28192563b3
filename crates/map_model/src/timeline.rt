//! The changes in order, with the places of each key's changes: so the first moment of a reply is found without a
//! walk over all changes.
ghost use Rattle.std.specs.Prelude.{◌≡◌, ℕ, ◌<◌, ◌≤◌, ◌↔◌, IsTrue, [], ◌∷◌, ◌++◌, List, length, Some, None, OnOk, OnErr, if◌then◌else◌};
ghost use Rattle.std.specs.List.{AllByRecursion};
ghost use Rattle.kv_block.specs.Bytes.{key_eq};
ghost use Rattle.map_model.specs.Machine.{key_of, reply_at};
ghost use Rattle.map_model.specs.Moments.{IsFirst, Steady};
ghost use Rattle.map_model.specs.Places.{latest, places_at, places_from, value_of};

use crate::calls::{Call, Reply};
use kv_block::{Change, Changes, Key, Value};
use std::alloc::{AllocError, Global};
use std::collections::BTreeMap;
use std::marker::Model;

/// A list of changes that grows. It finds the first moment at which the map gives a reply, in a time that grows with
/// the changes of the call's key from the given moment on, and not with all changes.
#[derive(Debug, Drop)]
pub struct Timeline {
    changes: Changes,
    places: BTreeMap<Key, Vec<usize>>,
}

impl Model for Timeline {
    ghost use Rattle.std.specs.Prelude.{List};
    ghost use Rattle.kv_block.specs.declared.changes.Change.{Change};
    ghost use Rattle.map_model.specs.Places.{IsPlaced};

    ghost Value = { List Change };

    ghost view = { λ t. t.changes.items };

    ghost invariant = { λ t. IsPlaced t.places t.changes.items };
}

impl Timeline {
    /// The timeline of no change.
    pub fn new(alloc: Global) -> Timeline
        ensures { result ≡ [] }
    {
        Timeline {
            changes: Changes::new(alloc),
            places: BTreeMap::new(alloc),
        }
    }

    /// How many changes there are.
    pub fn len(&self) -> usize
        ensures { result ≡ length self.now }
    {
        self.changes.len()
    }

    /// The changes, in order.
    pub fn changes(&self) -> &Changes
        ensures { result.now.items ≡ self.now }
    {
        &self.changes
    }

    /// Appends the change. A refusal leaves the timeline as it was.
    pub fn push(&mut self, alloc: Global, change: &Change) -> Result<(), AllocError>
        ensures appended { OnOk result (self.new ≡ self.old ++ change.now ∷ []) }
        ensures refused { OnErr result (self.new ≡ self.old) }
    {
        self.changes.reserve()?;
        let place = self.changes.len();
        add_place(alloc, &mut self.places, change.key, place)?;
        let _ = self.changes.push(*change);
        Ok(())
    }

    /// The least moment from `lo` on at which the map gives the reply to the call: a number of changes, and one more
    /// than all of them where there is none.
    pub fn first(&self, lo: u64, call: &Call, reply: &Reply) -> u64
        requires { lo ≤ length self.now }
        ensures { IsFirst self.now lo call.now reply.now result }
    {
        let places = match self.places.get(&call.key()) {
            Some(places) => places.as_slice(),
            None => &[],
        };
        first_of(&self.changes, places, lo as usize, call, reply) as u64
    }
}

// Appends a place to those of the key.
fn add_place(
    alloc: Global,
    places: &mut BTreeMap<Key, Vec<usize>>,
    key: Key,
    place: usize,
) -> Result<(), AllocError>
    ensures ok { OnOk result ((q : List ℕ) → places_at places.new q ≡ (if key_eq q key then places_at places.old q ++ place ∷ [] else places_at places.old q)) }
    ensures err { OnErr result ((q : List ℕ) → places_at places.new q ≡ places_at places.old q) }
{
    match places.get_mut(&key) {
        Some(known) => known.push(place)?,
        None => {
            let mut first = Vec::new(alloc);
            first.push(place)?;
            places.insert(key, first)?;
        }
    }
    Ok(())
}

// How many of the places are below `lo`, where these come first.
fn count_below(places: &[usize], lo: usize) -> usize
    ensures bound { result ≤ length places.now }
    ensures cut { (xs ys : List ℕ) → places.now ≡ xs ++ ys → AllByRecursion (λ p. p < lo) xs → AllByRecursion (λ p. lo ≤ p) ys → result ≡ length xs }
{
    places.partition_point(|p| *p < lo)
}

// What the change at a place leaves of its key.
fn value_at(changes: &Changes, place: usize) -> Option<Value>
    requires { place < length changes.now.items }
    ensures { result ≡ value_of changes.now.items place }
{
    changes.get(place).value
}

// What a key has after its changes at these places.
fn value_after(changes: &Changes, places: &[usize]) -> Option<Value>
    requires { AllByRecursion (λ p. p < length changes.now.items) places.now }
    ensures { result ≡ latest changes.now.items None places.now }
{
    match places.last() {
        Some(place) => value_at(changes, *place),
        None => None,
    }
}

// Whether the map gives the reply, where the call's key has the value.
fn gives(call: &Call, value: Option<Value>, reply: &Reply) -> bool
    ensures { IsTrue result ↔ (reply_at call.now value ≡ Some reply.now) }
{
    call.reply_at(value) == Some(*reply)
}

// The least moment from `lo` on at which the map gives the reply: the key has `value` up to its change at the first of
// the places, and so on.
fn first_from(
    changes: &Changes,
    places: &[usize],
    value: Option<Value>,
    lo: usize,
    call: &Call,
    reply: &Reply,
) -> usize
    requires lo { lo ≤ length changes.now.items }
    requires steady { Steady changes.now.items (key_of call.now) value lo places.now }
    ensures { IsFirst changes.now.items lo call.now reply.now result }
{
    let count = changes.len();
    let mut value = value;
    let mut start = lo;
    for place in places {
        if gives(call, value, reply) {
            return start;
        }
        value = value_at(changes, *place);
        start = *place + 1;
    }
    if gives(call, value, reply) {
        start
    } else {
        count + 1
    }
}

// The same, of all places of the key.
fn first_of(changes: &Changes, places: &[usize], lo: usize, call: &Call, reply: &Reply) -> usize
    requires lo { lo ≤ length changes.now.items }
    requires placed { places.now ≡ places_from (key_of call.now) 0 changes.now.items }
    ensures { IsFirst changes.now.items lo call.now reply.now result }
{
    let from = count_below(places, lo);
    let value = value_after(changes, &places[..from]);
    first_from(changes, &places[from..], value, lo, call, reply)
}
