//! The map machine: the one map that all calls are measured by.
ghost use Rattle.std.specs.Prelude.{◌≡◌, ◌≤◌, length, IfOk, OnOk, OnErr};
ghost use Rattle.std.specs.FinMap as map;
ghost use Rattle.map_model.specs.Machine.{reply_of, after, changed, map_at};

use crate::calls::{Call, Reply};
use kv_block::{Change, Changes, Key, Value};
use std::alloc::{AllocError, Global};
use std::collections::{BTreeMap, btree_map};
use std::marker::Model;

/// A finite map from keys to values.
#[derive(Debug, Drop)]
pub struct MapMachine {
    entries: BTreeMap<Key, Value>,
}

impl Model for MapMachine {
    ghost use Rattle.std.specs.Prelude.{ℕ};
    ghost use Rattle.std.specs.Coded.{coded_ℕ, coded_list};
    ghost use Rattle.std.specs.FinMap as map;
    ghost use Rattle.map_model.specs.Contents.{Contents};

    ghost Value = { Contents };

    ghost coded = { map.code (coded_list coded_ℕ) (coded_list coded_ℕ) };

    ghost view = { λ m. map.from_entries m.entries.entries };
}

impl MapMachine {
    /// The empty map.
    pub fn new(alloc: Global) -> MapMachine
        ensures { result ≡ map.empty }
    {
        MapMachine {
            entries: BTreeMap::new(alloc),
        }
    }

    // What the map has at the key.
    fn value(&self, key: &Key) -> Option<Value>
        ensures { result ≡ map.get self.now key.now }
    {
        self.entries.get(key).copied()
    }

    // Sets the key to the value. A refusal changes nothing.
    fn put(&mut self, key: Key, value: Value) -> Result<(), AllocError>
        ensures ok { OnOk result (self.new ≡ map.insert self.old key value) }
        ensures err { OnErr result (self.new ≡ self.old) }
    {
        self.entries.insert(key, value)?;
        Ok(())
    }

    // Takes the key away.
    fn remove(&mut self, key: &Key)
        ensures { self.new ≡ map.remove self.old key.now }
    {
        self.entries.remove(key);
    }

    /// The map's reply to the call, and None exactly at a resize; the map is then as the call leaves it. A refusal
    /// changes nothing.
    pub fn step(&mut self, call: &Call) -> Result<Option<Reply>, AllocError>
        ensures reply { IfOk result (λ reply. reply ≡ reply_of self.old call.now) }
        ensures ok { OnOk result (self.new ≡ after self.old call.now) }
        ensures err { OnErr result (self.new ≡ self.old) }
    {
        match *call {
            Call::Insert { key, value } => match self.value(&key) {
                Some(old) => Ok(Some(Reply::Exists(old))),
                None => {
                    self.put(key, value)?;
                    Ok(Some(Reply::Inserted))
                }
            },
            Call::Search { key } => match self.value(&key) {
                Some(value) => Ok(Some(Reply::Found(value))),
                None => Ok(Some(Reply::Missing)),
            },
            Call::Update { key, value } => match self.value(&key) {
                Some(old) => {
                    self.put(key, value)?;
                    Ok(Some(Reply::Updated(old)))
                }
                None => Ok(Some(Reply::Missing)),
            },
            Call::Delete { key } => match self.value(&key) {
                Some(old) => {
                    self.remove(&key);
                    Ok(Some(Reply::Deleted(old)))
                }
                None => Ok(Some(Reply::Missing)),
            },
            Call::Resize { key: _ } => Ok(None),
        }
    }

    /// Makes the change. A refusal changes nothing.
    pub fn apply(&mut self, change: &Change) -> Result<(), AllocError>
        ensures ok { OnOk result (self.new ≡ changed self.old change.now) }
        ensures err { OnErr result (self.new ≡ self.old) }
    {
        match change.value {
            Some(value) => self.put(change.key, value),
            None => {
                self.remove(&change.key);
                Ok(())
            }
        }
    }

    /// The pairs, in the order of the keys' bytes.
    pub fn pairs(&self) -> btree_map::Iter<'_, Key, Value>
        ensures { result ≡ map.entries self.now }
    {
        self.entries.iter()
    }
}

/// The empty map after the first `n` changes: one pass over them.
pub fn map_at(alloc: Global, changes: &Changes, n: u64) -> Result<MapMachine, AllocError>
    requires { n ≤ length changes.now.items }
    ensures { IfOk result (λ m. m ≡ map_at changes.now.items n) }
{
    let mut map = MapMachine::new(alloc);
    for i in 0..n as usize {
        map.apply(&changes.get(i))?;
    }
    Ok(map)
}
