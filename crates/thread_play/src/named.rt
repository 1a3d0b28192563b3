//! The keys that a script names.
ghost use Rattle.std.specs.Prelude.{IfOk, OnOk};
ghost use Rattle.thread_play.specs.Named.{IsNamed, AreSeen, AreKept, AreNamed, NamesAll};

use kv_block::{Key, Value};
use map_model::{Call, Calls, MapMachine, Reply};
use script_value::Script;
use std::alloc::{AllocError, Global};

// Appends a key that was not seen before.
fn name(seen: &mut MapMachine, keys: &mut Vec<Key>, key: Key) -> Result<(), AllocError>
    requires { AreSeen seen.old keys.old.items }
    ensures seen { OnOk result (AreSeen seen.new keys.new.items) }
    ensures kept { OnOk result (AreKept keys.old.items keys.new.items) }
    ensures named { OnOk result (IsNamed key keys.new.items) }
{
    let value = Value::empty();
    match seen.step(&Call::Insert { key, value })? {
        Some(Reply::Exists(_)) => Ok(()),
        _ => {
            keys.push(key)?;
            Ok(())
        }
    }
}

// Appends the keys of calls that were not seen before.
fn name_all(seen: &mut MapMachine, keys: &mut Vec<Key>, calls: &Calls) -> Result<(), AllocError>
    requires { AreSeen seen.old keys.old.items }
    ensures seen { OnOk result (AreSeen seen.new keys.new.items) }
    ensures kept { OnOk result (AreKept keys.old.items keys.new.items) }
    ensures named { OnOk result (AreNamed calls.now.items keys.new.items) }
{
    for i in 0..calls.len() {
        name(seen, keys, calls.get(i).key())?;
    }
    Ok(())
}

/// The keys of all calls of the script, each once. It fails only for want of memory.
pub(crate) fn named_keys(alloc: Global, script: &Script) -> Result<Vec<Key>, AllocError>
    ensures { IfOk result (λ keys. NamesAll script.now.content keys.items) }
{
    let mut seen = MapMachine::new(alloc);
    let mut keys = Vec::new(alloc);
    for client in 0..script.clients() {
        name_all(&mut seen, &mut keys, script.calls(client))?;
    }
    Ok(keys)
}
