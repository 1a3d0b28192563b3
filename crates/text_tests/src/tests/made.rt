//! The text of a script that is made from calls.
ghost use Rattle.std.specs.Prelude.{◌≡◌, ◌≤◌, length, IfOk};
ghost use Rattle.std.specs.List.{AllByRecursion};
ghost use Rattle.script_value.specs.Valid.{IsItem};

use kv_block::Key;
use map_model::{Call, Calls};
use node_words::Geometry;
use std::alloc::{AllocError, Global};
use std::test::Fail;
use trace_script::{Item, Items, Plan, Plans, Script, Text, script_text};

/// So many items, each a call of the first client.
fn items_of_calls(alloc: Global, count: usize) -> Result<Items, AllocError>
    ensures len { IfOk result (λ items. length items.items ≡ count) }
    ensures known { IfOk result (λ items. AllByRecursion (IsItem 1) items.items) }
{
    let mut items = Items::new(alloc);
    while items.len() < count {
        items.push(Item::Call { client: 0 })?;
    }
    Ok(items)
}

/// The text of the script of one client that searches for a key, by these items.
fn text_of_search(
    alloc: Global,
    geometry: Geometry,
    key: Key,
    items: Items,
) -> Result<Text, AllocError>
    requires depth { geometry.max_depth ≤ 12 }
    requires first { geometry.first_depth ≡ 0 }
    requires nodes { geometry.nodes ≡ 1 }
    requires few { length items.items ≤ 100 }
    requires known { AllByRecursion (IsItem 1) items.items }
{
    let _ = key.bytes();
    let mut calls = Calls::new(alloc);
    calls.push(Call::Search { key })?;
    let mut plans = Plans::new(alloc);
    plans.push(Plan { calls, stop: None })?;
    let script = Script::of_calls(alloc, geometry, 3, plans, items)?;
    script_text(alloc, &script)
}

/// A script that is made from calls: 65 items stand in two schedule lines.
#[test]
fn made(rt: HostRuntime) -> Result<(), Fail> {
    let geometry = Geometry::check(1, 0, 0, 1, 100)?;
    let key = Key::from_bytes(b"k").ok_or("a key")?;
    let items = items_of_calls(rt.alloc(), 65)?;
    let text = text_of_search(rt.alloc(), geometry, key, items)?;
    let line = " c0!".repeat(rt.alloc(), 64)?;
    let wanted = format!(in rt.alloc();
        "race 1\ntable groups=1 depth=0 words=100 tries=3\nclient c0\nsearch k\nschedule{line}\nschedule c0!\nend\n"
    )?;
    assert_eq!(rt; text.as_slice(), wanted.as_bytes());
    Ok(())
}
