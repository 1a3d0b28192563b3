//! The script of a storm.
ghost use Rattle.std.specs.Prelude.{◌≡◌, ◌≤◌, ◌*◌, None, map, IfOk, OnOk};
ghost use Rattle.std.specs.List.{AllByRecursion};
ghost use Rattle.script_value.specs.Made.{made_clients};
ghost use Rattle.storm_script.specs.Draws.{drawn_numbers, state_after};
ghost use Rattle.storm_script.specs.Storm.{key_of, value_of, storm_call, storm_item, storm_clients, storm_geometry, storm_value};

use crate::draws::Draws;
use kv_block::{Key, Value};
use map_model::{Call, Calls, Item, Items, Plan, Plans};
use node_words::Geometry;
use script_value::Script;
use std::alloc::{AllocError, Global};

/// The tries of every storm.
const TRIES: u32 = 16;

// The key of a drawn number.
fn key_of(alloc: Global, number: u64) -> Result<Key, AllocError>
    ensures { IfOk result (λ key. key ≡ key_of number) }
{
    let place = (number >> 8) % 200;
    let text = format!(in alloc; "k{place}")?;
    Ok(Key::from_bytes(text.as_bytes()).unwrap())
}

// The value of a drawn number.
fn value_of(alloc: Global, number: u64) -> Result<Value, AllocError>
    ensures { IfOk result (λ value. value ≡ value_of number) }
{
    let place = (number >> 32) % 1000;
    let text = format!(in alloc; "v{place}")?;
    Ok(Value::from_bytes(text.as_bytes()).unwrap())
}

// The call of a drawn number.
fn call_of(alloc: Global, number: u64) -> Result<Call, AllocError>
    ensures { IfOk result (λ call. call ≡ storm_call number) }
{
    let kind = number % 8;
    let key = key_of(alloc, number)?;
    if kind == 3 || kind == 4 {
        return Ok(Call::Search { key });
    }
    let value = value_of(alloc, number)?;
    Ok(if kind == 5 {
        Call::Update { key, value }
    } else if kind == 6 {
        Call::Delete { key }
    } else {
        Call::Insert { key, value }
    })
}

// The item of a drawn number.
fn item_of(clients: u32, number: u64) -> Item
    requires { 1 ≤ clients }
    ensures { result ≡ storm_item clients number }
{
    Item::Verbs {
        client: (number % u64::from(clients)) as u32,
        count: 1 + ((number >> 32) % 16) as u32,
    }
}

// So many calls, each of the next number.
fn draw_calls(alloc: Global, draws: &mut Draws, count: u32) -> Result<Calls, AllocError>
    ensures calls { IfOk result (λ calls. calls.items ≡ map storm_call (drawn_numbers count draws.old.state)) }
    ensures state { OnOk result (draws.new.state ≡ state_after count draws.old.state) }
{
    let mut calls = Calls::new(alloc);
    for i in 0..count {
        let call = call_of(alloc, draws.draw())?;
        calls.push(call)?;
    }
    Ok(calls)
}

// The plans of so many clients, each with so many calls.
fn draw_plans(
    alloc: Global,
    draws: &mut Draws,
    clients: u32,
    calls: u32,
) -> Result<Plans, AllocError>
    ensures clients { IfOk result (λ plans. made_clients 0 plans.items ≡ storm_clients clients 0 calls draws.old.state) }
    ensures stops { IfOk result (λ plans. AllByRecursion (λ plan. plan.stop ≡ None) plans.items) }
    ensures state { OnOk result (draws.new.state ≡ state_after (clients * calls) draws.old.state) }
{
    let mut plans = Plans::new(alloc);
    for i in 0..clients {
        let own = draw_calls(alloc, draws, calls)?;
        plans.push(Plan {
            calls: own,
            stop: None,
        })?;
    }
    Ok(plans)
}

// So many items, each of the next number.
fn draw_items(
    alloc: Global,
    draws: &mut Draws,
    clients: u32,
    count: u32,
) -> Result<Items, AllocError>
    requires { 1 ≤ clients }
    ensures { IfOk result (λ items. items.items ≡ map (storm_item clients) (drawn_numbers count draws.old.state)) }
{
    let mut items = Items::new(alloc);
    for i in 0..count {
        items.push(item_of(clients, draws.draw()))?;
    }
    Ok(items)
}

// The sizes of the table of every storm.
fn storm_geometry() -> Geometry
    ensures { result ≡ storm_geometry }
{
    Geometry {
        groups: 4,
        max_depth: 8,
        first_depth: 0,
        nodes: 1,
        words: 262_144,
    }
}

/// The script of a storm of 1 to 16 clients, each of which has 1 to 1,024 calls. Its numbers are drawn from the seed on: one
/// for each call, client by client, and then 8 for each call, which are the items of the schedule. It fails only for want
/// of memory.
pub fn storm_script(
    alloc: Global,
    seed: u64,
    clients: u32,
    calls: u32,
) -> Result<Script, AllocError>
    requires clients_least { 1 ≤ clients }
    requires clients_most { clients ≤ 16 }
    requires calls_least { 1 ≤ calls }
    requires calls_most { calls ≤ 1024 }
    ensures { IfOk result (λ script. script ≡ storm_value seed clients calls) }
{
    let mut draws = Draws { state: seed };
    let plans = draw_plans(alloc, &mut draws, clients, calls)?;
    let items = draw_items(alloc, &mut draws, clients, 8 * clients * calls)?;
    Script::of_calls(alloc, storm_geometry(), TRIES, plans, items)
}
