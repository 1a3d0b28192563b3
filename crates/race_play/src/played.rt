//! The play of a script by its schedule, and what is told of it.
ghost use Rattle.std.specs.Prelude.{◌≡◌, ◌≤◌, All, List, length, map, IfOk};
ghost use Rattle.std.specs.List.{AllByRecursion};
ghost use Rattle.play_report.specs.Report.{IsOfCall};
ghost use Rattle.verb_core.specs.Machine.{call_kind};
ghost use Rattle.call_machine.specs.declared.call.CallMachine.{CallMachine};
ghost use Rattle.verb_core.specs.Play.{Event, IsLegalPlay, Play, unfinished_of};
ghost use Rattle.verb_core.specs.Schedules.{IsFor, Plays};
ghost use Rattle.race_play.specs.Plays.{Begins, IsPlayed, IsTold, Replayed};

use crate::planning::plans_of;
use client_seat::Front;
use key_hash::Listed;
use map_model::Items;
use play_ends::{Played, nexts_after};
use play_lines::play_lines;
use std::alloc::{AllocError, Global};
use trace_script::Script;
use verb_core::World;
use verb_log::Log;

// The clients of the script at the beginning of their plans.
fn begin(alloc: Global, script: &Script) -> Result<World<Listed>, AllocError>
    ensures { IfOk result (λ w. Begins script.now w) }
{
    script.is_script();
    let plans = plans_of(alloc, script)?;
    let placer = script.placer(alloc)?;
    World::make(alloc, script.geometry(), placer, script.tries(), plans)
}

// Does the items, and then all that is left of each client.
fn run(world: &mut World<Listed>, items: &Items) -> Result<(), AllocError>
    requires { All (IsFor (length world.old.players)) items.now.items }
    ensures played { IfOk result (λ _. (es : List Event) × Plays call_kind world.old items.now.items es world.new × AllByRecursion (λ (e : Event). e.choice ≡ 0) es) }
    ensures legal { IsLegalPlay world.new }
{
    world.run(items)
}

// Plays the script to its end.
fn play(alloc: Global, script: &Script) -> Result<World<Listed>, AllocError>
    ensures { IfOk result (λ w. IsPlayed script.now w) }
{
    let items = script.items(alloc)?;
    let mut world = begin(alloc, script)?;
    let _ = script.body();
    run(&mut world, &items)?;
    Ok(world)
}

// The number of each client's unfinished call, where it has one.
fn unfinished_calls(
    alloc: Global,
    world: &World<Listed>,
    clients: u32,
) -> Result<Vec<Option<u32>>, AllocError>
    requires { clients ≡ length world.now.players }
    ensures { IfOk result (λ numbers. numbers.items ≡ map unfinished_of world.now.players) }
{
    let mut numbers = Vec::new(alloc);
    for client in 0..clients {
        numbers.push(world.unfinished(client))?;
    }
    Ok(numbers)
}

// What is told of a play of so many clients.
fn told(alloc: Global, world: World<Listed>, clients: u32) -> Result<Played, AllocError>
    requires clients { clients ≡ length world.players }
    requires few { clients ≤ 64 }
    ensures { IfOk result (λ played. IsTold world played.lines.items played.map played.next played.front) }
{
    let unfinished = unfinished_calls(alloc, &world, clients)?;
    let map = world.map(alloc)?;
    let (records, log) = world.into_parts();
    let lines = play_lines(alloc, &records, &unfinished)?;
    let next = nexts_after(&log);
    Ok(Played {
        lines,
        map,
        next,
        front: Front::of_log(log),
    })
}

/// Plays the script as `play_replay` does, and hands out the log of the play alone.
pub(crate) fn play_log(alloc: Global, script: &Script) -> Result<Log, AllocError>
    ensures { IfOk result (λ log. (ended : Play CallMachine) × IsPlayed script.now ended × (log.geometry ≡ ended.setting.geometry) × (log.entries ≡ ended.entries)) }
{
    let world = play(alloc, script)?;
    let (_records, log) = world.into_parts();
    Ok(log)
}

/// Plays the script by its schedule, on one thread: the items of its schedule lines, and then each client in order all that is
/// left of its calls, up to its stop. It fails only for want of memory.
pub fn play_replay(alloc: Global, script: &Script) -> Result<Played, AllocError>
    ensures replayed { IfOk result (λ played. Replayed script.now played.lines.items played.map played.next played.front) }
    ensures calls { IfOk result (λ played. All (λ line. IsOfCall script.now.content line) played.lines.items) }
{
    let world = play(alloc, script)?;
    told(alloc, world, script.clients())
}
