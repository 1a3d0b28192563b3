//! The plans of a script's clients.
ghost use Rattle.std.specs.Prelude.{◌≡◌, ◌≤◌, length, map, IfOk};
ghost use Rattle.race_play.specs.Planned.{plan_view, planned};

use map_model::{Calls, Plan, Plans};
use std::alloc::{AllocError, Global};
use trace_script::Script;

// A copy of calls.
fn copied(alloc: Global, calls: &Calls) -> Result<Calls, AllocError>
    ensures { IfOk result (λ copy. copy.items ≡ calls.now.items) }
{
    let mut copy = Calls::new(alloc);
    for call in calls.iter() {
        copy.push(call)?;
    }
    Ok(copy)
}

/// What each client of the script is to do.
pub(crate) fn plans_of(alloc: Global, script: &Script) -> Result<Plans, AllocError>
    ensures planned { IfOk result (λ plans. map plan_view plans.items ≡ planned script.now.content) }
    ensures few { IfOk result (λ plans. length plans.items ≤ 64) }
{
    let mut plans = Plans::new(alloc);
    for client in 0..script.clients() {
        let calls = copied(alloc, script.calls(client))?;
        plans.push(Plan {
            calls,
            stop: script.stop(client),
        })?;
    }
    Ok(plans)
}
