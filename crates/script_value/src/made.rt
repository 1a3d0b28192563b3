//! Scripts that are made from calls.
ghost use Rattle.std.specs.Prelude.{◌≡◌, ◌<◌, ◌≤◌, ◌++◌, [], None, length, IfOk, OnOk};
ghost use Rattle.std.specs.List.{AllByRecursion};
ghost use Rattle.script_value.specs.ScriptText.{text_of_script};
ghost use Rattle.script_value.specs.Valid.{Each, IsCall, IsClient, IsItem};
ghost use Rattle.script_value.specs.Made.{made_clients, made_content, made_schedules, made_script, planned_calls};

use crate::body::Body;
use crate::script::Script;
use map_model::{Call, Calls, Item, Items, Plan, Plans};
use node_words::Geometry;
use spelling::Name;
use std::alloc::{AllocError, Global};

/// How many items a schedule line has of a script that is made from calls, but for the last line.
pub const LINE_ITEMS: usize = 64;

// What is known of every call: its key and its value are within their lengths.
fn is_call(call: &Call)
    ensures { IsCall call.now }
{
    match call {
        Call::Insert { key, value } | Call::Update { key, value } => {
            let _ = key.bytes();
            let _ = value.bytes();
        }
        Call::Search { key } | Call::Delete { key } | Call::Resize { key } => {
            let _ = key.bytes();
        }
    }
}

// A copy of calls.
fn copied(alloc: Global, calls: &Calls) -> Result<Calls, AllocError>
    ensures same { IfOk result (λ copy. copy.items ≡ calls.now.items) }
    ensures known { OnOk result (AllByRecursion IsCall calls.now.items) }
{
    let mut copy = Calls::new(alloc);
    for call in calls.iter() {
        is_call(&call);
        copy.push(call)?;
    }
    Ok(copy)
}

impl Body {
    // The clients that do these plans.
    fn of_plans(alloc: Global, plans: &[Plan]) -> Result<Body, AllocError>
        requires { length plans.now ≤ 16 }
        ensures made { IfOk result (λ body. body ≡ made_content plans.now []) }
        ensures clients { OnOk result (Each (IsClient 16) [] (made_clients 0 plans.now)) }
    {
        let mut body = Body::new(alloc)?;
        for (place, plan) in plans.iter().enumerate() {
            let name = Name::of_place(alloc, place as u32)?;
            let calls = copied(alloc, &plan.calls)?;
            body.add_client(name, calls)?;
        }
        Ok(body)
    }

    // The schedule lines of these items behind those that are there.
    fn add_items(&mut self, alloc: Global, items: &[Item]) -> Result<(), AllocError>
        ensures { OnOk result (self.new ≡ record self.old { schedules = self.old.schedules ++ made_schedules items.now }) }
    {
        let mut rest = items;
        while !rest.is_empty() {
            let (line, others) = rest.split_at(LINE_ITEMS.min(rest.len()));
            let mut schedule = Items::new(alloc);
            schedule.append(line)?;
            self.add_schedule(schedule)?;
            rest = others;
        }
        Ok(())
    }
}

impl Script {
    /// The `race 1` script in which clients named `c0`, `c1` and so on do these plans, by a schedule of these items in
    /// lines of 64, the last one shorter where needed. It has no hash and no stop line. The geometry is one of a `race 1`
    /// script: of greatest depth 12 at most, of first depth 0 and one node. There are 1 to 64 tries, 1 to 16 plans
    /// without a stop, 65,536 calls in all at most; each item names a client below the number of plans, and has a count
    /// in 1 to 1,000,000. The script's text has 4,194,304 bytes at most.
    pub fn of_calls(
        alloc: Global,
        geometry: Geometry,
        tries: u32,
        plans: Plans,
        items: Items,
    ) -> Result<Script, AllocError>
        requires depth { geometry.max_depth ≤ 12 }
        requires first { geometry.first_depth ≡ 0 }
        requires nodes { geometry.nodes ≡ 1 }
        requires tries_least { 1 ≤ tries }
        requires tries_most { tries ≤ 64 }
        requires plans_least { 1 ≤ length plans.items }
        requires plans_most { length plans.items ≤ 16 }
        requires stops { AllByRecursion (λ plan. plan.stop ≡ None) plans.items }
        requires calls { planned_calls plans.items ≤ 65536 }
        requires items { AllByRecursion (IsItem (length plans.items)) items.items }
        requires short { length (text_of_script (made_script geometry tries plans.items items.items)) ≤ 4194304 }
        ensures { IfOk result (λ script. script ≡ made_script geometry tries plans.items items.items) }
    {
        let mut body = Body::of_plans(alloc, plans.as_slice())?;
        body.add_items(alloc, items.as_slice())?;
        Ok(Script::of_parts(1, geometry, tries, body))
    }
}
