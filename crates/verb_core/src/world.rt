//! A world whose calls are played verb by verb.
ghost use Rattle.std.specs.Prelude.{◌≡◌, ℕ, ◌+◌, ◌<◌, ◌≤◌, ◌^◌, true, false, List, [], ◌∷◌, ◌++◌, length, Some, None, Ok, MatchResult, IfOk, All, OnErr, slice_get};
ghost use Rattle.std.specs.List.{AllByRecursion};
ghost use Rattle.log_facts.specs.Among.{changes_of};
ghost use Rattle.map_model.specs.Machine.{map_at};
ghost use Rattle.map_model.specs.declared.plans.Plan.{Plan};
ghost use Rattle.verb_core.specs.Machine.{call_kind};
ghost use Rattle.verb_core.specs.Play.{Play, Event, Turn, IsLegalPlay, unfinished_of, AreFresh};
ghost use Rattle.verb_core.specs.Traces.{Turns};
ghost use Rattle.verb_core.specs.Schedules.{IsIdle, Plays, IsFor, left_in};
ghost use Rattle.verb_core.specs.declared.player.Player.{Player};
ghost use Rattle.call_machine.specs.declared.call.CallMachine.{CallMachine};

use crate::any_world::{AnyWorld, Stepped};
use crate::chooser::First;
use call_machine::CallMachine;
use key_hash::Placer;
use map_model::{Items, MapMachine, Plans, Records};
use node_words::Geometry;
use std::alloc::{AllocError, Global};
use std::marker::Model;
use verb_log::Log;

/// Clients with their plans on one node, whose calls are played verb by verb. The clients are numbered from 0, in the order of
/// their plans, and the calls of each from 1.
#[derive(Drop)]
pub struct World<P: Placer> {
    any: AnyWorld<P, CallMachine>,
}

impl<P: Placer> Model for World<P> {
    ghost use Rattle.std.specs.Coded.{codes};
    ghost use Rattle.verb_core.specs.Play.{Play};
    ghost use Rattle.call_machine.specs.declared.call.CallMachine.{CallMachine};
    ghost use Rattle.call_machine.specs.contracts.call.CallMachine as machine;

    ghost Value = { Play CallMachine };

    ghost coded = { Prim.hlevel (codes, machine.the_row.coded) };

    ghost view = { λ w. w.any };
}

impl<P: Placer + Drop> World<P> {
    /// Clients at the beginning of their plans, on the opening words of a memory. It needs 1 to 64 tries, at most 64 plans, and
    /// at most 65,536 calls in each.
    pub fn make(
        alloc: Global,
        geometry: Geometry,
        placer: P,
        tries: u32,
        plans: Plans,
    ) -> Result<World<P>, AllocError>
        requires some { 1 ≤ tries }
        requires tries { tries ≤ 64 }
        requires few { length plans.items ≤ 64 }
        requires short { (c : ℕ) (plan : Plan) → slice_get plans.items c ≡ Some plan → length plan.calls.items ≤ 65536 }
        ensures setting { IfOk result (λ w. w.setting ≡ record { geometry = geometry; listed = P.listed placer }) }
        ensures plans { IfOk result (λ w. w.plans ≡ plans.items) }
        ensures empty { IfOk result (λ w. (w.entries ≡ []) × (w.records ≡ [])) }
        ensures players { IfOk result (λ w. AreFresh geometry tries (length plans.items) w.players) }
    {
        Ok(World {
            any: AnyWorld::make(alloc, geometry, placer, tries, plans)?,
        })
    }

    /// Hands out the records and the log.
    pub fn into_parts(self) -> (Records, Log)
        ensures records { result.0.items ≡ self.records }
        ensures entries { result.1.entries ≡ self.entries }
        ensures geometry { result.1.geometry ≡ self.setting.geometry }
        ensures legal { IsLegalPlay self }
    {
        self.any.into_parts()
    }
}

impl<P: Placer> World<P> {
    /// Does the client's next verb, and begins its next call where none is under way. `Answered` comes exactly where the call
    /// answers with this verb, and `Went` exactly where a verb was done and the call has not answered. `Idle` comes exactly
    /// where the client has no call left or has done as many verbs as its stop says, and changes nothing. A refusal changes
    /// nothing.
    pub fn step(&mut self, client: u32) -> Result<Stepped, AllocError>
        requires { client < length self.old.players }
        ensures idle { result ≡ Ok Stepped.Idle → IsIdle self.old client × (self.new ≡ self.old) }
        ensures went { result ≡ Ok Stepped.Went → (e : Event) × Turn call_kind self.old client e false self.new }
        ensures answered { result ≡ Ok Stepped.Answered → (e : Event) × Turn call_kind self.old client e true self.new }
        ensures refused { OnErr result (self.new ≡ self.old) }
        ensures fewer { result ≡ Ok Stepped.Went → left_in self.new client < left_in self.old client }
        ensures many { length self.new.players ≡ length self.old.players }
        ensures plans { self.new.plans ≡ self.old.plans }
        ensures legal { IsLegalPlay self.new }
    {
        self.any.step(client, &mut First)
    }

    /// Does the items, and then each client in order plays what is left of its calls, up to its stop. A refusal leaves the
    /// world after some of these verbs.
    pub fn run(&mut self, items: &Items) -> Result<(), AllocError>
        requires { All (IsFor (length self.old.players)) items.now.items }
        ensures played { IfOk result (λ _. (es : List Event) × Plays call_kind self.old items.now.items es self.new × AllByRecursion (λ (e : Event). e.choice ≡ 0) es) }
        ensures refused { OnErr result ((es : List Event) × Turns call_kind self.old es self.new) }
        ensures legal { IsLegalPlay self.new }
    {
        self.any.run(items, &mut First)
    }

    /// The records of the answered calls, in the order in which they were answered.
    pub fn records(&self) -> &Records
        ensures items { result.now.items ≡ self.now.records }
        ensures legal { IsLegalPlay self.now }
    {
        self.any.records()
    }

    /// The log of what was done.
    pub fn log(&self) -> &Log
        ensures entries { result.now.entries ≡ self.now.entries }
        ensures geometry { result.now.geometry ≡ self.now.setting.geometry }
        ensures legal { IsLegalPlay self.now }
    {
        self.any.log()
    }

    /// The map after all changes of the log. It fails only for want of memory.
    pub fn map(&self, alloc: Global) -> Result<MapMachine, AllocError>
        ensures { IfOk result (λ map. map ≡ map_at (changes_of self.now.setting self.now.entries) (length (changes_of self.now.setting self.now.entries))) }
    {
        self.any.map(alloc)
    }

    /// The number of the client's call that is begun and not answered, counted from 1. None exactly where there is none.
    pub fn unfinished(&self, client: u32) -> Option<u32>
        requires { client < length self.now.players }
        ensures { (p : Player CallMachine) → slice_get self.now.players client ≡ Some p → result ≡ unfinished_of p }
    {
        self.any.unfinished(client)
    }
}
