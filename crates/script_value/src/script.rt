//! Scripts.
ghost use Rattle.std.specs.Prelude.{◌≡◌, ◌≤◌, ◌<◌, ◌==◌, not, length, IfOk};
ghost use Rattle.script_value.specs.Content.{names_of, calls_at, stop_at};
ghost use Rattle.script_value.specs.ScriptText.{name_at, item_client};
ghost use Rattle.std.specs.List.{AllByRecursion, flat_map};
ghost use Rattle.script_value.specs.Valid.{IsScript};

use crate::body::Body;
use key_hash::Listed;
use map_model::{Calls, Items};
use node_words::Geometry;
use std::alloc::{AllocError, Global};
use std::marker::Model;

/// A script: a version, the table's geometry and tries, the listed hashes, the clients with their names, calls and
/// stops, and the schedule. A clause sees it as a record of these.
#[derive(Drop)]
pub struct Script {
    version: u32,
    geometry: Geometry,
    tries: u32,
    body: Body,
}

impl Model for Script {
    ghost use Rattle.script_value.specs.Content.{ScriptValue};
    ghost use Rattle.script_value.specs.Valid.{IsScript};

    ghost Value = { ScriptValue };

    ghost view = { λ s. record { version = s.version; geometry = s.geometry; tries = s.tries; content = s.body } };

    ghost invariant = { λ s. IsScript (record { version = s.version; geometry = s.geometry; tries = s.tries; content = s.body }) };
}

impl Script {
    /// The script of these parts, which are those of a script.
    pub fn of_parts(version: u32, geometry: Geometry, tries: u32, body: Body) -> Script
        requires { IsScript (record { version = version; geometry = geometry; tries = tries; content = body }) }
        ensures { result ≡ record { version = version; geometry = geometry; tries = tries; content = body } }
    {
        Script {
            version,
            geometry,
            tries,
            body,
        }
    }

    /// The lines behind the first two. Stops and items name clients that there are.
    pub fn body(&self) -> &Body
        ensures value { result.now ≡ self.now.content }
        ensures stops { AllByRecursion (λ e. e.0 < length self.now.content.clients) self.now.content.stops }
        ensures items { AllByRecursion (AllByRecursion (λ item. item_client item < length self.now.content.clients)) self.now.content.schedules }
    {
        &self.body
    }

    /// The version: 1 or 2.
    pub fn version(&self) -> u32
        ensures value { result ≡ self.now.version }
        ensures least { 1 ≤ result }
        ensures most { result ≤ 2 }
    {
        self.version
    }

    /// The geometry.
    pub fn geometry(&self) -> Geometry
        ensures { result ≡ self.now.geometry }
    {
        self.geometry
    }

    /// The tries: 1 to 64.
    pub fn tries(&self) -> u32
        ensures value { result ≡ self.now.tries }
        ensures least { 1 ≤ result }
        ensures most { result ≤ 64 }
    {
        self.tries
    }

    /// How many clients there are: 1 to 64.
    pub fn clients(&self) -> u32
        ensures number { result ≡ length self.now.content.clients }
        ensures least { 1 ≤ result }
        ensures few { result ≤ 64 }
    {
        self.body.clients()
    }

    /// The name of a client, counted from 0.
    pub fn name(&self, client: u32) -> &[u8]
        requires { client < length self.now.content.clients }
        ensures { result.now ≡ name_at (names_of self.now.content) client }
    {
        self.body.name(client)
    }

    /// The calls of a client, counted from 0.
    pub fn calls(&self, client: u32) -> &Calls
        requires { client < length self.now.content.clients }
        ensures { result.now.items ≡ calls_at self.now.content client }
    {
        self.body.calls(client)
    }

    /// After how many verbs a client, counted from 0, stops for ever, where it stops.
    pub fn stop(&self, client: u32) -> Option<u64>
        requires { client < length self.now.content.clients }
        ensures { result ≡ stop_at self.now.content client }
    {
        self.body.stop_at(client)
    }

    /// The listed hashes, as a placer.
    pub fn placer(&self, alloc: Global) -> Result<Listed, AllocError>
        ensures { IfOk result (λ listed. listed ≡ self.now.content.hashes) }
    {
        self.body.placer(alloc)
    }

    /// The items of all schedule lines, in order.
    pub fn items(&self, alloc: Global) -> Result<Items, AllocError>
        ensures { IfOk result (λ items. items.items ≡ flat_map (λ line. line) self.now.content.schedules) }
    {
        self.body.items(alloc)
    }

    /// Whether a hash is listed.
    pub fn has_hashes(&self) -> bool
        ensures { result ≡ not (length self.now.content.hashes == 0) }
    {
        !self.body.has_no_hash()
    }

    /// Whether a schedule line has an item.
    pub fn has_items(&self) -> bool
        ensures { result ≡ not (length (flat_map (λ line. line) self.now.content.schedules) == 0) }
    {
        !self.body.has_no_schedule()
    }

    /// What is known of every script: the numbers and the lines are within the limits, no key is listed twice, no two
    /// clients have one name, and so on.
    pub fn is_script(&self)
        ensures { IsScript self.now }
    {
        let _ = &self.tries;
    }
}
