//! What the lines behind the first two say.
ghost use Rattle.std.specs.Prelude.{◌≡◌, ◌<◌, ◌≤◌, ◌==◌, ◌++◌, ◌∷◌, ℕ, [], false, IsTrue, IsSome, Some, None, length, map, IfOk, OnOk, IfSome, is_some};
ghost use Rattle.key_hash.specs.Placing.{is_listed};
ghost use Rattle.script_value.specs.Content.{no_content, names_of, calls_at, client_at, stop_at, with_hash, with_client, with_call, called, client_view, with_stop, with_schedule};
ghost use Rattle.script_value.specs.ScriptText.{name_at};
ghost use Rattle.std.specs.List.{flat_map};
ghost use Rattle.script_value.specs.Valid.{Each, IsHash};
ghost use Rattle.spelling.specs.Words.{is_empty};

use indexmap::IndexMap;
use key_hash::Listed;
use kv_block::Key;
use map_model::{Call, Calls, Items};
use spelling::Name;
use std::alloc::{AllocError, Global};
use std::marker::Model;

/// The lines of a script behind the first two. A clause sees them as a `Content`: the listed hashes, at most 64 clients
/// with their calls, the stops, and the items of each schedule line. Whether they are those of a script is for their maker.
#[derive(Drop)]
pub struct Body {
    hashes: Listed,
    clients: IndexMap<Name, Calls>,
    stops: IndexMap<u32, u64>,
    schedules: Vec<Items>,
}

impl Model for Body {
    ghost use Rattle.std.specs.Prelude.{ℕ, ◌≤◌, map, length};
    ghost use Rattle.script_value.specs.Content.{Content, client_view};

    ghost Value = { Content };

    ghost view = { λ b. record {
      hashes = b.hashes;
      clients = map client_view b.clients.entries;
      stops = b.stops.entries;
      schedules = map (λ items. items.items) b.schedules.items;
    } };

    ghost invariant = { λ b. length b.clients.entries ≤ 64 };
}

impl Body {
    /// No line. It fails only for want of memory.
    pub fn new(alloc: Global) -> Result<Body, AllocError>
        ensures { IfOk result (λ body. body ≡ no_content) }
    {
        Ok(Body {
            hashes: Listed::new(alloc)?,
            clients: IndexMap::new(alloc),
            stops: IndexMap::new(alloc),
            schedules: Vec::new(alloc),
        })
    }

    /// Whether no hash is listed.
    pub fn has_no_hash(&self) -> bool
        ensures { result ≡ (length self.now.hashes == 0) }
    {
        self.hashes.len() == 0
    }

    /// Whether there is no client.
    pub fn has_no_client(&self) -> bool
        ensures { result ≡ is_empty self.now.clients }
    {
        self.clients.is_empty()
    }

    /// Whether no client has a stop.
    pub fn has_no_stop(&self) -> bool
        ensures { result ≡ is_empty self.now.stops }
    {
        self.stops.is_empty()
    }

    /// Whether there is no schedule line.
    pub fn has_no_schedule(&self) -> bool
        ensures { result ≡ is_empty self.now.schedules }
    {
        self.schedules.is_empty()
    }

    /// How many clients there are: 64 at most.
    pub fn clients(&self) -> u32
        ensures number { result ≡ length self.now.clients }
        ensures few { result ≤ 64 }
    {
        self.clients.len() as u32
    }

    /// The listed hashes.
    pub fn hashes(&self) -> &Listed
        ensures { result.now ≡ self.now.hashes }
    {
        &self.hashes
    }

    /// The clients by their names, each with its calls, in order.
    pub fn named_calls(&self) -> &IndexMap<Name, Calls>
        ensures { map client_view result.now.entries ≡ self.now.clients }
    {
        &self.clients
    }

    /// The stops, a client by its place, in the order of the lines.
    pub fn stops(&self) -> &IndexMap<u32, u64>
        ensures { result.now.entries ≡ self.now.stops }
    {
        &self.stops
    }

    /// The items of each schedule line.
    pub fn schedules(&self) -> &[Items]
        ensures { map (λ items. items.items) result.now ≡ self.now.schedules }
    {
        self.schedules.as_slice()
    }

    /// The items of all schedule lines, in order. It fails only for want of memory.
    #[tactic(auto, using(crate::proofs::Joined::joined_items))]
    pub fn items(&self, alloc: Global) -> Result<Items, AllocError>
        ensures { IfOk result (λ items. items.items ≡ flat_map (λ line. line) self.now.schedules) }
    {
        let mut items = Items::new(alloc);
        for line in self.schedules() {
            items.append(line.as_slice())?;
        }
        Ok(items)
    }

    /// A copy of the listed hashes, as a placer. It fails only for want of memory.
    pub fn placer(&self, alloc: Global) -> Result<Listed, AllocError>
        requires { Each IsHash [] self.now.hashes }
        ensures { IfOk result (λ listed. listed ≡ self.now.hashes) }
    {
        let mut listed = Listed::new(alloc)?;
        for (key, hash) in self.hashes.pairs() {
            let _ = listed.add(*key, *hash)?;
        }
        Ok(listed)
    }

    /// The name of a client, counted from 0.
    pub fn name(&self, client: u32) -> &[u8]
        requires { client < length self.now.clients }
        ensures { result.now ≡ name_at (names_of self.now) client }
    {
        let (name, _) = self.clients.get_index(client as usize).unwrap();
        name.bytes()
    }

    /// The calls of a client, counted from 0.
    pub fn calls(&self, client: u32) -> &Calls
        requires { client < length self.now.clients }
        ensures { result.now.items ≡ calls_at self.now client }
    {
        let (_, calls) = self.clients.get_index(client as usize).unwrap();
        calls
    }

    /// Whether a hash is listed for the key.
    pub fn is_listed(&self, key: &Key) -> bool
        ensures { result ≡ is_listed self.now.hashes key.now }
    {
        self.hashes.contains(key)
    }

    /// The place of the client of a name, counted from 0; None where there is none.
    pub fn client_at(&self, name: &Name) -> Option<u32>
        ensures place { result ≡ client_at self.now name.now }
        ensures within { IfSome result (λ client. client < length self.now.clients) }
    {
        let place = self.clients.get_index_of(name)?;
        Some(place as u32)
    }

    /// After how many verbs a client, counted from 0, stops; None where it does not.
    pub fn stop_at(&self, client: u32) -> Option<u64>
        ensures { result ≡ stop_at self.now client }
    {
        self.stops.get(&client).copied()
    }

    /// Lists a hash for a key that has none. It fails only for want of memory.
    pub fn add_hash(&mut self, key: Key, hash: u64) -> Result<(), AllocError>
        requires { is_listed self.old.hashes key ≡ false }
        ensures { OnOk result (self.new ≡ with_hash self.old key hash) }
    {
        let _ = self.hashes.add(key, hash)?;
        Ok(())
    }

    /// Appends a client of a new name with its calls. It fails only for want of memory.
    pub fn add_client(&mut self, name: Name, calls: Calls) -> Result<(), AllocError>
        requires fresh { client_at self.old name ≡ None }
        requires few { length self.old.clients < 64 }
        ensures { OnOk result (self.new ≡ with_client self.old name calls.items) }
    {
        self.clients.insert(name, calls)?;
        Ok(())
    }

    /// Appends a call to those of the last client. It fails only for want of memory.
    pub fn add_call(&mut self, call: Call) -> Result<(), AllocError>
        requires { is_empty self.old.clients ≡ false }
        ensures { OnOk result (self.new ≡ with_call self.old call) }
    {
        call_last(&mut self.clients, call)
    }

    /// Appends the stop of a client that has none, after so many verbs. It fails only for want of memory.
    pub fn add_stop(&mut self, client: u32, stop: u64) -> Result<(), AllocError>
        requires { stop_at self.old client ≡ None }
        ensures { OnOk result (self.new ≡ with_stop self.old client stop) }
    {
        self.stops.insert(client, stop)?;
        Ok(())
    }

    /// Appends a schedule line. It fails only for want of memory.
    pub fn add_schedule(&mut self, items: Items) -> Result<(), AllocError>
        ensures { OnOk result (self.new ≡ with_schedule self.old items.items) }
    {
        self.schedules.push(items)?;
        Ok(())
    }
}

// Appends a call to those of the last client.
fn call_last(clients: &mut IndexMap<Name, Calls>, call: Call) -> Result<(), AllocError>
    requires { 0 < length clients.old.entries }
    ensures called { OnOk result (map client_view clients.new.entries ≡ called (map client_view clients.old.entries) call) }
    ensures length { length clients.new.entries ≡ length clients.old.entries }
{
    let Some(calls) = clients.last_mut() else {
        return Ok(());
    };
    calls.push(call)
}
