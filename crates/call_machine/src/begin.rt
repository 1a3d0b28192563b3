//! Calls at their beginning.
ghost use Rattle.std.specs.Prelude.{◌≡◌, ◌≤◌, [], None};
ghost use Rattle.dir_cache.specs.Cached.{entry_of};
ghost use Rattle.call_texts.specs.State.{caller_of};
ghost use Rattle.call_texts.specs.Text.{search_call, delete_call, update_call, resize_call};
ghost use Rattle.call_machine.specs.Tasks.{caller_in, pair_in, inserting_in};
ghost use Rattle.call_machine.specs.Beginning.{begin_from};
ghost use Rattle.call_machine.specs.Rest.{rest_of};
ghost use Rattle.call_machine.specs.Fits.{CallFits};

use crate::at::At;
use crate::forgotten::Forgotten;
use crate::machines::Machines;
use crate::state::ClientState;
use crate::steps::gone_on;
use crate::task::Task;
use kv_block::{Key, Value};
use map_model::Call;
use op_delete::At as Deleting;
use op_update::At as Updating;
use scan_pass::PassMode;

impl Task {
    /// The task of a call of this key and value, from the table that the cache names.
    pub fn new(state: &ClientState, hash: u64, key: &Key, value: Value) -> Task
        ensures caller { caller_in result ≡ caller_of state.now hash }
        ensures pair { pair_in result ≡ record { key = key.now; value = value } }
        ensures inserting { inserting_in result ≡ record { start = entry_of state.now.cache hash; kept = None; left = state.now.tries; full = None; forgotten = []; area = state.now.area; ticket = state.now.ticket } }
        ensures some { 1 ≤ result.tries }
        ensures left { result.left ≡ result.tries }
    {
        Task {
            geometry: state.geometry,
            client: state.client,
            tries: state.tries,
            hash,
            key: *key,
            value,
            start: state.cache.entry(hash),
            kept: None,
            left: state.tries,
            full: None,
            forgotten: Forgotten::new(),
            area: state.area,
            ticket: state.ticket,
            table: 0,
            depth: 0,
        }
    }

    /// A search.
    pub fn search(&self, machines: &mut Machines) -> At
        ensures rest { rest_of self.now machines.new result ≡ search_call (caller_in self.now) self.now.key self.now.start self.now.area self.now.ticket }
        ensures fits { CallFits self.now machines.new result }
    {
        machines.work.seek(
            self.geometry,
            self.start,
            &self.key,
            self.hash,
            PassMode::Look,
        );
        At::Search
    }

    /// A delete.
    pub fn delete(&self, machines: &mut Machines) -> At
        requires { 1 ≤ self.now.tries }
        ensures rest { rest_of self.now machines.new result ≡ delete_call (caller_in self.now) self.now.key self.now.start self.now.area self.now.ticket }
        ensures fits { CallFits self.now machines.new result }
    {
        At::Delete(Deleting::begin(
            &mut machines.work,
            self.geometry,
            self.hash,
            &self.key,
            self.start,
            self.tries,
        ))
    }

    /// An update.
    pub fn update(&self, machines: &mut Machines) -> At
        requires { 1 ≤ self.now.tries }
        ensures rest { rest_of self.now machines.new result ≡ update_call (caller_in self.now) (pair_in self.now) self.now.start self.now.area self.now.ticket }
        ensures fits { CallFits self.now machines.new result }
    {
        At::Update(Updating::begin(
            &mut machines.work,
            self.geometry,
            self.client,
            self.hash,
            &self.key,
            &self.value,
            self.start,
            self.area,
            self.tries,
        ))
    }

    /// A resize.
    pub fn resize(&self, machines: &mut Machines) -> At
        requires some { 1 ≤ self.now.tries }
        requires left { self.now.left ≡ self.now.tries }
        ensures rest { rest_of self.now machines.new result ≡ resize_call (caller_in self.now) self.now.key self.now.start self.now.area self.now.ticket }
        ensures fits { CallFits self.now machines.new result }
    {
        match self.ticket {
            Some(ticket) => {
                machines.split = gone_on(ticket, self.tries);
                At::Resume
            }
            None => self.walk(machines, self.start),
        }
    }

    /// The operation with which the call begins.
    pub fn begin(&self, machines: &mut Machines, call: &Call) -> At
        requires some { 1 ≤ self.now.tries }
        requires left { self.now.left ≡ self.now.tries }
        ensures rest { rest_of self.now machines.new result ≡ begin_from (caller_in self.now) (pair_in self.now) (inserting_in self.now) call.now }
        ensures fits { CallFits self.now machines.new result }
    {
        match call {
            Call::Search { .. } => self.search(machines),
            Call::Delete { .. } => self.delete(machines),
            Call::Update { .. } => self.update(machines),
            Call::Insert { .. } => self.insert(machines),
            Call::Resize { .. } => self.resize(machines),
        }
    }
}
