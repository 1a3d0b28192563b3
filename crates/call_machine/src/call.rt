//! A call under way.
ghost use Rattle.std.specs.Prelude.{◌≡◌};
ghost use Rattle.std.specs.Option.{option_to_list};
ghost use Rattle.call_texts.specs.State.{state_after, cache_after, refreshed, forgetting};
ghost use Rattle.call_machine.specs.Low.{LowTable};
ghost use Rattle.call_machine.specs.Tasks.{call_end, value_in};
ghost use Rattle.call_machine.specs.Fits.{CallFits, CallFits-prop};

use crate::answer::Answer;
use crate::at::At;
use crate::end::End;
use crate::machines::Machines;
use crate::state::ClientState;
use crate::task::Task;
use dir_cache::DirCache;
use kv_block::{Key, Value};
use map_model::Call;
use verb_log::Verb;

/// A call of a client. `start` begins it; it then does the verb that `next` tells and takes its answer by `feed`, and where
/// `asks` names a key it takes that key's hash by `told`, until neither is left: then it has its `answer`, and `finish` says
/// what the client keeps. It takes no memory.
#[derive(Debug, Drop)]
pub struct CallMachine {
    pub(crate) task: Task,
    pub(crate) machines: Machines,
    pub(crate) at: At,
    ghost fits: { CallFits task machines at } by { CallFits-prop task machines at },
}

impl CallMachine {
    ghost use Rattle.std.specs.Prelude.{◌≡◌, ℕ, None, Some, IsSome, is_some, is_none, option_map};
    ghost use Rattle.verbs.specs.Programs.{next_act, next_verb, block_of, asked, after, goes_on, answer_of};
    ghost use Rattle.call_texts.specs.State.{CallEnd, Caller, caller_of, state_after};
    ghost use Rattle.call_texts.specs.Text.{part_of, begin_call};
    ghost use Rattle.call_machine.specs.Tasks.{answer_in, call_end};
    ghost use Rattle.call_machine.specs.CallRest.{call_rest, call_of};

    // The machine of a client that has not begun a call: `begin` says what it is then, whatever it was before.
    fn idle(state: &ClientState, key: &Key) -> CallMachine {
        CallMachine {
            task: Task::new(state, 0, key, Value::empty()),
            machines: Machines::idle(state.geometry, state.client, key),
            at: At::Full,
        }
    }

    /// Another call begins in place of this one, as by `start`.
    #[tactic(auto, using(crate::proofs::Beginnings::begun), unfolding(crate::specs::CallRest::call_rest, crate::specs::CallRest::call_of))]
    pub fn begin(&mut self, state: &ClientState, hash: u64, call: &Call)
        ensures rest { call_rest self.new ≡ begin_call state.now hash call.now }
        ensures caller { call_of self.new ≡ caller_of state.now hash }
    {
        self.task = Task::new(state, hash, &call.key(), value_of(call));
        self.at = self.task.begin(&mut self.machines, call);
    }

    /// The call at its beginning, of a client with this state, where its key has this hash. It means the text of the call.
    #[tactic(auto, using(crate::proofs::Beginnings::begun), unfolding(crate::specs::CallRest::call_rest, crate::specs::CallRest::call_of))]
    pub fn start(state: &ClientState, hash: u64, call: &Call) -> CallMachine
        ensures rest { call_rest result ≡ begin_call state.now hash call.now }
        ensures caller { call_of result ≡ caller_of state.now hash }
    {
        let mut machine = CallMachine::idle(state, &call.key());
        machine.begin(state, hash, call);
        machine
    }

    /// The verb to do now. None exactly where the call has answered, or waits for the hash of another key.
    #[inline(always)]
    #[tactic(auto, using(crate::proofs::Parts::seen), unfolding(crate::specs::CallRest::call_rest))]
    pub fn next(&self) -> Option<Verb>
        ensures { result ≡ next_verb (call_rest self.now) }
    {
        self.at.next(&self.machines)
    }

    /// The block of which that verb reads a word. None exactly where there is no verb, or where it reads no word of a block.
    #[tactic(auto, using(crate::proofs::Parts::seen), unfolding(crate::specs::CallRest::call_rest))]
    pub fn block(&self) -> Option<u64>
        ensures { result ≡ block_of (call_rest self.now) }
    {
        self.at.block(&self.machines)
    }

    /// Takes the verb's answer: the word read, the word that a swap found, or 0 after a write.
    #[inline(always)]
    #[tactic(auto, using(crate::proofs::Parts::seen), unfolding(crate::specs::CallRest::call_rest, crate::specs::CallRest::call_of))]
    pub fn feed(&mut self, word: u64)
        requires { IsSome (next_verb (call_rest self.old)) }
        ensures rest { call_rest self.new ≡ goes_on part_of (after (call_rest self.old) word) }
        ensures caller { call_of self.new ≡ call_of self.old }
    {
        let at = self.at.feed(&mut self.machines, word);
        self.at = at.settle(&mut self.machines, &mut self.task);
    }

    /// The key whose hash is wanted. None exactly where no hash is.
    #[tactic(auto, using(crate::proofs::Parts::seen), unfolding(crate::specs::CallRest::call_rest))]
    pub fn asks(&self) -> Option<Key>
        ensures { result ≡ asked (call_rest self.now) }
    {
        self.at.asks(&self.machines)
    }

    /// Takes the hash of the key that `asks` names. Where no hash is wanted it changes nothing.
    #[tactic(auto, using(crate::proofs::Parts::seen), unfolding(crate::specs::CallRest::call_rest, crate::specs::CallRest::call_of))]
    pub fn told(&mut self, hash: u64)
        ensures rest { IsSome (asked (call_rest self.old)) → call_rest self.new ≡ goes_on part_of (after (call_rest self.old) hash) }
        ensures same { asked (call_rest self.old) ≡ None → self.new ≡ self.old }
        ensures caller { call_of self.new ≡ call_of self.old }
    {
        if self.at.asks(&self.machines).is_some() {
            let at = self.at.tell(&mut self.machines, hash);
            self.at = at.settle(&mut self.machines, &mut self.task);
        }
    }

    /// Whether the call has answered.
    #[inline(always)]
    #[tactic(auto, using(crate::proofs::Parts::seen), unfolding(crate::specs::CallRest::call_rest))]
    pub fn has_answered(&self) -> bool
        ensures answer { result ≡ is_some (answer_of (call_rest self.now)) }
        ensures act { result ≡ is_none (next_act (call_rest self.now)) }
    {
        !self.at.acts(&self.machines)
    }

    /// What the call answers. None exactly until it has answered; before that it has a verb, or waits for a hash.
    #[tactic(auto, unfolding(crate::specs::CallRest::call_rest))]
    pub fn answer(&self) -> Option<Answer>
        ensures { result ≡ option_map answer_in (answer_of (call_rest self.now)) }
    {
        if !self.has_answered() {
            return None;
        }
        match self.at.end(&self.machines, &self.task) {
            Some(end) => Some(Answer {
                reply: end.reply,
                from: end.source,
                to: end.target,
            }),
            None => None,
        }
    }

    /// What a call that has answered leaves of its client: the cache is refreshed where its last pass ended, and forgets the
    /// tables that were split; the ticket and the area are those that it ended with. The state is that of the client with
    /// whose state the call was begun.
    #[tactic(auto, unfolding(crate::specs::CallRest::call_rest))]
    pub fn finish(self, state: &mut ClientState)
        requires { IsSome (answer_of (call_rest self)) }
        ensures { (e : CallEnd) → answer_of (call_rest self) ≡ Some e → state.new ≡ state_after state.old e }
    {
        if let Some(end) = self.at.end(&self.machines, &self.task) {
            leave(state, self.task.hash, &end);
        }
    }
}

// The value of a call, of no byte where it has none.
fn value_of(call: &Call) -> Value
    ensures { result ≡ value_in call.now }
{
    match call {
        Call::Insert { value, .. } | Call::Update { value, .. } => *value,
        _ => Value::empty(),
    }
}

// What a call with this end leaves of its client.
fn leave(state: &mut ClientState, hash: u64, end: &End)
    requires { LowTable end.now.table }
    ensures { state.new ≡ state_after state.old (call_end hash end.now) }
{
    leave_cache(&mut state.cache, hash, end);
    state.ticket = end.ticket;
    state.area = end.area;
}

// .. and of its cache.
fn leave_cache(cache: &mut DirCache, hash: u64, end: &End)
    requires { LowTable end.now.table }
    ensures cache { cache.new ≡ cache_after cache.old (call_end hash end.now) }
    ensures depth { cache.new.depth ≡ cache.old.depth }
{
    end.forgotten.forget_in(cache);
    refresh(cache, hash, end.table);
    forget_split(cache, end.split);
}

// The entry of the hash names the table where the last pass ended.
fn refresh(cache: &mut DirCache, hash: u64, table: Option<u64>)
    requires { LowTable table }
    ensures cache { cache.new ≡ refreshed hash table cache.old }
    ensures depth { cache.new.depth ≡ cache.old.depth }
{
    if let Some(table) = table {
        cache.refresh(hash, table);
    }
}

// The table that was split after the last pass is forgotten.
fn forget_split(cache: &mut DirCache, split: Option<u64>)
    ensures cache { cache.new ≡ forgetting (option_to_list split) cache.old }
    ensures depth { cache.new.depth ≡ cache.old.depth }
{
    if let Some(table) = split {
        cache.forget(table);
    }
}
