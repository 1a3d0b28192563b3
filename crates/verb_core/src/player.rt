//! One client of a world: where it stands in its plan.
ghost use Rattle.std.specs.Prelude.{◌≡◌, ℕ, ◌+◌, ◌<◌, ◌≤◌, ◌^◌, List, length, Some, None, IsSome, is_some, is_none, false, option_map, slice_get};
ghost use Rattle.key_hash.specs.Placing.{placed};
ghost use Rattle.map_model.specs.Machine.{key_of};
ghost use Rattle.verb_log.specs.declared.entry.Verb.{Verb};
ghost use Rattle.verbs.specs.Logs.{Did, place_of};
ghost use Rattle.call_texts.specs.State.{CallEnd, state_after};
ghost use Rattle.whole_calls.specs.Law.{IsCall};
ghost use Rattle.world_texts.specs.Sorts.{chosen, onward};
ghost use Rattle.verb_core.specs.Play.{going_of, or_next, is_idle};
ghost use Rattle.verb_core.specs.Going.{MayGo, Went};
ghost use Rattle.verb_core.specs.declared.player.Open.{Open};

use crate::playable::Playable;
use call_machine::ClientState;
use key_hash::Placer;
use map_model::{Call, Calls, Plan, Reply};
use verbs::{PlainNode, perform};

/// A call under way.
#[derive(Debug, Drop)]
pub(crate) struct Open<M> {
    pub(crate) machine: M,
    /// How many changes the log had when the call began.
    pub(crate) lo: u64,
    /// How many verbs the call has done.
    pub(crate) verbs: u64,
}

/// Where a client stands in its plan.
#[derive(Debug, Drop)]
pub(crate) struct Player<M> {
    pub(crate) state: ClientState,
    /// How many of its calls are answered.
    pub(crate) answered: u32,
    /// How many verbs it has done.
    pub(crate) verbs: u64,
    pub(crate) under_way: Option<Open<M>>,
}

/// What is told of a call that was answered: its reply, and how many changes the log had when it began.
#[derive(Clone, Copy, Debug)]
pub(crate) struct Told {
    pub(crate) reply: Reply,
    pub(crate) lo: u64,
}

// Hands out that the key and the value are within their limits.
fn keep_limits(call: &Call)
    ensures { IsCall call.now }
{
    match call {
        Call::Insert { key, value } | Call::Update { key, value } => {
            let _ = key.bytes();
            let _ = value.bytes();
        }
        Call::Search { key } | Call::Delete { key } | Call::Resize { key } => {
            let _ = key.bytes();
        }
    }
}

// Answers the hash that the machine asks for. Keys are large: it has a function of its own, so that verbs after which no hash is
// wanted do not clear the room for one.
#[inline(never)]
fn tell_hash<M: Playable, P: Placer>(machine: &mut M, placer: &P)
    requires { is_none (M.kind.wants machine.old) ≡ false }
    ensures text { M.kind.text (placed (P.listed placer.now)) machine.new ≡ M.kind.text (placed (P.listed placer.now)) machine.old }
    ensures questions { M.kind.questions (placed (P.listed placer.now)) machine.new < M.kind.questions (placed (P.listed placer.now)) machine.old }
{
    let Some(key) = machine.asks() else {
        unreachable!()
    };
    machine.told(placer.hash(&key));
}

// Answers the hashes that the machine asks for.
#[inline(always)]
fn settle<M: Playable, P: Placer>(machine: &mut M, placer: &P)
    ensures none { M.kind.wants machine.new ≡ None }
    ensures text { M.kind.text (placed (P.listed placer.now)) machine.new ≡ M.kind.text (placed (P.listed placer.now)) machine.old }
{
    while !machine.is_settled() {
        tell_hash(machine, placer);
    }
}

impl<M: Playable> Open<M> {
    // A call that begins.
    fn begin<P: Placer>(state: &ClientState, call: &Call, placer: &P, lo: u64) -> Open<M>
        ensures going { going_of M.kind (placed (P.listed placer.now)) result ≡ record { left = M.kind.sort.begun (placed (P.listed placer.now)) state.now call.now; lo = lo; verbs = 0 } }
        ensures settled { M.kind.wants result.machine ≡ None }
        ensures limits { IsCall call.now }
        ensures small { placed (P.listed placer.now) (key_of call.now) < 2 ^ 64 }
    {
        keep_limits(call);
        let hash = placer.hash(&call.key());
        let mut machine = M::start(state, hash, call);
        settle(&mut machine, placer);
        Open {
            machine,
            lo,
            verbs: 0,
        }
    }

    // Does the outstanding verb that the choice names. True where the call has answered with it.
    fn go<P: Placer>(&mut self, node: &mut PlainNode, placer: &P, choice: u64) -> bool
        requires may { MayGo M.kind (placed (P.listed placer.now)) node.old.log.geometry.words choice self.old }
        requires room { 1 ≤ node.old.room }
        ensures went { Went M.kind (placed (P.listed placer.now)) node.old.log.geometry node.old.client node.old.log.entries choice self.old node.new.log.entries self.new result }
        ensures geometry { node.new.log.geometry ≡ node.old.log.geometry }
    {
        let verb = self.machine.verb(choice);
        let word = perform(node, &verb);
        self.machine.complete(choice, word);
        settle(&mut self.machine, placer);
        self.verbs += 1;
        self.machine.has_answered()
    }
}

impl<M> Player<M> {
    /// Whether it has stopped, or has no call left.
    pub(crate) fn is_idle(&self, plan: &Plan) -> bool
        ensures { result ≡ is_idle plan.now self.now }
    {
        let is_stopped = match plan.stop {
            Some(stop) => stop <= self.verbs,
            None => false,
        };
        is_stopped || (self.under_way.is_none() && plan.calls.len() <= self.answered as usize)
    }
}

impl<M: Playable + Drop> Player<M> {
    // Begins the next call. A call under way is kilobytes: it has a function of its own, so that the verbs within a call do not
    // clear the room for it.
    #[inline(never)]
    fn begin_next<P: Placer>(&mut self, calls: &Calls, placer: &P, lo: u64)
        requires none { self.old.under_way ≡ None }
        requires some { self.old.answered < length calls.now.items }
        ensures state { self.new.state ≡ self.old.state }
        ensures answered { self.new.answered ≡ self.old.answered }
        ensures verbs { self.new.verbs ≡ self.old.verbs }
        ensures open { (o : Open M) × (self.new.under_way ≡ Some o) × (M.kind.wants o.machine ≡ None)
            × (or_next M.kind (placed (P.listed placer.now)) lo self.old.state (option_map (going_of M.kind (placed (P.listed placer.now))) self.old.under_way) (slice_get calls.now.items self.old.answered) ≡ Some (going_of M.kind (placed (P.listed placer.now)) o)) }
        ensures limits { (call : Call) → slice_get calls.now.items self.old.answered ≡ Some call → IsCall call × (placed (P.listed placer.now) (key_of call) < 2 ^ 64) }
    {
        let call = calls.get(self.answered as usize);
        self.under_way = Some(Open::begin(&self.state, &call, placer, lo));
    }

    /// Begins the next call where none is under way.
    #[inline(always)]
    pub(crate) fn begin<P: Placer>(&mut self, calls: &Calls, placer: &P, lo: u64)
        requires some { self.old.under_way ≡ None → self.old.answered < length calls.now.items }
        requires settled { (o : Open M) → self.old.under_way ≡ Some o → M.kind.wants o.machine ≡ None }
        ensures state { self.new.state ≡ self.old.state }
        ensures answered { self.new.answered ≡ self.old.answered }
        ensures verbs { self.new.verbs ≡ self.old.verbs }
        ensures open { (o : Open M) × (self.new.under_way ≡ Some o) × (M.kind.wants o.machine ≡ None)
            × (or_next M.kind (placed (P.listed placer.now)) lo self.old.state (option_map (going_of M.kind (placed (P.listed placer.now))) self.old.under_way) (slice_get calls.now.items self.old.answered) ≡ Some (going_of M.kind (placed (P.listed placer.now)) o)) }
        ensures limits { (call : Call) → self.old.under_way ≡ None → slice_get calls.now.items self.old.answered ≡ Some call → IsCall call × (placed (P.listed placer.now) (key_of call) < 2 ^ 64) }
    {
        if self.under_way.is_none() {
            self.begin_next(calls, placer, lo);
        }
    }

    /// Does the verb of the call under way that the choice names among those outstanding. True where the call has answered with
    /// it.
    pub(crate) fn go<P: Placer>(&mut self, node: &mut PlainNode, placer: &P, choice: u64) -> bool
        requires may { (o : Open M) × (self.old.under_way ≡ Some o) × MayGo M.kind (placed (P.listed placer.now)) node.old.log.geometry.words choice o }
        requires room { 1 ≤ node.old.room }
        requires few { self.old.verbs < 2 ^ 63 }
        ensures state { self.new.state ≡ self.old.state }
        ensures answered { self.new.answered ≡ self.old.answered }
        ensures verbs { self.new.verbs ≡ self.old.verbs + 1 }
        ensures went { (o : Open M) → self.old.under_way ≡ Some o → (q : Open M) × (self.new.under_way ≡ Some q)
            × Went M.kind (placed (P.listed placer.now)) node.old.log.geometry node.old.client node.old.log.entries choice o node.new.log.entries q result }
        ensures geometry { node.new.log.geometry ≡ node.old.log.geometry }
    {
        self.verbs += 1;
        match &mut self.under_way {
            Some(under_way) => under_way.go(node, placer, choice),
            None => unreachable!(),
        }
    }

    /// Takes the call that has answered, and keeps what it leaves.
    pub(crate) fn close(&mut self) -> Told
        requires ended { (h : List ℕ → ℕ) × (o : Open M) × (self.old.under_way ≡ Some o) × (M.kind.wants o.machine ≡ None) × IsSome (M.kind.sort.answer (M.kind.text h o.machine)) }
        requires few { self.old.answered < 2 ^ 31 }
        ensures told { (h : List ℕ → ℕ) (o : Open M) (e : CallEnd) → self.old.under_way ≡ Some o → M.kind.sort.answer (M.kind.text h o.machine) ≡ Some e
            → (self.new.state ≡ state_after self.old.state e) × (result.reply ≡ e.reply) × (result.lo ≡ o.lo) }
        ensures answered { self.new.answered ≡ self.old.answered + 1 }
        ensures verbs { self.new.verbs ≡ self.old.verbs }
        ensures none { self.new.under_way ≡ None }
    {
        let Some(under_way) = self.under_way.take() else {
            unreachable!()
        };
        let Open {
            machine,
            lo,
            verbs: _,
        } = under_way;
        let reply = machine.reply();
        machine.finish(&mut self.state);
        self.answered += 1;
        Told { reply, lo }
    }
}
