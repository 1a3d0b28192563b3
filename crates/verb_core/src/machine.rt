//! The machine of whole calls, as a world plays it: one verb is outstanding until the call has answered.
ghost use Rattle.std.specs.Prelude.{◌≡◌, ◌||◌, None, IsSome};
ghost use Rattle.verbs.specs.Programs.{next_act, answer_of};
ghost use Rattle.call_machine.specs.CallRest.{call_rest};

use crate::playable::Playable;
use call_machine::{CallMachine, ClientState};
use kv_block::Key;
use map_model::{Call, Reply};
use verb_log::Verb;
use world_texts::law_calls_in_worlds;

// Hands out that a machine that has not answered has an act.
#[inline(always)]
fn keep_acting(machine: &CallMachine)
    ensures { answer_of (call_rest machine.now) ≡ None → IsSome (next_act (call_rest machine.now)) }
{
    let _ = machine.has_answered();
}

// Whether no hash is wanted, by whether a verb is to be done and whether the call has answered.
#[inline(always)]
fn wants_no_hash(has_verb: bool, has_answered: bool) -> bool
    ensures { result ≡ (has_verb || has_answered) }
{
    has_verb || has_answered
}

impl Playable for CallMachine {
    ghost use Rattle.verb_core.specs.Machine.{call_kind};

    ghost kind = { call_kind };

    fn start(state: &ClientState, hash: u64, call: &Call) -> CallMachine {
        CallMachine::start(state, hash, call)
    }

    #[inline(always)]
    fn is_settled(&self) -> bool {
        wants_no_hash(self.next().is_some(), CallMachine::has_answered(self))
    }

    fn asks(&self) -> Option<Key> {
        CallMachine::asks(self)
    }

    fn told(&mut self, hash: u64) {
        CallMachine::told(self, hash);
    }

    #[inline(always)]
    fn verb(&self, _choice: u64) -> Verb {
        keep_acting(self);
        let Some(verb) = self.next() else {
            unreachable!()
        };
        verb
    }

    fn outstanding(&self) -> u32 {
        keep_acting(self);
        match self.next() {
            Some(_) => 1,
            None => 0,
        }
    }

    #[inline(always)]
    fn complete(&mut self, _choice: u64, word: u64) {
        keep_acting(self);
        self.feed(word);
    }

    #[inline(always)]
    fn has_answered(&self) -> bool {
        keep_acting(self);
        CallMachine::has_answered(self)
    }

    fn reply(&self) -> Reply {
        keep_acting(self);
        let Some(answer) = self.answer() else {
            unreachable!()
        };
        answer.reply
    }

    fn finish(self, state: &mut ClientState) {
        keep_acting(&self);
        CallMachine::finish(self, state);
    }

    fn law_safe() {
        law_calls_in_worlds();
    }
}
