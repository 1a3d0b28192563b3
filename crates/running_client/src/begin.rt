//! The beginning of a call.
ghost use Rattle.std.specs.Prelude.{◌≡◌, ◌<◌, ◌^◌, None, IsSome};
ghost use Rattle.key_hash.specs.Placing.{placed};
ghost use Rattle.map_model.specs.Machine.{key_of};
ghost use Rattle.verbs.specs.Programs.{next_act, asked, answer_of};
ghost use Rattle.call_machine.specs.CallRest.{call_rest};
ghost use Rattle.whole_calls.specs.Law.{IsCall};
ghost use Rattle.running_client.specs.Traces.{begun, text};

use call_machine::{CallMachine, ClientState};
use key_hash::Placer;
use map_model::Call;

// Hands out that the key and the value are within their limits.
fn keep_limits(call: &Call)
    ensures { IsCall call.now }
{
    match call {
        Call::Insert { key, value } | Call::Update { key, value } => {
            let _ = key.bytes();
            let _ = value.bytes();
        }
        Call::Search { key } | Call::Delete { key } | Call::Resize { key } => {
            let _ = key.bytes();
        }
    }
}

/// Hands out that a machine that has not answered has an act.
#[inline(always)]
pub(crate) fn keep_acting(machine: &CallMachine)
    ensures { answer_of (call_rest machine.now) ≡ None → IsSome (next_act (call_rest machine.now)) }
{
    let _ = machine.has_answered();
}

/// Answers the hashes that the machine asks for.
pub(crate) fn settle<P: Placer>(machine: &mut CallMachine, placer: &P)
    ensures none { asked (call_rest machine.new) ≡ None }
    ensures text { text (placed (P.listed placer.now)) machine.new ≡ text (placed (P.listed placer.now)) machine.old }
{
    while let Some(key) = machine.asks() {
        machine.told(placer.hash(&key));
    }
}

/// A call at its beginning, of a client that keeps this.
pub(crate) fn begin<P: Placer>(state: &ClientState, call: &Call, placer: &P) -> CallMachine
    ensures text { text (placed (P.listed placer.now)) result ≡ begun (placed (P.listed placer.now)) state.now call.now }
    ensures none { asked (call_rest result) ≡ None }
    ensures limits { IsCall call.now }
    ensures small { placed (P.listed placer.now) (key_of call.now) < 2 ^ 64 }
{
    keep_limits(call);
    let hash = placer.hash(&call.key());
    let mut machine = CallMachine::start(state, hash, call);
    settle(&mut machine, placer);
    machine
}
