//! A call on running words, verb by verb to its answer.
ghost use Rattle.std.specs.Prelude.{◌≡◌, ◌≤◌, ◌⊎◌, ℕ, [], IsTrue, Some, None, IsSome, false};
ghost use Rattle.key_hash.specs.Placing.{placed};
ghost use Rattle.verb_log.specs.declared.entry.Verb.{Verb};
ghost use Rattle.verbs.specs.Logs.{MayStand};
ghost use Rattle.verbs.specs.Programs.{asked, next_verb, block_of, answer_of};
ghost use Rattle.race_laws.specs.Legal.{MayFollow};
ghost use Rattle.log_facts.specs.Among.{among};
ghost use Rattle.call_texts.specs.Text.{part_of};
ghost use Rattle.call_machine.specs.CallRest.{call_rest};
ghost use Rattle.world_texts.specs.Bound.{most_acts};
ghost use Rattle.world_texts.specs.Texts.{after_verb};
ghost use Rattle.running_client.specs.Traces.{begun, text};
ghost use Rattle.running_client.specs.Cached.{AllKept, DoesThrough};
ghost use Rattle.running_client.specs.Running.{Permitted, IsRunning, Came};

use crate::begin::{keep_acting, settle};
use crate::through::do_or_serve;
use block_cache::BlockCache;
use call_machine::{CallMachine, ClientState};
use client_seat::TableNode;
use key_hash::Placer;
use map_model::Call;

/// Does the machine's next verb on the node, or serves it from the cache. False where the call has answered, and then nothing
/// changes.
pub(crate) fn advance<'a, P: Placer>(
    machine: &mut CallMachine,
    node: &mut TableNode<'a, P>,
    cache: &mut Option<BlockCache>,
    placer: &P,
) -> bool
    requires settled { asked (call_rest machine.old) ≡ None }
    requires legal { MayStand (MayFollow node.old.home.setting) node.old.front }
    requires keeps { AllKept (among node.old.home.setting node.old.client) node.old.front cache.old }
    requires may { (verb : Verb) → next_verb (text (placed (P.listed placer.now)) machine.old) ≡ Some verb → Permitted node.old (block_of (text (placed (P.listed placer.now)) machine.old)) verb }
    ensures went { IsTrue result → (verb : Verb) × (word : ℕ) × (next_verb (text (placed (P.listed placer.now)) machine.old) ≡ Some verb)
        × DoesThrough node.old cache.old (block_of (text (placed (P.listed placer.now)) machine.old)) verb word node.new cache.new
        × (text (placed (P.listed placer.now)) machine.new ≡ after_verb part_of (placed (P.listed placer.now)) (text (placed (P.listed placer.now)) machine.old) word) }
    ensures ended { result ≡ false → (machine.new ≡ machine.old) × (node.new ≡ node.old) × (cache.new ≡ cache.old) × IsSome (answer_of (text (placed (P.listed placer.now)) machine.old)) }
    ensures settled { asked (call_rest machine.new) ≡ None }
{
    keep_acting(machine);
    let Some(verb) = machine.next() else {
        return false;
    };
    let word = do_or_serve(machine, node, cache, &verb);
    machine.feed(word);
    settle(machine, placer);
    true
}

/// Does or serves the verbs of a call of the node's client, until it has answered or `most` of them are done, and tells how many.
pub(crate) fn drive<'a, P: Placer>(
    machine: &mut CallMachine,
    node: &mut TableNode<'a, P>,
    cache: &mut Option<BlockCache>,
    placer: &P,
    state: &ClientState,
    call: &Call,
    most: u64,
) -> u64
    requires listed { P.listed placer.now ≡ node.old.home.setting.listed }
    requires settled { asked (call_rest machine.old) ≡ None }
    requires keeps { AllKept (among node.old.home.setting node.old.client) node.old.front cache.old }
    requires begun { text (placed (P.listed placer.now)) machine.old ≡ begun (placed node.old.home.setting.listed) state.now call.now }
    requires running { IsRunning node.old.home.setting node.old.client call.now state.now node.old.front (most_acts state.now call.now) node.old.front (text (placed (P.listed placer.now)) machine.old) [] }
    ensures came { Came node.old cache.old call.now state.now node.new cache.new result (text (placed (P.listed placer.now)) machine.new) }
    ensures halted { IsSome (answer_of (text (placed (P.listed placer.now)) machine.new)) ⊎ (result ≡ most) }
    ensures few { result ≤ most }
    ensures settled { asked (call_rest machine.new) ≡ None }
{
    for done in 0..most {
        if !advance(machine, node, cache, placer) {
            return done;
        }
    }
    most
}
