//! Calls: machines made of parts that start again.
ghost use Rattle.std.specs.Prelude.{◌≡◌, ℕ, ◌+◌, ◌≤◌, IsTrue, List, [], ◌∷◌, length, Some, None, IsSome, false};
ghost use Rattle.key_hash.specs.Placing.{placed};
ghost use Rattle.verbs.specs.Programs.{Act, next_act, after, goes_on, answer_of, verbs_of};
ghost use Rattle.verbs.specs.Logs.{Begins};
ghost use Rattle.verbs.specs.Terms.{Acted, HasRoom, LeftRoom, told};
ghost use Rattle.verbs.specs.Safe.{Safe, Anything};
ghost use Rattle.verbs.specs.Calls.{SafeWithin, RanCall};

use crate::node::{Verbs, perform};
use key_hash::Placer;
use kv_block::Key;
use verb_log::Verb;

/// A machine made of parts. Where a part ends to start again, the next part begins at once. It takes no memory.
pub trait Call {
    ghost use Rattle.std.specs.Prelude.{◌≡◌, IsSome};
    ghost use Rattle.verbs.specs.Programs.{Prog, Go, next_verb, block_of, asked, after, goes_on, answer_of};

    /// What the call answers in the end.
    type Answer;

    // What a call keeps from its start.
    ghost Kept: { Type 0 };

    ghost kept: { Self → Kept };

    // What a part starts from.
    ghost State: { Type 0 };

    // The part that starts there.
    ghost part: { State → Prog (Go State Self.Answer) };

    // What is left of the present part.
    ghost rest: { Self → Prog (Go State Self.Answer) };

    /// The verb to do now. None exactly where the call has answered, or waits for the hash of another key.
    fn next(&self) -> Option<Verb>
        ensures { result ≡ next_verb (rest self.now) };

    /// The block of which that verb reads a word. None exactly where there is no verb, or where it reads no word of a block.
    fn block(&self) -> Option<u64>
        ensures { result ≡ block_of (rest self.now) };

    /// Takes the verb's answer: the word read, the word that a swap found, or 0 after a write.
    fn feed(&mut self, word: u64)
        requires { IsSome (next_verb (rest self.old)) }
        ensures rest { rest self.new ≡ goes_on part (after (rest self.old) word) }
        ensures kept { kept self.new ≡ kept self.old };

    /// The key whose hash is wanted. None exactly where no hash is.
    fn asks(&self) -> Option<Key>
        ensures { result ≡ asked (rest self.now) };

    /// Takes the hash of the key that `asks` names. It may be called at any time, so that a call that never asks meets it, and
    /// says what is left where a hash was wanted.
    fn told(&mut self, hash: u64)
        ensures rest { IsSome (asked (rest self.old)) → rest self.new ≡ goes_on part (after (rest self.old) hash) }
        ensures kept { kept self.new ≡ kept self.old };

    /// What the call answers. None exactly until it has answered.
    fn answer(&self) -> Option<Self::Answer>
        ensures { result ≡ answer_of (rest self.now) };
}

/// Does the call's next act on the node: a verb, or the question for a hash, which the placer answers. False where no act is
/// left, and then nothing changes.
pub fn advance_call<C: Call, V: Verbs, P: Placer>(call: &mut C, node: &mut V, placer: &P) -> bool
    requires safe { Safe (V.terms (V.home node.old)) (placed (P.listed placer.now)) (V.front node.old) (C.rest call.old) Anything }
    requires room { HasRoom 1 (V.room node.old) }
    ensures went { IsTrue result → (act : Act) × (answer : ℕ) × (next_act (C.rest call.old) ≡ Some act)
        × Acted (V.terms (V.home node.old)) (placed (P.listed placer.now)) (V.front node.old) act (V.front node.new) answer
        × (C.rest call.new ≡ goes_on C.part (after (C.rest call.old) answer))
        × (V.trace node.new ≡ told (V.trace node.old) (verbs_of ((act, answer) ∷ []))) }
    ensures ended { result ≡ false → (next_act (C.rest call.new) ≡ None) × (call.new ≡ call.old) × (node.new ≡ node.old) }
    ensures kept { C.kept call.new ≡ C.kept call.old }
    ensures longer { Begins (V.front node.old) (V.front node.new) }
    ensures home { V.home node.new ≡ V.home node.old }
    ensures room { LeftRoom (V.room node.old) (V.room node.new) }
{
    match call.next() {
        Some(verb) => {
            let word = perform(node, &verb);
            call.feed(word);
            true
        }
        None => match call.asks() {
            Some(key) => {
                call.told(placer.hash(&key));
                true
            }
            None => false,
        },
    }
}

/// Runs the call on the node to its answer, whatever others add meanwhile. The acts done are those of its parts, each on a
/// log that others may have made of the one before; no more than `limit` of them are done.
pub fn run_call<C: Call, V: Verbs, P: Placer>(call: &mut C, node: &mut V, placer: &P, limit: u64)
    requires safe { SafeWithin limit (V.terms (V.home node.old)) (placed (P.listed placer.now)) C.part (V.front node.old) (C.rest call.old) }
    requires room { HasRoom limit (V.room node.old) }
    ensures ran { (acts : List (Act × ℕ))
        × RanCall (V.terms (V.home node.old)) (placed (P.listed placer.now)) C.part (V.front node.old) (C.rest call.old) acts (V.front node.new) (C.rest call.new)
        × (V.trace node.new ≡ told (V.trace node.old) (verbs_of acts)) × (length acts ≤ limit) }
    ensures ended { IsSome (answer_of (C.rest call.new)) }
    ensures kept { C.kept call.new ≡ C.kept call.old }
    ensures longer { Begins (V.front node.old) (V.front node.new) }
    ensures home { V.home node.new ≡ V.home node.old }
    ensures room { (n : ℕ) → HasRoom (limit + n) (V.room node.old) → HasRoom n (V.room node.new) }
{
    for _done in 0..limit {
        if !advance_call(call, node, placer) {
            return;
        }
    }
}
