//! Calls that are run through a block cache.
ghost use Rattle.std.specs.Prelude.{◌≡◌, ℕ, ◌+◌, ◌≤◌, IsTrue, List, [], ◌∷◌, length, Some, None, IsSome, false};
ghost use Rattle.key_hash.specs.Placing.{placed};
ghost use Rattle.verbs.specs.Programs.{Act, next_act, after, goes_on, answer_of};
ghost use Rattle.verbs.specs.Logs.{Begins};
ghost use Rattle.verbs.specs.Terms.{SeenAgain, BlocksLast, Acted, HasRoom, LeftRoom, told};
ghost use Rattle.verbs.specs.Safe.{Safe, Anything};
ghost use Rattle.verbs.specs.Calls.{SafeWithin, RanCall};
ghost use Rattle.block_cache.specs.Cache.{went_act, went_acts, done_by, done_of};
ghost use Rattle.block_cache.specs.Keeps.{Keeps};

use crate::cache::BlockCache;
use key_hash::Placer;
use verbs::{Call, Verbs};

/// Does the call's next act through the cache: a verb, which is done or served, or the question for a hash, which the placer
/// answers. False where no act is left, and then nothing changes.
pub fn advance_cached<C: Call, V: Verbs, P: Placer>(
    cache: &mut BlockCache,
    call: &mut C,
    node: &mut V,
    placer: &P,
) -> bool
    requires safe { Safe (V.terms (V.home node.old)) (placed (P.listed placer.now)) (V.front node.old) (C.rest call.old) Anything }
    requires room { HasRoom 1 (V.room node.old) }
    requires still { (V.terms (V.home node.old)).grows (V.front node.old) (V.front node.old) }
    requires again { SeenAgain (V.terms (V.home node.old)) }
    requires last { BlocksLast (V.terms (V.home node.old)) }
    requires keeps { Keeps (V.terms (V.home node.old)) (V.front node.old) cache.old }
    ensures went { IsTrue result → (act : Act) × (answer : ℕ) × (next_act (C.rest call.old) ≡ Some act)
        × Acted (V.terms (V.home node.old)) (placed (P.listed placer.now)) (V.front node.old) act (V.front node.new) answer
        × (C.rest call.new ≡ goes_on C.part (after (C.rest call.old) answer))
        × (cache.new ≡ went_act cache.old act answer) × (V.trace node.new ≡ told (V.trace node.old) (done_by cache.old act answer)) }
    ensures ended { result ≡ false → (next_act (C.rest call.new) ≡ None) × (call.new ≡ call.old) × (node.new ≡ node.old) × (cache.new ≡ cache.old) }
    ensures kept { C.kept call.new ≡ C.kept call.old }
    ensures still { (V.terms (V.home node.new)).grows (V.front node.new) (V.front node.new) }
    ensures keeps { Keeps (V.terms (V.home node.new)) (V.front node.new) cache.new }
    ensures longer { Begins (V.front node.old) (V.front node.new) }
    ensures home { V.home node.new ≡ V.home node.old }
    ensures room { LeftRoom (V.room node.old) (V.room node.new) }
{
    if let Some(key) = call.asks() {
        call.told(placer.hash(&key));
        return true;
    }
    match call.next() {
        Some(verb) => {
            let block = call.block();
            let word = cache.perform(node, &verb, block);
            call.feed(word);
            true
        }
        None => false,
    }
}

/// Runs the call through the cache to its answer, whatever others add meanwhile. The acts done are those of its parts, as
/// `verbs::run_call` says; a served read is among them as a read of that moment. No more than `limit` acts are done, with
/// those that are served.
pub fn run_cached<C: Call, V: Verbs, P: Placer>(
    cache: &mut BlockCache,
    call: &mut C,
    node: &mut V,
    placer: &P,
    limit: u64,
)
    requires safe { SafeWithin limit (V.terms (V.home node.old)) (placed (P.listed placer.now)) C.part (V.front node.old) (C.rest call.old) }
    requires room { HasRoom limit (V.room node.old) }
    requires still { (V.terms (V.home node.old)).grows (V.front node.old) (V.front node.old) }
    requires again { SeenAgain (V.terms (V.home node.old)) }
    requires last { BlocksLast (V.terms (V.home node.old)) }
    requires keeps { Keeps (V.terms (V.home node.old)) (V.front node.old) cache.old }
    ensures ran { (acts : List (Act × ℕ))
        × RanCall (V.terms (V.home node.old)) (placed (P.listed placer.now)) C.part (V.front node.old) (C.rest call.old) acts (V.front node.new) (C.rest call.new)
        × (cache.new ≡ went_acts cache.old acts) × (V.trace node.new ≡ told (V.trace node.old) (done_of cache.old acts)) × (length acts ≤ limit) }
    ensures ended { IsSome (answer_of (C.rest call.new)) }
    ensures kept { C.kept call.new ≡ C.kept call.old }
    ensures still { (V.terms (V.home node.new)).grows (V.front node.new) (V.front node.new) }
    ensures keeps { Keeps (V.terms (V.home node.new)) (V.front node.new) cache.new }
    ensures longer { Begins (V.front node.old) (V.front node.new) }
    ensures home { V.home node.new ≡ V.home node.old }
    ensures room { (n : ℕ) → HasRoom (limit + n) (V.room node.old) → HasRoom n (V.room node.new) }
{
    for _done in 0..limit {
        if !advance_cached(cache, call, node, placer) {
            return;
        }
    }
}
