//! The calls on a handle.
ghost use Rattle.std.specs.Prelude.{◌≡◌, ◌≤◌, ◌+◌, ◌*◌, ℕ, List, Some};
ghost use Rattle.key_hash.specs.Placing.{placed};
ghost use Rattle.verbs.specs.Programs.{Act, answer_of};
ghost use Rattle.verbs.specs.Calls.{RanCall};
ghost use Rattle.verbs.specs.Logs.{Begins, word};
ghost use Rattle.verbs.specs.Terms.{HasRoom};
ghost use Rattle.rising.specs.Rises.{Rises, WonBelow};
ghost use Rattle.rising.specs.TwiceEnd.{WonAt};
ghost use Rattle.rising.specs.Rise.{Part, rise};
ghost use Rattle.rising.specs.Twice.{Whole, rising, twice};

use crate::rise::{Rise, RiseEnd, Start};
use crate::twice::Twice;
use key_hash::Placer;
use verbs::{Call, Verbs, run_call};

/// Runs the call to its end, which comes within (tries + 17) times two verbs.
pub fn rise_on<V: Verbs, P: Placer>(tries: u32, node: &mut V, placer: &P) -> RiseEnd
    requires rises { Rises (V.terms (V.home node.old)) }
    requires tries { (1 ≤ tries) × (tries ≤ 64) }
    requires room { HasRoom (2 * (tries + 17)) (V.room node.old) }
    ensures end { WonBelow (V.terms (V.home node.old)).geometry (V.front node.new) result }
    ensures ran { (acts : List (Act × ℕ)) × (last : Part)
        × RanCall (V.terms (V.home node.old)) (placed (P.listed placer.now)) rise (V.front node.old) (rise (record { tries = tries; depth = 0; lost = 0 })) acts (V.front node.new) last
        × (answer_of last ≡ Some result) }
    ensures longer { Begins (V.front node.old) (V.front node.new) }
{
    let mut call = Rise::start(Start {
        tries,
        depth: 0,
        lost: 0,
    });
    run_call(&mut call, node, placer, 2 * (u64::from(tries) + 17));
    let Some(end) = call.answer() else {
        unreachable!()
    };
    end
}

/// Runs the call with a call inside: 17 times a whole rise and one verb.
pub fn twice_on<V: Verbs, P: Placer>(tries: u32, node: &mut V, placer: &P) -> Option<u64>
    requires rises { Rises (V.terms (V.home node.old)) }
    requires tries { (1 ≤ tries) × (tries ≤ 64) }
    requires room { HasRoom (34 * tries + 595) (V.room node.old) }
    ensures end { WonAt (V.terms (V.home node.old)).geometry (V.front node.new) result }
    ensures ran { (acts : List (Act × ℕ)) × (last : Whole)
        × RanCall (V.terms (V.home node.old)) (placed (P.listed placer.now)) twice (V.front node.old) (twice (rising tries (record { tries = tries; depth = 0; lost = 0 }))) acts (V.front node.new) last
        × (answer_of last ≡ Some result) }
    ensures longer { Begins (V.front node.old) (V.front node.new) }
{
    let mut call = Twice::start(tries);
    run_call(&mut call, node, placer, 34 * u64::from(tries) + 595);
    let Some(end) = call.answer() else {
        unreachable!()
    };
    end
}
