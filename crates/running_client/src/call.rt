//! One call of a client.
ghost use Rattle.std.specs.Prelude.{◌≡◌, None};
ghost use Rattle.verbs.specs.Logs.{MayStand};
ghost use Rattle.race_laws.specs.Legal.{MayFollow};
ghost use Rattle.log_facts.specs.Among.{among};
ghost use Rattle.world_texts.specs.Fits.{Fits};
ghost use Rattle.running_client.specs.Called.{CameTo};
ghost use Rattle.running_client.specs.Cached.{AllKept};
ghost use Rattle.running_client.specs.Through.{CalledThrough, CameThrough};

use crate::begin::{begin, keep_acting};
use crate::drive::drive;
use block_cache::BlockCache;
use call_machine::{Answer, ClientState};
use client_seat::{Memory, TableNode};
use key_hash::Placer;
use map_model::Call;
use world_texts::law_calls_in_worlds;

/// No call does so many verbs.
const MOST_VERBS: u64 = 1 << 40;

/// What a call has come to.
#[derive(Clone, Copy, Debug)]
pub struct Went {
    /// Its answer. None exactly where it was left without one.
    pub answer: Option<Answer>,
    /// How many verbs it has done, with the reads that a cache has served.
    pub verbs: u64,
}

/// Does a call of the node's client through its cache, where it has one, whatever others do meanwhile, and leaves it after `most`
/// verbs, done or served, where it has not answered by then. A client whose call was left so does no further call.
pub fn call_through<'a, P: Placer>(
    memory: &Memory<P>,
    node: &mut TableNode<'a, P>,
    cache: &mut Option<BlockCache>,
    state: &mut ClientState,
    call: &Call,
    most: u64,
) -> Went
    requires home { node.old.home ≡ memory.now }
    requires legal { MayStand (MayFollow node.old.home.setting) node.old.front }
    requires fits { Fits node.old.home.setting node.old.front node.old.client state.old }
    requires keeps { AllKept (among node.old.home.setting node.old.client) node.old.front cache.old }
    ensures came { CameThrough node.old cache.old state.old call.now most node.new cache.new state.new result.answer result.verbs }
    ensures legal { MayStand (MayFollow node.old.home.setting) node.new.front }
{
    law_calls_in_worlds();
    let placer = memory.placer();
    let mut machine = begin(state, call, placer);
    let verbs = drive(&mut machine, node, cache, placer, state, call, most);
    keep_acting(&machine);
    match machine.answer() {
        Some(answer) => {
            machine.finish(state);
            Went {
                answer: Some(answer),
                verbs,
            }
        }
        None => Went {
            answer: None,
            verbs,
        },
    }
}

/// Does a call of the node's client, which has no cache, whatever others do meanwhile, and leaves it after `most` verbs where it
/// has not answered by then. A client whose call was left so does no further call.
pub fn call_within<'a, P: Placer>(
    memory: &Memory<P>,
    node: &mut TableNode<'a, P>,
    state: &mut ClientState,
    call: &Call,
    most: u64,
) -> Went
    requires home { node.old.home ≡ memory.now }
    requires legal { MayStand (MayFollow node.old.home.setting) node.old.front }
    requires fits { Fits node.old.home.setting node.old.front node.old.client state.old }
    ensures came { CameTo node.old state.old call.now most node.new state.new result.answer result.verbs }
    ensures legal { MayStand (MayFollow node.old.home.setting) node.new.front }
{
    let mut cache = None;
    call_through(memory, node, &mut cache, state, call, most)
}

/// Does a call of the node's client to its answer, whatever others do meanwhile.
pub(crate) fn do_call<'a, P: Placer>(
    memory: &Memory<P>,
    node: &mut TableNode<'a, P>,
    cache: &mut Option<BlockCache>,
    state: &mut ClientState,
    call: &Call,
) -> Answer
    requires home { node.old.home ≡ memory.now }
    requires legal { MayStand (MayFollow node.old.home.setting) node.old.front }
    requires fits { Fits node.old.home.setting node.old.front node.old.client state.old }
    requires keeps { AllKept (among node.old.home.setting node.old.client) node.old.front cache.old }
    ensures called { CalledThrough node.old cache.old state.old call.now node.new cache.new state.new result }
    ensures legal { MayStand (MayFollow node.old.home.setting) node.new.front }
{
    state.keep();
    let went = call_through(memory, node, cache, state, call, MOST_VERBS);
    match went.answer {
        Some(answer) => answer,
        None => unreachable!(),
    }
}
