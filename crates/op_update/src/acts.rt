//! An update by its work area and where it stands: its beginning, what it asks for, and its end.

ghost use Rattle.std.specs.Prelude.{◌≡◌, ◌≤◌, ◌-◌, IsSome, IsTrue, ◌<◌, ◌^◌, IfSome};
ghost use Rattle.kv_block.specs.Packing.{IsPair};
ghost use Rattle.verbs.specs.Programs.{next_act, next_verb, block_of, asked, after, outcome_of};
ghost use Rattle.scan_pass.specs.Ends.{held_of, is_held};
ghost use Rattle.op_update.specs.Text.{refused, update, new_word};
ghost use Rattle.op_update.specs.Law.{plan_of};
ghost use Rattle.op_update.specs.declared.at.At.TheVariants.{NoBlock};
ghost use Rattle.op_update.specs.Ends.{has_ended};
ghost use Rattle.op_update.specs.Rest.{plan, area_of, at_rest};
ghost use Rattle.op_update.specs.AtFits.{AtFits};

use crate::at::At;
use crate::end::{UpdateEnd, UpdateOutcome};
use block_taking::{Area, TakeOutcome};
use bucket_group::fingerprint;
use kv_block::{Key, Value};
use node_words::Geometry;
use scan_pass::{Held, PassMode};
use verb_log::Verb;
use verbs::Machine;
use work_area::{Replacement, Work};

impl At {
    /// An update of the key with this hash to the value begins, by this client and from its area, from the table that the cache names,
    /// or from the directory where it names none; it may lose `tries_left` swaps.
    #[tactic(auto, using(crate::proofs::Looking::begins))]
    pub fn begin(
        work: &mut Work,
        geometry: Geometry,
        client: u32,
        hash: u64,
        key: &Key,
        value: &Value,
        entry: Option<u64>,
        area: Area,
        tries_left: u32,
    ) -> At
        requires { 1 ≤ tries_left }
        ensures rest { at_rest work.new result ≡ update (plan_of geometry client (record { key = key.now; value = value.now }) hash tries_left) area entry }
        ensures fits { AtFits work.new result }
        ensures plan { plan work.new ≡ plan_of geometry client (record { key = key.now; value = value.now }) hash tries_left }
        ensures waits { IsSome (next_act (at_rest work.new result)) }
        ensures pair { IsPair (record { key = key.now; value = value.now }) }
    {
        work.seek(geometry, entry, key, hash, PassMode::Look);
        work.pack(geometry, client, key, value, area);
        work.replacement = Replacement {
            print: fingerprint(hash),
            tries: tries_left,
            left: tries_left,
            rounds: tries_left - 1,
            kept: None,
            block: 0,
            live: 0,
        };
        At::Looking
    }

    /// The verb to do now.
    #[inline(always)]
    #[tactic(auto, using(crate::proofs::Looking::updates))]
    pub fn next(self, work: &Work) -> Option<Verb>
        requires { AtFits work.now self }
        ensures { result ≡ next_verb (at_rest work.now self) }
    {
        match self {
            At::Looking => work.pass.next(),
            At::Taking => work.take.next(),
            At::Settle => Some(Verb::Swap {
                at: work.pass.held_at(),
                expected: work.pass.held_word(),
                word: work.replacement.live,
            }),
            At::Replace => Some(Verb::Swap {
                at: work.pass.held_at(),
                expected: work.replacement.live,
                word: new_word(work),
            }),
            At::Updated | At::Missing | At::Again | At::NoBlock => None,
        }
    }

    /// The block of which that verb reads a word.
    #[tactic(auto, using(crate::proofs::Looking::updates))]
    pub fn block(self, work: &Work) -> Option<u64>
        requires { AtFits work.now self }
        ensures { result ≡ block_of (at_rest work.now self) }
    {
        match self {
            At::Looking => work.pass.block(),
            At::Taking => work.take.block(),
            _ => None,
        }
    }

    /// The key whose hash is wanted: none is.
    #[tactic(auto, using(crate::proofs::Looking::updates))]
    pub fn asks(self, work: &Work) -> Option<Key>
        requires { AtFits work.now self }
        ensures { result ≡ asked (at_rest work.now self) }
    {
        match self {
            At::Looking => work.pass.asks(),
            At::Taking => work.take.asks(),
            _ => None,
        }
    }

    /// Takes the hash of another key, which is never wanted.
    #[tactic(auto, using(crate::proofs::Looking::updates))]
    pub fn told(self, work: &Work, hash: u64) -> At
        requires { AtFits work.now self }
        ensures rest { IsSome (asked (at_rest work.now self)) → at_rest work.now result ≡ after (at_rest work.now self) hash }
        ensures fits { AtFits work.now result }
        ensures same { result ≡ self }
    {
        self
    }

    /// Whether the update has ended.
    #[inline(always)]
    pub fn has_ended(self) -> bool
        ensures { result ≡ has_ended self }
    {
        matches!(self, At::Updated | At::Missing | At::Again | At::NoBlock)
    }

    /// What the update tells in the end.
    #[tactic(auto, using(crate::proofs::Looking::updates))]
    pub fn end(self, work: &Work) -> Option<UpdateEnd>
        requires { AtFits work.now self }
        ensures value { result ≡ outcome_of (at_rest work.now self) }
        ensures low { IfSome result (λ end. end.table < 2 ^ 46) }
    {
        match self {
            At::Updated => Some(ended(
                work,
                UpdateOutcome::Updated {
                    old: held(work),
                    at: work.replacement.block,
                },
            )),
            At::Missing => Some(ended(work, UpdateOutcome::Missing)),
            At::Again => Some(ended(work, UpdateOutcome::Again)),
            At::NoBlock => no_block(work),
            _ => None,
        }
    }
}

// What an update answers where its taking has ended with no room.
fn refused(outcome: TakeOutcome) -> UpdateOutcome
    ensures { result ≡ refused outcome }
{
    match outcome {
        TakeOutcome::Taken { .. } => UpdateOutcome::Again,
        TakeOutcome::NoBlock { next, need } => UpdateOutcome::NoBlock { next, need },
        TakeOutcome::Spent => UpdateOutcome::Again,
    }
}

// The live word of the new block.
#[tactic(auto, unfolding(crate::specs::Text::new_word, slot_word::specs::Slots::slot_word, pass_text::specs::Words::address_of))]
fn new_word(work: &Work) -> u64
    ensures { result ≡ new_word (plan work.now) work.now.replacement.block }
{
    (u64::from(work.replacement.print) << 56)
        + (u64::from(work.take.need()) << 48)
        + work.replacement.block % (1 << 46)
}

// The word that held the key.
fn held(work: &Work) -> Held
    requires { IsTrue (is_held work.now.pass.at) }
    ensures { result ≡ held_of work.now.pass }
{
    Held {
        at: work.pass.held_at(),
        word: work.pass.held_word(),
        value: work.pass.held_value(),
    }
}

// What the update tells where its taking has ended with no room.
#[tactic(auto, using(crate::proofs::Looking::fulls))]
fn no_block(work: &Work) -> Option<UpdateEnd>
    ensures value { result ≡ outcome_of (at_rest work.now NoBlock) }
    ensures low { IfSome result (λ end. end.table < 2 ^ 46) }
{
    match work.take.outcome() {
        Some(end) => Some(ended(work, refused(end.outcome))),
        None => None,
    }
}

// What the update tells that has ended so.
fn ended(work: &Work, outcome: UpdateOutcome) -> UpdateEnd
    ensures value { result ≡ record { outcome = outcome; table = work.now.pass.scan.table; area = area_of work.now; lost = work.now.replacement.tries - work.now.replacement.left } }
    ensures low { result.table < 2 ^ 46 }
{
    UpdateEnd {
        outcome,
        table: work.pass.table(),
        area: work.take.area(),
        lost: work.replacement.tries.saturating_sub(work.replacement.left),
    }
}
