//! A delete by its work area and where it stands: its beginning, what it asks for, and its end.

ghost use Rattle.std.specs.Prelude.{◌≡◌, ◌≤◌, IsSome, ◌<◌, ◌^◌, IfSome};
ghost use Rattle.verbs.specs.Programs.{next_act, next_verb, block_of, asked, after, outcome_of};
ghost use Rattle.call_laws.specs.Settling.{look_job};
ghost use Rattle.op_delete.specs.Text.{delete};
ghost use Rattle.op_delete.specs.Ends.{has_ended};
ghost use Rattle.op_delete.specs.Rest.{at_rest};
ghost use Rattle.op_delete.specs.AtFits.{AtFits};

use crate::at::At;
use crate::end::{DeleteEnd, DeleteOutcome};
use kv_block::Key;
use node_words::Geometry;
use scan_pass::{Held, PassMode};
use verb_log::Verb;
use verbs::Machine;
use work_area::Work;

impl At {
    /// A delete of the key with this hash begins, from the table that the cache names, or from the directory where it names none;
    /// it may lose `tries_left` swaps.
    #[tactic(auto, using(crate::proofs::Looking::begins))]
    pub fn begin(
        work: &mut Work,
        geometry: Geometry,
        hash: u64,
        key: &Key,
        entry: Option<u64>,
        tries_left: u32,
    ) -> At
        requires { 1 ≤ tries_left }
        ensures rest { at_rest work.new result ≡ delete (look_job geometry key.now hash) tries_left entry }
        ensures fits { AtFits work.new result }
        ensures job { work.new.pass.task.job ≡ look_job geometry key.now hash }
        ensures waits { IsSome (next_act (at_rest work.new result)) }
    {
        work.seek(geometry, entry, key, hash, PassMode::Look);
        work.removal.lost = 0;
        work.removal.left = tries_left;
        At::Looking
    }

    /// The verb to do now.
    #[inline(always)]
    #[tactic(auto, using(crate::proofs::Looking::deletes))]
    pub fn next(self, work: &Work) -> Option<Verb>
        requires { AtFits work.now self }
        ensures { result ≡ next_verb (at_rest work.now self) }
    {
        match self {
            At::Looking => work.pass.next(),
            At::Settle => Some(Verb::Swap {
                at: work.pass.held_at(),
                expected: work.pass.held_word(),
                word: work.removal.live,
            }),
            At::Remove => Some(Verb::Swap {
                at: work.pass.held_at(),
                expected: work.removal.live,
                word: 0,
            }),
            At::Deleted | At::Missing | At::Again => None,
        }
    }

    /// The block of which that verb reads a word.
    #[tactic(auto, using(crate::proofs::Looking::deletes))]
    pub fn block(self, work: &Work) -> Option<u64>
        requires { AtFits work.now self }
        ensures { result ≡ block_of (at_rest work.now self) }
    {
        match self {
            At::Looking => work.pass.block(),
            _ => None,
        }
    }

    /// The key whose hash is wanted: none is.
    #[tactic(auto, using(crate::proofs::Looking::deletes))]
    pub fn asks(self, work: &Work) -> Option<Key>
        requires { AtFits work.now self }
        ensures { result ≡ asked (at_rest work.now self) }
    {
        match self {
            At::Looking => work.pass.asks(),
            _ => None,
        }
    }

    /// Takes the hash of another key, which is never wanted.
    #[tactic(auto, using(crate::proofs::Looking::deletes))]
    pub fn told(self, work: &Work, hash: u64) -> At
        requires { AtFits work.now self }
        ensures rest { IsSome (asked (at_rest work.now self)) → at_rest work.now result ≡ after (at_rest work.now self) hash }
        ensures fits { AtFits work.now result }
        ensures same { result ≡ self }
    {
        self
    }

    /// Whether the delete has ended.
    #[inline(always)]
    pub fn has_ended(self) -> bool
        ensures { result ≡ has_ended self }
    {
        matches!(self, At::Deleted | At::Missing | At::Again)
    }

    /// What the delete tells in the end.
    #[tactic(auto, using(crate::proofs::Looking::deletes))]
    pub fn end(self, work: &Work) -> Option<DeleteEnd>
        requires { AtFits work.now self }
        ensures value { result ≡ outcome_of (at_rest work.now self) }
        ensures low { IfSome result (λ end. end.table < 2 ^ 46) }
    {
        match self {
            At::Deleted => Some(ended(
                work,
                DeleteOutcome::Deleted(Held {
                    at: work.pass.held_at(),
                    word: work.pass.held_word(),
                    value: work.pass.held_value(),
                }),
            )),
            At::Missing => Some(ended(work, DeleteOutcome::Missing)),
            At::Again => Some(ended(work, DeleteOutcome::Again)),
            _ => None,
        }
    }
}

// What a delete tells that has ended so.
fn ended(work: &Work, outcome: DeleteOutcome) -> DeleteEnd
    ensures value { result ≡ record { outcome = outcome; table = work.now.pass.scan.table; lost = work.now.removal.lost } }
    ensures low { result.table < 2 ^ 46 }
{
    DeleteEnd {
        outcome,
        table: work.pass.table(),
        lost: work.removal.lost,
    }
}
