//! An insert by its work area and where it stands: its beginning, what it asks for, and its end.

ghost use Rattle.std.specs.Prelude.{◌≡◌, ◌+◌, ◌-◌, IsSome, ◌<◌, ◌^◌, IfSome};
ghost use Rattle.kv_block.specs.Packing.{IsPair};
ghost use Rattle.verbs.specs.Programs.{next_act, next_verb, block_of, asked, outcome_of};
ghost use Rattle.op_insert.specs.Text.{insert};
ghost use Rattle.op_insert.specs.Rest.{inserting, area, at_rest, has_ended, lost_of};
ghost use Rattle.op_insert.specs.InsertRest.{start_of};
ghost use Rattle.op_insert.specs.AtFits.{AtFits};

use crate::at::At;
use crate::end::{InsertEnd, InsertOutcome};
use crate::turns::{live_word, part_asks, part_block, part_verb, pending_word};
use block_taking::Area;
use bucket_group::Free;
use kv_block::{Key, Value};
use node_words::Geometry;
use scan_pass::{Held, PassMode};
use verb_log::Verb;
use work_area::{Numbers, Work};

// How many parts may follow the first one.
fn parts_of(geometry: &Geometry, tries: u32) -> u64
    ensures { result ≡ tries + (geometry.now.max_depth - geometry.now.first_depth) }
{
    u64::from(tries) + u64::from(geometry.max_depth - geometry.first_depth)
}

// The numbers of an insert at its beginning.
fn numbers_of(geometry: &Geometry, kept: Option<u64>, tries: u32) -> Numbers
    ensures tries { result.tries ≡ tries }
    ensures left { result.left ≡ tries }
    ensures kept { result.kept ≡ kept }
    ensures parts { result.parts ≡ tries + (geometry.now.max_depth - geometry.now.first_depth) }
{
    Numbers {
        tries,
        left: tries,
        parts: parts_of(geometry, tries),
        kept,
        own: 0,
        block: 0,
        parent: 0,
        free: Free::new(),
        index: 0,
        more: 0,
        bucket: 0,
        from: 0,
        next: 0,
        after: 0,
    }
}

impl At {
    /// An insert of the key with this hash and of its value begins, by this client and from its area, from the table that the cache
    /// names, or from the directory where it names none, with the block that this call has written and never placed, where there is
    /// one; it may lose `tries_left` swaps.
    pub fn begin(
        work: &mut Work,
        geometry: Geometry,
        client: u32,
        hash: u64,
        key: &Key,
        value: &Value,
        entry: Option<u64>,
        kept: Option<u64>,
        area: Area,
        tries_left: u32,
    ) -> At
        ensures rest { at_rest work.new result ≡ insert (start_of geometry client hash key.now value.now tries_left) entry kept area }
        ensures fits { AtFits work.new result }
        ensures started { inserting work.new ≡ start_of geometry client hash key.now value.now tries_left }
        ensures waits { IsSome (next_act (at_rest work.new result)) }
        ensures pair { IsPair (record { key = key.now; value = value.now }) }
    {
        work.seek(geometry, entry, key, hash, PassMode::Look);
        work.pack(geometry, client, key, value, area);
        work.numbers = numbers_of(&geometry, kept, tries_left);
        At::Look
    }

    /// The verb to do now. None exactly where the insert has ended, or waits for the hash of another key.
    #[inline(always)]
    #[tactic(auto, using(crate::proofs::Onward::whole))]
    pub fn next(self, work: &Work) -> Option<Verb>
        requires { AtFits work.now self }
        ensures { result ≡ next_verb (at_rest work.now self) }
    {
        if self.acts() {
            return part_verb(work, self);
        }
        match self {
            At::Commit => Some(Verb::Swap {
                at: work.numbers.own,
                expected: pending_word(work),
                word: live_word(work),
            }),
            _ => None,
        }
    }

    /// The block of which that verb reads a word.
    #[tactic(auto, using(crate::proofs::Onward::whole))]
    pub fn block(self, work: &Work) -> Option<u64>
        requires { AtFits work.now self }
        ensures { result ≡ block_of (at_rest work.now self) }
    {
        if self.acts() {
            return part_block(work, self);
        }
        None
    }

    /// The key whose hash is wanted: that of the block which the parent's place names.
    #[tactic(auto, using(crate::proofs::Onward::whole))]
    pub fn asks(self, work: &Work) -> Option<Key>
        requires { AtFits work.now self }
        ensures { result ≡ asked (at_rest work.now self) }
    {
        if self.acts() {
            return part_asks(work, self);
        }
        None
    }

    /// Whether the insert has ended.
    #[inline(always)]
    pub fn has_ended(self) -> bool
        ensures { result ≡ has_ended self }
    {
        matches!(
            self,
            At::Inserted | At::Exists | At::NeedRoom | At::Again | At::NoBlock | At::Out
        )
    }

    /// How many counted swaps were lost.
    pub fn lost_of(self, work: &Work) -> u32
        ensures { result ≡ lost_of work.now self }
    {
        if matches!(self, At::Again) {
            work.numbers.tries
        } else {
            work.numbers.tries.saturating_sub(work.numbers.left)
        }
    }

    /// What the insert tells in the end.
    #[tactic(auto, using(crate::proofs::Onward::whole, crate::proofs::Looks::ended))]
    pub fn end(self, work: &Work) -> Option<InsertEnd>
        requires { AtFits work.now self }
        ensures value { result ≡ outcome_of (at_rest work.now self) }
        ensures low { IfSome result (λ end. end.table < 2 ^ 46) }
    {
        match self {
            At::Inserted => Some(ended(
                work,
                self,
                InsertOutcome::Inserted {
                    at: work.numbers.block,
                },
            )),
            At::Exists => Some(ended(
                work,
                self,
                InsertOutcome::Exists(Held {
                    at: work.pass.held_at(),
                    word: work.pass.held_word(),
                    value: work.pass.held_value(),
                }),
            )),
            At::NeedRoom => match work.pass.passed() {
                Some(passed) => Some(ended(
                    work,
                    self,
                    InsertOutcome::NeedRoom {
                        passed,
                        kept: work.numbers.kept,
                    },
                )),
                None => None,
            },
            At::Again => Some(ended(work, self, InsertOutcome::Again)),
            At::Out => Some(ended(work, self, InsertOutcome::Again)),
            At::NoBlock => Some(ended(
                work,
                self,
                InsertOutcome::NoBlock {
                    next: work.take.nexts(),
                    need: u64::from(work.take.need()),
                },
            )),
            _ => None,
        }
    }
}

// What an insert tells that has ended so.
fn ended(work: &Work, at: At, outcome: InsertOutcome) -> InsertEnd
    ensures value { result ≡ record { outcome = outcome; table = work.now.pass.scan.table; area = area work.now; lost = lost_of work.now at } }
    ensures low { result.table < 2 ^ 46 }
{
    InsertEnd {
        outcome,
        table: work.pass.table(),
        area: work.take.area(),
        lost: at.lost_of(work),
    }
}
