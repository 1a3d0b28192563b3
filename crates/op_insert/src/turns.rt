//! What an insert does between its parts: it commits, or starts again.

ghost use Rattle.std.specs.Prelude.{◌≡◌, ◌<◌, ◌+◌, ◌*◌, ◌^◌, IsSome, IsTrue, Some, None};
ghost use Rattle.verbs.specs.Programs.{next_verb, block_of, asked, after};
ghost use Rattle.op_insert.specs.Text.{pending_word, live_word, to_commit, after_commit, insert_from};
ghost use Rattle.op_insert.specs.Rest.{inserting, area, part_rest, at_rest, acts};
ghost use Rattle.op_insert.specs.AtFits.{PartFits, AtFits};

use crate::at::At;
use crate::readings::{plain_of, split_depth, splitting_of};
use crate::steps::slot_in;
use bucket_group::fingerprint;
use kv_block::{Key, block_key};
use node_words::{bucket_header_at, header_at};
use scan_pass::PassMode;
use verb_log::Verb;
use verbs::Machine;
use work_area::Work;

impl At {
    /// Whether an act of a part is left.
    pub fn acts(self) -> bool
        ensures { result ≡ acts self }
    {
        !matches!(
            self,
            At::Commit
                | At::Lost
                | At::Left
                | At::Inserted
                | At::Exists
                | At::NeedRoom
                | At::Again
                | At::NoBlock
                | At::Out
        )
    }

    /// The next part begins, while parts are left.
    #[tactic(auto, using(crate::proofs::Onward::agains, crate::proofs::Looks::turns))]
    pub fn restart(work: &mut Work) -> At
        ensures rest { at_rest work.new result ≡ insert_from (inserting work.old) work.old.numbers.parts (Some work.old.pass.scan.table) work.old.numbers.kept (area work.old) work.old.numbers.left }
        ensures fits { AtFits work.new result }
        ensures same { inserting work.new ≡ inserting work.old }
    {
        if work.numbers.parts == 0 {
            return At::Out;
        }
        work.numbers.parts -= 1;
        let table = work.pass.table();
        work.pass.turn(table, PassMode::Look);
        At::Look
    }

    /// A part has gone on: where it has ended to start again, the next one begins.
    #[tactic(auto, using(crate::proofs::Onward::whole))]
    pub fn onward(work: &mut Work, at: At) -> At
        requires { PartFits work.old at }
        ensures rest { at_rest work.new result ≡ at_rest work.old at }
        ensures fits { AtFits work.new result }
        ensures same { inserting work.new ≡ inserting work.old }
    {
        match at {
            At::Lost => At::restart(work),
            At::Left => At::restart(work),
            _ => at,
        }
    }

    /// The Commit found this word.
    pub fn committed(work: &mut Work, found: u64) -> At
        ensures rest { at_rest work.new result ≡ after_commit (inserting work.old) work.old.numbers.block found
            (record { result = to_commit work.old.numbers.own work.old.numbers.block; table = work.old.pass.scan.table; kept = None; area = area work.old; left = work.old.numbers.left })
            (insert_from (inserting work.old) work.old.numbers.parts (Some work.old.pass.scan.table)) }
        ensures fits { AtFits work.new result }
        ensures same { inserting work.new ≡ inserting work.old }
    {
        if found == pending_word(work) {
            return At::Inserted;
        }
        if work.numbers.left <= 1 {
            return At::Again;
        }
        work.numbers.kept = None;
        work.numbers.left -= 1;
        At::restart(work)
    }

    /// The verb was answered.
    #[tactic(auto, using(crate::proofs::Onward::whole))]
    pub fn answered(work: &mut Work, at: At, word: u64) -> At
        requires fits { AtFits work.old at }
        requires waits { IsSome (next_verb (at_rest work.old at)) }
        ensures rest { at_rest work.new result ≡ after (at_rest work.old at) word }
        ensures fits { AtFits work.new result }
        ensures same { inserting work.new ≡ inserting work.old }
    {
        if at.acts() {
            let at = At::fed(work, at, word);
            return At::onward(work, at);
        }
        match at {
            At::Commit => At::committed(work, word),
            _ => at,
        }
    }

    /// The hash of the key in the parent's place is known.
    #[tactic(auto, using(crate::proofs::Onward::whole))]
    pub fn told(work: &mut Work, at: At, hash: u64) -> At
        requires fits { AtFits work.old at }
        ensures rest { IsSome (asked (at_rest work.old at)) → at_rest work.new result ≡ after (at_rest work.old at) hash }
        ensures fits { AtFits work.new result }
        ensures same { inserting work.new ≡ inserting work.old }
    {
        match at {
            At::ParentHash => {
                let at = At::hashed(work, hash);
                At::onward(work, at)
            }
            _ => at,
        }
    }
}

/// The pending word of the block.
#[tactic(auto, unfolding(crate::specs::Text::pending_word, slot_word::specs::Slots::slot_word, pass_text::specs::Words::address_of, bucket_group::specs::Buckets::fingerprint_of))]
pub fn pending_word(work: &Work) -> u64
    ensures { result ≡ pending_word (inserting work.now) work.now.numbers.block }
{
    word_of(
        fingerprint(work.job.hash),
        work.take.need(),
        1,
        work.numbers.block % (1 << 46),
    )
}

/// The live word of the block.
#[tactic(auto, unfolding(crate::specs::Text::live_word, slot_word::specs::Slots::slot_word, pass_text::specs::Words::address_of, bucket_group::specs::Buckets::fingerprint_of))]
pub fn live_word(work: &Work) -> u64
    ensures { result ≡ live_word (inserting work.now) work.now.numbers.block }
{
    word_of(
        fingerprint(work.job.hash),
        work.take.need(),
        0,
        work.numbers.block % (1 << 46),
    )
}

// The word of a fingerprint, a length, the two bits of a mark and an address.
fn word_of(print: u8, len: u8, mark: u64, at: u64) -> u64
    requires mark { mark < 4 }
    requires at { at < 2 ^ 46 }
    ensures { result ≡ print * 2 ^ 56 + len * 2 ^ 48 + mark * 2 ^ 46 + at }
{
    (u64::from(print) << 56) + (u64::from(len) << 48) + (mark << 46) + at
}

/// The verb of a part.
#[tactic(auto, using(crate::proofs::PartActs::binds, crate::proofs::PartActs::verbs))]
pub fn part_verb(work: &Work, at: At) -> Option<Verb>
    requires fits { PartFits work.now at }
    requires acts { IsTrue (acts at) }
    ensures { result ≡ next_verb (part_rest work.now at) }
{
    let depth = split_depth(work.pass.head().depth);
    match at {
        At::Look => work.pass.next(),
        At::Sweep => work.pass.next(),
        At::ParentHeader => Some(Verb::Read {
            at: header_at(work.numbers.parent),
        }),
        At::Begin => Some(Verb::Swap {
            at: bucket_header_at(work.numbers.parent, work.numbers.bucket),
            expected: plain_of(depth),
            word: splitting_of(depth),
        }),
        At::Open => Some(Verb::Swap {
            at: header_at(work.numbers.parent),
            expected: plain_of(depth),
            word: splitting_of(depth),
        }),
        At::ParentSlot => Some(Verb::Read {
            at: slot_in(work, work.numbers.parent, work.numbers.index),
        }),
        At::ParentBlock => Some(Verb::Read {
            at: work.numbers.next,
        }),
        At::Take => work.take.next(),
        At::Place => Some(Verb::Swap {
            at: work.numbers.own,
            expected: 0,
            word: pending_word(work),
        }),
        At::WithdrawHeld | At::WithdrawGone | At::WithdrawSpent => Some(Verb::Swap {
            at: work.numbers.own,
            expected: pending_word(work),
            word: 0,
        }),
        _ => None,
    }
}

/// The block of which that verb reads a word.
#[tactic(auto, using(crate::proofs::PartActs::binds, crate::proofs::PartActs::verbs))]
pub fn part_block(work: &Work, at: At) -> Option<u64>
    requires fits { PartFits work.now at }
    requires acts { IsTrue (acts at) }
    ensures { result ≡ block_of (part_rest work.now at) }
{
    match at {
        At::Look => work.pass.block(),
        At::Sweep => work.pass.block(),
        At::ParentBlock => Some(work.numbers.from),
        At::Take => work.take.block(),
        _ => None,
    }
}

/// The key whose hash a part wants.
#[tactic(auto, using(crate::proofs::PartActs::binds, crate::proofs::PartActs::verbs))]
pub fn part_asks(work: &Work, at: At) -> Option<Key>
    requires fits { PartFits work.now at }
    requires acts { IsTrue (acts at) }
    ensures { result ≡ asked (part_rest work.now at) }
{
    match at {
        At::Look => work.pass.asks(),
        At::Sweep => work.pass.asks(),
        At::Take => work.take.asks(),
        At::ParentHash => Some(block_key(work.words.words())),
        _ => None,
    }
}
