//! The steps of a part of an insert. Each changes the work in place, and answers where the insert stands then: `rest` says
//! that what is left of the part is what the text says there, `fits` what is known there, and `same` what stays.

ghost use Rattle.std.specs.Prelude.{◌≡◌, ◌==◌, if◌then◌else◌, ◌+◌, ◌-◌, ◌*◌, ◌%◌, ◌<◌, ◌≤◌, ◌^◌, length, IsSome, IsTrue, Some};
ghost use Rattle.bucket_group.specs.Buckets.{candidates};
ghost use Rattle.slot_word.specs.Slots.{slot_of};
ghost use Rattle.verbs.specs.Programs.{bind, next_act, next_verb, after};
ghost use Rattle.pass_text.specs.Words.{head_in};
ghost use Rattle.pass_text.specs.Pass.{pass, read_words};
ghost use Rattle.scan_pass.specs.Ends.{held_of, is_held};
ghost use Rattle.scan_pass.specs.Rest.{pass_rest};
ghost use Rattle.block_taking.specs.Rest.{take_rest};
ghost use Rattle.op_insert.specs.Looking.{IsClear};
ghost use Rattle.work_area.specs.ParentWords.{words_of};
ghost use Rattle.op_insert.specs.Text.{places_of, slot_in, choice_of, after_look, after_sweep, after_taking, after_loss, sweep_of, choose, choose_among, on_parent_word, is_plain_at, help_from};
ghost use Rattle.op_insert.specs.Rest.{inserting, area, clear_of, good, choices, not_free, chooses, on_hash, after_words, split_depth, part_rest, Same, acts};
ghost use Rattle.op_insert.specs.AtFits.{AsksParent, HasChosen, PartFits};

use crate::at::At;
use crate::readings::{is_plain_at, low_bits, split_depth};
use bucket_group::{choose, places};
use node_words::slot_at;
use scan_pass::PassMode;
use slot_word::{State, read_slot};
use verbs::Machine;
use work_area::Work;

/// The slot of candidate `index` in a table.
#[tactic(auto, unfolding(crate::specs::Text::slot_in))]
pub fn slot_in(work: &Work, table: u64, index: usize) -> u64
    requires table { table < 2 ^ 46 }
    requires index { index < length (places_of (inserting work.now)) }
    ensures { result ≡ slot_in (inserting work.now) table index }
{
    let places = places(&work.job.geometry, work.job.hash);
    slot_at(table, places.get(index))
}

impl At {
    /// The look has been fed, or begins.
    #[tactic(auto, using(scan_pass::specs::Ends::waits, crate::proofs::Looks::looks))]
    pub fn looking(work: &mut Work) -> At
        ensures rest { part_rest work.new result ≡ bind (pass_rest work.old.pass) (after_look (inserting work.old) work.old.numbers.kept (area work.old) work.old.numbers.left) }
        ensures fits { PartFits work.new result }
        ensures same { Same work.old work.new }
    {
        if !work.pass.has_ended() {
            At::Look
        } else if work.pass.is_held() {
            At::Exists
        } else if work.pass.is_gone() || work.pass.is_spent() {
            At::Again
        } else {
            At::choosing(work)
        }
    }

    /// The look was clear: the choice among the free candidates.
    pub fn choosing(work: &mut Work) -> At
        requires { IsClear work.old.pass.at }
        ensures rest { part_rest work.new result ≡ choose (inserting work.old) (clear_of work.old.pass) work.old.numbers.kept (area work.old) work.old.numbers.left }
        ensures fits { PartFits work.new result }
        ensures same { Same work.old work.new }
    {
        let places = places(&work.job.geometry, work.job.hash);
        match choose(&places, work.pass.free()) {
            None => At::NeedRoom,
            Some(index) => At::among(work, index),
        }
    }

    /// The first choice. The parent of a table that fills is asked.
    #[tactic(auto, unfolding(pass_text::specs::Words::address_of))]
    pub fn among(work: &mut Work, index: usize) -> At
        requires clear { IsClear work.old.pass.at }
        requires index { index < length (places_of (inserting work.old)) }
        ensures rest { part_rest work.new result ≡ choose_among (inserting work.old) (clear_of work.old.pass) (Some index) work.old.numbers.kept (area work.old) work.old.numbers.left }
        ensures fits { PartFits work.new result }
        ensures same { Same work.old work.new }
    {
        work.numbers.index = index;
        if !matches!(work.pass.head().state, State::Filling) {
            return At::good(work);
        }
        match work.pass.parent() {
            None => At::good(work),
            Some(parent) => {
                work.numbers.parent = parent % (1 << 46);
                At::ParentHeader
            }
        }
    }

    /// The chosen candidate is to be taken, with a block.
    pub fn good(work: &mut Work) -> At
        requires { work.old.numbers.index < length (places_of (inserting work.old)) }
        ensures rest { part_rest work.new result ≡ good work.old }
        ensures fits { PartFits work.new result }
        ensures same { Same work.old work.new }
    {
        work.numbers.own = slot_in(work, work.pass.table(), work.numbers.index);
        match work.numbers.kept {
            Some(block) => {
                work.numbers.block = block;
                At::Place
            }
            None => {
                work.take.restart(work.numbers.left);
                At::Take
            }
        }
    }

    /// The taking has been fed.
    #[tactic(auto, using(block_taking::specs::Ends::waits, crate::proofs::Looks::takings))]
    pub fn taking(work: &mut Work) -> At
        ensures rest { part_rest work.new result ≡ bind (take_rest work.old.take) (after_taking (inserting work.old) work.old.pass.scan.table work.old.numbers.own) }
        ensures fits { PartFits work.new result }
        ensures same { Same work.old work.new }
    {
        if !work.take.has_ended() {
            return At::Take;
        }
        work.numbers.kept = None;
        if work.take.is_taken() {
            work.numbers.left = work.take.left();
            work.numbers.block = work.take.taken_at();
            At::Place
        } else if work.take.is_full() {
            work.numbers.left = work.take.left();
            At::NoBlock
        } else {
            At::Again
        }
    }

    /// A counted swap was lost.
    pub fn lost(work: &mut Work) -> At
        ensures rest { part_rest work.new result ≡ after_loss work.old.pass.scan.table work.old.numbers.kept (area work.old) work.old.numbers.left }
        ensures fits { PartFits work.new result }
        ensures same { Same work.old work.new }
    {
        if work.numbers.left <= 1 {
            return At::Again;
        }
        work.numbers.left -= 1;
        At::Lost
    }

    /// The Place found this word.
    #[tactic(auto, using(crate::proofs::Looks::turns))]
    pub fn placed(work: &mut Work, found: u64) -> At
        ensures rest { part_rest work.new result ≡ (if found == 0
            then bind (pass (sweep_of (inserting work.old) work.old.numbers.own work.old.numbers.left) (Some work.old.pass.scan.table)) (after_sweep (inserting work.old) work.old.numbers.own work.old.numbers.block (area work.old) work.old.numbers.left)
            else after_loss work.old.pass.scan.table (Some work.old.numbers.block) (area work.old) work.old.numbers.left) }
        ensures fits { PartFits work.new result }
        ensures same { Same work.old work.new }
    {
        if found != 0 {
            work.numbers.kept = Some(work.numbers.block);
            return At::lost(work);
        }
        let table = work.pass.table();
        let mode = PassMode::Sweep {
            own: work.numbers.own,
            left: work.numbers.left,
        };
        work.pass.turn(table, mode);
        At::Sweep
    }

    /// The sweep has been fed.
    #[tactic(auto, using(scan_pass::specs::Ends::waits, crate::proofs::Looks::sweeps))]
    pub fn sweeping(work: &mut Work) -> At
        ensures rest { part_rest work.new result ≡ bind (pass_rest work.old.pass) (after_sweep (inserting work.old) work.old.numbers.own work.old.numbers.block (area work.old) work.old.numbers.left) }
        ensures fits { PartFits work.new result }
        ensures same { Same work.old work.new }
    {
        if !work.pass.has_ended() {
            return At::Sweep;
        }
        if work.pass.is_spent() {
            return At::WithdrawSpent;
        }
        work.numbers.left = work.numbers.left.saturating_sub(work.pass.lost());
        if work.pass.is_held() {
            At::WithdrawHeld
        } else if work.pass.is_gone() {
            At::WithdrawGone
        } else {
            At::Commit
        }
    }

    /// So many bucket headers of the parent are to be swapped, from number `bucket` on.
    #[tactic(auto, using(crate::proofs::Choices::chooses))]
    pub fn begins(work: &mut Work, left: u32) -> At
        requires asks { AsksParent work.old }
        requires left { work.old.numbers.bucket + left ≡ 2 * work.old.job.geometry.groups }
        ensures rest { part_rest work.new result ≡ help_from work.old.numbers.parent (split_depth work.old) (chooses work.old) left work.old.numbers.bucket }
        ensures fits { PartFits work.new result }
        ensures same { Same work.old work.new }
    {
        if left == 0 {
            return At::Open;
        }
        work.numbers.after = u64::from(left) - 1;
        At::Begin
    }

    /// The parent's header was read.
    pub fn header_read(work: &mut Work, word: u64) -> At
        requires { AsksParent work.old }
        ensures rest { part_rest work.new result ≡ (if is_plain_at (split_depth work.old) (head_in word)
            then help_from work.old.numbers.parent (split_depth work.old) (chooses work.old) (2 * work.old.job.geometry.groups) 0 else chooses work.old) }
        ensures fits { PartFits work.new result }
        ensures same { Same work.old work.new }
    {
        if !is_plain_at(split_depth(work.pass.head().depth), word) {
            return At::first_choice(work);
        }
        work.numbers.bucket = 0;
        At::begins(work, 2 * work.job.geometry.groups)
    }

    /// The first choice in a table that fills.
    pub fn first_choice(work: &mut Work) -> At
        requires { AsksParent work.old }
        ensures rest { part_rest work.new result ≡ chooses work.old }
        ensures fits { PartFits work.new result }
        ensures same { Same work.old work.new }
    {
        work.numbers.free = *work.pass.free();
        work.numbers.more = 28;
        At::choice(work)
    }

    /// A choice among those that are left, in a table that fills.
    #[tactic(auto, using(crate::proofs::Choices::chooses))]
    pub fn choice(work: &mut Work) -> At
        requires { AsksParent work.old }
        ensures rest { part_rest work.new result ≡ choices work.old work.old.numbers.more work.old.numbers.free }
        ensures fits { PartFits work.new result }
        ensures same { Same work.old work.new }
    {
        if work.numbers.more == 0 {
            return At::NeedRoom;
        }
        let places = places(&work.job.geometry, work.job.hash);
        match choose(&places, &work.numbers.free) {
            None => At::NeedRoom,
            Some(index) => At::chosen(work, index),
        }
    }

    /// A candidate of a table that fills was chosen.
    #[tactic(auto, using(crate::proofs::Choices::chooses))]
    pub fn chosen(work: &mut Work, index: usize) -> At
        requires asks { AsksParent work.old }
        requires more { 1 ≤ work.old.numbers.more }
        requires index { index < length (places_of (inserting work.old)) }
        requires choice { choice_of (inserting work.old) work.old.numbers.free ≡ Some index }
        ensures rest { part_rest work.new result ≡ choices work.old work.old.numbers.more work.old.numbers.free }
        ensures fits { PartFits work.new result }
        ensures same { Same work.old work.new }
    {
        work.numbers.index = index;
        work.numbers.more -= 1;
        At::ParentSlot
    }

    /// The same place of the parent was read.
    pub fn parent_read(work: &mut Work, word: u64) -> At
        requires { HasChosen work.old }
        ensures rest { part_rest work.new result ≡ on_parent_word (inserting work.old) work.old.pass.scan.head.depth (not_free work.old) (good work.old) word }
        ensures fits { PartFits work.new result }
        ensures same { Same work.old work.new }
    {
        if word == 0 {
            return At::good(work);
        }
        let Some(slot) = read_slot(word) else {
            return At::good(work);
        };
        if slot.len > 137 {
            return At::good(work);
        }
        work.numbers.from = slot.at;
        work.numbers.next = slot.at;
        work.words.clear();
        At::reading(work, u64::from(slot.len))
    }

    /// So many words of the block in the parent's place are left to be read.
    pub fn reading(work: &mut Work, left: u64) -> At
        requires chosen { HasChosen work.old }
        requires room { work.old.words.len + left ≤ 137 }
        requires at { work.old.numbers.next + left < 2 ^ 50 }
        ensures rest { part_rest work.new result ≡ read_words work.old.numbers.from left work.old.numbers.next (words_of work.old.words) (after_words work.old) }
        ensures fits { PartFits work.new result }
        ensures same { Same work.old work.new }
    {
        if left == 0 {
            return At::ParentHash;
        }
        work.numbers.after = left - 1;
        At::ParentBlock
    }

    /// The hash of the key in the parent's place is known.
    pub fn hashed(work: &mut Work, other: u64) -> At
        requires { HasChosen work.old }
        ensures rest { part_rest work.new result ≡ on_hash work.old other }
        ensures fits { PartFits work.new result }
        ensures same { Same work.old work.new }
    {
        let depth = work.pass.head().depth;
        if low_bits(other, depth) != low_bits(work.job.hash, depth) {
            return At::good(work);
        }
        work.numbers.free.set(work.numbers.index, false);
        At::choice(work)
    }

    /// The verb of a part was answered.
    #[tactic(auto, using(crate::proofs::PartActs::binds))]
    pub fn fed(work: &mut Work, at: At, word: u64) -> At
        requires fits { PartFits work.old at }
        requires acts { IsTrue (acts at) }
        requires waits { IsSome (next_verb (part_rest work.old at)) }
        ensures rest { part_rest work.new result ≡ after (part_rest work.old at) word }
        ensures fits { PartFits work.new result }
        ensures same { Same work.old work.new }
    {
        match at {
            At::Look => {
                work.pass.feed(word);
                At::looking(work)
            }
            At::ParentHeader => At::header_read(work, word),
            At::Begin => {
                work.numbers.bucket += 1;
                At::begins(work, work.numbers.after as u32)
            }
            At::Open => At::first_choice(work),
            At::ParentSlot => At::parent_read(work, word),
            At::ParentBlock => {
                let after = work.numbers.after;
                work.words.push(word);
                work.numbers.next += 1;
                At::reading(work, after)
            }
            At::Take => {
                work.take.feed(word);
                At::taking(work)
            }
            At::Place => At::placed(work, word),
            At::Sweep => {
                work.pass.feed(word);
                At::sweeping(work)
            }
            At::WithdrawHeld => {
                work.numbers.kept = None;
                At::Exists
            }
            At::WithdrawGone => {
                work.numbers.kept = None;
                At::Left
            }
            At::WithdrawSpent => {
                work.numbers.kept = None;
                At::Again
            }
            _ => at,
        }
    }
}
