//! The steps of the judging of a place. Each changes what is remembered in place, and answers where the judging stands then:
//! `rest` says that what is left is what the text says there, `fits` what is known there.

ghost use Rattle.std.specs.Prelude.{◌≡◌, ◌==◌, if◌then◌else◌, ◌+◌, ◌-◌, ◌<◌, ◌≤◌, ◌^◌, length, IsSome};
ghost use Rattle.slot_word.specs.Slots.{slot_of};
ghost use Rattle.verbs.specs.Programs.{ask, ask_hash, next_verb, after};
ghost use Rattle.kv_block.specs.Reading.{block_key};
ghost use Rattle.pass_text.specs.Pass.{read_words};
ghost use Rattle.split_text.specs.Words.{marked};
ghost use Rattle.split_text.specs.declared.moved.MoveOutcome.TheVariants.{Done};
ghost use Rattle.remote_resize.specs.declared.move_at.MoveAt.TheVariants.{Block, Copy, Flip, Drop};
ghost use Rattle.split_text.specs.Move.{left_so, stay, judge, judge_word, judge_mark, if_leaving};
ghost use Rattle.remote_resize.specs.MoveFits.{IsFull, MoveFits};
ghost use Rattle.remote_resize.specs.MoveRest.{lost, copy_lost, leaves_by, hash_told, move_rest_at};

use crate::move_at::MoveAt;
use crate::mover::{Mover, Place};
use slot_word::{Mark, Slot, pack, read_slot};

/// The word of the same block with this mark.
pub fn marked(mark: Mark, slot: &Slot) -> u64
    requires { IsFull slot.now }
    ensures { result ≡ marked mark slot.now }
{
    pack(&Slot {
        mark,
        fp: slot.fp,
        len: slot.len,
        at: slot.at,
    })
}

impl MoveAt {
    /// The word is of a key that stays, or of none.
    pub fn stay(task: &Place, mover: &mut Mover) -> MoveAt
        ensures rest { move_rest_at task.now mover.new result ≡ stay task.now.site task.now.place mover.old.left mover.old.word mover.old.standing }
        ensures fits { MoveFits mover.new result }
    {
        if mover.standing == 0 {
            MoveAt::Done
        } else {
            MoveAt::Uncopy
        }
    }

    /// The key leaves.
    pub fn leaves(task: &Place, mover: &mut Mover) -> MoveAt
        requires { IsFull mover.old.slot }
        ensures rest { move_rest_at task.now mover.new result ≡ leaves_by task.now mover.old mover.old.slot.mark }
        ensures fits { MoveFits mover.new result }
    {
        match mover.slot.mark {
            Mark::Live => MoveAt::Copy,
            Mark::Pending => {
                if mover.standing == 0 {
                    MoveAt::Drop
                } else {
                    MoveAt::UncopyFirst
                }
            }
            Mark::Copied | Mark::Moved => MoveAt::stay(task, mover),
        }
    }

    /// The hash of the block's key was told.
    pub fn hashed(task: &Place, mover: &mut Mover, hash: u64) -> MoveAt
        requires full { IsFull mover.old.slot }
        requires low { task.now.site.depth ≤ 15 }
        ensures rest { move_rest_at task.now mover.new result ≡ hash_told task.now mover.old hash }
        ensures fits { MoveFits mover.new result }
    {
        if hash % (1 << (task.site.depth + 1)) == task.site.suffix {
            MoveAt::leaves(task, mover)
        } else {
            MoveAt::stay(task, mover)
        }
    }

    /// So many words of the block are left to be read.
    pub fn block(task: &Place, mover: &mut Mover, left: u64) -> MoveAt
        requires full { IsFull mover.old.slot }
        requires room { length mover.old.words + left ≤ 137 }
        requires at { mover.old.next + left < 2 ^ 50 }
        ensures rest { move_rest_at task.now mover.new result
            ≡ read_words mover.old.slot.at left mover.old.next mover.old.words (λ ws. ask (ask_hash (block_key ws)) (hash_told task.now mover.old)) }
        ensures fits { MoveFits mover.new result }
    {
        if left > 0 {
            mover.more = left - 1;
            MoveAt::Block
        } else {
            MoveAt::Ask
        }
    }

    /// The block of this slot, which is the word's, is to be read. One of more than 137 words is passed over.
    pub fn wanted(task: &Place, mover: &mut Mover, slot: Slot) -> MoveAt
        requires full { IsFull slot }
        requires len { slot.len < 2 ^ 8 }
        ensures rest { move_rest_at task.now mover.new result
            ≡ if_leaving task.now.site slot (leaves_by task.now (record mover.old { slot = slot }) slot.mark) (stay task.now.site task.now.place mover.old.left mover.old.word mover.old.standing) }
        ensures fits { MoveFits mover.new result }
    {
        if slot.len > 137 {
            return MoveAt::stay(task, mover);
        }
        mover.slot = slot;
        mover.next = slot.at;
        mover.words.clear();
        MoveAt::block(task, mover, u64::from(slot.len))
    }

    /// The word that packs this slot is judged.
    pub fn judge_slot(task: &Place, mover: &mut Mover, slot: Slot) -> MoveAt
        requires full { IsFull slot }
        requires len { slot.len < 2 ^ 8 }
        ensures rest { move_rest_at task.now mover.new result
            ≡ judge_mark task.now.site task.now.place mover.old.left mover.old.word mover.old.standing slot slot.mark (copy_lost task.now mover.old mover.old.word) (lost task.now mover.old) }
        ensures fits { MoveFits mover.new result }
    {
        match slot.mark {
            Mark::Live | Mark::Pending => MoveAt::wanted(task, mover, slot),
            Mark::Copied | Mark::Moved => MoveAt::stay(task, mover),
        }
    }

    /// The word is judged.
    pub fn judge(task: &Place, mover: &mut Mover, word: u64) -> MoveAt
        ensures rest { move_rest_at task.now mover.new result
            ≡ judge_word task.now.site task.now.place mover.old.left word mover.old.standing (copy_lost task.now mover.old word) (lost task.now mover.old) }
        ensures fits { MoveFits mover.new result }
    {
        mover.word = word;
        match read_slot(word) {
            Some(slot) => MoveAt::judge_slot(task, mover, slot),
            None => MoveAt::stay(task, mover),
        }
    }

    /// A swap of the table found this word, beside a copy that stands.
    #[tactic(auto, using(crate::proofs::Moves::losts))]
    pub fn lost(task: &Place, mover: &mut Mover, found: u64, standing: u64) -> MoveAt
        ensures rest { move_rest_at task.now mover.new result ≡ lost task.now mover.old found standing }
        ensures fits { MoveFits mover.new result }
    {
        mover.standing = standing;
        if mover.left <= 1 {
            mover.word = found;
            return MoveAt::Spent;
        }
        mover.left -= 1;
        mover.again = false;
        MoveAt::judge(task, mover, found)
    }

    /// The place of the table was read.
    #[tactic(auto, using(crate::proofs::Moves::judges))]
    pub fn read(task: &Place, mover: &mut Mover, word: u64) -> MoveAt
        requires { 1 ≤ mover.old.left }
        ensures rest { move_rest_at task.now mover.new result ≡ judge task.now.site task.now.place (mover.old.left - 1) word mover.old.standing }
        ensures fits { MoveFits mover.new result }
    {
        mover.again = false;
        MoveAt::judge(task, mover, word)
    }

    /// It was read again.
    pub fn reread(task: &Place, mover: &mut Mover, word: u64) -> MoveAt
        ensures rest { move_rest_at task.now mover.new result
            ≡ judge_word task.now.site task.now.place mover.old.left word 0 (left_so Done word 0 mover.old.left) (lost task.now mover.old) }
        ensures fits { MoveFits mover.new result }
    {
        mover.again = true;
        mover.standing = 0;
        MoveAt::judge(task, mover, word)
    }

    /// A word of the block was read.
    pub fn pushed(task: &Place, mover: &mut Mover, word: u64) -> MoveAt
        requires { MoveFits mover.old Block }
        ensures rest { move_rest_at task.now mover.new result ≡ after (move_rest_at task.now mover.old Block) word }
        ensures fits { MoveFits mover.new result }
    {
        mover.words.push(word);
        mover.next += 1;
        let more = mover.more;
        MoveAt::block(task, mover, more)
    }

    /// The swap of the place of the child found this word.
    pub fn copied(task: &Place, mover: &mut Mover, found: u64) -> MoveAt
        requires { IsFull mover.old.slot }
        ensures rest { move_rest_at task.now mover.new result ≡ after (move_rest_at task.now mover.old Copy) found }
        ensures fits { MoveFits mover.new result }
    {
        if found == mover.standing {
            MoveAt::Flip
        } else if mover.again {
            MoveAt::Done
        } else {
            MoveAt::Reread
        }
    }

    /// The Flip found this word.
    pub fn flipped(task: &Place, mover: &mut Mover, found: u64) -> MoveAt
        requires { IsFull mover.old.slot }
        ensures rest { move_rest_at task.now mover.new result ≡ after (move_rest_at task.now mover.old Flip) found }
        ensures fits { MoveFits mover.new result }
    {
        if found == mover.word {
            return MoveAt::Settle;
        }
        let copy = marked(Mark::Copied, &mover.slot);
        MoveAt::lost(task, mover, found, copy)
    }

    /// The Drop found this word.
    pub fn dropped(task: &Place, mover: &mut Mover, found: u64) -> MoveAt
        ensures rest { move_rest_at task.now mover.new result ≡ after (move_rest_at task.now mover.old Drop) found }
        ensures fits { MoveFits mover.new result }
    {
        if found == mover.word {
            MoveAt::Done
        } else {
            MoveAt::lost(task, mover, found, 0)
        }
    }

    /// The verb was answered. What has ended stays.
    pub fn fed(task: &Place, mover: &mut Mover, at: MoveAt, word: u64) -> MoveAt
        requires fits { MoveFits mover.old at }
        requires waits { IsSome (next_verb (move_rest_at task.now mover.old at)) }
        ensures rest { move_rest_at task.now mover.new result ≡ after (move_rest_at task.now mover.old at) word }
        ensures fits { MoveFits mover.new result }
    {
        match at {
            MoveAt::Read => MoveAt::read(task, mover, word),
            MoveAt::Block => MoveAt::pushed(task, mover, word),
            MoveAt::Ask => MoveAt::Ask,
            MoveAt::Uncopy => MoveAt::Done,
            MoveAt::UncopyFirst => MoveAt::Drop,
            MoveAt::Drop => MoveAt::dropped(task, mover, word),
            MoveAt::Copy => MoveAt::copied(task, mover, word),
            MoveAt::Reread => MoveAt::reread(task, mover, word),
            MoveAt::Flip => MoveAt::flipped(task, mover, word),
            MoveAt::Settle => MoveAt::Moved,
            MoveAt::Done => MoveAt::Done,
            MoveAt::Moved => MoveAt::Moved,
            MoveAt::Spent => MoveAt::Spent,
        }
    }
}
