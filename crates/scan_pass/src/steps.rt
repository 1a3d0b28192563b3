//! The steps of a pass. Each changes what the pass remembers in place, and answers where it stands then: `rest` says that
//! what is left is what the text says there, `fits` what is known there.

ghost use Rattle.std.specs.Prelude.{◌≡◌, ◌==◌, if◌then◌else◌, ◌+◌, ◌<◌, ◌≤◌, ◌^◌, IsSome};
ghost use Rattle.slot_word.specs.Slots.{slot_of};
ghost use Rattle.verbs.specs.Programs.{next_verb, after};
ghost use Rattle.pass_text.specs.Pass.{after_lost, below, read_words, after_block, head_read, judge_once, judge_slot, first_seen, search, follow, begin, on_header};
ghost use Rattle.scan_pass.specs.BlockWords.{words_of};
ghost use Rattle.scan_pass.specs.Seen.{seen, IsRead};
ghost use Rattle.scan_pass.specs.Rest.{onward, goes_on, judges_again, at_rest};
ghost use Rattle.scan_pass.specs.AtFits.{AtFits};

use crate::at::At;
use crate::readings::{address_of, birth_in, head_in, is_filling, level_left};
use crate::scan::Scan;
use crate::task::Task;
use kv_block::has_key;
use pass_text::Opened;
use slot_word::{Head, Mark, read_slot};

impl At {
    /// From the scan's candidate on. The own slot is passed over.
    #[tactic(auto, using(crate::proofs::Onward::onwards))]
    #[inline(always)]
    pub fn scan(task: &Task, scan: &mut Scan) -> At
        ensures rest { at_rest task.now.job scan.new result ≡ onward task.now.job scan.old.index scan.old.follow (seen scan.old) }
        ensures fits { AtFits task.now.job scan.new result }
    {
        while scan.index < task.count() && task.is_own(task.candidate(scan.table, scan.index)) {
            scan.skip();
        }
        if scan.index < task.count() {
            At::Slot
        } else {
            At::KeyHeader
        }
    }

    /// The candidate's word was read, or found by a lost drop. A word of another fingerprint is passed over at once.
    #[inline(always)]
    #[tactic(auto, using(crate::proofs::Prints::prints))]
    pub fn judge(task: &Task, scan: &mut Scan, word: u64) -> At
        requires { IsRead task.now.job scan.old.index }
        ensures rest { at_rest task.now.job scan.new result
            ≡ judge_once task.now.job scan.old.index (seen scan.old) word (goes_on task.now.job scan.old) (judges_again task.now.job scan.old) }
        ensures fits { AtFits task.now.job scan.new result }
    {
        if word == 0 {
            scan.mark_free();
            return At::scan(task, scan);
        }
        if (word >> 56) as u8 != task.print {
            scan.skip();
            return At::scan(task, scan);
        }
        At::judge_slot(task, scan, word)
    }

    /// .. and it is not 0.
    pub fn judge_slot(task: &Task, scan: &mut Scan, word: u64) -> At
        requires { IsRead task.now.job scan.old.index }
        ensures rest { at_rest task.now.job scan.new result
            ≡ judge_slot task.now.job scan.old.index (seen scan.old) word (slot_of word) (goes_on task.now.job scan.old) (judges_again task.now.job scan.old) }
        ensures fits { AtFits task.now.job scan.new result }
    {
        let Some(slot) = read_slot(word) else {
            scan.skip();
            return At::scan(task, scan);
        };
        if !task.concerns(&slot) {
            scan.skip();
            At::scan(task, scan)
        } else if scan.wants(task, &slot) {
            scan.begin_block(word, &slot);
            At::block(task, scan, u64::from(slot.len))
        } else if matches!(slot.mark, Mark::Moved) {
            scan.note(word);
            At::scan(task, scan)
        } else {
            scan.skip();
            At::scan(task, scan)
        }
    }

    /// So many words of the block are left to be read.
    #[inline(always)]
    pub fn block(task: &Task, scan: &mut Scan, left: u64) -> At
        requires index { IsRead task.now.job scan.old.index }
        requires room { scan.old.block.len + left ≤ 137 }
        requires at { scan.old.next + left < 2 ^ 50 }
        ensures rest { at_rest task.now.job scan.new result
            ≡ read_words scan.old.from left scan.old.next (words_of scan.old.block)
            (λ ws. after_block task.now.job scan.old.index (seen scan.old) scan.old.word scan.old.mark ws (goes_on task.now.job scan.old) (judges_again task.now.job scan.old)) }
        ensures fits { AtFits task.now.job scan.new result }
    {
        if left > 0 {
            scan.more = left - 1;
            At::Block
        } else {
            At::after_block(task, scan)
        }
    }

    /// The block was read.
    pub fn after_block(task: &Task, scan: &mut Scan) -> At
        requires { IsRead task.now.job scan.old.index }
        ensures rest { at_rest task.now.job scan.new result
            ≡ after_block task.now.job scan.old.index (seen scan.old) scan.old.word scan.old.mark (words_of scan.old.block) (goes_on task.now.job scan.old) (judges_again task.now.job scan.old) }
        ensures fits { AtFits task.now.job scan.new result }
    {
        if has_key(scan.block.words(), &task.job.key) {
            if matches!(scan.mark, Mark::Pending) {
                At::Drop
            } else {
                At::Held
            }
        } else {
            scan.skip();
            At::scan(task, scan)
        }
    }

    /// A drop found another word.
    #[tactic(auto, using(crate::proofs::Onward::agains))]
    pub fn lost(task: &Task, scan: &mut Scan, found: u64) -> At
        requires { IsRead task.now.job scan.old.index }
        ensures rest { at_rest task.now.job scan.new result ≡ judges_again task.now.job scan.old (after_lost (seen scan.old)) found }
        ensures fits { AtFits task.now.job scan.new result }
    {
        if scan.lost + 1 >= task.left() {
            At::Spent
        } else {
            scan.lose();
            At::judge(task, scan, found)
        }
    }

    /// A drop was done, and found this word.
    pub fn dropped(task: &Task, scan: &mut Scan, found: u64) -> At
        requires { IsRead task.now.job scan.old.index }
        ensures rest { at_rest task.now.job scan.new result
            ≡ (if found == scan.old.word then goes_on task.now.job scan.old (seen scan.old) else judges_again task.now.job scan.old (after_lost (seen scan.old)) found) }
        ensures fits { AtFits task.now.job scan.new result }
    {
        if found == scan.word {
            scan.skip();
            At::scan(task, scan)
        } else {
            At::lost(task, scan, found)
        }
    }

    /// The key's header was read.
    #[tactic(auto, unfolding(pass_text::specs::Pass::head_read))]
    pub fn head(task: &Task, scan: &mut Scan, head: Head) -> At
        ensures rest { at_rest task.now.job scan.new result ≡ head_read task.now.job (follow task.now.job scan.old.follow) (seen scan.old) head }
        ensures fits { AtFits task.now.job scan.new result }
    {
        scan.see_head(head);
        match level_left(task.job.hash, scan.birth_depth, &head) {
            None => At::Clear,
            Some(level) => {
                if task.has_own(scan.table) {
                    At::Gone
                } else {
                    scan.level = level;
                    At::Child
                }
            }
        }
    }

    /// The child word was read.
    #[tactic(auto, using(crate::proofs::Onward::searches))]
    pub fn child(task: &Task, scan: &mut Scan, child: u64) -> At
        requires { scan.old.level < 16 }
        ensures rest { at_rest task.now.job scan.new result ≡ follow task.now.job scan.old.follow (below (seen scan.old) child scan.old.level) }
        ensures fits { AtFits task.now.job scan.new result }
    {
        let level = scan.level;
        if scan.follow == 0 {
            scan.enter_child(child, level);
            At::Clear
        } else {
            scan.enter_child(child, level);
            At::scan(task, scan)
        }
    }

    /// The birth depth of the table at `next`, which is to be searched first, is known.
    #[tactic(auto, using(crate::proofs::Onward::searches))]
    pub fn born(task: &Task, scan: &mut Scan, birth_depth: u32) -> At
        requires table { scan.old.next < 2 ^ 46 }
        requires birth { birth_depth ≤ 16 }
        ensures rest { at_rest task.now.job scan.new result ≡ search task.now.job task.now.job.geometry.max_depth (first_seen scan.old.opened scan.old.next birth_depth) }
        ensures fits { AtFits task.now.job scan.new result }
    {
        scan.enter_first(birth_depth, task.job.geometry.max_depth);
        At::scan(task, scan)
    }

    /// The table to be searched first is known.
    pub fn begin(task: &Task, scan: &mut Scan, table: u64) -> At
        requires { table < 2 ^ 46 }
        ensures rest { at_rest task.now.job scan.new result ≡ begin task.now.job scan.old.opened table }
        ensures fits { AtFits task.now.job scan.new result }
    {
        scan.next = table;
        if task.is_first(table) {
            At::born(task, scan, task.job.geometry.first_depth)
        } else {
            At::Birth
        }
    }

    /// The header of the table at `next` was read.
    pub fn opened(task: &Task, scan: &mut Scan, head: Head) -> At
        requires { scan.old.next < 2 ^ 46 }
        ensures rest { at_rest task.now.job scan.new result ≡ on_header task.now.job scan.old.next head }
        ensures fits { AtFits task.now.job scan.new result }
    {
        let table = scan.next;
        scan.opened = Opened { table, head };
        if is_filling(&head) {
            At::Parent
        } else {
            At::begin(task, scan, table)
        }
    }

    /// The verb was answered. What has ended stays.
    #[inline(always)]
    pub fn fed(task: &Task, scan: &mut Scan, at: At, word: u64) -> At
        requires fits { AtFits task.now.job scan.old at }
        requires waits { IsSome (next_verb (at_rest task.now.job scan.old at)) }
        ensures rest { at_rest task.now.job scan.new result ≡ after (at_rest task.now.job scan.old at) word }
        ensures fits { AtFits task.now.job scan.new result }
    {
        match at {
            At::Depth => {
                scan.next = task.directory(word);
                At::Directory
            }
            At::Directory => {
                scan.next = address_of(word);
                At::Header
            }
            At::Header => At::opened(task, scan, head_in(word)),
            At::Parent => At::begin(task, scan, birth_in(word).parent),
            At::Birth => At::born(task, scan, birth_in(word).depth),
            At::Slot => At::judge(task, scan, word),
            At::Block => {
                let more = scan.more;
                scan.block.push(word);
                scan.next += 1;
                At::block(task, scan, more)
            }
            At::Drop => At::dropped(task, scan, word),
            At::KeyHeader => At::head(task, scan, head_in(word)),
            At::Child => At::child(task, scan, word),
            At::Held => At::Held,
            At::Clear => At::Clear,
            At::Gone => At::Gone,
            At::Spent => At::Spent,
        }
    }
}
