//! The steps of a posted look. Each changes what the look remembers in place, posts the next reads, and answers where it stands
//! then: `rest` says that what is left is what the text says there, `fits`, `some` and `wait` what is known there.

ghost use Rattle.std.specs.Prelude.{◌≡◌, ◌+◌, ◌<◌, ◌≤◌, ◌^◌, Bool, false, true, length, take, slice_index};
ghost use Rattle.post_text.specs.Posts.{post, post_one, range};
ghost use Rattle.post_text.specs.Look.{after_block, judge, judge_all, scan as scans, head_read, last, follow, search, begin, on_header, at_table, posted_look};
ghost use Rattle.pass_text.specs.Words.{directory_word, address_of};
ghost use Rattle.pass_text.specs.Pass.{below, first_seen};
ghost use Rattle.batch_pass.specs.declared.at.At.TheVariants.{Slots};
ghost use Rattle.batch_pass.specs.Seen.{seen, IsRead};
ghost use Rattle.batch_pass.specs.Rest.{onward, goes_on, judged, posted_at, block_at, then_at, rest_at};
ghost use Rattle.batch_pass.specs.AtFits.{StateFits, SomeWait, Waits};

use crate::at::At;
use crate::outstanding::Outstanding;
use crate::readings::{address_of, birth_in, head_in, is_filling, level_left};
use crate::scan::Scan;
use crate::task::Task;
use kv_block::has_key;
use pass_text::Opened;
use slot_word::{Head, Mark, read_slot};

impl Scan {
    /// Judges the candidate's word: whether it is taken, so that the words of its block are to be posted. If not, the next
    /// candidate comes.
    pub fn judge(&mut self, task: &Task) -> bool
        requires { IsRead task.now.job self.old.index }
        ensures rest { judged task.now.job self.new result ≡ judge task.now.job self.old.index (seen self.old) (slice_index self.old.slots self.old.index) (goes_on task.now.job self.old) }
        ensures index { result ≡ false → self.new.index ≡ self.old.index + 1 }
        ensures same { result ≡ true → self.new.index ≡ self.old.index }
        ensures words { result ≡ true → 1 ≤ self.new.len }
        ensures from { result ≡ true → self.new.from < 2 ^ 46 }
    {
        let word = self.slots[self.index];
        if word == 0 {
            self.mark_free();
            return false;
        }
        let Some(slot) = read_slot(word) else {
            self.skip();
            return false;
        };
        if !task.concerns(&slot) {
            self.skip();
            return false;
        }
        if self.takes(&slot) {
            if slot.len == 0 {
                self.skip();
                return false;
            }
            self.take(word, &slot);
            return true;
        }
        if matches!(slot.mark, Mark::Moved) {
            self.note(word);
        } else {
            self.skip();
        }
        false
    }
}

impl At {
    /// So many reads are posted, those of this place.
    #[tactic(auto, using(crate::proofs::Places::places))]
    pub fn post(task: &Task, scan: &Scan, reads: &mut Outstanding, at: At, count: usize) -> At
        requires some { 1 ≤ count }
        requires few { count ≤ 137 }
        requires long { length (posted_at task.now.job scan.now at) ≡ count }
        ensures at { result ≡ at }
        ensures rest { rest_at task.now.job scan.now reads.new at ≡ post (block_at scan.now at) (posted_at task.now.job scan.now at) (then_at task.now.job scan.now at reads.new.words) }
        ensures some { SomeWait at reads.new }
        ensures wait { Waits task.now.job scan.now reads.new at }
    {
        reads.open(count);
        at
    }

    /// The candidates from the scan's on are judged, until one is taken, whose block's words are posted together, or none is
    /// left.
    #[tactic(auto, using(crate::proofs::Onward::onwards, crate::proofs::Places::blocks))]
    pub fn judge(task: &Task, scan: &mut Scan, reads: &mut Outstanding) -> At
        ensures rest { rest_at task.now.job scan.new reads.new result ≡ onward task.now.job scan.old.slots scan.old.index scan.old.follow (seen scan.old) }
        ensures fits { StateFits task.now.job scan.new result }
        ensures some { SomeWait result reads.new }
        ensures wait { Waits task.now.job scan.new reads.new result }
    {
        while scan.index < task.count() {
            if scan.judge(task) {
                return At::post(task, scan, reads, At::Block, scan.len);
            }
        }
        At::post(task, scan, reads, At::KeyHeader, 1)
    }

    /// The words of the block are there.
    #[tactic(auto, using(crate::proofs::Places::ended))]
    pub fn after_block(task: &Task, scan: &mut Scan, reads: &mut Outstanding) -> At
        requires index { IsRead task.now.job scan.old.index }
        requires done { reads.old.left ≡ 0 }
        ensures rest { rest_at task.now.job scan.new reads.new result ≡ after_block task.now.job scan.old.index (seen scan.old) scan.old.word (take scan.old.len reads.old.words) (goes_on task.now.job scan.old) }
        ensures fits { StateFits task.now.job scan.new result }
        ensures some { SomeWait result reads.new }
        ensures wait { Waits task.now.job scan.new reads.new result }
    {
        if has_key(reads.words(scan.len), &task.job.key) {
            At::Held
        } else {
            scan.skip();
            At::judge(task, scan, reads)
        }
    }

    /// The key's header was read.
    #[tactic(auto, unfolding(post_text::specs::Look::head_read), using(crate::proofs::Places::ended))]
    pub fn head(task: &Task, scan: &mut Scan, reads: &mut Outstanding, head: Head) -> At
        requires { reads.old.left ≡ 0 }
        ensures rest { rest_at task.now.job scan.new reads.new result ≡ head_read task.now.job (follow task.now.job scan.old.follow) (seen scan.old) head }
        ensures fits { StateFits task.now.job scan.new result }
        ensures some { SomeWait result reads.new }
        ensures wait { Waits task.now.job scan.new reads.new result }
    {
        scan.see_head(head);
        match level_left(task.job.hash, scan.birth_depth, &head) {
            None => At::Clear,
            Some(level) => {
                scan.level = level;
                At::post(task, scan, reads, At::Child, 1)
            }
        }
    }

    /// The candidates of the table are posted together.
    #[tactic(auto, using(crate::proofs::Places::slots))]
    pub fn slots(task: &Task, scan: &Scan, reads: &mut Outstanding) -> At
        ensures rest { rest_at task.now.job scan.now reads.new result ≡ scans task.now.job (seen scan.now) (last task.now.job (follow task.now.job scan.now.follow)) }
        ensures fits { StateFits task.now.job scan.now result }
        ensures some { SomeWait result reads.new }
        ensures wait { Waits task.now.job scan.now reads.new result }
    {
        At::post(task, scan, reads, At::Slots, task.count())
    }

    /// The child word was read.
    #[tactic(auto, using(crate::proofs::Places::ended, crate::proofs::Onward::searches))]
    pub fn child(task: &Task, scan: &mut Scan, reads: &mut Outstanding, child: u64) -> At
        requires level { scan.old.level < 16 }
        requires done { reads.old.left ≡ 0 }
        ensures rest { rest_at task.now.job scan.new reads.new result ≡ follow task.now.job scan.old.follow (below (seen scan.old) child scan.old.level) }
        ensures fits { StateFits task.now.job scan.new result }
        ensures some { SomeWait result reads.new }
        ensures wait { Waits task.now.job scan.new reads.new result }
    {
        let level = scan.level;
        if scan.follow == 0 {
            scan.enter_child(child, level);
            At::Clear
        } else {
            scan.enter_child(child, level);
            At::slots(task, scan, reads)
        }
    }

    /// The birth depth of the table at `next`, which is to be searched first, is known.
    #[tactic(auto, using(crate::proofs::Onward::searches))]
    pub fn born(task: &Task, scan: &mut Scan, reads: &mut Outstanding, birth_depth: u32) -> At
        requires table { scan.old.next < 2 ^ 46 }
        requires birth { birth_depth ≤ 16 }
        ensures rest { rest_at task.now.job scan.new reads.new result ≡ search task.now.job task.now.job.geometry.max_depth (first_seen scan.old.opened scan.old.next birth_depth) }
        ensures fits { StateFits task.now.job scan.new result }
        ensures some { SomeWait result reads.new }
        ensures wait { Waits task.now.job scan.new reads.new result }
    {
        scan.enter_first(birth_depth, task.job.geometry.max_depth);
        At::slots(task, scan, reads)
    }

    /// The table to be searched first is known.
    pub fn begin(task: &Task, scan: &mut Scan, reads: &mut Outstanding, table: u64) -> At
        requires { table < 2 ^ 46 }
        ensures rest { rest_at task.now.job scan.new reads.new result ≡ begin task.now.job scan.old.opened table }
        ensures fits { StateFits task.now.job scan.new result }
        ensures some { SomeWait result reads.new }
        ensures wait { Waits task.now.job scan.new reads.new result }
    {
        scan.next = table;
        if task.is_first(table) {
            At::born(task, scan, reads, task.job.geometry.first_depth)
        } else {
            At::post(task, scan, reads, At::Birth, 1)
        }
    }

    /// The header of the table at `next` was read.
    pub fn opened(task: &Task, scan: &mut Scan, reads: &mut Outstanding, head: Head) -> At
        requires { scan.old.next < 2 ^ 46 }
        ensures rest { rest_at task.now.job scan.new reads.new result ≡ on_header task.now.job scan.old.next head }
        ensures fits { StateFits task.now.job scan.new result }
        ensures some { SomeWait result reads.new }
        ensures wait { Waits task.now.job scan.new reads.new result }
    {
        let table = scan.next;
        scan.opened = Opened { table, head };
        if is_filling(&head) {
            At::post(task, scan, reads, At::Parent, 1)
        } else {
            At::begin(task, scan, reads, table)
        }
    }

    /// The table at which the look begins is known: its header is to be read.
    pub fn table(task: &Task, scan: &mut Scan, reads: &mut Outstanding, table: u64) -> At
        requires { table < 2 ^ 46 }
        ensures rest { rest_at task.now.job scan.new reads.new result ≡ at_table task.now.job table }
        ensures fits { StateFits task.now.job scan.new result }
        ensures some { SomeWait result reads.new }
        ensures wait { Waits task.now.job scan.new reads.new result }
    {
        scan.next = table;
        At::post(task, scan, reads, At::Header, 1)
    }

    /// The directory word of the hash at this global depth is to be read.
    pub fn directory(task: &Task, scan: &mut Scan, reads: &mut Outstanding, depth: u64) -> At
        ensures rest { rest_at task.now.job scan.new reads.new result ≡ post_one (directory_word task.now.job depth) (λ table. at_table task.now.job (address_of table)) }
        ensures fits { StateFits task.now.job scan.new result }
        ensures some { SomeWait result reads.new }
        ensures wait { Waits task.now.job scan.new reads.new result }
    {
        scan.next = task.directory(depth);
        At::post(task, scan, reads, At::Directory, 1)
    }

    /// The look begins at the table that the cache names, or at the directory where it names none.
    pub fn first(task: &Task, scan: &mut Scan, reads: &mut Outstanding, entry: Option<u64>) -> At
        ensures rest { rest_at task.now.job scan.new reads.new result ≡ posted_look task.now.job entry }
        ensures fits { StateFits task.now.job scan.new result }
        ensures some { SomeWait result reads.new }
        ensures wait { Waits task.now.job scan.new reads.new result }
    {
        match entry {
            Some(table) => At::table(task, scan, reads, address_of(table)),
            None => At::post(task, scan, reads, At::Depth, 1),
        }
    }

    /// All candidates of the table are there.
    #[tactic(auto, using(crate::proofs::Onward::gathers))]
    pub fn gathered(task: &Task, scan: &mut Scan, reads: &mut Outstanding) -> At
        ensures rest { rest_at task.now.job scan.new reads.new result ≡ then_at task.now.job scan.old Slots reads.old.words (take (length (posted_at task.now.job scan.old Slots)) reads.old.words) }
        ensures fits { StateFits task.now.job scan.new result }
        ensures some { SomeWait result reads.new }
        ensures wait { Waits task.now.job scan.new reads.new result }
    {
        scan.gather(reads);
        At::judge(task, scan, reads)
    }

    /// The words of all reads that were posted last are there. What has ended stays.
    #[tactic(auto, using(crate::proofs::Places::ended, crate::proofs::Places::blocks))]
    pub fn arrived(task: &Task, scan: &mut Scan, reads: &mut Outstanding, at: At) -> At
        requires fits { StateFits task.now.job scan.old at }
        requires done { reads.old.left ≡ 0 }
        ensures rest { rest_at task.now.job scan.new reads.new result ≡ then_at task.now.job scan.old at reads.old.words (take (length (posted_at task.now.job scan.old at)) reads.old.words) }
        ensures fits { StateFits task.now.job scan.new result }
        ensures some { SomeWait result reads.new }
        ensures wait { Waits task.now.job scan.new reads.new result }
    {
        match at {
            At::Depth => At::directory(task, scan, reads, reads.word()),
            At::Directory => At::table(task, scan, reads, address_of(reads.word())),
            At::Header => At::opened(task, scan, reads, head_in(reads.word())),
            At::Parent => At::begin(task, scan, reads, birth_in(reads.word()).parent),
            At::Birth => At::born(task, scan, reads, birth_in(reads.word()).depth),
            At::Slots => At::gathered(task, scan, reads),
            At::Block => At::after_block(task, scan, reads),
            At::KeyHeader => At::head(task, scan, reads, head_in(reads.word())),
            At::Child => At::child(task, scan, reads, reads.word()),
            At::Held => At::Held,
            At::Clear => At::Clear,
        }
    }
}
