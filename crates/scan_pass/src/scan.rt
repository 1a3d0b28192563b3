//! What a pass remembers, and the changes of it.

ghost use Rattle.std.specs.Prelude.{◌≡◌, ◌+◌, ◌<◌, ◌≤◌, ◌^◌, false, replicate};

use crate::block_words::BlockWords;
use crate::readings::{address_of, moved_form};
use crate::task::Task;
use bucket_group::Free;
use pass_text::Opened;
use slot_word::{Head, Mark, Slot, State};

/// The search in one table, written in place, and the words of the block that is being read.
#[derive(Clone, Copy, Debug)]
pub struct Scan {
    /// The table that the pass opened with.
    pub opened: Opened,
    /// The table that is searched.
    pub table: u64,
    pub birth_depth: u32,
    /// The table that was searched before.
    pub parent: Option<u64>,
    /// The header read last.
    pub head: Head,
    /// The number of the candidate that is read now or next.
    pub index: usize,
    /// Which candidates were read as 0.
    pub free: Free,
    /// Whether a moved word was read since both of the next rows were cleared.
    pub dirty: bool,
    /// The moved words read in this table, by the numbers of the candidates.
    pub moved: [u64; 28],
    /// The moved words read in the table before.
    pub prior: [u64; 28],
    /// How many drops were lost.
    pub lost: u32,
    /// How many tables may follow.
    pub follow: u32,
    /// The slot word whose block is read, that is dropped, or that holds the key, and its mark.
    pub word: u64,
    pub mark: Mark,
    /// The address of the block that is read.
    pub from: u64,
    /// The address of the next word, or of the next table.
    pub next: u64,
    /// How many words of the block come after the next one.
    pub more: u64,
    /// The level of the child word.
    pub level: u32,
    /// The block that is being read, or was read last.
    pub block: BlockWords,
    ghost clean: { dirty ≡ false → (moved ≡ replicate 28 0) × (prior ≡ replicate 28 0) },
    ghost table_low: { table < 2 ^ 46 },
    ghost birth_low: { birth_depth ≤ 16 },
    ghost index_low: { index ≤ 28 },
    ghost lost_low: { lost + 1 < 2 ^ 32 },
}

impl Scan {
    ghost use Rattle.std.specs.Prelude.{◌-◌, [], IsTrue};
    ghost use Rattle.slot_word.specs.Slots.{IsSlot};
    ghost use Rattle.pass_text.specs.Pass.{freed, noted, after_lost, with_head, below, first_seen, wants};
    ghost use Rattle.scan_pass.specs.BlockWords.{words_of};
    ghost use Rattle.scan_pass.specs.Seen.{seen};

    /// A scan that has read nothing, and whose next table is this one.
    pub fn new(next: u64) -> Scan
        ensures { result.next ≡ next }
    {
        let head = Head {
            depth: 0,
            state: State::Plain,
        };
        Scan {
            opened: Opened { table: 0, head },
            table: 0,
            birth_depth: 0,
            parent: None,
            head,
            index: 0,
            free: Free::new(),
            dirty: false,
            moved: [0; 28],
            prior: [0; 28],
            lost: 0,
            follow: 0,
            word: 0,
            mark: Mark::Live,
            from: 0,
            next,
            more: 0,
            level: 0,
            block: BlockWords::new(),
        }
    }

    /// The next candidate comes.
    #[inline(always)]
    pub fn skip(&mut self)
        requires { self.old.index < 28 }
        ensures seen { seen self.new ≡ seen self.old }
        ensures follow { self.new.follow ≡ self.old.follow }
        ensures index { self.new.index ≡ self.old.index + 1 }
    {
        self.index += 1;
    }

    /// The candidate was read as 0, and the next one comes.
    #[inline(always)]
    pub fn mark_free(&mut self)
        requires { self.old.index < 28 }
        ensures seen { seen self.new ≡ freed (seen self.old) self.old.index }
        ensures follow { self.new.follow ≡ self.old.follow }
        ensures index { self.new.index ≡ self.old.index + 1 }
    {
        self.free.set(self.index, true);
        self.index += 1;
    }

    /// The candidate's word is moved, and the next one comes.
    pub fn note(&mut self, word: u64)
        requires { self.old.index < 28 }
        ensures seen { seen self.new ≡ noted (seen self.old) self.old.index word }
        ensures follow { self.new.follow ≡ self.old.follow }
        ensures index { self.new.index ≡ self.old.index + 1 }
    {
        self.dirty = true;
        self.moved[self.index] = word;
        self.index += 1;
    }

    /// The key's header was read.
    pub fn see_head(&mut self, head: Head)
        ensures seen { seen self.new ≡ with_head (seen self.old) head }
        ensures follow { self.new.follow ≡ self.old.follow }
        ensures birth { self.new.birth_depth ≡ self.old.birth_depth }
        ensures table { self.new.table ≡ self.old.table }
    {
        self.head = head;
    }

    /// The table at `next` is searched first. The two rows are cleared where they were written.
    #[inline(never)]
    pub fn enter_first(&mut self, birth_depth: u32, follow: u32)
        requires table { self.old.next < 2 ^ 46 }
        requires birth { birth_depth ≤ 16 }
        ensures seen { seen self.new ≡ first_seen self.old.opened self.old.next birth_depth }
        ensures follow { self.new.follow ≡ follow }
        ensures index { self.new.index ≡ 0 }
    {
        self.table = self.next;
        self.birth_depth = birth_depth;
        self.parent = None;
        self.head = self.opened.head;
        self.index = 0;
        self.free = Free::new();
        if self.dirty {
            self.moved = [0; 28];
            self.prior = [0; 28];
            self.dirty = false;
        }
        self.lost = 0;
        self.follow = follow;
    }

    /// The table that the child word of this level names is searched next.
    #[inline(never)]
    pub fn enter_child(&mut self, child: u64, level: u32)
        requires level { level < 16 }
        ensures seen { seen self.new ≡ below (seen self.old) child level }
        ensures follow { self.new.follow ≡ self.old.follow - 1 }
        ensures index { self.new.index ≡ 0 }
    {
        self.parent = Some(self.table);
        self.table = address_of(child);
        self.birth_depth = level + 1;
        self.index = 0;
        self.free = Free::new();
        if self.dirty {
            self.prior = self.moved;
            self.moved = [0; 28];
        }
        self.follow = self.follow.saturating_sub(1);
    }

    /// Whether the block of the candidate's word is read.
    #[inline(always)]
    pub fn wants(&self, task: &Task, slot: &Slot) -> bool
        requires index { self.now.index < 28 }
        requires slot { IsSlot slot.now }
        ensures { result ≡ wants task.now.job (seen self.now) self.now.index slot.now slot.now.mark }
    {
        match slot.mark {
            Mark::Live => true,
            Mark::Pending => task.is_sweep(),
            Mark::Copied => self.prior[self.index] == moved_form(slot),
            Mark::Moved => false,
        }
    }

    /// One more drop was lost.
    pub fn lose(&mut self)
        requires { self.old.lost + 2 < 2 ^ 32 }
        ensures seen { seen self.new ≡ after_lost (seen self.old) }
        ensures follow { self.new.follow ≡ self.old.follow }
        ensures index { self.new.index ≡ self.old.index }
    {
        self.lost += 1;
    }

    /// The words of the block of this slot word are to be read.
    #[inline(always)]
    pub fn begin_block(&mut self, word: u64, slot: &Slot)
        ensures seen { seen self.new ≡ seen self.old }
        ensures follow { self.new.follow ≡ self.old.follow }
        ensures index { self.new.index ≡ self.old.index }
        ensures word { self.new.word ≡ word }
        ensures mark { self.new.mark ≡ slot.now.mark }
        ensures from { self.new.from ≡ slot.now.at }
        ensures next { self.new.next ≡ slot.now.at }
        ensures words { words_of self.new.block ≡ [] }
        ensures len { self.new.block.len ≡ 0 }
    {
        self.word = word;
        self.mark = slot.mark;
        self.from = slot.at;
        self.next = slot.at;
        self.block.clear();
    }
}
