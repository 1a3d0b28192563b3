//! What a posted look remembers, and the changes of it.

ghost use Rattle.std.specs.Prelude.{◌≡◌, ◌+◌, ◌<◌, ◌≤◌, ◌^◌, length};

use crate::outstanding::Outstanding;
use crate::readings::{address_of, moved_form};
use bucket_group::Free;
use pass_text::Opened;
use slot_word::{Head, Mark, Slot, State};

/// The search in one table, written in place.
#[derive(Clone, Copy, Debug)]
pub struct Scan {
    /// The table that the look opened with.
    pub opened: Opened,
    /// The table that is searched.
    pub table: u64,
    pub birth_depth: u32,
    /// The table that was searched before.
    pub parent: Option<u64>,
    /// The header read last.
    pub head: Head,
    /// The number of the candidate that is judged now or next.
    pub index: usize,
    /// The words of the candidates, by their numbers.
    pub slots: [u64; 28],
    /// Which candidates were read as 0.
    pub free: Free,
    /// The moved words read in this table, by the numbers of the candidates.
    pub moved: [u64; 28],
    /// The moved words read in the table before.
    pub prior: [u64; 28],
    /// How many tables may follow.
    pub follow: u32,
    /// The slot word whose block is read, or that holds the key.
    pub word: u64,
    /// The address of the block that is read, and how many words it has.
    pub from: u64,
    pub len: usize,
    /// The address of the next table.
    pub next: u64,
    /// The level of the child word.
    pub level: u32,
    ghost table_low: { table < 2 ^ 46 },
    ghost birth_low: { birth_depth ≤ 16 },
    ghost index_low: { index ≤ 28 },
    ghost len_low: { len ≤ 137 },
    ghost slots_long: { length slots ≡ 28 },
}

impl Scan {
    ghost use Rattle.std.specs.Prelude.{◌-◌, take};
    ghost use Rattle.slot_word.specs.Slots.{IsSlot};
    ghost use Rattle.pass_text.specs.Pass.{freed, noted, with_head, below, first_seen};
    ghost use Rattle.post_text.specs.Look.{takes};
    ghost use Rattle.batch_pass.specs.Seen.{seen};

    /// A scan that has read nothing, and whose next table is this one.
    pub fn new(next: u64) -> Scan
        ensures { result.next ≡ next }
    {
        let head = Head {
            depth: 0,
            state: State::Plain,
        };
        Scan {
            opened: Opened { table: 0, head },
            table: 0,
            birth_depth: 0,
            parent: None,
            head,
            index: 0,
            slots: [0; 28],
            free: Free::new(),
            moved: [0; 28],
            prior: [0; 28],
            follow: 0,
            word: 0,
            from: 0,
            len: 0,
            next,
            level: 0,
        }
    }

    /// The next candidate comes.
    pub fn skip(&mut self)
        requires { self.old.index < 28 }
        ensures seen { seen self.new ≡ seen self.old }
        ensures slots { self.new.slots ≡ self.old.slots }
        ensures follow { self.new.follow ≡ self.old.follow }
        ensures index { self.new.index ≡ self.old.index + 1 }
    {
        self.index += 1;
    }

    /// The candidate was read as 0, and the next one comes.
    pub fn mark_free(&mut self)
        requires { self.old.index < 28 }
        ensures seen { seen self.new ≡ freed (seen self.old) self.old.index }
        ensures slots { self.new.slots ≡ self.old.slots }
        ensures follow { self.new.follow ≡ self.old.follow }
        ensures index { self.new.index ≡ self.old.index + 1 }
    {
        self.free.set(self.index, true);
        self.index += 1;
    }

    /// The candidate's word is moved, and the next one comes.
    pub fn note(&mut self, word: u64)
        requires { self.old.index < 28 }
        ensures seen { seen self.new ≡ noted (seen self.old) self.old.index word }
        ensures slots { self.new.slots ≡ self.old.slots }
        ensures follow { self.new.follow ≡ self.old.follow }
        ensures index { self.new.index ≡ self.old.index + 1 }
    {
        self.moved[self.index] = word;
        self.index += 1;
    }

    /// The block of the candidate's word is to be read.
    pub fn take(&mut self, word: u64, slot: &Slot)
        requires { slot.now.len ≤ 137 }
        ensures seen { seen self.new ≡ seen self.old }
        ensures slots { self.new.slots ≡ self.old.slots }
        ensures follow { self.new.follow ≡ self.old.follow }
        ensures index { self.new.index ≡ self.old.index }
        ensures word { self.new.word ≡ word }
        ensures from { self.new.from ≡ slot.now.at }
        ensures len { self.new.len ≡ slot.now.len }
    {
        self.word = word;
        self.from = slot.at;
        self.len = usize::from(slot.len);
    }

    /// Whether the candidate's word is taken.
    pub fn takes(&self, slot: &Slot) -> bool
        requires index { self.now.index < 28 }
        requires slot { IsSlot slot.now }
        ensures { result ≡ takes (seen self.now) self.now.index slot.now slot.now.mark }
    {
        match slot.mark {
            Mark::Live => true,
            Mark::Pending => false,
            Mark::Copied => self.prior[self.index] == moved_form(slot),
            Mark::Moved => false,
        }
    }

    /// The words of all candidates are there, and are judged from the first on.
    pub fn gather(&mut self, reads: &Outstanding)
        ensures seen { seen self.new ≡ seen self.old }
        ensures slots { self.new.slots ≡ take 28 reads.now.words }
        ensures follow { self.new.follow ≡ self.old.follow }
        ensures index { self.new.index ≡ 0 }
    {
        self.slots.copy_from_slice(reads.words(28));
        self.index = 0;
    }

    /// The key's header was read.
    pub fn see_head(&mut self, head: Head)
        ensures seen { seen self.new ≡ with_head (seen self.old) head }
        ensures follow { self.new.follow ≡ self.old.follow }
        ensures birth { self.new.birth_depth ≡ self.old.birth_depth }
        ensures table { self.new.table ≡ self.old.table }
    {
        self.head = head;
    }

    /// The table at `next` is searched first.
    pub fn enter_first(&mut self, birth_depth: u32, follow: u32)
        requires table { self.old.next < 2 ^ 46 }
        requires birth { birth_depth ≤ 16 }
        ensures seen { seen self.new ≡ first_seen self.old.opened self.old.next birth_depth }
        ensures follow { self.new.follow ≡ follow }
        ensures index { self.new.index ≡ 0 }
    {
        self.table = self.next;
        self.birth_depth = birth_depth;
        self.parent = None;
        self.head = self.opened.head;
        self.index = 0;
        self.free = Free::new();
        self.moved = [0; 28];
        self.prior = [0; 28];
        self.follow = follow;
    }

    /// The table that the child word of this level names is searched next.
    pub fn enter_child(&mut self, child: u64, level: u32)
        requires level { level < 16 }
        ensures seen { seen self.new ≡ below (seen self.old) child level }
        ensures follow { self.new.follow ≡ self.old.follow - 1 }
        ensures index { self.new.index ≡ 0 }
    {
        self.parent = Some(self.table);
        self.table = address_of(child);
        self.birth_depth = level + 1;
        self.index = 0;
        self.free = Free::new();
        self.prior = self.moved;
        self.moved = [0; 28];
        self.follow = self.follow.saturating_sub(1);
    }
}
