//! What a pass looks for, and what follows from it for tables and words.
#![tactic(auto, unfolding(pass_text::specs::Words::directory_word, pass_text::specs::Words::is_first, pass_text::specs::Words::candidate_at, pass_text::specs::Words::key_header_at, pass_text::specs::Words::count, pass_text::specs::Words::is_own, pass_text::specs::Words::has_own, pass_text::specs::Words::concerns))]

ghost use Rattle.std.specs.Prelude.{◌≡◌, ◌≤◌, take, length};
ghost use Rattle.bucket_group.specs.Buckets.{candidates, fingerprint_of};
ghost use Rattle.pass_text.specs.Words.{count};

use bucket_group::{Places, fingerprint, places};
use kv_block::Key;
use node_words::Geometry;
use pass_text::{Job, PassMode};
use slot_word::Slot;

/// What a pass was started with, and the candidates and the fingerprint of its key, worked out once.
#[derive(Clone, Copy, Debug)]
pub struct Task {
    pub job: Job,
    pub places: Places,
    // The places in a row.
    pub row: [u32; 28],
    // How many candidates are read in a table: a walk reads none.
    pub reads: usize,
    pub print: u8,
    ghost printed: { print ≡ fingerprint_of job.hash },
    ghost in_row: { take (length places) row ≡ places },
    ghost few: { reads ≤ 28 },
    ghost counted: { reads ≡ count job },
    ghost placed: { places ≡ candidates job.geometry.groups job.hash },
}

impl Task {
    ghost use Rattle.std.specs.Prelude.{◌<◌, ◌^◌, IsTrue};
    ghost use Rattle.pass_text.specs.Words.{candidate_at, key_header_at, is_first, directory_word, is_own, has_own, is_sweep, left_in, concerns};

    /// The task of a job.
    pub fn of(job: Job) -> Task
        ensures { result.job ≡ job }
    {
        let places = places(&job.geometry, job.hash);
        let reads = match job.mode {
            PassMode::Walk => 0,
            _ => places.len(),
        };
        let row = places.row();
        Task {
            job,
            places,
            row,
            reads,
            print: fingerprint(job.hash),
        }
    }

    /// Another key is looked for from now on, in the same memory.
    pub fn seek(&mut self, geometry: Geometry, key: &Key, hash: u64, mode: PassMode)
        ensures { self.new.job ≡ record { geometry = geometry; key = key.now; hash = hash; mode = mode } }
    {
        let places = places(&geometry, hash);
        self.job.geometry = geometry;
        self.job.key = *key;
        self.job.hash = hash;
        self.job.mode = mode;
        self.places = places;
        self.row = places.row();
        self.reads = match mode {
            PassMode::Walk => 0,
            _ => places.len(),
        };
        self.print = fingerprint(hash);
    }

    /// The same key is looked for in another mode from now on.
    pub fn turn(&mut self, mode: PassMode)
        ensures { self.new.job ≡ record self.old.job { mode = mode } }
    {
        self.job.mode = mode;
        self.reads = match mode {
            PassMode::Walk => 0,
            _ => self.places.len(),
        };
    }

    /// How many candidates are read in a table.
    pub fn count(&self) -> usize
        ensures value { result ≡ count self.now.job }
        ensures few { result ≤ 28 }
    {
        self.reads
    }

    /// The address of candidate `i` in a table.
    #[inline(always)]
    #[tactic(auto, using(crate::proofs::Rows::rows))]
    pub fn candidate(&self, table: u64, i: usize) -> u64
        requires table { table < 2 ^ 46 }
        requires i { i < count self.now.job }
        ensures { result ≡ candidate_at self.now.job table i }
    {
        table + 20 + u64::from(self.row[i])
    }

    /// The address of the key's header in a table: it stands before the first candidate.
    #[inline(always)]
    #[tactic(auto, using(crate::proofs::Rows::headers))]
    pub fn key_header(&self, table: u64) -> u64
        requires table { table < 2 ^ 46 }
        ensures { result ≡ key_header_at self.now.job table }
    {
        table + 20 + u64::from(self.row[0]) - 1
    }

    /// Whether it is a first table, by its address.
    pub fn is_first(&self, table: u64) -> bool
        ensures { result ≡ is_first self.now.job table }
    {
        table < self.job.geometry.first_free()
    }

    /// The address of the key's directory word at this global depth.
    pub fn directory(&self, depth: u64) -> u64
        ensures { result ≡ directory_word self.now.job depth }
    {
        let depth = depth.min(u64::from(self.job.geometry.max_depth));
        2 + self.job.hash % (1 << depth)
    }

    /// Whether the call's own pending word is in the slot at this address.
    pub fn is_own(&self, at: u64) -> bool
        ensures { result ≡ is_own self.now.job at }
    {
        match self.job.mode {
            PassMode::Sweep { own, .. } => at == own,
            _ => false,
        }
    }

    /// Whether this table has that slot.
    pub fn has_own(&self, table: u64) -> bool
        requires { table < 2 ^ 46 }
        ensures { result ≡ has_own self.now.job table }
    {
        match self.job.mode {
            PassMode::Sweep { own, .. } => table <= own
                && own < table + self.job.geometry.table_words(),
            _ => false,
        }
    }

    /// Whether the pass is a sweep.
    pub fn is_sweep(&self) -> bool
        ensures { result ≡ is_sweep self.now.job.mode }
    {
        matches!(self.job.mode, PassMode::Sweep { .. })
    }

    /// How many swaps may be lost.
    pub fn left(&self) -> u32
        ensures { result ≡ left_in self.now.job.mode }
    {
        match self.job.mode {
            PassMode::Sweep { left, .. } => left,
            _ => 0,
        }
    }

    /// Whether the slot word has the key's fingerprint, and its block no more words than a block may have.
    pub fn concerns(&self, slot: &Slot) -> bool
        ensures value { result ≡ concerns self.now.job slot.now }
        ensures few { IsTrue result → slot.now.len ≤ 137 }
    {
        slot.fp == self.print && slot.len <= 137
    }
}
