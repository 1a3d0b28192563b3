//! What a posted look looks for, and what follows from it for tables and words.
#![tactic(auto, unfolding(pass_text::specs::Words::directory_word, pass_text::specs::Words::is_first, pass_text::specs::Words::candidate_at, pass_text::specs::Words::key_header_at, pass_text::specs::Words::concerns))]

ghost use Rattle.std.specs.Prelude.{◌≡◌, ◌≤◌, take, length};
ghost use Rattle.bucket_group.specs.Buckets.{candidates, fingerprint_of};

use bucket_group::{Places, fingerprint, places};
use pass_text::Job;
use slot_word::Slot;

/// What a look was started with, and the candidates and the fingerprint of its key, worked out once.
#[derive(Clone, Copy, Debug)]
pub struct Task {
    pub job: Job,
    pub places: Places,
    // The places in a row.
    pub row: [u32; 28],
    pub print: u8,
    ghost printed: { print ≡ fingerprint_of job.hash },
    ghost in_row: { take (length places) row ≡ places },
    ghost placed: { places ≡ candidates job.geometry.groups job.hash },
}

impl Task {
    ghost use Rattle.std.specs.Prelude.{◌<◌, ◌^◌, IsTrue};
    ghost use Rattle.pass_text.specs.Words.{candidate_at, key_header_at, is_first, directory_word, concerns};

    /// The task of a job.
    pub fn of(job: Job) -> Task
        ensures { result.job ≡ job }
    {
        let places = places(&job.geometry, job.hash);
        let row = places.row();
        Task {
            job,
            places,
            row,
            print: fingerprint(job.hash),
        }
    }

    /// How many candidates a key has.
    pub fn count(&self) -> usize
        ensures value { result ≡ length (candidates self.now.job.geometry.groups self.now.job.hash) }
        ensures some { 1 ≤ result }
        ensures few { result ≤ 28 }
    {
        self.places.len()
    }

    /// The address of candidate `i` in a table.
    #[tactic(auto, using(crate::proofs::Rows::rows))]
    pub fn candidate(&self, table: u64, i: usize) -> u64
        requires table { table < 2 ^ 46 }
        requires i { i < length (candidates self.now.job.geometry.groups self.now.job.hash) }
        ensures { result ≡ candidate_at self.now.job table i }
    {
        table + 20 + u64::from(self.row[i])
    }

    /// The address of the key's header in a table: it stands before the first candidate.
    #[tactic(auto, using(crate::proofs::Rows::headers))]
    pub fn key_header(&self, table: u64) -> u64
        requires table { table < 2 ^ 46 }
        ensures { result ≡ key_header_at self.now.job table }
    {
        table + 20 + u64::from(self.row[0]) - 1
    }

    /// Whether it is a first table, by its address.
    pub fn is_first(&self, table: u64) -> bool
        ensures { result ≡ is_first self.now.job table }
    {
        table < self.job.geometry.first_free()
    }

    /// The address of the key's directory word at this global depth.
    pub fn directory(&self, depth: u64) -> u64
        ensures { result ≡ directory_word self.now.job depth }
    {
        let depth = depth.min(u64::from(self.job.geometry.max_depth));
        2 + self.job.hash % (1 << depth)
    }

    /// Whether the slot word has the key's fingerprint, and its block no more words than a block may have.
    pub fn concerns(&self, slot: &Slot) -> bool
        ensures value { result ≡ concerns self.now.job slot.now }
        ensures few { IsTrue result → slot.now.len ≤ 137 }
    {
        slot.fp == self.print && slot.len <= 137
    }
}
