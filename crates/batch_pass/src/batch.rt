//! The machine, how it has ended, and its readers.

ghost use Rattle.batch_pass.specs.AtFits.{StateFits, StateFits-prop, SomeWait, SomeWait-prop, Waits};

use crate::at::At;
use crate::outstanding::Outstanding;
use crate::scan::Scan;
use crate::task::Task;
use kv_block::{Key, block_value};
use node_words::{Geometry, birth_at, child_at, header_at};
use pass_text::{Held, Job, PassEnd, PassMode, Passed};
use slot_word::Head;
use verb_log::Verb;

/// A posted look down the chain of one key. `start` begins one. While `passed` is None some of its reads are outstanding; they
/// keep their order of posting, `post` tells one of them, and `complete` takes its word, in any order.
#[derive(Clone, Copy, Debug)]
pub struct BatchPass {
    pub(crate) task: Task,
    pub(crate) scan: Scan,
    pub(crate) reads: Outstanding,
    pub(crate) at: At,
    ghost fits: { StateFits task.job scan at } by { StateFits-prop task.job scan at },
    ghost some: { SomeWait at reads } by { SomeWait-prop at reads },
    ghost wait: { Waits task.job scan reads at },
}

impl BatchPass {
    ghost use Rattle.std.specs.Prelude.{◌≡◌, ◌≤◌, ◌<◌, ◌↔◌, length, slice_get, Some, IsNone};
    ghost use Rattle.pass_text.specs.declared.job.PassMode.TheVariants.{Look};
    ghost use Rattle.pass_text.specs.Bound.{most_verbs};
    ghost use Rattle.pass_text.specs.Pass.{passed, opened_at};
    ghost use Rattle.post_text.specs.Posts.{outstanding, completed, end_of, verb_at};
    ghost use Rattle.post_text.specs.Look.{posted_look};
    ghost use Rattle.post_text.specs.Bound.{FewOf, EndsWithin};
    ghost use Rattle.post_laws.specs.Law.{IsSafeLook};
    ghost use Rattle.batch_pass.specs.Seen.{seen};
    ghost use Rattle.batch_pass.specs.Rest.{posted_at};
    ghost use Rattle.batch_pass.specs.BatchRest.{batch_rest};

    /// A posted look for the key with this hash, from the table that the cache names, or from the directory where it names none.
    /// It means the text of the posted look, and ends within P verbs, whatever words it is given and in whatever order; at most
    /// 137 of its reads are outstanding. On each legal log on which it may begin it is safe, whatever others add between the
    /// completions: it adds no entry, the blocks that it reads are published, and what it tells in the end was so at positions
    /// of the look (docs/LAWS.md, "What a posted look shows").
    #[tactic(auto, using(post_text::proofs::Counts::counts, post_laws::proofs::Whole::looks))]
    pub fn start(geometry: Geometry, entry: Option<u64>, key: &Key, hash: u64) -> BatchPass
        ensures rest { batch_rest result ≡ posted_look (record { geometry = geometry; key = key.now; hash = hash; mode = Look }) entry }
        ensures few { FewOf 137 (batch_rest result) }
        ensures within { EndsWithin (most_verbs geometry.max_depth) (batch_rest result) }
        ensures safe { IsSafeLook (record { geometry = geometry; key = key.now; hash = hash; mode = Look }) entry (batch_rest result) }
    {
        BatchPass::of(
            Job {
                geometry,
                key: *key,
                hash,
                mode: PassMode::Look,
            },
            entry,
        )
    }

    // The posted look of a job.
    fn of(job: Job, entry: Option<u64>) -> BatchPass
        ensures { batch_rest result ≡ posted_look job entry }
    {
        let task = Task::of(job);
        let mut scan = Scan::new(0);
        let mut reads = Outstanding::new();
        let at = At::first(&task, &mut scan, &mut reads, entry);
        BatchPass {
            task,
            scan,
            reads,
            at,
        }
    }

    /// How many reads are outstanding.
    #[tactic(auto, using(crate::proofs::Counted::counted))]
    pub fn outstanding(&self) -> u32
        ensures count { result ≡ length (outstanding (batch_rest self.now)) }
        ensures few { result ≤ 137 }
    {
        self.reads.left
    }

    /// The outstanding read of this number, in the order of posting.
    #[tactic(auto, using(crate::proofs::Counted::verbs))]
    pub fn post(&self, i: u32) -> Verb
        requires { i < length (outstanding (batch_rest self.now)) }
        ensures { verb_at (outstanding (batch_rest self.now)) i ≡ Some result }
    {
        let place = self.reads.place(i);
        Verb::Read {
            at: self.address(place),
        }
    }

    /// The outstanding read of this number, in the order of posting, has this word.
    pub fn complete(&mut self, i: u32, word: u64)
        requires { i < length (outstanding (batch_rest self.old)) }
        ensures { batch_rest self.new ≡ completed (batch_rest self.old) i word }
    {
        self.reads.fill(i, word);
        if self.reads.left == 0 {
            self.at = At::arrived(&self.task, &mut self.scan, &mut self.reads, self.at);
        }
    }

    /// How the look has ended. None exactly while some read is outstanding.
    #[tactic(auto, using(crate::proofs::Places::ended, crate::proofs::Counted::counted))]
    pub fn passed(&self) -> Option<Passed>
        ensures end { result ≡ end_of (batch_rest self.now) }
        ensures none { IsNone result ↔ (1 ≤ length (outstanding (batch_rest self.now))) }
    {
        match self.at {
            At::Held => Some(self.ended(PassEnd::Held(Held {
                at: self.task.candidate(self.scan.table, self.scan.index),
                word: self.scan.word,
                value: block_value(self.reads.words(self.scan.len)),
            }))),
            At::Clear => Some(self.ended(PassEnd::Clear)),
            _ => None,
        }
    }

    // What the look tells that has ended so.
    fn ended(&self, end: PassEnd) -> Passed
        ensures { result ≡ passed self.now.task.job (seen self.now.scan) end }
    {
        Passed {
            end,
            table: self.scan.table,
            head: self.scan.head,
            opened: self.opened(),
            parent: self.scan.parent,
            free: self.scan.free,
            places: self.task.places,
            lost: 0,
        }
    }

    // The header of the last table that was read before any candidates.
    fn opened(&self) -> Option<Head>
        ensures { result ≡ opened_at self.now.scan.opened self.now.scan.table }
    {
        if self.scan.opened.table == self.scan.table {
            Some(self.scan.opened.head)
        } else {
            None
        }
    }

    // The address of the read at this place, among those that were posted last.
    #[tactic(auto, using(crate::proofs::Counted::addresses))]
    fn address(&self, place: usize) -> u64
        requires { place < length (posted_at self.now.task.job self.now.scan self.now.at) }
        ensures { slice_get (posted_at self.now.task.job self.now.scan self.now.at) place ≡ Some result }
    {
        match self.at {
            At::Depth => 1,
            At::Directory => self.scan.next,
            At::Header => header_at(self.scan.next),
            At::Parent => birth_at(self.scan.opened.table),
            At::Birth => birth_at(self.scan.next),
            At::Slots => self.task.candidate(self.scan.table, place),
            At::Block => self.scan.from + place as u64,
            At::KeyHeader => self.task.key_header(self.scan.table),
            At::Child => child_at(self.scan.table, self.scan.level),
            At::Held | At::Clear => unreachable!(),
        }
    }
}
