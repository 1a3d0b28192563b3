//! The machine of the first half of a split.

ghost use Rattle.std.specs.Prelude.{◌<◌, ◌^◌};
ghost use Rattle.remote_resize.specs.BeginFits.{BeginFits, BeginFits-prop};

use crate::begin_at::BeginAt;
use crate::begin_steps::node_at;
use crate::sites::{head_word_of, low_address, site_of};
use crate::starter::Starter;
use kv_block::Key;
use map_model::Nexts;
use node_words::{Geometry, birth_at, bucket_header_at, child_at, header_at, lock_at};
use slot_word::{Birth, State, birth_word};
use split_text::{BeginEnd, BeginOutcome, Site, SplitJob};
use verb_log::Verb;
use verbs::Machine;

/// The first half of a split: from the lock to the open split. `start` begins it; it then does the verb that `next` tells and takes
/// its answer by `feed`, until `next` is None.
#[derive(Clone, Copy, Debug)]
pub struct BeginOp {
    pub(crate) job: SplitJob,
    pub(crate) tries: u32,
    pub(crate) starter: Starter,
    pub(crate) at: BeginAt,
    ghost low_client: { job.client < 2 ^ 32 },
    ghost fits: { BeginFits job starter at } by { BeginFits-prop job starter at },
}

impl BeginOp {
    ghost use Rattle.std.specs.Prelude.{◌≡◌, ◌≤◌, ◌<◌, ◌^◌, ◌+◌, ◌*◌, ◌-◌, Some, IsSome, option_map, take};
    ghost use Rattle.verb_log.specs.declared.entry.Verb.TheVariants.{Swap};
    ghost use Rattle.verbs.specs.Programs.{next_act, outcome_of, Within};
    ghost use Rattle.split_text.specs.declared.begun.BeginEnd.{BeginEnd};
    ghost use Rattle.split_text.specs.Words.{site_of};
    ghost use Rattle.split_text.specs.Begin.{begin, birth_of_child};
    ghost use Rattle.split_text.specs.Bound.{begin_acts};
    ghost use Rattle.begin_laws.specs.Law.{IsSafeBegin};
    ghost use Rattle.remote_resize.specs.BeginRest.{begin_rest, left_at, lost_of};
    ghost use Rattle.remote_resize.specs.BeginFits.{HasChild};

    /// Steps 1 to 5 of the split of this table, whose depth by the last header read is `depth` and whose suffix is this, by this
    /// client; `tries_left` more swaps may be lost. It means the text of the first half. On each legal log on which the table's birth
    /// suffix is this one it is safe, whatever others add between its verbs: each entry is legal and changes nothing in the map, and
    /// it ends as Begun with an open split, or with the cause why there is none (docs/LAWS.md, "What a split shows").
    pub fn start(
        geometry: Geometry,
        client: u32,
        table: u64,
        depth: u32,
        suffix: u64,
        tries_left: u32,
    ) -> BeginOp
        requires { 1 ≤ tries_left }
        ensures rest { begin_rest result ≡ begin (record { geometry = geometry; client = client; table = table; depth = depth; suffix = suffix }) tries_left }
        ensures tries { result.tries ≡ tries_left }
        ensures job { result.job ≡ record { geometry = geometry; client = client; table = table; depth = depth; suffix = suffix } }
        ensures within { Within (begin_acts geometry tries_left) (begin_rest result) }
        ensures waits { IsSome (next_act (begin_rest result)) }
        ensures safe { IsSafeBegin (record { geometry = geometry; client = client; table = table; depth = depth; suffix = suffix }) tries_left (begin_rest result) }
    {
        BeginOp {
            job: SplitJob {
                geometry,
                client,
                table,
                depth,
                suffix,
            },
            tries: tries_left,
            starter: Starter::new(tries_left),
            at: BeginAt::Lock,
        }
    }

    /// How many counted swaps were lost.
    pub fn lost(&self) -> u32
        ensures lost { result ≡ lost_of self.now }
        ensures ended { (e : BeginEnd) → outcome_of (begin_rest self.now) ≡ Some e → result ≡ self.now.tries - e.left }
    {
        self.tries.saturating_sub(self.left())
    }

    /// What the first half answers. None exactly while it has not ended. `outcome` of `Machine` tells with it how many swaps may still
    /// be lost.
    pub fn outcome(&self) -> Option<BeginOutcome>
        ensures { result ≡ option_map (λ end. end.outcome) (outcome_of (begin_rest self.now)) }
    {
        match Machine::outcome(self) {
            Some(end) => Some(end.outcome),
            None => None,
        }
    }

    // How many swaps may still be lost.
    pub(crate) fn left(&self) -> u32
        ensures { result ≡ left_at self.now.starter self.now.at }
    {
        match self.at {
            BeginAt::Spent => 0,
            _ => self.starter.left,
        }
    }

    // The last number read of each node.
    pub(crate) fn nexts(&self) -> Nexts
        ensures { result ≡ take self.now.job.geometry.nodes self.now.starter.nexts }
    {
        let mut nexts = Nexts::one(self.starter.nexts[0]);
        for i in 1..self.job.geometry.nodes as usize {
            nexts = nexts.with(self.starter.nexts[i]);
        }
        nexts
    }

    // The split that has begun, or is about to.
    pub(crate) fn site(&self) -> Site
        requires { HasChild self.now.job self.now.starter }
        ensures value { result ≡ site_of self.now.job self.now.starter.child }
        ensures suffix { result.suffix < 2 ^ (result.depth + 1) }
        ensures low { result.table < 2 ^ 40 }
        ensures child { result.child < 2 ^ 40 }
        ensures depth { result.depth ≤ 15 }
    {
        site_of(&self.job, self.starter.child)
    }

    // The birth word of the child.
    fn birth(&self) -> u64
        requires { HasChild self.now.job self.now.starter }
        ensures { result ≡ birth_of_child (site_of self.now.job self.now.starter.child) }
    {
        let site = self.site();
        birth_word(&Birth {
            depth: site.depth + 1,
            suffix: site.suffix,
            parent: site.table,
        })
    }

    // A swap.
    fn swap(at: u64, expected: u64, word: u64) -> Option<Verb>
        ensures { result ≡ Some (Swap at expected word) }
    {
        Some(Verb::Swap { at, expected, word })
    }
}

impl Machine for BeginOp {
    ghost use Rattle.split_text.specs.declared.site.SplitJob.{SplitJob};
    ghost use Rattle.remote_resize.specs.BeginRest.{begin_rest};

    type Outcome = BeginEnd;

    ghost Kept = { SplitJob };

    ghost kept = { λ m. m.job };

    ghost rest = { begin_rest };

    fn next(&self) -> Option<Verb> {
        let table = low_address(self.job.table);
        let child = self.starter.child;
        let depth = self.job.depth;
        let owner = u64::from(self.job.client) + 1;
        match self.at {
            BeginAt::Lock => BeginOp::swap(lock_at(table), 0, owner),
            BeginAt::Header => Some(Verb::Read {
                at: header_at(table),
            }),
            BeginAt::Read => Some(Verb::Read {
                at: node_at(&self.job.geometry, self.starter.node),
            }),
            BeginAt::Take => BeginOp::swap(
                node_at(&self.job.geometry, self.starter.node),
                self.starter.next,
                self.starter.next + self.job.geometry.table_words(),
            ),
            BeginAt::UnlockChanged | BeginAt::UnlockFull | BeginAt::UnlockSpent => {
                BeginOp::swap(lock_at(table), owner, 0)
            }
            BeginAt::Birth => Some(Verb::Write {
                at: birth_at(child),
                word: self.birth(),
            }),
            BeginAt::ChildHeader => Some(Verb::Write {
                at: header_at(child),
                word: head_word_of(depth + 1, State::Filling),
            }),
            BeginAt::ChildLock => Some(Verb::Write {
                at: lock_at(child),
                word: owner,
            }),
            BeginAt::Bucket => Some(Verb::Write {
                at: bucket_header_at(child, self.starter.index),
                word: head_word_of(depth + 1, State::Filling),
            }),
            BeginAt::Link => BeginOp::swap(child_at(table, depth), 0, child),
            BeginAt::Begin => BeginOp::swap(
                bucket_header_at(table, self.starter.index),
                head_word_of(depth, State::Plain),
                head_word_of(depth, State::Splitting),
            ),
            BeginAt::Open => BeginOp::swap(
                header_at(table),
                head_word_of(depth, State::Plain),
                head_word_of(depth, State::Splitting),
            ),
            _ => None,
        }
    }

    fn block(&self) -> Option<u64> {
        None
    }

    fn feed(&mut self, word: u64) {
        self.at = BeginAt::fed(&self.job, &mut self.starter, self.at, word);
    }

    fn asks(&self) -> Option<Key> {
        None
    }

    fn told(&mut self, hash: u64) {}

    fn outcome(&self) -> Option<BeginEnd> {
        let outcome = match self.at {
            BeginAt::Begun => BeginOutcome::Begun {
                child: self.starter.child,
            },
            BeginAt::Changed => BeginOutcome::Changed,
            BeginAt::Locked => BeginOutcome::Locked,
            BeginAt::Spent => {
                return Some(BeginEnd {
                    outcome: BeginOutcome::Spent,
                    left: 0,
                });
            }
            BeginAt::FullWords => BeginOutcome::FullWords {
                next: self.nexts(),
                need: self.job.geometry.table_words(),
            },
            _ => return None,
        };
        Some(BeginEnd {
            outcome,
            left: self.starter.left,
        })
    }
}
