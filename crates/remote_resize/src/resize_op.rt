//! The machine of a whole split.

ghost use Rattle.std.specs.Prelude.{◌≡◌, IsTrue};
ghost use Rattle.verbs.specs.Programs.{bind, outcome_of};
ghost use Rattle.split_text.specs.Text.{after_begin};
ghost use Rattle.remote_resize.specs.BeginRest.{begin_rest};
ghost use Rattle.remote_resize.specs.ResizeFits.{ResizeFits, ResizeFits-prop, has_failed};

use crate::begin_at::BeginAt;
use crate::begin_op::BeginOp;
use crate::move_op::MoveOp;
use crate::resize_at::ResizeAt;
use crate::resize_steps::place_of;
use crate::sites::{cut, head_word_of};
use crate::work::Work;
use directory::NameOp;
use kv_block::Key;
use node_words::{Geometry, bucket_header_at, header_at, lock_at};
use slot_word::{Birth, State};
use split_text::{ResizeEnd, ResizeOutcome, Site, Ticket};
use verb_log::Verb;
use verbs::Machine;

/// The split of a table. `start` begins it, `go_on` goes on with a ticket; it then does the verb that `next` tells and takes its answer
/// by `feed`, or asks for a hash by `asks` and takes it by `told`, until there is neither.
#[derive(Debug, Drop)]
pub struct ResizeOp {
    pub(crate) work: Work,
    pub(crate) tries: u32,
    pub(crate) at: ResizeAt,
    ghost fits: { ResizeFits work at } by { ResizeFits-prop work at },
}

impl ResizeOp {
    ghost use Rattle.std.specs.Prelude.{◌≡◌, ◌≤◌, ◌<◌, ◌^◌, ◌-◌, Some, IsSome, option_map};
    ghost use Rattle.split_text.specs.Text.{resize, resume};
    ghost use Rattle.split_text.specs.Bound.{resize_acts};
    ghost use Rattle.split_text.specs.declared.resized.ResizeEnd.{ResizeEnd};
    ghost use Rattle.verbs.specs.Programs.{Within, next_act, outcome_of};
    ghost use Rattle.split_laws.specs.Law.{IsSafeSplit, IsSafeResume};
    ghost use Rattle.remote_resize.specs.ResizeOpRest.{resize_rest, lost_of};

    /// The split of this table, whose depth by the last header read is `depth` and whose suffix is this, by this client; `tries_left`
    /// more swaps may be lost. It means the text of the split. On each legal log on which the table's birth suffix is this one it is
    /// safe, whatever others add between its verbs (docs/LAWS.md, "What a split shows").
    pub fn start(
        geometry: Geometry,
        client: u32,
        table: u64,
        depth: u32,
        suffix: u64,
        tries_left: u32,
    ) -> ResizeOp
        requires { 1 ≤ tries_left }
        ensures rest { resize_rest result ≡ resize (record { geometry = geometry; client = client; table = table; depth = depth; suffix = suffix }) tries_left }
        ensures within { Within (resize_acts geometry tries_left) (resize_rest result) }
        ensures waits { IsSome (next_act (resize_rest result)) }
        ensures tries { result.tries ≡ tries_left }
        ensures safe { IsSafeSplit (record { geometry = geometry; client = client; table = table; depth = depth; suffix = suffix }) tries_left (resize_rest result) }
    {
        let begin = BeginOp::start(geometry, client, table, depth, suffix, tries_left);
        let site = cut(&Site {
            table,
            depth,
            child: 0,
            suffix,
        });
        ResizeOp {
            work: Work {
                geometry,
                client,
                site,
                begin,
                mover: MoveOp::judging(site, 0, 0, tries_left),
                name: NameOp::start(
                    geometry,
                    0,
                    Birth {
                        depth: 0,
                        suffix: 0,
                        parent: 0,
                    },
                ),
                left: tries_left,
                slot: 0,
                more: 0,
                word: 0,
                index: 0,
                after: 0,
            },
            tries: tries_left,
            at: ResizeAt::Beginning,
        }
    }

    /// Going on with a ticket; `tries_left` more swaps may be lost. It means the text of a split that is gone on with: its first act is
    /// the one that would have come next. On each legal log on which the ticket fits it is safe, whatever others add between its verbs.
    pub fn go_on(ticket: Ticket, tries_left: u32) -> ResizeOp
        requires { 1 ≤ tries_left }
        ensures rest { resize_rest result ≡ resume ticket tries_left }
        ensures within { Within (resize_acts ticket.geometry tries_left) (resize_rest result) }
        ensures tries { result.tries ≡ tries_left }
        ensures safe { IsSafeResume ticket tries_left (resize_rest result) }
    {
        let site = cut(&ticket.site);
        let slot = u64::from(ticket.slot);
        let slots = 21 * u64::from(ticket.geometry.groups);
        let mut work = Work {
            geometry: ticket.geometry,
            client: ticket.client,
            site,
            begin: BeginOp::start(ticket.geometry, ticket.client, 0, 0, 0, tries_left),
            mover: MoveOp::resumed(site, place_of(slot), ticket.word, ticket.copy, tries_left),
            name: NameOp::start(
                ticket.geometry,
                0,
                Birth {
                    depth: 0,
                    suffix: 0,
                    parent: 0,
                },
            ),
            left: tries_left,
            slot,
            more: slots.saturating_sub(slot + 1),
            word: 0,
            index: 0,
            after: 0,
        };
        let at = ResizeAt::moved(&mut work);
        ResizeOp {
            work,
            tries: tries_left,
            at,
        }
    }

    /// How many counted swaps were lost.
    #[tactic(auto, using(crate::proofs::Parts::binds))]
    pub fn lost(&self) -> u32
        ensures lost { result ≡ lost_of self.now }
        ensures ended { (e : ResizeEnd) → outcome_of (resize_rest self.now) ≡ Some e → result ≡ self.now.tries - e.left }
    {
        let left = match self.at {
            ResizeAt::Beginning | ResizeAt::NotBegun => self.work.begin.left(),
            ResizeAt::Moving => self.work.mover.left(),
            ResizeAt::HeldUp => 0,
            _ => self.work.left,
        };
        self.tries.saturating_sub(left)
    }

    /// What the split answers. None exactly while it has not ended. `outcome` of `Machine` tells with it how many swaps may still be
    /// lost.
    pub fn outcome(&self) -> Option<ResizeOutcome>
        ensures { result ≡ option_map (λ end. end.outcome) (outcome_of (resize_rest self.now)) }
    {
        match Machine::outcome(self) {
            Some(end) => Some(end.outcome),
            None => None,
        }
    }
}

impl Machine for ResizeOp {
    ghost use Rattle.split_text.specs.declared.site.SplitJob.{SplitJob};
    ghost use Rattle.remote_resize.specs.ResizeOpRest.{resize_rest};

    type Outcome = ResizeEnd;

    ghost Kept = { SplitJob };

    ghost kept = { λ m. m.work.begin.job };

    ghost rest = { resize_rest };

    #[tactic(auto, using(crate::proofs::Parts::binds))]
    fn next(&self) -> Option<Verb> {
        let site = self.work.site;
        let owner = u64::from(self.work.client) + 1;
        match self.at {
            ResizeAt::Beginning => self.work.begin.next(),
            ResizeAt::Moving => self.work.mover.next(),
            ResizeAt::Naming => self.work.name.next(),
            ResizeAt::Clear => Some(Verb::Swap {
                at: site.table + 20 + place_of(self.work.slot),
                expected: self.work.word,
                word: 0,
            }),
            ResizeAt::Finish => Some(Verb::Swap {
                at: header_at(site.table),
                expected: head_word_of(site.depth, State::Splitting),
                word: head_word_of(site.depth + 1, State::Plain),
            }),
            ResizeAt::Close => Some(Verb::Swap {
                at: bucket_header_at(site.table, self.work.index),
                expected: head_word_of(site.depth, State::Splitting),
                word: head_word_of(site.depth + 1, State::Plain),
            }),
            ResizeAt::RipenBucket => Some(Verb::Swap {
                at: bucket_header_at(site.child, self.work.index),
                expected: head_word_of(site.depth + 1, State::Filling),
                word: head_word_of(site.depth + 1, State::Plain),
            }),
            ResizeAt::Ripen => Some(Verb::Swap {
                at: header_at(site.child),
                expected: head_word_of(site.depth + 1, State::Filling),
                word: head_word_of(site.depth + 1, State::Plain),
            }),
            ResizeAt::UnlockTable => Some(Verb::Swap {
                at: lock_at(site.table),
                expected: owner,
                word: 0,
            }),
            ResizeAt::UnlockChild => Some(Verb::Swap {
                at: lock_at(site.child),
                expected: owner,
                word: 0,
            }),
            ResizeAt::NotBegun | ResizeAt::Split | ResizeAt::HeldUp => None,
        }
    }

    #[tactic(auto, using(crate::proofs::Parts::binds))]
    fn block(&self) -> Option<u64> {
        match self.at {
            ResizeAt::Moving => self.work.mover.block(),
            ResizeAt::Beginning => self.work.begin.block(),
            ResizeAt::Naming => self.work.name.block(),
            _ => None,
        }
    }

    fn feed(&mut self, word: u64) {
        self.at = ResizeAt::fed(&mut self.work, self.at, word);
    }

    #[tactic(auto, using(crate::proofs::Parts::binds))]
    fn asks(&self) -> Option<Key> {
        match self.at {
            ResizeAt::Moving => self.work.mover.asks(),
            ResizeAt::Beginning => self.work.begin.asks(),
            ResizeAt::Naming => self.work.name.asks(),
            _ => None,
        }
    }

    fn told(&mut self, hash: u64) {
        if matches!(self.at, ResizeAt::Moving) && self.work.mover.asks().is_some() {
            self.at = ResizeAt::move_told(&mut self.work, hash);
        }
    }

    #[tactic(auto, using(crate::proofs::Parts::binds))]
    fn outcome(&self) -> Option<ResizeEnd> {
        match self.at {
            ResizeAt::NotBegun => not_begun(&self.work.begin),
            ResizeAt::Split => Some(ResizeEnd {
                outcome: ResizeOutcome::Split {
                    table: self.work.site.table,
                    depth: self.work.site.depth + 1,
                },
                left: self.work.left,
            }),
            ResizeAt::HeldUp => Some(ResizeEnd {
                outcome: ResizeOutcome::Again {
                    ticket: Some(Ticket {
                        geometry: self.work.geometry,
                        client: self.work.client,
                        site: self.work.site,
                        slot: self.work.slot as u32,
                        word: self.work.mover.mover.word,
                        copy: self.work.mover.mover.standing,
                    }),
                },
                left: 0,
            }),
            _ => None,
        }
    }
}

// How a split ends that has not begun.
fn not_begun(begin: &BeginOp) -> Option<ResizeEnd>
    requires { IsTrue (has_failed begin.now.at) }
    ensures { result ≡ outcome_of (bind (begin_rest begin.now) (λ e. after_begin begin.now.job e.left e.outcome)) }
{
    let left = begin.starter.left;
    match begin.at {
        BeginAt::Changed => Some(ResizeEnd {
            outcome: ResizeOutcome::Changed,
            left,
        }),
        BeginAt::Locked => Some(ResizeEnd {
            outcome: ResizeOutcome::Locked,
            left,
        }),
        BeginAt::FullWords => Some(ResizeEnd {
            outcome: ResizeOutcome::FullWords {
                next: begin.nexts(),
                need: begin.job.geometry.table_words(),
            },
            left,
        }),
        BeginAt::Spent => Some(ResizeEnd {
            outcome: ResizeOutcome::Again { ticket: None },
            left: 0,
        }),
        _ => None,
    }
}
