//! The machine of one place.

ghost use Rattle.std.specs.Prelude.{◌≤◌, ◌<◌, ◌^◌};
ghost use Rattle.remote_resize.specs.MoveFits.{MoveFits, MoveFits-prop};

use crate::move_at::MoveAt;
use crate::move_steps::marked;
use crate::mover::{Mover, Place};
use crate::sites::{birth_site, cut};
use kv_block::{Key, block_key};
use node_words::Geometry;
use slot_word::{Birth, Mark};
use split_text::{MoveEnd, MoveOutcome, Site};
use verb_log::Verb;
use verbs::Machine;

/// The judging of one place of a table under split, up to Settle. `start` begins it; it then does the verb that `next` tells and
/// takes its answer by `feed`, or asks for a hash by `asks` and takes it by `told`, until there is neither.
#[derive(Debug, Drop)]
pub struct MoveOp {
    pub(crate) place: Place,
    pub(crate) tries: u32,
    pub(crate) mover: Mover,
    pub(crate) at: MoveAt,
    ghost low_table: { place.site.table < 2 ^ 40 },
    ghost low_child: { place.site.child < 2 ^ 40 },
    ghost low_depth: { place.site.depth ≤ 15 },
    ghost low_place: { place.place < 2 ^ 33 },
    ghost fits: { MoveFits mover at } by { MoveFits-prop mover at },
}

impl MoveOp {
    ghost use Rattle.std.specs.Prelude.{◌≡◌, ◌≤◌, ◌<◌, ◌^◌, ◌-◌, suc, Some, IsSome, option_map};
    ghost use Rattle.node_words.specs.Addresses.{slot_at};
    ghost use Rattle.verbs.specs.Programs.{next_act, outcome_of, Within};
    ghost use Rattle.split_text.specs.declared.moved.MoveEnd.{MoveEnd};
    ghost use Rattle.split_text.specs.Words.{cut};
    ghost use Rattle.split_text.specs.Move.{judge, move};
    ghost use Rattle.split_text.specs.Bound.{judge_acts};
    ghost use Rattle.move_laws.specs.Law.{IsSafeMove};
    ghost use Rattle.remote_resize.specs.MoveRest.{birth_site, move_rest, left_at, lost_of};

    /// Judges the place of the table that this birth names as its child's parent, beside the copy word that the split left in the
    /// child there, 0 where it left none; `tries_left` more swaps may be lost. It means the text of the move. On each legal log on
    /// which the split is open and the place is not moved it is safe, whatever others add between its verbs: each entry is legal
    /// and changes nothing in the map, and it ends as Done, with the place clear; as Moved, with the copy settled; or as Spent,
    /// with the word that is still to be judged (docs/LAWS.md, "What a split shows"). It needs nothing of the geometry: the birth
    /// and the place say where the words lie.
    pub fn start(
        _geometry: Geometry,
        child: u64,
        birth: Birth,
        place: u32,
        standing: u64,
        tries_left: u32,
    ) -> MoveOp
        requires { 1 ≤ tries_left }
        ensures rest { move_rest result ≡ move (cut (birth_site child birth)) place standing tries_left }
        ensures tries { result.tries ≡ tries_left }
        ensures within { Within (suc (judge_acts tries_left)) (move_rest result) }
        ensures waits { IsSome (next_act (move_rest result)) }
        ensures safe { IsSafeMove (cut (birth_site child birth)) place standing tries_left (move_rest result) }
    {
        let site = cut(&birth_site(child, &birth));
        MoveOp::judging(site, u64::from(place), standing, tries_left)
    }

    // The judging of this place, of numbers that fit their words.
    pub(crate) fn judging(site: Site, place: u64, standing: u64, tries_left: u32) -> MoveOp
        requires low_place { place < 2 ^ 33 }
        requires low_table { site.table < 2 ^ 40 }
        requires low_child { site.child < 2 ^ 40 }
        requires low_depth { site.depth ≤ 15 }
        ensures rest { move_rest result ≡ move site place standing tries_left }
        ensures tries { result.tries ≡ tries_left }
        ensures place { result.place ≡ record { site = site; place = place } }
    {
        MoveOp {
            place: Place { site, place },
            tries: tries_left,
            mover: Mover::new(standing, tries_left.max(1)),
            at: MoveAt::Read,
        }
    }

    // Going on with a word of this place that was read or found.
    pub(crate) fn resumed(
        site: Site,
        place: u64,
        word: u64,
        standing: u64,
        tries_left: u32,
    ) -> MoveOp
        requires low_place { place < 2 ^ 33 }
        requires low_table { site.table < 2 ^ 40 }
        requires low_child { site.child < 2 ^ 40 }
        requires low_depth { site.depth ≤ 15 }
        ensures rest { move_rest result ≡ judge site place (tries_left - 1) word standing }
        ensures place { result.place ≡ record { site = site; place = place } }
    {
        let task = Place { site, place };
        let mut mover = Mover::new(standing, tries_left.max(1));
        let at = MoveAt::read(&task, &mut mover, word);
        MoveOp {
            place: task,
            tries: tries_left,
            mover,
            at,
        }
    }

    /// How many counted swaps were lost.
    pub fn lost(&self) -> u32
        ensures lost { result ≡ lost_of self.now }
        ensures ended { (e : MoveEnd) → outcome_of (move_rest self.now) ≡ Some e → result ≡ self.now.tries - e.left }
    {
        self.tries.saturating_sub(self.left())
    }

    /// What the judging answers. None exactly while it has not ended. `outcome` of `Machine` tells with it the word that stands in the
    /// place and its copy, and how many swaps may still be lost.
    pub fn outcome(&self) -> Option<MoveOutcome>
        ensures { result ≡ option_map (λ end. end.outcome) (outcome_of (move_rest self.now)) }
    {
        match Machine::outcome(self) {
            Some(end) => Some(end.outcome),
            None => None,
        }
    }

    // How many swaps may still be lost.
    pub(crate) fn left(&self) -> u32
        ensures { result ≡ left_at self.now.mover self.now.at }
    {
        match self.at {
            MoveAt::Spent => 0,
            _ => self.mover.left,
        }
    }

    /// The copy word that stands in the child, 0 where none does.
    pub fn standing(&self) -> u64
        ensures { (e : MoveEnd) → outcome_of (move_rest self.now) ≡ Some e → result ≡ e.standing }
    {
        match self.at {
            MoveAt::Done | MoveAt::Moved => 0,
            _ => self.mover.standing,
        }
    }

    // The address of the place in the table.
    fn table_slot(&self) -> u64
        ensures { result ≡ slot_at self.now.place.site.table self.now.place.place }
    {
        self.place.site.table + 20 + self.place.place
    }

    // .. and in the child.
    fn child_slot(&self) -> u64
        ensures { result ≡ slot_at self.now.place.site.child self.now.place.place }
    {
        self.place.site.child + 20 + self.place.place
    }
}

impl Machine for MoveOp {
    ghost use Rattle.remote_resize.specs.declared.mover.Place.{Place};
    ghost use Rattle.remote_resize.specs.MoveRest.{move_rest};

    type Outcome = MoveEnd;

    ghost Kept = { Place };

    ghost kept = { λ m. m.place };

    ghost rest = { move_rest };

    fn next(&self) -> Option<Verb> {
        match self.at {
            MoveAt::Read | MoveAt::Reread => Some(Verb::Read {
                at: self.table_slot(),
            }),
            MoveAt::Block => Some(Verb::Read {
                at: self.mover.next,
            }),
            MoveAt::Uncopy | MoveAt::UncopyFirst => Some(Verb::Swap {
                at: self.child_slot(),
                expected: self.mover.standing,
                word: 0,
            }),
            MoveAt::Drop => Some(Verb::Swap {
                at: self.table_slot(),
                expected: self.mover.word,
                word: 0,
            }),
            MoveAt::Copy => Some(Verb::Swap {
                at: self.child_slot(),
                expected: self.mover.standing,
                word: marked(Mark::Copied, &self.mover.slot),
            }),
            MoveAt::Flip => Some(Verb::Swap {
                at: self.table_slot(),
                expected: self.mover.word,
                word: marked(Mark::Moved, &self.mover.slot),
            }),
            MoveAt::Settle => Some(Verb::Swap {
                at: self.child_slot(),
                expected: marked(Mark::Copied, &self.mover.slot),
                word: marked(Mark::Live, &self.mover.slot),
            }),
            MoveAt::Ask | MoveAt::Done | MoveAt::Moved | MoveAt::Spent => None,
        }
    }

    fn block(&self) -> Option<u64> {
        match self.at {
            MoveAt::Block => Some(self.mover.slot.at),
            _ => None,
        }
    }

    fn feed(&mut self, word: u64) {
        self.at = MoveAt::fed(&self.place, &mut self.mover, self.at, word);
    }

    fn asks(&self) -> Option<Key> {
        match self.at {
            MoveAt::Ask => Some(block_key(self.mover.words.words())),
            _ => None,
        }
    }

    fn told(&mut self, hash: u64) {
        if matches!(self.at, MoveAt::Ask) {
            self.at = MoveAt::hashed(&self.place, &mut self.mover, hash);
        }
    }

    fn outcome(&self) -> Option<MoveEnd> {
        match self.at {
            MoveAt::Done => Some(MoveEnd {
                outcome: MoveOutcome::Done,
                word: self.mover.word,
                standing: 0,
                left: self.mover.left,
            }),
            MoveAt::Moved => Some(MoveEnd {
                outcome: MoveOutcome::Moved,
                word: marked(Mark::Moved, &self.mover.slot),
                standing: 0,
                left: self.mover.left,
            }),
            MoveAt::Spent => Some(MoveEnd {
                outcome: MoveOutcome::Spent,
                word: self.mover.word,
                standing: self.mover.standing,
                left: 0,
            }),
            _ => None,
        }
    }
}
