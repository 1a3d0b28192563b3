//! The steps of an update. Each changes the work in place, and answers where the update stands then: `rest` says that what is
//! left is what the text says there, `fits` what is known there, and `plan` that the key, the block and the tries stay.

ghost use Rattle.std.specs.Prelude.{◌≡◌, ◌+◌, ◌-◌, Some, IsSome, IsTrue};
ghost use Rattle.verbs.specs.Programs.{bind, next_verb, after, outcome_of};
ghost use Rattle.scan_pass.specs.Rest.{pass_rest};
ghost use Rattle.scan_pass.specs.Ends.{held_of, is_held};
ghost use Rattle.block_taking.specs.Rest.{take_rest};
ghost use Rattle.call_laws.specs.Settling.{after_settle};
ghost use Rattle.op_update.specs.Text.{after_look, on_held, after_take, with_block, replace_word, after_replace};
ghost use Rattle.op_update.specs.Rest.{plan, area_of, more, at_rest};
ghost use Rattle.op_update.specs.AtFits.{AtFits};

use crate::at::At;
use block_taking::{TakeEnd, TakeOutcome};
use call_laws::live_form;
use slot_word::{Mark, read_slot};
use verbs::Machine;
use work_area::Work;

impl At {
    /// The look has been fed, or begins.
    #[tactic(auto, using(scan_pass::specs::Ends::waits, crate::proofs::Looking::looks))]
    pub fn looking(work: &mut Work) -> At
        ensures rest { at_rest work.new result ≡ bind (pass_rest work.old.pass) (after_look (plan work.old) (more work.old) work.old.replacement.kept (area_of work.old) work.old.replacement.left) }
        ensures fits { AtFits work.new result }
        ensures plan { plan work.new ≡ plan work.old }
    {
        if !work.pass.has_ended() {
            At::Looking
        } else if work.pass.is_held() {
            At::held(work)
        } else {
            At::Missing
        }
    }

    /// The key is held.
    pub fn held(work: &mut Work) -> At
        requires { IsTrue (is_held work.old.pass.at) }
        ensures rest { at_rest work.new result ≡ on_held (plan work.old) (more work.old) (held_of work.old.pass) work.old.pass.scan.table work.old.replacement.kept (area_of work.old) work.old.replacement.left }
        ensures fits { AtFits work.new result }
        ensures plan { plan work.new ≡ plan work.old }
    {
        match work.replacement.kept {
            Some(block) => {
                work.replacement.block = block;
                At::settling(work)
            }
            None => {
                work.take.restart(work.replacement.left);
                At::Taking
            }
        }
    }

    /// The new block stands at its address.
    pub fn settling(work: &mut Work) -> At
        requires { IsTrue (is_held work.old.pass.at) }
        ensures rest { at_rest work.new result ≡ with_block (plan work.old) (more work.old) (held_of work.old.pass) work.old.pass.scan.table work.old.replacement.block (area_of work.old) work.old.replacement.left }
        ensures fits { AtFits work.new result }
        ensures plan { plan work.new ≡ plan work.old }
    {
        let word = work.pass.held_word();
        work.replacement.live = word;
        let Some(slot) = read_slot(word) else {
            return At::Replace;
        };
        if matches!(slot.mark, Mark::Copied) {
            work.replacement.live = live_form(&slot);
            At::Settle
        } else {
            At::Replace
        }
    }

    /// The taking has been fed.
    #[tactic(auto, using(crate::proofs::Looking::takes))]
    pub fn taking(work: &mut Work) -> At
        requires { IsTrue (is_held work.old.pass.at) }
        ensures rest { at_rest work.new result ≡ bind (take_rest work.old.take) (λ e. after_take (plan work.old) (more work.old) (held_of work.old.pass) work.old.pass.scan.table e e.outcome) }
        ensures fits { AtFits work.new result }
        ensures plan { plan work.new ≡ plan work.old }
    {
        match work.take.outcome() {
            None => At::Taking,
            Some(end) => At::taken(work, &end),
        }
    }

    /// The taking has ended so.
    #[tactic(auto, using(crate::proofs::Looking::takes))]
    pub fn taken(work: &mut Work, end: &TakeEnd) -> At
        requires held { IsTrue (is_held work.old.pass.at) }
        requires ended { outcome_of (take_rest work.old.take) ≡ Some end.now }
        ensures rest { at_rest work.new result ≡ after_take (plan work.old) (more work.old) (held_of work.old.pass) work.old.pass.scan.table end.now end.now.outcome }
        ensures fits { AtFits work.new result }
        ensures plan { plan work.new ≡ plan work.old }
    {
        work.replacement.left = end.left;
        match end.outcome {
            TakeOutcome::Taken { at } => {
                work.replacement.block = at;
                At::settling(work)
            }
            TakeOutcome::NoBlock { .. } => At::NoBlock,
            TakeOutcome::Spent => At::Again,
        }
    }

    /// A counted swap was lost with the new block in hand: the update starts again and keeps it, while swaps may still be lost.
    #[tactic(auto, using(crate::proofs::Looking::agains))]
    pub fn again(work: &mut Work) -> At
        ensures rest { at_rest work.new result ≡ more work.old (Some work.old.replacement.block) (area_of work.old) (work.old.replacement.left - 1) work.old.pass.scan.table }
        ensures fits { AtFits work.new result }
        ensures plan { plan work.new ≡ plan work.old }
    {
        work.replacement.left = work.replacement.left.saturating_sub(1);
        work.replacement.kept = Some(work.replacement.block);
        if work.replacement.left == 0 || work.replacement.rounds == 0 {
            return At::Again;
        }
        work.replacement.rounds -= 1;
        let table = work.pass.table();
        work.pass.restart(table);
        At::looking(work)
    }

    /// The Settle was tried, and this word was found.
    pub fn settled(work: &mut Work, found: u64) -> At
        requires { IsTrue (is_held work.old.pass.at) }
        ensures rest { at_rest work.new result ≡ after_settle (held_of work.old.pass) work.old.replacement.live
            (replace_word (plan work.old) (more work.old) (held_of work.old.pass) work.old.pass.scan.table work.old.replacement.block (area_of work.old) work.old.replacement.left)
            (more work.old (Some work.old.replacement.block) (area_of work.old) (work.old.replacement.left - 1) work.old.pass.scan.table) found }
        ensures fits { AtFits work.new result }
        ensures plan { plan work.new ≡ plan work.old }
    {
        if found == work.pass.held_word() || found == work.replacement.live {
            At::Replace
        } else {
            At::again(work)
        }
    }

    /// The Replace was tried, and this word was found.
    pub fn replaced(work: &mut Work, found: u64) -> At
        requires { IsTrue (is_held work.old.pass.at) }
        ensures rest { at_rest work.new result
            ≡ after_replace (plan work.old) (more work.old) (held_of work.old.pass) work.old.pass.scan.table work.old.replacement.block (area_of work.old) work.old.replacement.left work.old.replacement.live found }
        ensures fits { AtFits work.new result }
        ensures plan { plan work.new ≡ plan work.old }
    {
        if found == work.replacement.live {
            At::Updated
        } else {
            At::again(work)
        }
    }

    /// The verb was answered.
    #[inline(always)]
    #[tactic(auto, using(crate::proofs::Looking::updates))]
    pub fn fed(work: &mut Work, at: At, word: u64) -> At
        requires fits { AtFits work.old at }
        requires asks { IsSome (next_verb (at_rest work.old at)) }
        ensures rest { at_rest work.new result ≡ after (at_rest work.old at) word }
        ensures fits { AtFits work.new result }
        ensures plan { plan work.new ≡ plan work.old }
    {
        match at {
            At::Looking => {
                work.pass.feed(word);
                At::looking(work)
            }
            At::Taking => {
                work.take.feed(word);
                At::taking(work)
            }
            At::Settle => At::settled(work, word),
            At::Replace => At::replaced(work, word),
            At::Updated => At::Updated,
            At::Missing => At::Missing,
            At::Again => At::Again,
            At::NoBlock => At::NoBlock,
        }
    }
}
