//! The steps of a delete. Each changes the work in place, and answers where the delete stands then: `rest` says that what is
//! left is what the text says there, `fits` what is known there, and `job` that the key stays.

ghost use Rattle.std.specs.Prelude.{◌≡◌, ◌≤◌, ◌+◌, ◌-◌, IsSome, IsTrue};
ghost use Rattle.slot_word.specs.Slots.{slot_of};
ghost use Rattle.verbs.specs.Programs.{bind, next_verb, after};
ghost use Rattle.scan_pass.specs.Rest.{pass_rest};
ghost use Rattle.scan_pass.specs.Ends.{held_of, is_held};
ghost use Rattle.call_laws.specs.Settling.{settle_first, after_settle};
ghost use Rattle.op_delete.specs.Text.{again, after_look, after_remove, remove_word};
ghost use Rattle.op_delete.specs.Rest.{more, at_rest};
ghost use Rattle.op_delete.specs.AtFits.{AtFits};

use crate::at::At;
use call_laws::live_form;
use slot_word::{Mark, read_slot};
use verbs::Machine;
use work_area::Work;

impl At {
    /// The look has been fed, or begins.
    #[tactic(auto, using(scan_pass::specs::Ends::waits, crate::proofs::Looking::looks))]
    pub fn looking(work: &mut Work) -> At
        requires { 1 ≤ work.old.removal.left }
        ensures rest { at_rest work.new result ≡ bind (pass_rest work.old.pass) (after_look work.old.removal.lost (more work.old)) }
        ensures fits { AtFits work.new result }
        ensures job { work.new.pass.task.job ≡ work.old.pass.task.job }
    {
        if !work.pass.has_ended() {
            At::Looking
        } else if work.pass.is_held() {
            At::held(work)
        } else {
            At::Missing
        }
    }

    /// The key is held.
    pub fn held(work: &mut Work) -> At
        requires held { IsTrue (is_held work.old.pass.at) }
        requires left { 1 ≤ work.old.removal.left }
        ensures rest { at_rest work.new result ≡ settle_first (held_of work.old.pass) (slot_of (held_of work.old.pass).word)
            (remove_word work.old.removal.lost (more work.old) (held_of work.old.pass) work.old.pass.scan.table) (more work.old work.old.pass.scan.table) }
        ensures fits { AtFits work.new result }
        ensures job { work.new.pass.task.job ≡ work.old.pass.task.job }
    {
        let word = work.pass.held_word();
        work.removal.live = word;
        let Some(slot) = read_slot(word) else {
            return At::Remove;
        };
        if matches!(slot.mark, Mark::Copied) {
            work.removal.live = live_form(&slot);
            At::Settle
        } else {
            At::Remove
        }
    }

    /// A counted swap was lost: the delete starts again, while swaps may still be lost.
    #[tactic(auto, using(crate::proofs::Looking::agains))]
    pub fn again(work: &mut Work) -> At
        requires { 1 ≤ work.old.removal.left }
        ensures rest { at_rest work.new result ≡ more work.old work.old.pass.scan.table }
        ensures fits { AtFits work.new result }
        ensures job { work.new.pass.task.job ≡ work.old.pass.task.job }
    {
        work.removal.left -= 1;
        work.removal.lost += 1;
        if work.removal.left == 0 {
            return At::Again;
        }
        let table = work.pass.table();
        work.pass.restart(table);
        At::looking(work)
    }

    /// The Settle was tried, and this word was found.
    pub fn settled(work: &mut Work, found: u64) -> At
        requires held { IsTrue (is_held work.old.pass.at) }
        requires left { 1 ≤ work.old.removal.left }
        ensures rest { at_rest work.new result ≡ after_settle (held_of work.old.pass) work.old.removal.live
            (remove_word work.old.removal.lost (more work.old) (held_of work.old.pass) work.old.pass.scan.table) (more work.old work.old.pass.scan.table) found }
        ensures fits { AtFits work.new result }
        ensures job { work.new.pass.task.job ≡ work.old.pass.task.job }
    {
        if found == work.pass.held_word() || found == work.removal.live {
            At::Remove
        } else {
            At::again(work)
        }
    }

    /// The Remove was tried, and this word was found.
    pub fn removed(work: &mut Work, found: u64) -> At
        requires held { IsTrue (is_held work.old.pass.at) }
        requires left { 1 ≤ work.old.removal.left }
        ensures rest { at_rest work.new result ≡ after_remove work.old.removal.lost (more work.old) (held_of work.old.pass) work.old.pass.scan.table work.old.removal.live found }
        ensures fits { AtFits work.new result }
        ensures job { work.new.pass.task.job ≡ work.old.pass.task.job }
    {
        if found == work.removal.live {
            At::Deleted
        } else {
            At::again(work)
        }
    }

    /// The verb was answered.
    #[inline(always)]
    #[tactic(auto, using(crate::proofs::Looking::deletes))]
    pub fn fed(work: &mut Work, at: At, word: u64) -> At
        requires fits { AtFits work.old at }
        requires asks { IsSome (next_verb (at_rest work.old at)) }
        ensures rest { at_rest work.new result ≡ after (at_rest work.old at) word }
        ensures fits { AtFits work.new result }
        ensures job { work.new.pass.task.job ≡ work.old.pass.task.job }
    {
        match at {
            At::Looking => {
                work.pass.feed(word);
                At::looking(work)
            }
            At::Settle => At::settled(work, word),
            At::Remove => At::removed(work, word),
            At::Deleted => At::Deleted,
            At::Missing => At::Missing,
            At::Again => At::Again,
        }
    }
}
