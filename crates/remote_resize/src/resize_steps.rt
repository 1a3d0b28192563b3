//! The steps of a split. Each changes what it works on in place, and answers where it stands then: `rest` says that what is left is
//! what the text says there, `fits` what is known there.

ghost use Rattle.std.specs.Prelude.{◌≡◌, ◌+◌, ◌*◌, ◌<◌, ◌≤◌, ◌^◌, IsSome};
ghost use Rattle.verbs.specs.Programs.{next_verb, asked, after};
ghost use Rattle.remote_resize.specs.declared.resize_at.ResizeAt.TheVariants.{Beginning, Moving, Naming};
ghost use Rattle.split_text.specs.Words.{place_of};
ghost use Rattle.split_text.specs.Text.{ripen, name_child, close, slots};
ghost use Rattle.remote_resize.specs.ResizeFits.{HasSlots, HasMains, ResizeFits};
ghost use Rattle.remote_resize.specs.ResizeRest.{begun_on, moved_on, named_on, resize_rest_at};

use crate::begin_at::BeginAt;
use crate::move_at::MoveAt;
use crate::move_op::MoveOp;
use crate::move_steps::marked;
use crate::resize_at::ResizeAt;
use crate::work::Work;
use directory::NameOp;
use slot_word::{Birth, Mark};
use verbs::Machine;

/// The place of the slot of this number.
pub fn place_of(slot: u64) -> u64
    requires { slot < 2 ^ 32 }
    ensures place { result ≡ place_of slot }
    ensures low { result < 2 ^ 33 }
{
    slot + slot / 7 + 1
}

impl ResizeAt {
    /// So many bucket headers of the child are left to ripen.
    pub fn ripening(work: &mut Work) -> ResizeAt
        requires { HasMains work.old work.old.after }
        ensures rest { resize_rest_at work.new result ≡ ripen work.old.geometry work.old.client work.old.site work.old.left work.old.after work.old.index }
        ensures fits { ResizeFits work.new result }
        ensures job { work.new.begin.job ≡ work.old.begin.job }
    {
        if work.after == 0 {
            return ResizeAt::Ripen;
        }
        work.after -= 1;
        ResizeAt::RipenBucket
    }

    /// So many bucket headers of the table are left to be closed; then the child is named.
    pub fn closing(work: &mut Work) -> ResizeAt
        requires { HasMains work.old work.old.after }
        ensures rest { resize_rest_at work.new result ≡ close work.old.geometry work.old.client work.old.site work.old.left work.old.after work.old.index }
        ensures fits { ResizeFits work.new result }
        ensures job { work.new.begin.job ≡ work.old.begin.job }
    {
        if work.after > 0 {
            work.after -= 1;
            return ResizeAt::Close;
        }
        work.name = NameOp::start(
            work.geometry,
            work.site.child,
            Birth {
                depth: work.site.depth + 1,
                suffix: work.site.suffix,
                parent: work.site.table,
            },
        );
        ResizeAt::Naming
    }

    /// So many slots are left to be judged.
    pub fn slotted(work: &mut Work) -> ResizeAt
        requires { HasSlots work.old work.old.more }
        ensures rest { resize_rest_at work.new result ≡ slots work.old.geometry work.old.client work.old.site work.old.more work.old.slot work.old.left }
        ensures fits { ResizeFits work.new result }
        ensures job { work.new.begin.job ≡ work.old.begin.job }
    {
        if work.more == 0 {
            return ResizeAt::Finish;
        }
        work.more -= 1;
        work.mover = MoveOp::judging(work.site, place_of(work.slot), 0, work.left);
        ResizeAt::Moving
    }

    /// The place that was judged last is left so.
    pub fn moved(work: &mut Work) -> ResizeAt
        requires { HasSlots work.old (work.old.more + 1) }
        ensures rest { resize_rest_at work.new result ≡ moved_on work.old }
        ensures fits { ResizeFits work.new result }
        ensures job { work.new.begin.job ≡ work.old.begin.job }
    {
        match work.mover.at {
            MoveAt::Done => {
                work.left = work.mover.mover.left;
                work.slot += 1;
                ResizeAt::slotted(work)
            }
            MoveAt::Moved => {
                work.left = work.mover.mover.left;
                work.word = marked(Mark::Moved, &work.mover.mover.slot);
                ResizeAt::Clear
            }
            MoveAt::Spent => ResizeAt::HeldUp,
            _ => ResizeAt::Moving,
        }
    }

    /// The child was named up to here.
    pub fn named(work: &mut Work) -> ResizeAt
        ensures rest { resize_rest_at work.new result ≡ named_on work.old }
        ensures fits { ResizeFits work.new result }
        ensures job { work.new.begin.job ≡ work.old.begin.job }
    {
        if work.name.outcome().is_some() {
            work.index = 0;
            work.after = 2 * work.geometry.groups;
            ResizeAt::ripening(work)
        } else {
            ResizeAt::Naming
        }
    }

    /// The first half was done up to here.
    pub fn began(work: &mut Work) -> ResizeAt
        ensures rest { resize_rest_at work.new result ≡ begun_on work.old }
        ensures fits { ResizeFits work.new result }
        ensures job { work.new.begin.job ≡ work.old.begin.job }
    {
        match work.begin.at {
            BeginAt::Begun => {
                work.geometry = work.begin.job.geometry;
                work.client = work.begin.job.client;
                work.site = work.begin.site();
                work.left = work.begin.starter.left;
                work.slot = 0;
                work.more = 21 * u64::from(work.geometry.groups);
                ResizeAt::slotted(work)
            }
            BeginAt::Changed | BeginAt::Locked | BeginAt::Spent | BeginAt::FullWords => {
                ResizeAt::NotBegun
            }
            _ => ResizeAt::Beginning,
        }
    }

    /// A verb of the first half was answered.
    #[tactic(auto, using(crate::proofs::Parts::binds))]
    pub fn begin_fed(work: &mut Work, word: u64) -> ResizeAt
        requires going { ResizeFits work.old Beginning }
        requires waits { IsSome (next_verb (begun_on work.old)) }
        ensures rest { resize_rest_at work.new result ≡ after (begun_on work.old) word }
        ensures fits { ResizeFits work.new result }
        ensures job { work.new.begin.job ≡ work.old.begin.job }
    {
        work.begin.feed(word);
        ResizeAt::began(work)
    }

    /// A verb of the judging of a place was answered.
    #[tactic(auto, using(crate::proofs::Parts::binds))]
    pub fn move_fed(work: &mut Work, word: u64) -> ResizeAt
        requires going { ResizeFits work.old Moving }
        requires waits { IsSome (next_verb (moved_on work.old)) }
        ensures rest { resize_rest_at work.new result ≡ after (moved_on work.old) word }
        ensures fits { ResizeFits work.new result }
        ensures job { work.new.begin.job ≡ work.old.begin.job }
    {
        work.mover.feed(word);
        ResizeAt::moved(work)
    }

    /// A hash that it asked for was told.
    #[tactic(auto, using(crate::proofs::Parts::binds))]
    pub fn move_told(work: &mut Work, hash: u64) -> ResizeAt
        requires going { ResizeFits work.old Moving }
        requires waits { IsSome (asked (moved_on work.old)) }
        ensures rest { resize_rest_at work.new result ≡ after (moved_on work.old) hash }
        ensures fits { ResizeFits work.new result }
        ensures job { work.new.begin.job ≡ work.old.begin.job }
    {
        work.mover.told(hash);
        ResizeAt::moved(work)
    }

    /// A verb of the naming was answered.
    #[tactic(auto, using(crate::proofs::Parts::binds))]
    pub fn name_fed(work: &mut Work, word: u64) -> ResizeAt
        requires going { ResizeFits work.old Naming }
        requires waits { IsSome (next_verb (named_on work.old)) }
        ensures rest { resize_rest_at work.new result ≡ after (named_on work.old) word }
        ensures fits { ResizeFits work.new result }
        ensures job { work.new.begin.job ≡ work.old.begin.job }
    {
        work.name.feed(word);
        ResizeAt::named(work)
    }

    /// The verb was answered. What has ended stays.
    pub fn fed(work: &mut Work, at: ResizeAt, word: u64) -> ResizeAt
        requires fits { ResizeFits work.old at }
        requires waits { IsSome (next_verb (resize_rest_at work.old at)) }
        ensures rest { resize_rest_at work.new result ≡ after (resize_rest_at work.old at) word }
        ensures fits { ResizeFits work.new result }
        ensures job { work.new.begin.job ≡ work.old.begin.job }
    {
        match at {
            ResizeAt::Beginning => ResizeAt::begin_fed(work, word),
            ResizeAt::Moving => ResizeAt::move_fed(work, word),
            ResizeAt::Naming => ResizeAt::name_fed(work, word),
            ResizeAt::Clear => {
                work.slot += 1;
                ResizeAt::slotted(work)
            }
            ResizeAt::Finish => {
                work.index = 0;
                work.after = 2 * work.geometry.groups;
                ResizeAt::closing(work)
            }
            ResizeAt::Close => {
                work.index += 1;
                ResizeAt::closing(work)
            }
            ResizeAt::RipenBucket => {
                work.index += 1;
                ResizeAt::ripening(work)
            }
            ResizeAt::Ripen => ResizeAt::UnlockTable,
            ResizeAt::UnlockTable => ResizeAt::UnlockChild,
            ResizeAt::UnlockChild => ResizeAt::Split,
            ResizeAt::NotBegun | ResizeAt::Split | ResizeAt::HeldUp => at,
        }
    }
}
