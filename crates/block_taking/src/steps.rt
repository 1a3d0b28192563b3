//! The steps of a taking. Each changes what the taking remembers in place, and answers where it stands then: `rest` says that
//! what is left is what the text says there, `fits` what is known there.

ghost use Rattle.std.specs.Prelude.{◌≡◌, ◌==◌, if◌then◌else◌, ◌+◌, ◌-◌, ◌*◌, ◌<◌, ◌≤◌, ◌^◌, IsSome, slice_set};
ghost use Rattle.node_words.specs.Addresses.{node_size, node_at};
ghost use Rattle.verbs.specs.Programs.{next_act, next_verb, after};
ghost use Rattle.block_taking.specs.Text.{need, end_of, first_node, next_node, write_words, write_block, take_at, take_from, take_block};
ghost use Rattle.block_taking.specs.Rest.{goes_on, lost, at_rest};
ghost use Rattle.block_taking.specs.AtFits.{AtFits, IsTried, HasRoom, IsWriting};

use crate::at::At;
use crate::progress::Progress;
use crate::taking::{Area, Taking};
use node_words::Geometry;

// The words of one node.
#[tactic(auto, unfolding(node_words::specs::Addresses::node_size))]
fn node_size(geometry: &Geometry) -> u64
    ensures size { result ≡ node_size geometry.now }
    ensures low { result ≤ 2 ^ 24 }
{
    geometry.words / u64::from(geometry.nodes)
}

/// The address of the next word of a node.
#[tactic(auto, unfolding(node_words::specs::Addresses::node_at))]
pub fn node_at(geometry: &Geometry, node: u32) -> u64
    requires { node < geometry.now.nodes }
    ensures { result ≡ node_at geometry.now node }
{
    u64::from(node) * node_size(geometry)
}

// The first address behind the node.
fn end_of(taking: &Taking, node: u32) -> u64
    requires { node < taking.now.geometry.nodes }
    ensures end { result ≡ end_of taking.now node }
    ensures low { result ≤ 2 ^ 27 }
{
    (u64::from(node) + 1) * node_size(&taking.geometry)
}

impl At {
    /// The words of the block are to be written, from this address on.
    pub fn written(progress: &mut Progress, taking: &Taking, block: u64) -> At
        requires { block < 2 ^ 46 }
        ensures rest { at_rest taking.now progress.new result ≡ write_block taking.now block progress.old.area progress.old.left }
        ensures fits { AtFits taking.now progress.new result }
        ensures waits { IsSome (next_act (at_rest taking.now progress.new result)) }
    {
        progress.block = block;
        progress.index = 0;
        progress.after = taking.block.len() - 1;
        At::Write
    }

    /// A word of the block was written.
    pub fn onward(progress: &mut Progress, taking: &Taking) -> At
        requires { IsWriting taking.now progress.old }
        ensures rest { at_rest taking.now progress.new result ≡ write_words taking.now progress.old.after (progress.old.index + 1) progress.old.block progress.old.area progress.old.left }
        ensures fits { AtFits taking.now progress.new result }
    {
        if progress.after == 0 {
            return At::Taken;
        }
        progress.after -= 1;
        progress.index += 1;
        At::Write
    }

    /// The nodes from this one on are to be tried, as many as `more`.
    pub fn tried(progress: &mut Progress, taking: &Taking) -> At
        requires { IsTried taking.now progress.old }
        ensures rest { at_rest taking.now progress.new result
            ≡ take_from taking.now progress.old.more progress.old.node progress.old.nexts progress.old.area progress.old.left }
        ensures fits { AtFits taking.now progress.new result }
    {
        if progress.more == 0 {
            return At::NoBlock;
        }
        progress.more -= 1;
        At::Read
    }

    /// The block goes past the end of the node, whose next word is this.
    pub fn full(progress: &mut Progress, taking: &Taking, next: u64) -> At
        requires { IsTried taking.now progress.old }
        ensures rest { at_rest taking.now progress.new result ≡ goes_on taking.now progress.old next progress.old.left }
        ensures fits { AtFits taking.now progress.new result }
    {
        progress.nexts[progress.node as usize] = next;
        progress.node = if progress.node + 1 == taking.geometry.nodes {
            0
        } else {
            progress.node + 1
        };
        At::tried(progress, taking)
    }

    /// The next word of the node was read or found as this.
    pub fn found(progress: &mut Progress, taking: &Taking, next: u64) -> At
        requires { IsTried taking.now progress.old }
        ensures rest { at_rest taking.now progress.new result
            ≡ take_at taking.now progress.old.left progress.old.node next progress.old.area (goes_on taking.now progress.old) }
        ensures fits { AtFits taking.now progress.new result }
    {
        if progress.left == 0 {
            return At::Spent;
        }
        let end = end_of(taking, progress.node);
        if next > end || u64::from(taking.block.len()) > end - next {
            return At::full(progress, taking, next);
        }
        progress.next = next;
        if end - next >= 65536 {
            At::Area
        } else {
            At::Alone
        }
    }

    /// A Take found this number, and not the one that it expected.
    pub fn lost(progress: &mut Progress, taking: &Taking, found: u64) -> At
        requires tried { IsTried taking.now progress.old }
        requires left { 1 ≤ progress.old.left }
        ensures rest { at_rest taking.now progress.new result ≡ lost taking.now progress.old found }
        ensures fits { AtFits taking.now progress.new result }
    {
        progress.left -= 1;
        At::found(progress, taking, found)
    }

    /// The Take of an area found this number.
    pub fn area_taken(progress: &mut Progress, taking: &Taking, found: u64) -> At
        requires tried { IsTried taking.now progress.old }
        requires room { HasRoom taking.now progress.old 65536 }
        ensures rest { at_rest taking.now progress.new result ≡ (if found == progress.old.next
            then write_block taking.now progress.old.next (record { at = progress.old.next + need taking.now; left = 1024 - need taking.now }) progress.old.left
            else lost taking.now progress.old found) }
        ensures fits { AtFits taking.now progress.new result }
    {
        if found != progress.next {
            return At::lost(progress, taking, found);
        }
        let need = taking.block.len();
        progress.area = Area {
            at: progress.next + u64::from(need),
            left: 1024 - u32::from(need),
        };
        let block = progress.next;
        At::written(progress, taking, block)
    }

    /// The Take of the block alone found this number.
    pub fn block_taken(progress: &mut Progress, taking: &Taking, found: u64) -> At
        requires tried { IsTried taking.now progress.old }
        requires room { HasRoom taking.now progress.old (need taking.now) }
        ensures rest { at_rest taking.now progress.new result ≡ (if found == progress.old.next
            then write_block taking.now progress.old.next progress.old.area progress.old.left
            else lost taking.now progress.old found) }
        ensures fits { AtFits taking.now progress.new result }
    {
        if found != progress.next {
            return At::lost(progress, taking, found);
        }
        let block = progress.next;
        At::written(progress, taking, block)
    }

    /// The taking begins.
    #[tactic(auto, unfolding(pass_text::specs::Words::address_of))]
    pub fn begun(progress: &mut Progress, taking: &Taking) -> At
        ensures rest { at_rest taking.now progress.new result ≡ take_block taking.now progress.old.area progress.old.left }
        ensures fits { AtFits taking.now progress.new result }
        ensures waits { IsSome (next_act (at_rest taking.now progress.new result)) }
    {
        let need = u32::from(taking.block.len());
        if need <= progress.area.left {
            let block = progress.area.at % (1 << 46);
            progress.area = Area {
                at: block + u64::from(need),
                left: progress.area.left - need,
            };
            return At::written(progress, taking, block);
        }
        progress.node = taking.client % taking.geometry.nodes;
        progress.nexts = [0; 8];
        progress.more = taking.geometry.nodes - 1;
        At::Read
    }

    /// The verb was answered. What has ended stays.
    #[inline(always)]
    pub fn fed(progress: &mut Progress, taking: &Taking, at: At, word: u64) -> At
        requires fits { AtFits taking.now progress.old at }
        requires waits { IsSome (next_verb (at_rest taking.now progress.old at)) }
        ensures rest { at_rest taking.now progress.new result ≡ after (at_rest taking.now progress.old at) word }
        ensures fits { AtFits taking.now progress.new result }
    {
        match at {
            At::Read => At::found(progress, taking, word),
            At::Area => At::area_taken(progress, taking, word),
            At::Alone => At::block_taken(progress, taking, word),
            At::Write => At::onward(progress, taking),
            At::Taken => At::Taken,
            At::NoBlock => At::NoBlock,
            At::Spent => At::Spent,
        }
    }
}
