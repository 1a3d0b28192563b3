//! The steps of the first half of a split. Each changes what is remembered in place, and answers where it stands then: `rest` says
//! that what is left is what the text says there, `fits` what is known there.

ghost use Rattle.std.specs.Prelude.{◌≡◌, ◌==◌, if◌then◌else◌, ◌+◌, ◌-◌, ◌*◌, ◌<◌, ◌≤◌, ◌^◌, IsSome};
ghost use Rattle.node_words.specs.Addresses.{node_size, node_at};
ghost use Rattle.verbs.specs.Programs.{next_verb, after};
ghost use Rattle.pass_text.specs.Words.{head_in};
ghost use Rattle.split_text.specs.Words.{site_of};
ghost use Rattle.split_text.specs.Begin.{begins, write_buckets, write_child, take_at, take_from, header_read, lock_lost};
ghost use Rattle.remote_resize.specs.declared.begin_at.BeginAt.TheVariants.{Take};
ghost use Rattle.remote_resize.specs.BeginFits.{IsTried, HasChild, HasBuckets, BeginFits};
ghost use Rattle.remote_resize.specs.BeginRest.{goes_on, take_lost, begin_rest_at};

use crate::begin_at::BeginAt;
use crate::starter::Starter;
use node_words::Geometry;
use slot_word::read_head;
use split_text::SplitJob;

// The words of one node.
#[tactic(auto, unfolding(node_words::specs::Addresses::node_size))]
fn node_size(geometry: &Geometry) -> u64
    ensures size { result ≡ node_size geometry.now }
    ensures low { result ≤ 2 ^ 24 }
{
    geometry.words / u64::from(geometry.nodes)
}

/// The address of the next word of a node.
#[tactic(auto, unfolding(node_words::specs::Addresses::node_at))]
pub fn node_at(geometry: &Geometry, node: u32) -> u64
    requires { node < geometry.now.nodes }
    ensures { result ≡ node_at geometry.now node }
{
    u64::from(node) * node_size(geometry)
}

// The first address behind the node.
fn end_of(geometry: &Geometry, node: u32) -> u64
    requires { node < geometry.now.nodes }
    ensures end { result ≡ (node + 1) * node_size geometry.now }
    ensures low { result ≤ 2 ^ 27 }
{
    (u64::from(node) + 1) * node_size(geometry)
}

// The depth that a header word tells, 0 where it packs none.
#[tactic(auto, unfolding(pass_text::specs::Words::head_in))]
fn depth_in(word: u64) -> u32
    ensures { result ≡ (head_in word).depth }
{
    match read_head(word) {
        Some(head) => head.depth,
        None => 0,
    }
}

impl BeginAt {
    /// So many bucket headers of the table are left to be begun.
    pub fn beginning(job: &SplitJob, starter: &mut Starter) -> BeginAt
        requires { HasBuckets job.now starter.old starter.old.after }
        ensures rest { begin_rest_at job.now starter.new result ≡ begins job.now (site_of job.now starter.old.child) starter.old.left starter.old.after starter.old.index }
        ensures fits { BeginFits job.now starter.new result }
    {
        if starter.after == 0 {
            return BeginAt::Open;
        }
        starter.after -= 1;
        BeginAt::Begin
    }

    /// So many bucket headers of the child are left to be written.
    pub fn writing(job: &SplitJob, starter: &mut Starter) -> BeginAt
        requires { HasBuckets job.now starter.old starter.old.after }
        ensures rest { begin_rest_at job.now starter.new result ≡ write_buckets job.now (site_of job.now starter.old.child) starter.old.left starter.old.after starter.old.index }
        ensures fits { BeginFits job.now starter.new result }
    {
        if starter.after == 0 {
            return BeginAt::Link;
        }
        starter.after -= 1;
        BeginAt::Bucket
    }

    /// The nodes from this one on are to be tried, as many as `more`.
    pub fn tried(job: &SplitJob, starter: &mut Starter) -> BeginAt
        requires { IsTried job.now starter.old }
        ensures rest { begin_rest_at job.now starter.new result ≡ take_from job.now starter.old.more starter.old.node starter.old.nexts starter.old.left }
        ensures fits { BeginFits job.now starter.new result }
    {
        if starter.more == 0 {
            return BeginAt::UnlockFull;
        }
        starter.more -= 1;
        BeginAt::Read
    }

    /// The words of a table go past the end of the node, whose next word is this.
    pub fn full(job: &SplitJob, starter: &mut Starter, next: u64) -> BeginAt
        requires { IsTried job.now starter.old }
        ensures rest { begin_rest_at job.now starter.new result ≡ goes_on job.now starter.old next starter.old.left }
        ensures fits { BeginFits job.now starter.new result }
    {
        starter.nexts[starter.node as usize] = next;
        starter.node = if starter.node + 1 == job.geometry.nodes {
            0
        } else {
            starter.node + 1
        };
        BeginAt::tried(job, starter)
    }

    /// The next word of the node was read or found as this.
    #[tactic(auto, using(crate::proofs::Takes::takes))]
    pub fn found(job: &SplitJob, starter: &mut Starter, next: u64) -> BeginAt
        requires { IsTried job.now starter.old }
        ensures rest { begin_rest_at job.now starter.new result ≡ take_at job.now starter.old.left starter.old.node next (goes_on job.now starter.old) }
        ensures fits { BeginFits job.now starter.new result }
    {
        if starter.left == 0 {
            return BeginAt::UnlockSpent;
        }
        let end = end_of(&job.geometry, starter.node);
        if next > end || job.geometry.table_words() > end - next {
            return BeginAt::full(job, starter, next);
        }
        starter.next = next;
        BeginAt::Take
    }

    /// The Take found this number.
    pub fn taken(job: &SplitJob, starter: &mut Starter, found: u64) -> BeginAt
        requires { BeginFits job.now starter.old Take }
        ensures rest { begin_rest_at job.now starter.new result ≡ (if found == starter.old.next
            then write_child job.now (site_of job.now starter.old.next) starter.old.left else take_lost job.now starter.old found) }
        ensures fits { BeginFits job.now starter.new result }
    {
        if found == starter.next {
            starter.child = starter.next;
            return BeginAt::Birth;
        }
        starter.left -= 1;
        BeginAt::found(job, starter, found)
    }

    /// The header was read under the lock.
    pub fn headed(job: &SplitJob, starter: &mut Starter, word: u64) -> BeginAt
        ensures rest { begin_rest_at job.now starter.new result ≡ header_read job.now starter.old.left word }
        ensures fits { BeginFits job.now starter.new result }
    {
        if depth_in(word) != job.depth || job.depth >= job.geometry.max_depth {
            return BeginAt::UnlockChanged;
        }
        starter.node = job.client % job.geometry.nodes;
        starter.more = job.geometry.nodes;
        starter.nexts = [0; 8];
        BeginAt::tried(job, starter)
    }

    /// The lock was another's.
    pub fn unlucky(job: &SplitJob, starter: &mut Starter) -> BeginAt
        ensures rest { begin_rest_at job.now starter.new result ≡ lock_lost starter.old.left }
        ensures fits { BeginFits job.now starter.new result }
    {
        if starter.left <= 1 {
            return BeginAt::Spent;
        }
        starter.left -= 1;
        BeginAt::Locked
    }

    /// The verb was answered. What has ended stays.
    pub fn fed(job: &SplitJob, starter: &mut Starter, at: BeginAt, word: u64) -> BeginAt
        requires fits { BeginFits job.now starter.old at }
        requires waits { IsSome (next_verb (begin_rest_at job.now starter.old at)) }
        ensures rest { begin_rest_at job.now starter.new result ≡ after (begin_rest_at job.now starter.old at) word }
        ensures fits { BeginFits job.now starter.new result }
    {
        match at {
            BeginAt::Lock => {
                if word == 0 {
                    BeginAt::Header
                } else {
                    BeginAt::unlucky(job, starter)
                }
            }
            BeginAt::Header => BeginAt::headed(job, starter, word),
            BeginAt::Read => BeginAt::found(job, starter, word),
            BeginAt::Take => BeginAt::taken(job, starter, word),
            BeginAt::UnlockChanged => BeginAt::Changed,
            BeginAt::UnlockFull => BeginAt::FullWords,
            BeginAt::UnlockSpent => BeginAt::Spent,
            BeginAt::Birth => BeginAt::ChildHeader,
            BeginAt::ChildHeader => BeginAt::ChildLock,
            BeginAt::ChildLock => {
                starter.index = 0;
                starter.after = 2 * job.geometry.groups;
                BeginAt::writing(job, starter)
            }
            BeginAt::Bucket => {
                starter.index += 1;
                BeginAt::writing(job, starter)
            }
            BeginAt::Link => {
                starter.index = 0;
                starter.after = 2 * job.geometry.groups;
                BeginAt::beginning(job, starter)
            }
            BeginAt::Begin => {
                starter.index += 1;
                BeginAt::beginning(job, starter)
            }
            BeginAt::Open => BeginAt::Begun,
            _ => at,
        }
    }
}
