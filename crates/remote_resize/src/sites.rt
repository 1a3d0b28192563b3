//! The numbers of a split, so that they fit their words.
#![tactic(auto, unfolding(split_text::specs::Words::low_address, split_text::specs::Words::cut))]

ghost use Rattle.std.specs.Prelude.{◌≡◌, ◌<◌, ◌≤◌, ◌^◌, ◌+◌};
ghost use Rattle.slot_word.specs.Heads.{head_word};
ghost use Rattle.split_text.specs.Words.{low_address, cut, site_of};
ghost use Rattle.remote_resize.specs.MoveRest.{birth_site};

use slot_word::{Birth, Head, State, head_word};
use split_text::{Site, SplitJob};

/// The lowest 40 bits of an address.
pub fn low_address(address: u64) -> u64
    ensures value { result ≡ low_address address }
    ensures low { result < 2 ^ 40 }
{
    address % (1 << 40)
}

/// The same split, with numbers that fit their words. Those of a legal log do.
pub fn cut(site: &Site) -> Site
    ensures value { result ≡ cut site.now }
    ensures low_table { result.table < 2 ^ 40 }
    ensures low_child { result.child < 2 ^ 40 }
    ensures low_depth { result.depth ≤ 15 }
    ensures suffix { result.suffix < 2 ^ (result.depth + 1) }
{
    let depth = site.depth.min(15);
    Site {
        table: low_address(site.table),
        depth,
        child: low_address(site.child),
        suffix: site.suffix % (1 << (depth + 1)),
    }
}

/// The split of a child with this birth.
pub fn birth_site(child: u64, birth: &Birth) -> Site
    ensures { result ≡ birth_site child birth.now }
{
    Site {
        table: birth.parent,
        depth: birth.depth.saturating_sub(1),
        child,
        suffix: birth.suffix,
    }
}

/// The split that has begun with a child at this address.
#[tactic(auto, using(crate::proofs::Moves::suffixes))]
pub fn site_of(job: &SplitJob, child: u64) -> Site
    requires depth { job.now.depth ≤ 15 }
    requires child { child < 2 ^ 40 }
    ensures value { result ≡ site_of job.now child }
    ensures suffix { result.suffix < 2 ^ (result.depth + 1) }
    ensures low { result.table < 2 ^ 40 }
{
    let power = 1u64 << job.depth;
    Site {
        table: low_address(job.table),
        depth: job.depth,
        child,
        suffix: job.suffix % power + power,
    }
}

/// The word of a header of this depth.
pub fn head_word_of(depth: u32, state: State) -> u64
    requires { depth ≤ 16 }
    ensures { result ≡ head_word (record { depth = depth; state = state }) }
{
    head_word(&Head { depth, state })
}
