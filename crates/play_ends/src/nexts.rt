//! The next words of the nodes after a run.
ghost use Rattle.std.specs.Prelude.{◌≡◌, ◌<◌};
ghost use Rattle.node_words.specs.Addresses.{node_at};
ghost use Rattle.verbs.specs.Logs.{word};
ghost use Rattle.play_ends.specs.Nexts.{nexts_after};

use map_model::Nexts;
use node_words::Geometry;
use verb_log::Log;

/// The address of the next word of a node, counted from 0.
#[tactic(auto, unfolding(node_words::specs::Addresses::node_size, node_words::specs::Addresses::node_at))]
pub fn node_at(geometry: &Geometry, node: u32) -> u64
    requires { node < geometry.now.nodes }
    ensures at { result ≡ node_at geometry.now node }
    ensures within { result < geometry.now.words }
{
    u64::from(node) * (geometry.words / u64::from(geometry.nodes))
}

// The next word of a node.
fn next_of(log: &Log, node: u32) -> u64
    requires { node < log.now.geometry.nodes }
    ensures { result ≡ word log.now.geometry log.now.entries (node_at log.now.geometry node) }
{
    log.word(node_at(log.geometry(), node))
}

/// The next words of the nodes after the log, 1 to 8 of them. It takes no memory.
pub fn nexts_after(log: &Log) -> Nexts
    ensures { result ≡ nexts_after log.now.geometry log.now.entries }
{
    let mut nexts = Nexts::one(next_of(log, 0));
    for node in 1..log.geometry().nodes {
        nexts = nexts.with(next_of(log, node));
    }
    nexts
}
