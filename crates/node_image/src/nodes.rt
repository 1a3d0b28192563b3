//! The words of an image's nodes.
ghost use Rattle.std.specs.Prelude.{◌≡◌, ◌≢◌, ℕ, ◌+◌, ◌<◌, ◌≤◌, ◌^◌, ◌++◌, List, length, take, IfOk, IfSome, IfNone};
ghost use Rattle.node_words.specs.Addresses.{node_at, node_size};
ghost use Rattle.race_laws.specs.Setting.{base};
ghost use Rattle.image_audit.specs.Shape.{ImageFits, IsNode, lists_of};
ghost use Rattle.node_image.specs.Numbers.{AreNodes, words_of_nodes};

use node_words::Geometry;
use std::alloc::{AllocError, Global};

/// The words of all nodes.
#[derive(Debug, Drop)]
pub(crate) struct Nodes {
    pub nodes: Vec<Vec<u64>>,
    /// The words of the longest.
    pub longest: usize,
}

/// The address of a node's first word.
#[tactic(auto, unfolding(node_words::specs::Addresses::node_at, node_words::specs::Addresses::node_size))]
pub(crate) fn node_start(geometry: &Geometry, node: u32) -> u64
    requires { node < geometry.now.nodes }
    ensures start { result ≡ node_at geometry.now node }
    ensures low { result ≤ 2 ^ 24 }
{
    let size = geometry.words / u64::from(geometry.nodes);
    u64::from(node) * size
}

/// The first word of a node that may be taken.
fn taken_start(geometry: &Geometry, node: u32) -> u64
    requires { node < geometry.now.nodes }
    ensures { result ≡ base geometry.now node }
{
    if node == 0 {
        geometry.first_free()
    } else {
        node_start(geometry, node) + 1
    }
}

/// How many words a node has.
#[tactic(auto, unfolding(node_words::specs::Addresses::node_size))]
fn node_length(geometry: &Geometry) -> u64
    ensures size { result ≡ node_size geometry.now }
    ensures low { result ≤ 2 ^ 24 }
{
    geometry.words / u64::from(geometry.nodes)
}

/// How many of these numbers are the node's words; None exactly where they begin with no words of it.
fn count_words(geometry: &Geometry, node: u32, numbers: &[u64]) -> Option<usize>
    requires { node < geometry.now.nodes }
    ensures some { IfSome result (λ n. IsNode geometry.now node (take n numbers.now) × (n ≤ length numbers.now) × (n ≤ 2 ^ 24)) }
    ensures none { IfNone result ((v rest : List ℕ) → IsNode geometry.now node v → numbers.now ≡ v ++ rest → ⊥) }
{
    if numbers.len() == 0 {
        return None;
    }
    let next = numbers[0];
    let start = node_start(geometry, node);
    if next < taken_start(geometry, node) {
        return None;
    }
    if next > start + node_length(geometry) {
        return None;
    }
    let count = (next - start) as usize;
    if count > numbers.len() {
        return None;
    }
    Some(count)
}

/// The greater of two numbers.
pub(crate) fn greater(a: usize, b: usize) -> usize
    ensures first { a ≤ result }
    ensures second { b ≤ result }
    ensures most { a ≤ 2 ^ 24 → b ≤ 2 ^ 24 → result ≤ 2 ^ 24 }
{
    if a < b { b } else { a }
}

/// A list of these numbers.
fn copied(alloc: Global, numbers: &[u64]) -> Result<Vec<u64>, AllocError>
    ensures { IfOk result (λ words. words.items ≡ numbers.now) }
{
    let mut words = Vec::new(alloc);
    words.reserve_exact(numbers.len())?;
    words.extend_from_slice(numbers)?;
    Ok(words)
}

/// The words of all nodes, which these numbers are; None exactly where they are not.
pub(crate) fn read_nodes(
    alloc: Global,
    geometry: &Geometry,
    numbers: &[u64],
) -> Result<Option<Nodes>, AllocError>
    ensures some { IfOk result (λ o. IfSome o (λ n. (numbers.now ≡ words_of_nodes (lists_of n.nodes.items)) × ImageFits geometry.now (lists_of n.nodes.items) n.longest × (n.longest ≤ 2 ^ 24))) }
    ensures none { IfOk result (λ o. IfNone o ((nodes : List (List ℕ)) → AreNodes geometry.now nodes → numbers.now ≢ words_of_nodes nodes)) }
{
    let mut nodes = Vec::new(alloc);
    let mut longest = 0;
    let mut at = 0;
    for node in 0..geometry.nodes {
        let Some(count) = count_words(geometry, node, &numbers[at..]) else {
            return Ok(None);
        };
        let words = copied(alloc, &numbers[at..at + count])?;
        nodes.push(words)?;
        longest = greater(longest, count);
        at += count;
    }
    if at < numbers.len() {
        return Ok(None);
    }
    Ok(Some(Nodes { nodes, longest }))
}
