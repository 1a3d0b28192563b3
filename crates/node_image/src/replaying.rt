//! The words that an image of a log has.
ghost use Rattle.std.specs.Prelude.{◌≡◌, ℕ, ◌+◌, ◌==◌, ◌<◌, ◌≤◌, ◌^◌, cond, length, IfOk};
ghost use Rattle.node_words.specs.Opening.{opening_word};
ghost use Rattle.image_laws.specs.Laws.{words_after};
ghost use Rattle.image_laws.specs.Sound.{NextsFit, words_from};
ghost use Rattle.image_audit.specs.Shape.{ImageFits, lists_of};
ghost use Rattle.node_image.specs.Parts.{part_of, parts_of};

use crate::image::Image;
use crate::nodes::{Nodes, greater, node_start};
use node_words::Geometry;
use std::alloc::{AllocError, Global};
use verb_log::{Entry, Log};

/// The opening words of a memory from an address on, so many of them.
fn opened(
    alloc: Global,
    geometry: &Geometry,
    start: u64,
    count: usize,
) -> Result<Vec<u64>, AllocError>
    requires { start + count ≤ geometry.now.words }
    ensures { IfOk result (λ words. words.items ≡ words_from (opening_word geometry.now) start count) }
{
    let mut words = Vec::new(alloc);
    words.reserve_exact(count)?;
    for i in 0..count {
        words.push(geometry.opening_word(start + i as u64))?;
    }
    Ok(words)
}

/// Puts the new word of an entry among words that begin at an address, where its own address is among theirs.
fn put(entry: &Entry, start: u64, words: &mut [u64])
    ensures { (w : ℕ → ℕ) → words.old ≡ words_from w start (length words.old) → words.new ≡ words_from (λ a. cond (a == entry.now.at) entry.now.new (w a)) start (length words.old) }
{
    if entry.at < start {
        return;
    }
    let offset = entry.at - start;
    if offset >= words.len() as u64 {
        return;
    }
    words[offset as usize] = entry.new;
}

/// Puts the words of a log among the opening words that begin at an address.
fn replay(log: &Log, start: u64, words: &mut [u64])
    requires { words.old ≡ words_from (opening_word log.now.geometry) start (length words.old) }
    ensures { words.new ≡ words_from (words_after log.now.geometry log.now.entries) start (length words.old) }
{
    for n in 0..log.len() {
        let entry = log.entry(n);
        put(&entry, start, words);
    }
}

/// The words of a node after a log, up to the one before its next word.
fn node_after(alloc: Global, log: &Log, node: u32) -> Result<Vec<u64>, AllocError>
    requires node { node < log.now.geometry.nodes }
    requires nexts { NextsFit log.now.geometry (words_after log.now.geometry log.now.entries) }
    ensures { IfOk result (λ words. words.items ≡ part_of log.now.geometry (words_after log.now.geometry log.now.entries) node) }
{
    let start = node_start(log.geometry(), node);
    let count = log.word(start) - start;
    let mut words = opened(alloc, log.geometry(), start, count as usize)?;
    replay(log, start, &mut words);
    Ok(words)
}

/// The words of each node after a log, up to the one before its next word.
fn nodes_after(alloc: Global, log: &Log) -> Result<Nodes, AllocError>
    requires { NextsFit log.now.geometry (words_after log.now.geometry log.now.entries) }
    ensures words { IfOk result (λ n. lists_of n.nodes.items ≡ parts_of log.now.geometry (words_after log.now.geometry log.now.entries)) }
    ensures fits { IfOk result (λ n. ImageFits log.now.geometry (lists_of n.nodes.items) n.longest) }
    ensures low { IfOk result (λ n. n.longest ≤ 2 ^ 24) }
{
    let mut nodes = Vec::new(alloc);
    let mut longest = 0;
    for node in 0..log.geometry().nodes {
        let words = node_after(alloc, log, node)?;
        longest = greater(longest, words.len());
        nodes.push(words)?;
    }
    Ok(Nodes { nodes, longest })
}

/// The words that an image of a log has. Its next words lie within their nodes.
pub(crate) fn image_after(alloc: Global, log: &Log) -> Result<Image, AllocError>
    requires { NextsFit log.now.geometry (words_after log.now.geometry log.now.entries) }
    ensures geometry { IfOk result (λ image. image.geometry ≡ log.now.geometry) }
    ensures words { IfOk result (λ image. lists_of image.nodes.items ≡ parts_of log.now.geometry (words_after log.now.geometry log.now.entries)) }
{
    let nodes = nodes_after(alloc, log)?;
    Ok(Image {
        geometry: *log.geometry(),
        nodes: nodes.nodes,
        longest: nodes.longest,
    })
}
