//! The opening words of a memory, of which few are not 0.
ghost use Rattle.std.specs.Prelude.{◌≡◌, ◌<◌, IfOk, OnOk, OnErr, length, slice_set, replicate};
ghost use Rattle.node_words.specs.Opening.{opening, opening_word};
ghost use Rattle.node_words.specs.Addresses.{first_free, node_at};
ghost use Rattle.verbs.specs.Begun.{Begun};

use node_words::Geometry;
use sparse_words::SparseWords;
use std::alloc::{AllocError, Global};

// Puts the opening word of an address.
fn put_opening(words: &mut SparseWords, geometry: &Geometry, at: u64) -> Result<(), AllocError>
    requires place { at < geometry.now.words }
    requires len { length words.old.items ≡ geometry.now.words }
    ensures put { OnOk result (words.new.items ≡ slice_set words.old.items at (opening_word geometry.now at)) }
{
    words.reserve()?;
    words.set(at, geometry.opening_word(at));
    Ok(())
}

// Puts the opening words in front of the first free word, over words of 0.
#[tactic(auto, using(crate::proofs::OpeningPut::puts))]
fn put_front(words: &mut SparseWords, geometry: &Geometry) -> Result<(), AllocError>
    requires zero { words.old.items ≡ replicate geometry.now.words 0 }
    ensures front { OnOk result (Begun geometry.now (first_free geometry.now) 0 words.new.items) }
{
    for at in 0..geometry.first_free() {
        put_opening(words, geometry, at)?;
    }
    Ok(())
}

// Puts the next words of the nodes.
#[tactic(auto, using(crate::proofs::OpeningPut::puts))]
fn put_next_words(words: &mut SparseWords, geometry: &Geometry) -> Result<(), AllocError>
    requires front { Begun geometry.now (first_free geometry.now) 0 words.old.items }
    ensures all { OnOk result (Begun geometry.now (first_free geometry.now) geometry.now.nodes words.new.items) }
{
    for node in 0..geometry.nodes {
        put_opening(words, geometry, next_word_at(geometry, node))?;
    }
    Ok(())
}

// Where the next word of a node stands.
#[tactic(auto, using(crate::proofs::OpeningPut::places), unfolding(node_words::specs::Addresses::node_at, node_words::specs::Addresses::node_size))]
fn next_word_at(geometry: &Geometry, node: u32) -> u64
    requires { node < geometry.now.nodes }
    ensures at { result ≡ node_at geometry.now node }
    ensures within { result < geometry.now.words }
{
    u64::from(node) * (geometry.words / u64::from(geometry.nodes))
}

/// The opening words of a memory. Those that are not 0 stand in front of the first free word, or are next words.
#[tactic(auto, using(crate::proofs::OpeningPut::ends))]
pub fn opening_words(alloc: Global, geometry: &Geometry) -> Result<SparseWords, AllocError>
    ensures { IfOk result (λ words. words.items ≡ opening geometry.now) }
{
    let mut words = SparseWords::zeroed(alloc, geometry.words)?;
    put_front(&mut words, geometry)?;
    put_next_words(&mut words, geometry)?;
    Ok(words)
}
