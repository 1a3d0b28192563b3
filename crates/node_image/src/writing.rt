//! The numbers of an image.
ghost use Rattle.std.specs.Prelude.{◌≡◌, [], ◌∷◌, ◌++◌, IfOk, OnOk};
ghost use Rattle.image_audit.specs.Shape.{lists_of};
ghost use Rattle.node_image.specs.Numbers.{AreKeys, IsKey, entries_of, entry_of, head_of, numbers_of, words_of_nodes};

use crate::head::MAGIC;
use crate::image::Image;
use kv_block::{Key, Value, push_block};
use node_words::Geometry;
use std::alloc::{AllocError, Global};

/// No listed key takes more numbers.
const MOST_OF_ENTRY: usize = 138;

/// Appends the head, with the number of listed keys.
fn push_head(numbers: &mut Vec<u64>, geometry: &Geometry, count: u64) -> Result<(), AllocError>
    ensures { OnOk result (numbers.new.items ≡ numbers.old.items ++ (head_of geometry.now ++ count ∷ [])) }
{
    numbers.extend_from_slice(&[
        MAGIC,
        u64::from(geometry.groups),
        u64::from(geometry.max_depth),
        u64::from(geometry.first_depth),
        u64::from(geometry.nodes),
        geometry.words,
        count,
    ])
}

/// Appends a listed key with its hash.
fn push_entry(numbers: &mut Vec<u64>, key: &Key, hash: u64) -> Result<(), AllocError>
    ensures numbers { OnOk result (numbers.new.items ≡ numbers.old.items ++ entry_of (key.now, hash)) }
    ensures key { OnOk result (IsKey (key.now, hash)) }
{
    numbers.reserve(MOST_OF_ENTRY)?;
    push_block(numbers, key, &Value::empty());
    numbers.push(hash)?;
    Ok(())
}

/// Appends the listed keys with their hashes.
fn push_entries(numbers: &mut Vec<u64>, pairs: &[(Key, u64)]) -> Result<(), AllocError>
    ensures numbers { OnOk result (numbers.new.items ≡ numbers.old.items ++ entries_of pairs.now) }
    ensures keys { OnOk result (AreKeys pairs.now) }
{
    for i in 0..pairs.len() {
        let pair = &pairs[i];
        push_entry(numbers, &pair.0, pair.1)?;
    }
    Ok(())
}

/// Appends the words of all nodes.
fn push_nodes(numbers: &mut Vec<u64>, nodes: &[Vec<u64>]) -> Result<(), AllocError>
    ensures { OnOk result (numbers.new.items ≡ numbers.old.items ++ words_of_nodes (lists_of nodes.now)) }
{
    for k in 0..nodes.len() {
        numbers.extend_from_slice(&nodes[k])?;
    }
    Ok(())
}

/// The numbers of an image with these listed keys.
pub(crate) fn write_numbers(
    alloc: Global,
    image: &Image,
    pairs: &[(Key, u64)],
) -> Result<Vec<u64>, AllocError>
    ensures numbers { IfOk result (λ numbers. numbers.items ≡ numbers_of image.now.geometry pairs.now (lists_of image.now.nodes.items)) }
    ensures keys { IfOk result (λ numbers. AreKeys pairs.now) }
{
    let mut numbers = Vec::new(alloc);
    push_head(&mut numbers, &image.geometry, pairs.len() as u64)?;
    push_entries(&mut numbers, pairs)?;
    push_nodes(&mut numbers, &image.nodes)?;
    Ok(numbers)
}
