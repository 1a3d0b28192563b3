//! How many bytes an image has.
ghost use Rattle.std.specs.Prelude.{◌≡◌, ◌+◌, ◌*◌, ◌/◌, ◌≤◌, ◌^◌, length};
ghost use Rattle.image_audit.specs.Shape.{lists_of};
ghost use Rattle.node_image.specs.Numbers.{entries_of, words_of_nodes};
ghost use Rattle.node_image.specs.Parts.{image_bytes};

use crate::image::Image;
use kv_block::Key;

/// How many numbers a listed key takes, with its length and its hash.
fn entry_count(key: &Key) -> u64
    ensures count { result ≡ 2 + (length key.now + 7) / 8 }
    ensures most { result ≤ 10 }
{
    2 + (key.bytes().len() as u64 + 7) / 8
}

/// How many numbers listed keys take.
fn entries_count(pairs: &[(Key, u64)]) -> u64
    ensures count { result ≡ length (entries_of pairs.now) }
    ensures most { result ≤ 10 * length pairs.now }
{
    let mut count = 0;
    for i in 0..pairs.len() {
        let pair = &pairs[i];
        count += entry_count(&pair.0);
    }
    count
}

/// How many words the nodes of an image have together.
fn words_count(image: &Image) -> u64
    ensures count { result ≡ length (words_of_nodes (lists_of image.now.nodes.items)) }
    ensures most { result ≤ 2 ^ 27 }
{
    let mut count = 0;
    for k in 0..image.nodes.len() {
        count += image.nodes[k].len() as u64;
    }
    count
}

/// How many bytes an image with these listed keys has.
pub(crate) fn bytes_count(image: &Image, pairs: &[(Key, u64)]) -> u64
    ensures { result ≡ length (image_bytes image.now.geometry pairs.now (lists_of image.now.nodes.items)) }
{
    8 * (7 + entries_count(pairs) + words_count(image))
}
