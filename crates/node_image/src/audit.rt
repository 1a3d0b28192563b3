//! The audit of bytes.
ghost use Rattle.std.specs.Prelude.{◌≡◌, IfOk, IsErrOf};
ghost use Rattle.image_audit.specs.Shape.{lists_of};
ghost use Rattle.node_image.specs.Image.{IsAudited, IsImage, IsMalformed};

use crate::image::Image;
use crate::numbers::read_numbers;
use crate::reading::{ImageFault, read_image};
use image_audit::{Audit, audit_words};
use key_hash::Listed;
use std::alloc::Global;

/// An image has no more bytes.
pub(crate) const MOST: usize = 16_777_216;

/// The words that bytes are the image of, and the listed keys; Malformed exactly where they are no well formed image. The numbers of
/// the bytes are given up before the words are audited.
fn image_in(alloc: Global, bytes: &[u8]) -> Result<(Image, Listed), ImageFault>
    ensures image { IfOk result (λ p. IsImage bytes.now p.0.geometry p.1 (lists_of p.0.nodes.items)) }
    ensures malformed { IsErrOf result ImageFault.Malformed → IsMalformed bytes.now }
{
    if bytes.len() > MOST {
        return Err(ImageFault::Malformed);
    }
    if bytes.len() % 8 != 0 {
        return Err(ImageFault::Malformed);
    }
    let numbers = read_numbers(alloc, bytes)?;
    read_image(alloc, &numbers)
}

/// Audits bytes: Malformed exactly where they are no well formed image; Sound where each word of its walk meets its rule, with the map
/// of its live slots; else Bad, of the first word of the walk that breaks its rule.
pub fn audit_bytes(alloc: Global, bytes: &[u8]) -> Result<Audit, ImageFault>
    ensures audited { IfOk result (λ audit. IsAudited bytes.now audit) }
    ensures malformed { IsErrOf result ImageFault.Malformed → IsMalformed bytes.now }
{
    match image_in(alloc, bytes) {
        Ok(read) => {
            let (image, listed) = read;
            let audit = audit_words(alloc, &image, &listed)?;
            Ok(audit)
        }
        Err(fault) => Err(fault),
    }
}
