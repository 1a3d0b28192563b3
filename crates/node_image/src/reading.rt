//! The image that numbers are.
ghost use Rattle.std.specs.Prelude.{◌≡◌, ℕ, List, IfOk, IsErrOf};
ghost use Rattle.key_hash.specs.Placing.{Pairs};
ghost use Rattle.node_words.specs.declared.geometry.Geometry.{Geometry as Sizes};
ghost use Rattle.image_audit.specs.Shape.{lists_of};
ghost use Rattle.node_image.specs.Numbers.{AreNumbers};
ghost use Rattle.node_image.specs.declared.reading.ImageFault.TheVariants.{OutOfMemory};

use crate::entries::read_entries;
use crate::head::{HEAD, read_head};
use crate::image::Image;
use crate::nodes::read_nodes;
use key_hash::Listed;
use std::alloc::{AllocError, Global};
use thiserror::Error;

/// Why bytes were not audited.
#[derive(Clone, Copy, Debug, PartialEq, Eq, Drop, Error)]
pub enum ImageFault {
    /// They are no well formed image.
    #[error("no well formed image")]
    Malformed,
    /// There was no memory.
    #[error("no memory")]
    OutOfMemory,
}

impl From<AllocError> for ImageFault {
    ghost from_gives = { λ _ fault. fault ≡ OutOfMemory };

    fn from(_fault: AllocError) -> ImageFault {
        ImageFault::OutOfMemory
    }
}

/// The image that numbers are, and its listed keys; Malformed exactly where they are those of none.
pub(crate) fn read_image(alloc: Global, numbers: &[u64]) -> Result<(Image, Listed), ImageFault>
    ensures image { IfOk result (λ p. AreNumbers numbers.now p.0.geometry p.1 (lists_of p.0.nodes.items)) }
    ensures malformed { IsErrOf result ImageFault.Malformed → (g : Sizes) (listed : Pairs) (nodes : List (List ℕ)) → AreNumbers numbers.now g listed nodes → ⊥ }
{
    let Some(head) = read_head(numbers) else {
        return Err(ImageFault::Malformed);
    };
    let (geometry, count) = head;
    let entries = read_entries(alloc, &numbers[HEAD..], count)?;
    let Some(entries) = entries else {
        return Err(ImageFault::Malformed);
    };
    let (listed, taken) = entries;
    let nodes = read_nodes(alloc, &geometry, &numbers[HEAD + taken..])?;
    match nodes {
        Some(nodes) => {
            let image = Image {
                geometry,
                nodes: nodes.nodes,
                longest: nodes.longest,
            };
            Ok((image, listed))
        }
        None => Err(ImageFault::Malformed),
    }
}
