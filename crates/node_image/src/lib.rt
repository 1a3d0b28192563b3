//! Images: the words of a memory's nodes as bytes, their audit, and the image of a log.
//!
//! The bytes are numbers, eight bytes each, the lowest first: a head with the sizes, the listed keys with their hashes, then each
//! node's words up to the one before its next word (docs/FORMATS.md). `specs/Numbers.antt` has the numbers in order,
//! `specs/Image.antt` says which bytes are a well formed image. `audit_bytes` answers for any bytes: they are malformed exactly
//! where no geometry, keys and words have them as their image, and else it tells what `image_audit` tells of the words. No number that
//! the bytes state is believed before it is held against their length, and memory is taken for the words that are there, never for
//! those of the geometry. `image_of` writes the image of a log whose words are quiet; `specs/Written.antt` says which bytes these are.
#![tactic(auto)]

mod audit;
mod counting;
mod entries;
mod head;
mod image;
mod imaging;
mod laws;
mod nodes;
mod numbers;
mod reading;
mod replaying;
mod writing;

pub use audit::audit_bytes;
pub use imaging::{Imaged, image_of};
pub use laws::law_one_image;
pub use reading::ImageFault;
