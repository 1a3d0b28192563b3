//! The image of a log.
ghost use Rattle.std.specs.Prelude.{◌≡◌, IfOk};
ghost use Rattle.race_laws.specs.Legal.{IsLegal};
ghost use Rattle.image_audit.specs.Kept.{setting_of};
ghost use Rattle.image_audit.specs.Shape.{lists_of};
ghost use Rattle.node_image.specs.Written.{IsImaged, IsWritten};

use crate::audit::MOST;
use crate::counting::bytes_count;
use crate::image::Image;
use crate::numbers::write_bytes;
use crate::replaying::image_after;
use crate::writing::write_numbers;
use key_hash::Listed;
use node_words::Geometry;
use quiet_walk::first_loud;
use race_io::Bytes;
use std::alloc::{AllocError, Global};
use verb_log::Log;

/// What there is of a log's image.
#[derive(Debug, Drop)]
pub enum Imaged {
    /// The image.
    Bytes(Bytes),
    /// A word of the walk is a slot with a mark other than live, a header or bucket header that is not plain, or a lock that is not 0.
    /// This is the address of the first such.
    NotQuiet { at: u64 },
    /// All words are quiet, and the image would have so many bytes: more than 16,777,216.
    TooLarge { bytes: u64 },
}

/// Writes the image of words with these listed keys, where it is not too large.
fn write_image(alloc: Global, image: &Image, listed: &Listed) -> Result<Imaged, AllocError>
    ensures { IfOk result (λ imaged. IsWritten image.now.geometry listed.now (lists_of image.now.nodes.items) imaged) }
{
    let bytes = bytes_count(image, listed.pairs());
    if bytes > MOST as u64 {
        return Ok(Imaged::TooLarge { bytes });
    }
    let _ = listed.len();
    let numbers = write_numbers(alloc, image, listed.pairs())?;
    let bytes = write_bytes(alloc, &numbers)?;
    Ok(Imaged::Bytes(bytes))
}

/// The image of the words after a log over this geometry, which is legal with these hashes: NotQuiet exactly where a word of the walk
/// is not quiet, of the first such; else TooLarge exactly where the image would have more than 16,777,216 bytes, with their number;
/// else its bytes. They are a well formed image, and their audit says Sound, with the map of all changes of the log.
pub fn image_of(
    alloc: Global,
    log: &Log,
    geometry: &Geometry,
    listed: &Listed,
) -> Result<Imaged, AllocError>
    requires geometry { log.now.geometry ≡ geometry.now }
    requires legal { IsLegal (setting_of geometry.now listed.now) log.now.entries }
    ensures { IfOk result (λ imaged. IsImaged (setting_of geometry.now listed.now) log.now.entries imaged) }
{
    let image = image_after(alloc, log)?;
    let loud = first_loud(alloc, &image)?;
    match loud {
        Some(at) => Ok(Imaged::NotQuiet { at }),
        None => {
            let imaged = write_image(alloc, &image, listed)?;
            Ok(imaged)
        }
    }
}
