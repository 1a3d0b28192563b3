//! What the command `image` writes.
ghost use Rattle.std.specs.Prelude.{◌≡◌, ◌≤◌, ◌⊎◌};
ghost use Rattle.std.specs.Io.KnownBytes.{Appends};
ghost use Rattle.race_io.specs.Counts.{Rose};
ghost use Rattle.race_io.specs.Transfer.{AppendsPart};
ghost use Rattle.race_laws.specs.Legal.{IsLegal};
ghost use Rattle.image_audit.specs.Kept.{setting_of};
ghost use Rattle.image_commands.specs.Images.{TellsNoImage, WritesImage, WritesImageInPart};

use crate::lines::put_number_line;
use key_hash::Listed;
use node_image::{Imaged, image_of};
use node_words::Geometry;
use race_io::{Sink, put_all};
use std::alloc::Global;
use verb_log::Log;

/// Writes bytes. The status is 0, or 5 where the sink fails.
fn put_bytes<K: Sink>(bytes: &[u8], sink: &mut K) -> u8
    ensures statuses { (result ≡ 0) ⊎ (result ≡ 5) }
    ensures whole { result ≡ 0 → Appends (K.taken sink.old) (K.taken sink.new) bytes.now }
    ensures part { result ≡ 5 → AppendsPart (K.taken sink.old) (K.taken sink.new) bytes.now }
    ensures rose { result ≡ 5 → Rose (K.faults sink.old) (K.faults sink.new) }
    ensures counted { K.faults sink.old ≤ K.faults sink.new }
{
    match put_all(sink, bytes) {
        Ok(()) => 0,
        Err(_) => 5,
    }
}

/// Writes the image of the words after a log over this geometry, which is legal with these hashes, or the line that says why there is
/// none. The status is 0 where the whole image was written, 5 only where the sink's count of faults rose and a part of the image was
/// written, 7 exactly where there is no image, also where the sink fails, and 6 where there was no memory: then nothing is written.
pub fn write_image<K: Sink>(
    alloc: Global,
    log: &Log,
    geometry: &Geometry,
    listed: &Listed,
    sink: &mut K,
) -> u8
    requires geometry { log.now.geometry ≡ geometry.now }
    requires legal { IsLegal (setting_of geometry.now listed.now) log.now.entries }
    ensures statuses { (result ≡ 0) ⊎ (result ≡ 5) ⊎ (result ≡ 6) ⊎ (result ≡ 7) }
    ensures whole { result ≡ 0 → WritesImage (setting_of geometry.now listed.now) log.now.entries (K.taken sink.old) (K.taken sink.new) }
    ensures part { result ≡ 5 → WritesImageInPart (setting_of geometry.now listed.now) log.now.entries (K.taken sink.old) (K.taken sink.new) }
    ensures rose { result ≡ 5 → Rose (K.faults sink.old) (K.faults sink.new) }
    ensures none { result ≡ 7 → TellsNoImage (setting_of geometry.now listed.now) log.now.entries (K.taken sink.old) (K.taken sink.new) (K.faults sink.old) (K.faults sink.new) }
    ensures wanting { result ≡ 6 → sink.new ≡ sink.old }
    ensures counted { K.faults sink.old ≤ K.faults sink.new }
{
    let Ok(imaged) = image_of(alloc, log, geometry, listed) else {
        return 6;
    };
    let told = match imaged {
        Imaged::Bytes(bytes) => return put_bytes(bytes.as_slice(), sink),
        Imaged::NotQuiet { at } => put_number_line(alloc, b"not-quiet ", at, sink),
        Imaged::TooLarge { bytes } => put_number_line(alloc, b"too-large ", bytes, sink),
    };
    match told {
        Ok(()) => 7,
        Err(_) => 6,
    }
}
