//! The command `audit`.
ghost use Rattle.std.specs.Prelude.{◌≡◌, ◌≤◌, ◌⊎◌, codes};
ghost use Rattle.std.specs.FinMap as fin;
ghost use Rattle.std.specs.Io.KnownBytes.{Appends};
ghost use Rattle.map_model.specs.Contents.{Contents};
ghost use Rattle.race_io.specs.Counts.{Rose};
ghost use Rattle.race_io.specs.Transfer.{AppendsPart, TakesSome};
ghost use Rattle.image_commands.specs.Audits.{IsAuditStatus, RefusesImage, TellsBad, TellsSound, TellsSoundInPart};
ghost use Rattle.image_commands.specs.Texts.{TellsLine, audit_report, number_line};

use crate::lines::{line_of, put_number_line};
use crate::pages::{ROOM, put_report};
use image_audit::Audit;
use map_model::MapMachine;
use node_image::{ImageFault, audit_bytes};
use race_io::{Sink, Source, TakeFault, put_all, take_all};
use spelling::Page;
use std::alloc::Global;

/// The most bytes that are read: one more than an image may have.
const MOST_READ: u64 = 16_777_217;

/// Writes that the bytes are no well formed image, or a part of the line where the sink fails. The status is 3.
fn refuse<K: Sink>(sink: &mut K) -> u8
    ensures status { result ≡ 3 }
    ensures told { TellsLine (K.taken sink.old) (K.taken sink.new) (K.faults sink.old) (K.faults sink.new) (codes "refused image\n") }
    ensures counted { K.faults sink.old ≤ K.faults sink.new }
{
    let _ = put_all(sink, b"refused image\n");
    3
}

/// Writes the map of sound words, by way of a page that is made before the first byte is written. The status is 0, 5 where the sink
/// fails, or 6 where there was no memory.
fn tell_sound<K: Sink>(alloc: Global, map: &MapMachine, sink: &mut K) -> u8
    ensures statuses { (result ≡ 0) ⊎ (result ≡ 5) ⊎ (result ≡ 6) }
    ensures whole { result ≡ 0 → Appends (K.taken sink.old) (K.taken sink.new) (audit_report (fin.entries map.now)) }
    ensures part { result ≡ 5 → AppendsPart (K.taken sink.old) (K.taken sink.new) (audit_report (fin.entries map.now)) }
    ensures rose { result ≡ 5 → Rose (K.faults sink.old) (K.faults sink.new) }
    ensures wanting { result ≡ 6 → sink.new ≡ sink.old }
    ensures counted { K.faults sink.old ≤ K.faults sink.new }
{
    let Ok(last) = line_of(alloc, b"keys ", map.pairs().len() as u64) else {
        return 6;
    };
    let Ok(mut page) = Page::new(alloc, ROOM.max(last.len())) else {
        return 6;
    };
    match put_report(&mut page, map, last.as_slice(), sink) {
        Ok(()) => 0,
        Err(_) => 5,
    }
}

/// Writes the address of the first bad word. The status is 8, also where the sink fails, or 6 where there was no memory.
fn tell_bad<K: Sink>(alloc: Global, at: u64, sink: &mut K) -> u8
    ensures statuses { (result ≡ 8) ⊎ (result ≡ 6) }
    ensures told { result ≡ 8 → TellsLine (K.taken sink.old) (K.taken sink.new) (K.faults sink.old) (K.faults sink.new) (number_line (codes "bad ") at) }
    ensures wanting { result ≡ 6 → sink.new ≡ sink.old }
    ensures counted { K.faults sink.old ≤ K.faults sink.new }
{
    match put_number_line(alloc, b"bad ", at, sink) {
        Ok(()) => 8,
        Err(_) => 6,
    }
}

/// Reads the source to its end or until 16,777,217 bytes were taken, audits the bytes and writes what the audit tells. The status is 0
/// where the words are sound and their map was written, 3 exactly where no read failed and the bytes are no well formed image, 8
/// exactly where no read failed and a word is bad, 4 only where the source's count of faults rose, 5 only where the sink's count
/// rose, after the audit, and 6 where there was no memory.
pub fn audit<S: Source, K: Sink>(alloc: Global, source: &mut S, sink: &mut K) -> u8
    ensures statuses { IsAuditStatus result }
    ensures sound { result ≡ 0 → TellsSound (S.left source.old) (S.left source.new) (K.taken sink.old) (K.taken sink.new) }
    ensures refused { result ≡ 3 → RefusesImage (S.left source.old) (S.left source.new) (K.taken sink.old) (K.taken sink.new) (K.faults sink.old) (K.faults sink.new) }
    ensures bad { result ≡ 8 → TellsBad (S.left source.old) (S.left source.new) (K.taken sink.old) (K.taken sink.new) (K.faults sink.old) (K.faults sink.new) }
    ensures failed { result ≡ 4 → Rose (S.faults source.old) (S.faults source.new) }
    ensures failed_part { result ≡ 4 → TakesSome (S.left source.old) (S.left source.new) 16777217 }
    ensures failed_unwritten { result ≡ 4 → sink.new ≡ sink.old }
    ensures cut_off { result ≡ 5 → Rose (K.faults sink.old) (K.faults sink.new) }
    ensures in_part { result ≡ 5 → TellsSoundInPart (S.left source.old) (S.left source.new) (K.taken sink.old) (K.taken sink.new) }
    ensures wanting { result ≡ 6 → sink.new ≡ sink.old }
    ensures wanting_part { result ≡ 6 → TakesSome (S.left source.old) (S.left source.new) 16777217 }
    ensures source_counted { S.faults source.old ≤ S.faults source.new }
    ensures sink_counted { K.faults sink.old ≤ K.faults sink.new }
{
    let bytes = match take_all(alloc, source, MOST_READ) {
        Ok(bytes) => bytes,
        Err(TakeFault::Failed) => return 4,
        Err(TakeFault::OutOfMemory) => return 6,
    };
    match audit_bytes(alloc, bytes.as_slice()) {
        Ok(Audit::Sound(map)) => tell_sound(alloc, &map, sink),
        Ok(Audit::Bad { at }) => tell_bad(alloc, at, sink),
        Err(ImageFault::Malformed) => refuse(sink),
        Err(ImageFault::OutOfMemory) => 6,
    }
}
