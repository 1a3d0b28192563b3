//! The report of sound words, which goes to the sink by way of a page.
ghost use Rattle.std.specs.Prelude.{◌≡◌, ◌+◌, ◌≤◌, ◌++◌, [], length, codes, OnErr, OnOk};
ghost use Rattle.std.specs.FinMap as fin;
ghost use Rattle.std.specs.List.{flat_map};
ghost use Rattle.std.specs.Io.KnownBytes.{Appends};
ghost use Rattle.race_io.specs.Counts.{Rose};
ghost use Rattle.race_io.specs.Transfer.{AppendsPart};
ghost use Rattle.play_report.specs.Report.{map_line};
ghost use Rattle.image_commands.specs.Pages.{Moves};

use kv_block::{Key, Value};
use map_model::MapMachine;
use race_io::{Failed, Sink, put_all};
use spelling::Page;

/// How many bytes a page has room for, at the least.
pub(crate) const ROOM: usize = 65_536;

/// No line of a pair has more bytes: `map`, two spaces, two bytes and one for the 64 of a key and for the 1,024 of a value, and the
/// line end.
const LINE: usize = 2_184;

/// Appends `map KEY VALUE`.
fn put_pair(page: &mut Page, key: &Key, value: &Value)
    requires { 2184 ≤ page.old.room }
    ensures items { page.new.items ≡ page.old.items ++ map_line (key.now, value.now) }
    ensures kept { length page.new.items + page.new.room ≡ length page.old.items + page.old.room }
{
    page.put(b"map");
    page.push(b' ');
    page.put_spelled(key.bytes());
    page.push(b' ');
    page.put_spelled(value.bytes());
    page.push(b'\n');
}

/// Makes room for so many bytes on the page: where there is less, what stands on it is written.
fn make_room<K: Sink>(page: &mut Page, need: usize, sink: &mut K) -> Result<(), Failed>
    requires { need ≤ length page.old.items + page.old.room }
    ensures room { OnOk result (need ≤ page.new.room) }
    ensures kept { OnOk result (length page.new.items + page.new.room ≡ length page.old.items + page.old.room) }
    ensures moved { OnOk result (Moves (K.taken sink.old) (K.taken sink.new) page.new.items page.old.items) }
    ensures part { OnErr result (AppendsPart (K.taken sink.old) (K.taken sink.new) page.old.items) }
    ensures failed { OnErr result (Rose (K.faults sink.old) (K.faults sink.new)) }
    ensures counted { K.faults sink.old ≤ K.faults sink.new }
{
    if page.room() >= need {
        return Ok(());
    }
    put_all(sink, page.as_slice())?;
    page.clear();
    Ok(())
}

/// Puts the line of a pair on the page.
fn put_line<K: Sink>(page: &mut Page, key: &Key, value: &Value, sink: &mut K) -> Result<(), Failed>
    requires { 2184 ≤ length page.old.items + page.old.room }
    ensures kept { OnOk result (length page.new.items + page.new.room ≡ length page.old.items + page.old.room) }
    ensures moved { OnOk result (Moves (K.taken sink.old) (K.taken sink.new) page.new.items (page.old.items ++ map_line (key.now, value.now))) }
    ensures part { OnErr result (AppendsPart (K.taken sink.old) (K.taken sink.new) page.old.items) }
    ensures failed { OnErr result (Rose (K.faults sink.old) (K.faults sink.new)) }
    ensures counted { K.faults sink.old ≤ K.faults sink.new }
{
    make_room(page, LINE, sink)?;
    put_pair(page, key, value);
    Ok(())
}

/// Puts the line of each pair of the map on the page.
fn put_pairs<K: Sink>(page: &mut Page, map: &MapMachine, sink: &mut K) -> Result<(), Failed>
    requires { 2184 ≤ length page.old.items + page.old.room }
    ensures kept { OnOk result (length page.new.items + page.new.room ≡ length page.old.items + page.old.room) }
    ensures moved { OnOk result (Moves (K.taken sink.old) (K.taken sink.new) page.new.items (page.old.items ++ flat_map map_line (fin.entries map.now))) }
    ensures part { OnErr result (AppendsPart (K.taken sink.old) (K.taken sink.new) (page.old.items ++ flat_map map_line (fin.entries map.now))) }
    ensures failed { OnErr result (Rose (K.faults sink.old) (K.faults sink.new)) }
    ensures counted { K.faults sink.old ≤ K.faults sink.new }
{
    let mut pairs = map.pairs();
    while let Some((key, value)) = pairs.next() {
        put_line(page, key, value, sink)?;
    }
    Ok(())
}

/// Writes the report of sound words with this map and this last line, by way of an empty page.
pub(crate) fn put_report<K: Sink>(
    page: &mut Page,
    map: &MapMachine,
    last: &[u8],
    sink: &mut K,
) -> Result<(), Failed>
    requires empty { page.old.items ≡ [] }
    requires room { 2184 ≤ page.old.room }
    requires last { length last.now ≤ page.old.room }
    ensures whole { OnOk result (Appends (K.taken sink.old) (K.taken sink.new) (codes "race audit\n" ++ flat_map map_line (fin.entries map.now) ++ last.now)) }
    ensures part { OnErr result (AppendsPart (K.taken sink.old) (K.taken sink.new) (codes "race audit\n" ++ flat_map map_line (fin.entries map.now) ++ last.now)) }
    ensures failed { OnErr result (Rose (K.faults sink.old) (K.faults sink.new)) }
    ensures counted { K.faults sink.old ≤ K.faults sink.new }
{
    page.put(b"race audit\n");
    put_pairs(page, map, sink)?;
    make_room(page, last.len(), sink)?;
    page.put(last);
    put_all(sink, page.as_slice())
}
