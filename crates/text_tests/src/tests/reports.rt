//! The text of a report.
ghost use Rattle.std.specs.Prelude.{All, OnOk, IfSome};
ghost use Rattle.play_report.specs.Report.{IsOfCall};

use kv_block::{Key, Value};
use map_model::{Call, MapMachine, Nexts, Reply};
use std::alloc::Global;
use std::test::Fail;
use trace_script::{Line, Lines, Mode, Script, Tag, Text, read_script, report_text};

/// Two clients with six calls in all.
const CALLS: &str =
    "race 2\ntable groups=1 depth=1 first=1 nodes=2 words=200 tries=3\nclient a\ninsert k 1\nsearch k\nupdate k 2\nclient b\ndelete k\nsearch k\ninsert k %\nend\n";

/// A line of a call of a script, or None where it has no such call.
fn line_of(
    script: &Script,
    client: u32,
    number: u32,
    reply: Option<Reply>,
    tag: Tag,
) -> Option<Line>
    ensures { IfSome result (λ line. IsOfCall script.now.content line) }
{
    if client >= script.clients() || number == 0 {
        return None;
    }
    if number as usize > script.calls(client).len() {
        return None;
    }
    Some(Line {
        client,
        number,
        reply,
        tag,
    })
}

/// Appends a line of a call of a script.
fn add(
    lines: &mut Lines,
    script: &Script,
    call: (u32, u32),
    reply: Option<Reply>,
    tag: Tag,
) -> Result<(), Fail>
    requires { All (λ line. IsOfCall script.now.content line) lines.old.items }
    ensures { OnOk result (All (λ line. IsOfCall script.now.content line) lines.new.items) }
{
    let Some(line) = line_of(script, call.0, call.1, reply, tag) else {
        return Err("no such call".into());
    };
    lines.push(line)?;
    Ok(())
}

/// Inserts a key with its value.
fn insert(map: &mut MapMachine, key: &[u8], value: &[u8]) -> Result<(), Fail> {
    let key = Key::from_bytes(key).ok_or("no key")?;
    let value = Value::from_bytes(value).ok_or("no value")?;
    let _ = map.step(&Call::Insert { key, value })?;
    Ok(())
}

/// A map of two keys.
fn two_keys(alloc: Global) -> Result<MapMachine, Fail> {
    let mut map = MapMachine::new(alloc);
    insert(&mut map, b"k", b"")?;
    insert(&mut map, b"j", b" ")?;
    Ok(map)
}

/// Appends the lines of the first client's calls, with these tags.
fn add_first(lines: &mut Lines, script: &Script, tags: &[Tag; 5]) -> Result<(), Fail>
    requires { All (λ line. IsOfCall script.now.content line) lines.old.items }
    ensures { OnOk result (All (λ line. IsOfCall script.now.content line) lines.new.items) }
{
    let one = Value::from_bytes(b"1").ok_or("no value")?;
    add(lines, script, (0, 1), Some(Reply::Inserted), tags[0])?;
    add(lines, script, (0, 2), Some(Reply::Found(one)), tags[1])?;
    add(lines, script, (0, 3), Some(Reply::Updated(one)), tags[2])
}

/// Appends the lines of the second client's calls, with these tags.
fn add_second(lines: &mut Lines, script: &Script, tags: &[Tag; 5]) -> Result<(), Fail>
    requires { All (λ line. IsOfCall script.now.content line) lines.old.items }
    ensures { OnOk result (All (λ line. IsOfCall script.now.content line) lines.new.items) }
{
    let two = Value::from_bytes(b"2").ok_or("no value")?;
    add(lines, script, (1, 1), Some(Reply::Deleted(two)), tags[3])?;
    add(lines, script, (1, 2), Some(Reply::Missing), tags[4])?;
    add(lines, script, (1, 3), None, Tag::Nothing)
}

/// The report of the script's calls, with these tags.
fn report_of(alloc: Global, mode: Mode, script: &Script, tags: &[Tag; 5]) -> Result<Text, Fail> {
    let map = two_keys(alloc)?;
    let mut lines = Lines::new(alloc);
    add_first(&mut lines, script, tags)?;
    add_second(&mut lines, script, tags)?;
    let next = Nexts::one(97).with(101);
    let text = report_text(alloc, mode, script, &lines, &map, next)?;
    Ok(text)
}

/// Whether this is the report of the calls above, with these tags.
fn reports(alloc: Global, mode: Mode, tags: &[Tag; 5], wanted: &[u8]) -> Result<bool, Fail> {
    let Ok(script) = read_script(alloc, CALLS.as_bytes()) else {
        return Ok(false);
    };
    let text = report_of(alloc, mode, &script, tags)?;
    Ok(text.as_slice() == wanted)
}

/// The report of a play on threads has the blocks before and after a change, and else the block that was read; that of posted
/// reads has points. An unfinished call is open, and has no tag. The next words of two nodes stand with a comma between.
#[test]
fn tags(rt: HostRuntime) -> Result<(), Fail> {
    let blocks = [
        Tag::Changed { from: 0, to: 94 },
        Tag::Read(94),
        Tag::Changed { from: 94, to: 97 },
        Tag::Changed { from: 97, to: 0 },
        Tag::Read(0),
    ];
    let wanted =
        b"race 2 run\na 1 insert k 1 inserted 0>94\na 2 search k found 1 =94\na 3 update k 2 updated 1 94>97\nb 1 delete k deleted 2 97>0\nb 2 search k missing =0\nb 3 insert k % open\nmap j %20\nmap k %\nend calls=5 open=1 changes=3 next=97,101\n";
    assert!(rt; reports(rt.alloc(), Mode::Run, &blocks, wanted)?);
    let points = [
        Tag::Point(0),
        Tag::Point(1),
        Tag::Point(1),
        Tag::Point(2),
        Tag::Point(3),
    ];
    let wanted =
        b"race 2 batch\na 1 insert k 1 inserted @0\na 2 search k found 1 @1\na 3 update k 2 updated 1 @1\nb 1 delete k deleted 2 @2\nb 2 search k missing @3\nb 3 insert k % open\nmap j %20\nmap k %\nend calls=5 open=1 changes=3 next=97,101\n";
    assert!(rt; reports(rt.alloc(), Mode::Batch, &points, wanted)?);
    Ok(())
}
