//! The report of a play.
ghost use Rattle.std.specs.Prelude.{◌≡◌, ◌<◌, ◌≤◌, ◌++◌, ◌∷◌, [], length, map, All, OnOk, IfOk, count_by};
ghost use Rattle.std.specs.List.{flat_map};
ghost use Rattle.std.specs.Fmt.{decimal};
ghost use Rattle.std.specs.FinMap as fin;
ghost use Rattle.script_value.specs.Content.{calls_at, names_of};
ghost use Rattle.script_value.specs.ScriptText.{name_at};
ghost use Rattle.spelling.specs.Spelling.{spelled};
ghost use Rattle.play_report.specs.Report.{nexts_text, reply_line, tag_text, outcome_text, head_line, map_line, numbered_call, outcome_line, IsOfCall, is_answered, is_open, is_changed, end_line, report};

use item_list::PackedList;
use kv_block::{Key, Value};
use map_model::{MapMachine, Nexts, Reply};
use script_value::{Script, put_call};
use spelling::{Text, Writer};
use std::alloc::{AllocError, Global};

/// What the report tells of where a call stands. It comes with the map's replies alone.
#[derive(Clone, Copy, Debug, PartialEq, Eq)]
pub enum Tag {
    /// `@POINT`, in a replay and with posted reads. For a change: how many changes there were before it. Else the least
    /// number of changes, not below those at the call's first verb, after which the map gives this reply.
    Point(u64),
    /// `FROM>TO`, on threads: the blocks before and after a change, 0 for none.
    Changed { from: u64, to: u64 },
    /// `=BLOCK`, on threads: the block that a call without a change read, or 0.
    Read(u64),
    /// No tag comes.
    Nothing,
}

/// A line of the report: the call that a client, counted from 0, did as its call `number`, counted from 1; and its
/// reply, or None where it is unfinished.
#[derive(Clone, Copy, Debug, PartialEq, Eq)]
pub struct Line {
    pub client: u32,
    pub number: u32,
    pub reply: Option<Reply>,
    pub tag: Tag,
}

/// How a script was played.
#[derive(Clone, Copy, Debug, PartialEq, Eq)]
pub enum Mode {
    /// On one thread, by its schedule.
    Replay,
    /// On threads.
    Run,
    /// With posted reads.
    Batch,
}

/// A list of lines, each kept as its numbers and its reply's words.
pub type Lines = PackedList<Line>;

// Appends numbers with commas between.
fn put_nexts(out: &mut Writer, next: &Nexts) -> Result<(), AllocError>
    ensures { OnOk result (out.new.items ≡ out.old.items ++ nexts_text next.now) }
{
    let len = next.len();
    out.put_number(next.get(0))?;
    for i in 1..len {
        out.push(b',')?;
        out.put_number(next.get(i))?;
    }
    Ok(())
}

fn put_word_value(out: &mut Writer, word: &[u8], value: &Value) -> Result<(), AllocError>
    ensures { OnOk result (out.new.items ≡ out.old.items ++ (word.now ++ spelled value.now)) }
{
    out.put(word)?;
    out.put_spelled(value.bytes())
}

fn put_need(out: &mut Writer, word: &[u8], next: &Nexts, need: u64) -> Result<(), AllocError>
    ensures { OnOk result (out.new.items ≡ out.old.items ++ (word.now ++ nexts_text next.now ++ 32 ∷ decimal need)) }
{
    out.put(word)?;
    put_nexts(out, next)?;
    out.put_spaced_number(need)
}

// Appends a reply.
fn put_reply(out: &mut Writer, reply: &Reply) -> Result<(), AllocError>
    ensures { OnOk result (out.new.items ≡ out.old.items ++ reply_line reply.now) }
{
    match reply {
        Reply::Found(value) => put_word_value(out, b"found ", value),
        Reply::Missing => out.put(b"missing"),
        Reply::Inserted => out.put(b"inserted"),
        Reply::Exists(value) => put_word_value(out, b"exists ", value),
        Reply::Updated(old) => put_word_value(out, b"updated ", old),
        Reply::Deleted(old) => put_word_value(out, b"deleted ", old),
        Reply::Split { table, depth } => {
            out.put_word_number(b"split ", *table)?;
            out.put_spaced_number(u64::from(*depth))
        }
        Reply::Again { lost } => out.put_word_number(b"again ", u64::from(*lost)),
        Reply::FullDepth { depth } => out.put_word_number(b"full-depth ", u64::from(*depth)),
        Reply::FullWords { next, need } => put_need(out, b"full-words ", next, *need),
        Reply::NoBlock { next, need } => put_need(out, b"no-block ", next, *need),
    }
}

// Appends the reply, or that the call is open.
fn put_outcome(out: &mut Writer, reply: &Option<Reply>) -> Result<(), AllocError>
    ensures { OnOk result (out.new.items ≡ out.old.items ++ outcome_text reply.now) }
{
    match reply {
        Some(reply) => put_reply(out, reply),
        None => out.put(b"open"),
    }
}

// Appends `map KEY VALUE`.
fn put_pair(out: &mut Writer, key: &Key, value: &Value) -> Result<(), AllocError>
    ensures { OnOk result (out.new.items ≡ out.old.items ++ map_line (key.now, value.now)) }
{
    out.put(b"map")?;
    out.put_spaced(key.bytes())?;
    out.put_spaced(value.bytes())?;
    out.push(b'\n')
}

// Appends a tag.
fn put_tag(out: &mut Writer, tag: &Tag) -> Result<(), AllocError>
    ensures { OnOk result (out.new.items ≡ out.old.items ++ tag_text tag.now) }
{
    match tag {
        Tag::Point(point) => out.put_word_number(b" @", *point),
        Tag::Changed { from, to } => {
            out.put_word_number(b" ", *from)?;
            out.put_word_number(b">", *to)
        }
        Tag::Read(block) => out.put_word_number(b" =", *block),
        Tag::Nothing => Ok(()),
    }
}

/// The text of a reply, as the report has it.
pub fn reply_text(alloc: Global, reply: &Reply) -> Result<Text, AllocError>
    ensures { IfOk result (λ text. text.items ≡ reply_line reply.now) }
{
    let mut text = Writer::new(alloc);
    put_reply(&mut text, reply)?;
    Ok(text.into_text())
}

// Appends a client's name, the number of its call, and the call.
fn put_numbered_call(out: &mut Writer, script: &Script, line: &Line) -> Result<(), AllocError>
    requires { IsOfCall script.now.content line.now }
    ensures { OnOk result (out.new.items ≡ out.old.items ++ numbered_call script.now.content line.now) }
{
    let call = script.calls(line.client).get(line.number as usize - 1);
    out.put(script.name(line.client))?;
    out.put_spaced_number(u64::from(line.number))?;
    out.push(b' ')?;
    put_call(out, &call)
}

// Appends a client's call with its outcome.
fn put_outcome_line(out: &mut Writer, script: &Script, line: &Line) -> Result<(), AllocError>
    requires { IsOfCall script.now.content line.now }
    ensures { OnOk result (out.new.items ≡ out.old.items ++ outcome_line script.now.content line.now) }
{
    put_numbered_call(out, script, line)?;
    out.push(b' ')?;
    put_outcome(out, &line.reply)?;
    put_tag(out, &line.tag)?;
    out.push(b'\n')
}

fn put_head(out: &mut Writer, mode: Mode, version: u32) -> Result<(), AllocError>
    ensures { OnOk result (out.new.items ≡ out.old.items ++ head_line mode version) }
{
    out.put_word_number(b"race ", u64::from(version))?;
    match mode {
        Mode::Replay => out.put(b" replay\n"),
        Mode::Run => out.put(b" run\n"),
        Mode::Batch => out.put(b" batch\n"),
    }
}

// Appends `map KEY VALUE` for each pair of the map.
fn put_pairs(out: &mut Writer, map: &MapMachine) -> Result<(), AllocError>
    ensures { OnOk result (out.new.items ≡ out.old.items ++ flat_map map_line (fin.entries map.now)) }
{
    let mut pairs = map.pairs();
    while let Some((key, value)) = pairs.next() {
        put_pair(out, key, value)?;
    }
    Ok(())
}

// Appends the lines of calls.
fn put_outcomes(out: &mut Writer, script: &Script, lines: &Lines) -> Result<(), AllocError>
    requires { All (λ line. IsOfCall script.now.content line) lines.now.items }
    ensures { OnOk result (out.new.items ≡ out.old.items ++ flat_map (outcome_line script.now.content) lines.now.items) }
{
    for i in 0..lines.len() {
        let line = lines.get(i);
        put_outcome_line(out, script, &line)?;
    }
    Ok(())
}

fn answered_calls(lines: &Lines) -> usize
    ensures { result ≡ count_by is_answered lines.now.items }
{
    lines.iter().filter(|line| line.reply.is_some()).count()
}

fn open_calls(lines: &Lines) -> usize
    ensures { result ≡ count_by is_open lines.now.items }
{
    lines.iter().filter(|line| line.reply.is_none()).count()
}

fn is_change_line(line: &Line) -> bool
    ensures { result ≡ is_changed line.now }
{
    match &line.reply {
        Some(reply) => reply.is_change(),
        None => false,
    }
}

fn changing_calls(lines: &Lines) -> usize
    ensures { result ≡ count_by is_changed lines.now.items }
{
    lines.iter().filter(|line| is_change_line(line)).count()
}

/// Appends the last line of the report of these calls: how many were answered, are open and changed the map, and the next
/// free words. It fails only for want of memory.
pub fn put_end(out: &mut Writer, lines: &Lines, next: &Nexts) -> Result<(), AllocError>
    ensures { OnOk result (out.new.items ≡ out.old.items ++ end_line lines.now.items next.now) }
{
    out.put_word_number(b"end calls=", answered_calls(lines) as u64)?;
    out.put_word_number(b" open=", open_calls(lines) as u64)?;
    out.put_word_number(b" changes=", changing_calls(lines) as u64)?;
    out.put(b" next=")?;
    put_nexts(out, next)?;
    out.push(b'\n')
}

/// The text of the report of a play: the first line, a line for each of these calls of the script, the pairs of the
/// map in byte order of the keys, and the last line with the counts and the next free words.
pub fn report_text(
    alloc: Global,
    mode: Mode,
    script: &Script,
    lines: &Lines,
    map: &MapMachine,
    next: Nexts,
) -> Result<Text, AllocError>
    requires { All (λ line. IsOfCall script.now.content line) lines.now.items }
    ensures { IfOk result (λ text. text.items ≡ report mode script.now lines.now.items (fin.entries map.now) next) }
{
    let mut text = Writer::new(alloc);
    put_head(&mut text, mode, script.version())?;
    put_outcomes(&mut text, script, lines)?;
    put_pairs(&mut text, map)?;
    put_end(&mut text, lines, &next)?;
    Ok(text.into_text())
}
