//! The summary of a storm.
ghost use Rattle.std.specs.Prelude.{◌≡◌, ℕ, ◌<◌, ◌≤◌, ◌++◌, ◌∷◌, length, slice_index, IfOk, OnOk};
ghost use Rattle.std.specs.Fmt.{decimal};
ghost use Rattle.std.specs.FinMap as fin;
ghost use Rattle.storm_script.specs.Summary.{reply_place, replies_at, count_line, count_lines, storm_line, storm_summary};

use map_model::{MapMachine, Nexts, Reply};
use play_report::{Lines, put_end};
use spelling::{Text, Writer};
use std::alloc::{AllocError, Global};

// The place of a reply's count among those of the summary. Those of a split and of an open call are not printed.
fn place_of(reply: &Option<Reply>) -> usize
    ensures place { result ≡ reply_place reply.now }
    ensures below { result < 12 }
{
    match reply {
        Some(Reply::Inserted) => 0,
        Some(Reply::Exists(_)) => 1,
        Some(Reply::Found(_)) => 2,
        Some(Reply::Missing) => 3,
        Some(Reply::Updated(_)) => 4,
        Some(Reply::Deleted(_)) => 5,
        Some(Reply::Again { .. }) => 6,
        Some(Reply::FullDepth { .. }) => 7,
        Some(Reply::FullWords { .. }) => 8,
        Some(Reply::NoBlock { .. }) => 9,
        Some(Reply::Split { .. }) => 10,
        None => 11,
    }
}

// How many calls have each reply, by its place.
fn counts_of(lines: &Lines) -> [u64; 12]
    ensures { (place : ℕ) → place < 12 → slice_index result place ≡ replies_at lines.now.items place }
{
    let mut counts = [0; 12];
    for i in 0..lines.len() {
        let line = lines.get(i);
        counts[place_of(&line.reply)] += 1;
    }
    counts
}

// How many pairs a map has.
fn keys_of(map: &MapMachine) -> usize
    ensures { result ≡ length (fin.entries map.now) }
{
    map.pairs().len()
}

// Appends a name and a count.
fn put_count(out: &mut Writer, name: &[u8], count: u64) -> Result<(), AllocError>
    ensures { OnOk result (out.new.items ≡ out.old.items ++ count_line name.now count) }
{
    out.put(name)?;
    out.put_spaced_number(count)?;
    out.push(b'\n')
}

// Appends the names of replies with these counts, each by its place.
fn put_counts(out: &mut Writer, counts: &[u64; 12]) -> Result<(), AllocError>
    ensures { OnOk result (out.new.items ≡ out.old.items ++ count_lines (slice_index counts.now)) }
{
    put_count(out, b"inserted", counts[0])?;
    put_count(out, b"exists", counts[1])?;
    put_count(out, b"found", counts[2])?;
    put_count(out, b"missing", counts[3])?;
    put_count(out, b"updated", counts[4])?;
    put_count(out, b"deleted", counts[5])?;
    put_count(out, b"again", counts[6])?;
    put_count(out, b"full-depth", counts[7])?;
    put_count(out, b"full-words", counts[8])?;
    put_count(out, b"no-block", counts[9])
}

// Appends the first line.
fn put_storm(out: &mut Writer, seed: u64, clients: u32, calls: u32) -> Result<(), AllocError>
    ensures { OnOk result (out.new.items ≡ out.old.items ++ storm_line seed clients calls) }
{
    out.put_word_number(b"race 1 storm ", seed)?;
    out.put_spaced_number(u64::from(clients))?;
    out.put_spaced_number(u64::from(calls))?;
    out.push(b'\n')
}

/// The summary of the play of a storm of this seed, of so many clients with so many calls each: the first line, how many
/// calls have each reply, the number of the map's keys, and the last line of the report. It fails only for want of memory.
pub fn summary_text(
    alloc: Global,
    seed: u64,
    clients: u32,
    calls: u32,
    lines: &Lines,
    map: &MapMachine,
    next: Nexts,
) -> Result<Text, AllocError>
    ensures { IfOk result (λ text. text.items ≡ storm_summary seed clients calls lines.now.items (fin.entries map.now) next) }
{
    let mut text = Writer::new(alloc);
    put_storm(&mut text, seed, clients, calls)?;
    put_counts(&mut text, &counts_of(lines))?;
    put_count(&mut text, b"keys", keys_of(map) as u64)?;
    put_end(&mut text, lines, &next)?;
    Ok(text.into_text())
}
