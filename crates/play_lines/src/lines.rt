//! The lines of records, and of unfinished calls.
ghost use Rattle.std.specs.Prelude.{◌≡◌, ℕ, ◌<◌, ◌≤◌, ◌++◌, length, [], map, Some, slice_get, IfOk, OnOk};
ghost use Rattle.std.specs.List.{AllByRecursion};
ghost use Rattle.map_model.specs.declared.records.Record.{Record};
ghost use Rattle.play_lines.specs.PlayLines.{answered_line, open_lines, lines_of, records_at, AreEmpty, AreListed};

use item_list::{List, number_at};
use map_model::{Record, Records};
use play_report::{Line, Lines, Tag};
use std::alloc::{AllocError, Global};

/// A list of places of records.
type Places = List<usize>;

// The line of an answered call.
fn answered_line(answered: &Record) -> Line
    ensures { result ≡ answered_line answered.now }
{
    let tag = if answered.is_answer() {
        Tag::Point(answered.point)
    } else {
        Tag::Nothing
    };
    Line {
        client: answered.client,
        number: answered.number,
        reply: Some(answered.reply),
        tag,
    }
}

// The client of a record, by its words.
fn client_at(records: &Records, place: usize) -> u32
    requires { place < length records.now.items }
    ensures { (r : Record) → slice_get records.now.items place ≡ Some r → result ≡ r.client }
{
    number_at(records.words(place), 0)
}

// So many lists with no place.
fn no_places(alloc: Global, count: usize) -> Result<Vec<Places>, AllocError>
    ensures number { IfOk result (λ lists. length lists.items ≡ count) }
    ensures empty { IfOk result (λ lists. AreEmpty lists.items) }
{
    let mut lists = Vec::new(alloc);
    while lists.len() < count {
        lists.push(Places::new(alloc))?;
    }
    Ok(lists)
}

// The places of the records of each of so many clients.
fn places_of(alloc: Global, records: &Records, clients: usize) -> Result<Vec<Places>, AllocError>
    ensures number { IfOk result (λ lists. length lists.items ≡ clients) }
    ensures listed { IfOk result (λ lists. AreListed records.now.items (length records.now.items) lists.items) }
{
    let mut lists = no_places(alloc, clients)?;
    for place in 0..records.len() {
        let client = client_at(records, place) as usize;
        if client < lists.len() {
            lists[client].push(place)?;
        }
    }
    Ok(lists)
}

// Appends the lines of the records at these places.
fn push_answered(lines: &mut Lines, records: &Records, places: &[usize]) -> Result<(), AllocError>
    requires { AllByRecursion (λ place. place < length records.now.items) places.now }
    ensures { OnOk result (lines.new.items ≡ lines.old.items ++ map answered_line (records_at records.now.items places.now)) }
{
    for place in places {
        lines.push(answered_line(&records.get(*place)))?;
    }
    Ok(())
}

// Appends the line of the client's unfinished call, where it has one.
fn push_open(lines: &mut Lines, client: u32, unfinished: Option<u32>) -> Result<(), AllocError>
    ensures { OnOk result (lines.new.items ≡ lines.old.items ++ open_lines client unfinished) }
{
    match unfinished {
        Some(number) => lines.push(Line {
            client,
            number,
            reply: None,
            tag: Tag::Nothing,
        }),
        None => Ok(()),
    }
}

/// The lines of a play. The records are those of the answered calls, and of each client in the order of its calls; `unfinished`
/// has the number of each client's unfinished call, where it has one, for 64 clients at most. It fails only for want of memory.
pub fn play_lines(
    alloc: Global,
    records: &Records,
    unfinished: &[Option<u32>],
) -> Result<Lines, AllocError>
    requires { length unfinished.now ≤ 64 }
    ensures { IfOk result (λ lines. lines.items ≡ lines_of records.now.items unfinished.now) }
{
    let lists = places_of(alloc, records, unfinished.len())?;
    let mut lines = Lines::new(alloc);
    for (client, number) in unfinished.iter().enumerate() {
        push_answered(&mut lines, records, lists[client].as_slice())?;
        push_open(&mut lines, client as u32, *number)?;
    }
    Ok(lines)
}
