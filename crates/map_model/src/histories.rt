//! Histories: the one order of the calls that the map answered, and whether it is legal.
ghost use Rattle.std.specs.Prelude.{◌≡◌, ◌≤◌, ◌↔◌, IsTrue, true, length, All, Option, Some, IfOk};
ghost use Rattle.std.specs.Option.{option_copied};
ghost use Rattle.map_model.specs.History.{IsWithin, IsAnswerWithin, IsLegal, Replays, history, in_order, is_answer, made, numbered, precedes, told};
ghost use Rattle.std.specs.FinMap.{empty};

use crate::calls::Reply;
use crate::machine::MapMachine;
use crate::records::{Record, Records};
use kv_block::{Change, Changes};
use std::alloc::{AllocError, Global};
use std::collections::BTreeMap;

/// The calls that the map answered, in one order. For each change, in order, come the calls without a change whose
/// point is its number, and then the call that made it; the calls whose points are past all changes stand last. Each
/// kind stands in the order of the records. One sort.
pub fn history(alloc: Global, changes: &Changes, records: &Records) -> Result<Records, AllocError>
    ensures { IfOk result (λ all. all.items ≡ history changes.now.items records.now.items) }
{
    let (changes, records) = (changes.unpacked(alloc)?, records.unpacked(alloc)?);
    Records::of(alloc, &ordered(alloc, &changes, &records)?)
}

// The same, of slices.
fn ordered(alloc: Global, changes: &[Change], records: &[Record]) -> Result<Vec<Record>, AllocError>
    ensures { IfOk result (λ all. all.items ≡ history changes.now records.now) }
{
    let count = changes.len() as u64;
    let mut answers: Vec<Record> = records
        .iter()
        .filter(|r| r.is_answer())
        .copied()
        .collect(alloc)?;
    answers.sort_by_cached_key(|r| r.place(count))?;
    Ok(answers)
}

// Whether the record's point lies within its bounds, where the map answered it.
fn is_within(answered: &Record, count: u64) -> bool
    ensures { IsTrue result ↔ IsAnswerWithin count answered.now }
{
    !answered.is_answer()
        || (answered.lo <= answered.point && answered.point <= answered.hi && answered.hi <= count)
}

// Whether each answered record's point lies within its bounds.
fn are_bounds_kept(count: u64, records: &[Record]) -> bool
    ensures { IsTrue result ↔ All (IsAnswerWithin count) records.now }
{
    records.iter().all(|r| is_within(r, count))
}

// Whether the record comes before the client's next.
fn comes_before(answered: &Record, next: Option<&Record>) -> bool
    ensures { result ≡ precedes answered.now (option_copied next.entry) }
{
    match next {
        None => true,
        Some(next) => answered.number < next.number && answered.hi <= next.lo,
    }
}

// Whether each record comes before its client's next: from the last record on, with each client's next at hand.
fn are_in_order(alloc: Global, records: &[Record]) -> Result<bool, AllocError>
    ensures { IfOk result (λ yes. yes ≡ in_order records.now) }
{
    let mut nexts: BTreeMap<u32, Record> = BTreeMap::new(alloc);
    let mut i = records.len();
    while i > 0 {
        i -= 1;
        let answered = &records[i];
        if !comes_before(answered, nexts.get(&answered.client)) {
            return Ok(false);
        }
        nexts.insert(answered.client, *answered)?;
    }
    Ok(true)
}

// Whether the record tells the change.
fn tells(answered: &Record, n: usize, change: &Change) -> bool
    ensures { IsTrue result ↔ (told answered.now ≡ (n, Some change.now)) }
{
    answered.point == n as u64 && answered.call.change() == Some(*change)
}

// Whether the changing records are the changes, one to one and in order.
fn are_all_made(changes: &[Change], history: &[Record]) -> bool
    ensures { IsTrue result ↔ (made history.now ≡ numbered 0 changes.now) }
{
    let mut n = 0;
    for answered in history {
        if answered.reply.is_change() {
            if n == changes.len() || !tells(answered, n, &changes[n]) {
                return false;
            }
            n += 1;
        }
    }
    n == changes.len()
}

// Whether the map's reply is this one.
fn is_reply(given: &Option<Reply>, reply: &Reply) -> bool
    ensures { IsTrue result ↔ (given.now ≡ Some reply.now) }
{
    *given == Some(*reply)
}

// Whether each call gets its record's reply, run from the empty map.
fn replays(alloc: Global, history: &[Record]) -> Result<bool, AllocError>
    ensures { IfOk result (λ yes. IsTrue yes ↔ Replays empty history.now) }
{
    let mut map = MapMachine::new(alloc);
    for answered in history {
        let given = map.step(&answered.call)?;
        if !is_reply(&given, &answered.reply) {
            return Ok(false);
        }
    }
    Ok(true)
}

/// Whether the history of the records is legal: run from the empty map each call gets its record's reply; the changing
/// records are the changes one to one, by their numbers, keys and values; each answered record has
/// lo <= point <= hi <= the number of changes; and each client's records stand by rising number, the hi of one at most
/// the lo of the next. One sort, a walk of the map, and a look-up for each record.
pub fn is_legal(alloc: Global, changes: &Changes, records: &Records) -> Result<bool, AllocError>
    ensures { IfOk result (λ yes. IsTrue yes ↔ IsLegal changes.now.items records.now.items) }
{
    let (changes, records) = (changes.unpacked(alloc)?, records.unpacked(alloc)?);
    let (changes, records) = (changes.as_slice(), records.as_slice());
    if !are_bounds_kept(changes.len() as u64, records) || !are_in_order(alloc, records)? {
        return Ok(false);
    }
    let history = ordered(alloc, changes, records)?;
    Ok(are_all_made(changes, &history) && replays(alloc, &history)?)
}
