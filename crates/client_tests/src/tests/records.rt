//! The records of what clients were told, over their changes in one order (docs/DEFINITIONS.md, "Record and point").

use crate::tests::order::{Line, Order};
use map_model::{Record, Records, Timeline};
use std::alloc::{AllocError, Global};

/// The changes of the lines, in this order.
pub fn changes_of(
    alloc: Global,
    lines: &[Vec<Line>],
    order: &Order,
) -> Result<Timeline, AllocError> {
    let mut timeline = Timeline::new(alloc);
    for made in &order.made {
        let line = lines
            .get(made.client)
            .and_then(|told| told.get(made.number));
        if let Some(change) = line.and_then(|line| line.call.change()) {
            timeline.push(alloc, &change)?;
        }
    }
    Ok(timeline)
}

// The numbers of a client's changes, in order.
fn own_changes(alloc: Global, order: &Order, client: usize) -> Result<Vec<u64>, AllocError> {
    order
        .made
        .iter()
        .enumerate()
        .filter(|(_number, made)| made.client == client)
        .map(|(number, _made)| number as u64)
        .collect(alloc)
}

// A record of a line without its numbers of changes.
fn record_of(client: usize, number: usize, line: &Line) -> Record {
    Record {
        client: u32::try_from(client).unwrap_or(0),
        number: u32::try_from(number).unwrap_or(0),
        call: line.call,
        reply: line.answer.reply,
        lo: 0,
        hi: 0,
        point: 0,
    }
}

// Appends the records of a client's lines.
fn push_records(
    timeline: &Timeline,
    client: usize,
    lines: &[Line],
    own: &[u64],
    records: &mut Records,
) -> Result<(), AllocError> {
    let mut lo = 0u64;
    let mut changed = 0usize;
    for (number, line) in lines.iter().enumerate() {
        let mut record = record_of(client, number, line);
        record.lo = lo;
        record.point = lo;
        record.hi = lo;
        if line.answer.reply.is_change() {
            let Some(point) = own.get(changed) else { break };
            changed = changed.wrapping_add(1);
            record.point = *point;
            record.hi = point.wrapping_add(1);
        } else if line.answer.reply.is_quiet() && lo <= timeline.len() as u64 {
            record.point = timeline.first(lo, &line.call, &line.answer.reply);
            record.hi = record.point;
        }
        lo = record.hi;
        records.push(record)?;
    }
    Ok(())
}

/// The records of all lines.
pub fn records_of(
    alloc: Global,
    lines: &[Vec<Line>],
    order: &Order,
    timeline: &Timeline,
) -> Result<Records, AllocError> {
    let mut records = Records::new(alloc);
    for (client, told) in lines.iter().enumerate() {
        let own = own_changes(alloc, order, client)?;
        push_records(timeline, client, told.as_slice(), &own, &mut records)?;
    }
    Ok(records)
}
