//! Eight clients at once.

use crate::tests::clients::{CLIENTS, lines_of};
use crate::tests::order::{Line, Order};
use crate::tests::records::{changes_of, records_of};
use map_model::{Reply, is_legal};
use std::test::Fail;

mod clients;
mod drawing;
mod order;
mod records;

/// How often the clients run, each time with other calls.
const RUNS: u64 = 20;

// Whether a table of the greatest depth came of one of these calls.
fn is_deep(lines: &[Line]) -> bool {
    lines.iter().any(|line| matches!(line.answer.reply, Reply::Split { table: _, depth: 8 }))
}

// In each run the lines of all clients stand in a legal history over their changes in one order; and in some run a table came to
// depth 8.
#[test]
fn eight_clients_have_one_history(rt: HostRuntime) -> Result<(), Fail> {
    let mut deep = false;
    for run in 0..RUNS {
        let lines = lines_of(&rt, rt.alloc(), run)?;
        assert_eq!(rt; lines.len(), CLIENTS);
        deep = deep || lines.iter().any(|told| is_deep(told.as_slice()));
        let order = Order::find(rt.alloc(), &lines)?.ok_or("no order of the changes")?;
        let timeline = changes_of(rt.alloc(), &lines, &order)?;
        let records = records_of(rt.alloc(), &lines, &order, &timeline)?;
        assert!(rt;
            is_legal(rt.alloc(), timeline.changes(), &records)?,
            "run {run}"
        );
    }
    assert!(rt; deep);
    Ok(())
}
