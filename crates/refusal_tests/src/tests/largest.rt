//! Scripts with the most clients, calls or bytes, and larger ones.
use super::{Behind, HEAD_1, HEAD_2, Refused, first_behind, is_read_so, joined};
use std::alloc::{AllocError, Global};
use std::test::Fail;
use trace_script::ScriptKind::{Client, TooLong, Word};

/// So many `client` lines behind a head.
fn with_clients(alloc: Global, head: &str, count: u32) -> Result<String, AllocError> {
    let mut text = String::from_str(alloc, head)?;
    for number in 0..count {
        write!(text, "client c{number}\n")?;
    }
    Ok(text)
}

/// A head, how many clients it is followed by, what stands behind them, and how the whole is refused, or None where it
/// is a script.
type Clients = (&'static str, u32, &'static str, Option<Refused>);

/// Scripts with as many clients as there may be, and with one more.
const CLIENTS: &[Clients] = &[
    (HEAD_1, 16, "end\n", None),
    (HEAD_1, 17, "end\n", Some((19, Client))),
    (HEAD_1, 17, "find\n", Some((19, Client))),
    (HEAD_1, 16, "client a b\n", Some((19, Word))),
    (HEAD_2, 17, "end\n", None),
    (HEAD_2, 64, "end\n", None),
    (HEAD_2, 65, "end\n", Some((67, Client))),
];

/// Whether the text of a row is read as it says.
fn is_so(alloc: Global, case: &Clients) -> Result<bool, AllocError> {
    let (head, count, back, wanted) = case;
    let clients = with_clients(alloc, head, *count)?;
    let text = joined(alloc, clients.as_str(), back, "")?;
    is_read_so(alloc, text.as_str(), wanted)
}

/// The row, counted from 0, of the first case that is not read as it says.
fn first_row(alloc: Global, cases: &'static [Clients]) -> Result<Option<usize>, AllocError> {
    for row in 0..cases.len() {
        if !is_so(alloc, &cases[row])? {
            return Ok(Some(row));
        }
    }
    Ok(None)
}

/// There are at most 16 clients in a `race 1` script, and 64 in a `race 2` script.
#[test]
fn most_clients(rt: HostRuntime) -> Result<(), Fail> {
    assert_eq!(rt; first_row(rt.alloc(), CLIENTS)?, None);
    Ok(())
}

/// What stands behind 65,536 call lines of one client, the last of which is line 65,539.
const BEHIND_CALLS: &[Behind] = &[
    ("end\n", None),
    ("search k\nend\n", Some((65540, TooLong))),
    ("client b\ninsert % %0\n", Some((65541, TooLong))),
    ("search k 1\n", Some((65540, Word))),
];

/// There are at most 65,536 call lines.
#[test]
fn most_calls(rt: HostRuntime) -> Result<(), Fail> {
    let calls = "search k\n".repeat(rt.alloc(), 65536)?;
    let front = joined(rt.alloc(), HEAD_1, "client a\n", calls.as_str())?;
    assert_eq!(rt;
        first_behind(rt.alloc(), front.as_str(), BEHIND_CALLS)?,
        None
    );
    Ok(())
}

/// What stands behind 4,194,300 bytes of a head, a client and schedule lines.
const BEHIND_SCHEDULE: &[Behind] = &[
    ("end\n", None),
    ("end\n\n", Some((0, TooLong))),
    ("end\0\n", Some((0, TooLong))),
];

/// A head, a client and schedule lines of 4,194,300 bytes.
fn with_schedule(alloc: Global) -> Result<String, AllocError> {
    let item = " abcdefghijklmnop*1000000";
    let line = joined(alloc, "schedule", item.repeat(alloc, 163)?.as_str(), "\n")?;
    let lines = line.as_str().repeat(alloc, 1026)?;
    let front = joined(alloc, HEAD_1, "client abcdefghijklmnop\n", lines.as_str())?;
    let items = item.repeat(alloc, 160)?;
    let last = "schedule abcdefghijklmnop abcdefghijklmnop!";
    let last = joined(alloc, last, items.as_str(), "\n")?;
    joined(alloc, front.as_str(), last.as_str(), "")
}

/// There are at most 4,194,304 bytes.
#[test]
fn most_bytes(rt: HostRuntime) -> Result<(), Fail> {
    let front = with_schedule(rt.alloc())?;
    assert_eq!(rt; front.len(), 4_194_300);
    assert_eq!(rt;
        first_behind(rt.alloc(), front.as_str(), BEHIND_SCHEDULE)?,
        None
    );
    Ok(())
}
