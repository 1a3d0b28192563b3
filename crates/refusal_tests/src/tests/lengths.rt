//! Texts of the greatest lengths, and longer ones.
use super::{HEAD_1, HEAD_2, Refused, is_read_so, joined};
use std::alloc::{AllocError, Global};
use std::test::Fail;
use trace_script::ScriptKind::{
    Client, End, Header, Key, Number, Schedule, Table, TooLong, Value, Word,
};

/// A text of a front, so many times a piece, and a back; and how it is refused, or None where it is taken.
type Long = (
    &'static str,
    &'static str,
    usize,
    &'static str,
    Option<Refused>,
);

/// Texts whose first or second line is long.
const FIRST: &[Long] = &[
    ("", "x", 4096, "\n", Some((1, Header))),
    ("", "x", 4097, "\n", Some((1, TooLong))),
    ("", "x", 4097, "", Some((1, End))),
    ("race 1\n", "x", 4096, "\n", Some((2, Table))),
    ("race 1\n", "x", 4097, "\n", Some((2, TooLong))),
    ("race 1\n", "x", 4097, "", Some((2, End))),
    (
        "race 2\ntable groups=",
        "0",
        4076,
        " depth=\n",
        Some((2, Table)),
    ),
    (
        "race 2\ntable groups=",
        "0",
        4077,
        " depth=\n",
        Some((2, TooLong)),
    ),
];

/// Lines behind line 2.
const LINES: &[Long] = &[
    // names have at most 16 bytes
    ("client ", "x", 16, "\nend\n", None),
    ("client ", "x", 17, "\nend\n", Some((3, Client))),
    ("client a", "9", 15, "\nend\n", None),
    ("client a", "9", 16, "\nend\n", Some((3, Client))),
    ("client a\nstop ", "x", 17, " 1\nend\n", Some((4, Client))),
    (
        "client a\nschedule ",
        "x",
        17,
        "\nend\n",
        Some((4, Schedule)),
    ),
    // keys have at most 64 bytes
    ("client a\nsearch ", "x", 64, "\nend\n", None),
    ("client a\nsearch ", "x", 65, "\nend\n", Some((4, Key))),
    ("client a\ninsert %", "20", 64, " 1\nend\n", None),
    ("client a\ninsert %", "20", 65, " 1\nend\n", Some((4, Key))),
    ("client a\ndelete %", "78", 64, "\nend\n", Some((4, Key))),
    ("hash ", "x", 64, " 0000000000000000\nclient a\nend\n", None),
    (
        "hash ",
        "x",
        65,
        " 0000000000000000\nclient a\nend\n",
        Some((3, Key)),
    ),
    // values have at most 1,024 bytes
    ("client a\ninsert k ", "x", 1024, "\nend\n", None),
    (
        "client a\ninsert k ",
        "x",
        1025,
        "\nend\n",
        Some((4, Value)),
    ),
    ("client a\nupdate k %", "0a", 1024, "\nend\n", None),
    (
        "client a\nupdate k %",
        "0a",
        1025,
        "\nend\n",
        Some((4, Value)),
    ),
    (
        "client a\ninsert k %",
        "78",
        1024,
        "\nend\n",
        Some((4, Value)),
    ),
    // numbers have no leading zeros
    ("client a\nstop a ", "0", 20, "1\nend\n", Some((4, Number))),
    (
        "client a\nschedule a*",
        "0",
        20,
        "2\nend\n",
        Some((4, Schedule)),
    ),
    ("hash k ", "0", 4089, "\n", Some((3, Number))),
    ("client a\nend", "x", 1, "\n", Some((4, Word))),
    // lines have at most 4,096 bytes, and that rule comes second
    ("client a\nschedule", " a", 2044, "\nend\n", None),
    (
        "client a\nschedule a!",
        " a",
        2043,
        "\nend\n",
        Some((4, TooLong)),
    ),
    ("client a\nschedule a!", " a", 2043, "", Some((4, End))),
    (
        "client a\ninsert k ",
        "x",
        4087,
        "\nend\n",
        Some((4, Value)),
    ),
    (
        "client a\ninsert k ",
        "x",
        4088,
        "\nend\n",
        Some((4, TooLong)),
    ),
    ("", "\t", 4096, "\n", Some((3, Word))),
    ("", "\t", 4097, "\n", Some((3, TooLong))),
    ("stop ", "a", 4092, "\n", Some((3, TooLong))),
    ("client a\nend\n", "x", 4097, "\n", Some((5, End))),
];

/// Whether the text of a case is read as it says, behind this head.
fn is_so(alloc: Global, head: &str, case: &Long) -> Result<bool, AllocError> {
    let (front, piece, count, back, wanted) = case;
    let pieces = piece.repeat(alloc, *count)?;
    let lines = joined(alloc, front, pieces.as_str(), back)?;
    let text = joined(alloc, head, lines.as_str(), "")?;
    is_read_so(alloc, text.as_str(), wanted)
}

/// The row, counted from 0, of the first case that is not read as it says, behind this head.
fn first_row(
    alloc: Global,
    head: &str,
    cases: &'static [Long],
) -> Result<Option<usize>, AllocError> {
    for row in 0..cases.len() {
        if !is_so(alloc, head, &cases[row])? {
            return Ok(Some(row));
        }
    }
    Ok(None)
}

/// Names, keys, values and lines of the greatest length are taken, and longer ones are not.
#[test]
fn lengths(rt: HostRuntime) -> Result<(), Fail> {
    assert_eq!(rt; first_row(rt.alloc(), "", FIRST)?, None);
    assert_eq!(rt; first_row(rt.alloc(), HEAD_1, LINES)?, None);
    assert_eq!(rt; first_row(rt.alloc(), HEAD_2, LINES)?, None);
    Ok(())
}
