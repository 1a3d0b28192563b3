//! Texts that are refused, as tables, and how a table is tried.
use std::alloc::{AllocError, Global};
use trace_script::{ScriptFault, ScriptKind, read_script};

mod largest;
mod lengths;
mod lines;
mod sizes;

/// The first two lines of a `race 1` script.
const HEAD_1: &str = "race 1\ntable groups=1 depth=0 words=100 tries=3\n";

/// The first two lines of a `race 2` script.
const HEAD_2: &str = "race 2\ntable groups=1 depth=0 first=0 nodes=1 words=100 tries=3\n";

/// The line and the rule of a refusal.
type Refused = (u64, ScriptKind);

/// A text that is refused, with the first line that breaks a rule and the first rule that it breaks.
type Case = (&'static str, u64, ScriptKind);

/// What stands behind a front, and how the whole is refused, or None where it is a script.
type Behind = (&'static str, Option<Refused>);

/// Whether a refusal is of this line and this rule.
fn is_refusal(wanted: &Option<Refused>, line: u64, kind: ScriptKind) -> bool {
    match wanted {
        Some((wanted_line, wanted_kind)) => *wanted_line == line && *wanted_kind == kind,
        None => false,
    }
}

/// Whether a text is refused so, or is a script where no refusal is wanted.
fn is_read_so(alloc: Global, text: &str, wanted: &Option<Refused>) -> Result<bool, AllocError> {
    match read_script(alloc, text.as_bytes()) {
        Ok(_) => Ok(wanted.is_none()),
        Err(ScriptFault::Refused { line, kind }) => Ok(is_refusal(wanted, line, kind)),
        Err(ScriptFault::OutOfMemory) => Err(AllocError),
    }
}

/// Three texts, one behind the other.
fn joined(alloc: Global, front: &str, middle: &str, back: &str) -> Result<String, AllocError> {
    let mut text = String::from_str(alloc, front)?;
    text.push_str(middle)?;
    text.push_str(back)?;
    Ok(text)
}

/// The first case that is not refused as it says, between this front and this back.
fn first_other(
    alloc: Global,
    front: &str,
    cases: &'static [Case],
    back: &str,
) -> Result<Option<&'static str>, AllocError> {
    for (middle, line, kind) in cases {
        let text = joined(alloc, front, middle, back)?;
        if !is_read_so(alloc, text.as_str(), &Some((*line, *kind)))? {
            return Ok(Some(*middle));
        }
    }
    Ok(None)
}

/// The first text that is not read as its row says, behind this front.
fn first_behind(
    alloc: Global,
    front: &str,
    cases: &'static [Behind],
) -> Result<Option<&'static str>, AllocError> {
    for (back, wanted) in cases {
        let text = joined(alloc, front, back, "")?;
        if !is_read_so(alloc, text.as_str(), wanted)? {
            return Ok(Some(*back));
        }
    }
    Ok(None)
}
