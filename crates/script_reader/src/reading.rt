//! Reading a script: its lines, one after the other.
ghost use Rattle.std.specs.Prelude.{◌≡◌, ◌≤◌, ◌<◌, ◌^◌, ◌+◌, IfOk, length, MatchResult, Ok, Err};
ghost use Rattle.script_value.specs.Content.{ScriptValue, no_content, sizes_of};
ghost use Rattle.spelling.specs.Words.{parts_at};
ghost use Rattle.script_value.specs.ScriptText.{text_of_script};
ghost use Rattle.script_value.specs.Valid.{IsScript, most_clients};
ghost use Rattle.script_reader.specs.Rules.{next_line, ending, read_lines, version_line, table_line, head_of, script_of};
ghost use Rattle.script_reader.specs.Gives.{Tells, Reads, told_of};

use crate::draft::{Draft, Step};
use crate::fault::{ScriptFault, ScriptKind};
use crate::limits::{MOST_BYTES, MOST_CLIENTS_1, MOST_CLIENTS_2, MOST_LINE_BYTES};
use crate::table::{read_table, read_version};
use node_words::Geometry;
use script_value::{Body, Script};
use spelling::cut;
use std::alloc::Global;

// The first line of the bytes, and what stands behind its line feed.
fn next_line(bytes: &[u8]) -> Result<(&[u8], &[u8]), ScriptKind>
    ensures read { Tells (λ pair. (pair.0.now, parts_at 10 pair.1.now)) result (next_line (parts_at 10 bytes.now)) }
    ensures shorter { IfOk result (λ pair. length pair.1.now < length bytes.now) }
{
    let (line, rest) = cut(b'\n', bytes);
    let Some(rest) = rest else {
        return Err(ScriptKind::End);
    };
    if line.len() > MOST_LINE_BYTES {
        return Err(ScriptKind::TooLong);
    }
    Ok((line, rest))
}

// A refusal of a line.
fn on_line<T>(line: u64, read: Result<T, ScriptKind>) -> Result<T, ScriptFault>
    ensures { MatchResult read (λ x. result ≡ Ok x) (λ kind. result ≡ Err (ScriptFault.Refused line kind)) }
{
    match read {
        Ok(read) => Ok(read),
        Err(kind) => Err(ScriptFault::Refused { line, kind }),
    }
}

// The lines from line 3 on, of which there may be so many clients.
fn read_lines(alloc: Global, most: u32, bytes: &[u8]) -> Result<Body, ScriptFault>
    requires few { most ≤ 64 }
    requires short { length bytes.now ≤ 4194304 }
    ensures { Reads (λ body. body) result (read_lines most 3 (record { calls = 0; content = no_content }) (parts_at 10 bytes.now)) }
{
    let mut draft = Draft::new(alloc, most)?;
    let mut rest = bytes;
    let mut number = 3;
    'lines: loop {
        let (line, behind) = match next_line(rest) {
            Ok(found) => found,
            Err(kind) => return Err(ScriptFault::Refused { line: number, kind }),
        };
        let step = match draft.take_line(alloc, line) {
            Ok(step) => step,
            Err(halt) => return Err(halt.on_line(number)),
        };
        match step {
            Step::More => {
                rest = behind;
                number += 1;
            }
            Step::End => return ended(draft, number, behind),
        }
    }
}

// What is read where `end` stands on this line, and these bytes behind it.
fn ended(draft: Draft, number: u64, behind: &[u8]) -> Result<Body, ScriptFault>
    requires { number < 2 ^ 63 }
    ensures { Reads (λ body. body) result (ending number draft.body (parts_at 10 behind.now)) }
{
    if behind.is_empty() {
        return Ok(draft.body);
    }
    Err(ScriptFault::Refused {
        line: number + 1,
        kind: ScriptKind::End,
    })
}

// The most clients of a version.
fn most_clients(version: u32) -> u32
    ensures most { result ≡ most_clients version }
    ensures few { result ≤ 64 }
{
    if version == 1 {
        MOST_CLIENTS_1
    } else {
        MOST_CLIENTS_2
    }
}

// What the first two lines say, and the bytes behind them.
#[derive(Clone, Copy, Debug)]
struct Head<'a> {
    version: u32,
    geometry: Geometry,
    tries: u32,
    rest: &'a [u8],
}

impl<'a> Head<'a> {
    ghost use Rattle.script_reader.specs.Tables.{head_told};

    fn read(bytes: &'a [u8]) -> Result<Head<'a>, ScriptFault>
        ensures read { Reads head_told result (head_of bytes.now) }
        ensures shorter { IfOk result (λ head. length head.rest.now < length bytes.now) }
    {
        let (version, rest) = version_line(bytes)?;
        let (geometry, tries, rest) = table_line(version, rest)?;
        Ok(Head {
            version,
            geometry,
            tries,
            rest,
        })
    }
}

// Line 1, and the bytes behind it.
fn version_line(bytes: &[u8]) -> Result<(u32, &[u8]), ScriptFault>
    ensures read { Reads (λ pair. (pair.0, parts_at 10 pair.1.now)) result (version_line (parts_at 10 bytes.now)) }
    ensures shorter { IfOk result (λ pair. length pair.1.now < length bytes.now) }
{
    let (line, rest) = on_line(1, next_line(bytes))?;
    let version = on_line(1, read_version(line))?;
    Ok((version, rest))
}

// Line 2, and the bytes behind it.
fn table_line(version: u32, bytes: &[u8]) -> Result<(Geometry, u32, &[u8]), ScriptFault>
    ensures read { Reads (λ told. (sizes_of told.0 told.1, parts_at 10 told.2.now)) result (table_line version (parts_at 10 bytes.now)) }
    ensures shorter { IfOk result (λ told. length told.2.now < length bytes.now) }
{
    let (line, rest) = on_line(2, next_line(bytes))?;
    let (geometry, tries) = on_line(2, read_table(version, line))?;
    Ok((geometry, tries, rest))
}

// The script that the bytes spell, or their refusal.
fn read_whole(alloc: Global, bytes: &[u8]) -> Result<Script, ScriptFault>
    ensures found { IfOk result (λ s. IsScript s × (bytes.now ≡ text_of_script s)) }
    ensures exact { Reads told_of result (script_of bytes.now) }
{
    if bytes.len() > MOST_BYTES {
        return Err(ScriptFault::Refused {
            line: 0,
            kind: ScriptKind::TooLong,
        });
    }
    let head = Head::read(bytes)?;
    let body = read_lines(alloc, most_clients(head.version), head.rest)?;
    Ok(Script::of_parts(head.version, head.geometry, head.tries, body))
}

/// Reads a script. It answers the script that the bytes spell, or else the first line that breaks a rule, and the
/// first rule that it breaks: for more than 4,194,304 bytes that is line 0 and `TooLong`. Want of memory is the one
/// other answer.
pub fn read_script(alloc: Global, bytes: &[u8]) -> Result<Script, ScriptFault>
    // What is read is a script, and the bytes are its text.
    ensures found { IfOk result (λ s. IsScript s × (bytes.now ≡ text_of_script s)) }
    // The text of a script is read as that script, unless memory runs out.
    ensures only { (s : ScriptValue) → IsScript s → bytes.now ≡ text_of_script s → Reads (λ t. t) result (Ok s) }
    // Which script it is, or which refusal.
    ensures exact { Reads told_of result (script_of bytes.now) }
{
    read_whole(alloc, bytes)
}

/// Two scripts never have one text.
pub fn one_text()
    ensures { (s t : ScriptValue) → IsScript s → IsScript t → text_of_script s ≡ text_of_script t → s ≡ t }
{}
