//! Why bytes are no script.
ghost use Rattle.std.specs.Prelude.{◌≡◌, IfOk};
ghost use Rattle.script_reader.specs.declared.fault.Halt.TheVariants.{OutOfMemory};
ghost use Rattle.script_reader.specs.Refused.{kind_word, refusal_line};

use spelling::{Text, Writer};
use std::alloc::{AllocError, AllocFailed, Global};
use thiserror::Error;

/// What is wrong with a line of a script.
#[derive(Clone, Copy, Debug, PartialEq, Eq)]
pub enum ScriptKind {
    /// Line 1 is neither `race 1` nor `race 2`.
    Header,
    /// Line 2 has another form, or its numbers are outside their limits.
    Table,
    /// A byte outside 0x20..0x7e, an empty word, a first word that is none of the list or stands where the order
    /// forbids it, or a wrong number of words.
    Word,
    /// A key that is misspelt, of no allowed length, or listed twice.
    Key,
    /// A value that is misspelt or too long.
    Value,
    /// A number that is misspelt or out of its range.
    Number,
    /// A line that wants a client before there is one; or a name that is misspelt, used twice or unknown, or of one
    /// client too many.
    Client,
    /// An item that is misspelt or has an unknown name.
    Schedule,
    /// More bytes of the script or of a line, or more call lines, than are allowed.
    TooLong,
    /// The bytes end before the line feed or before `end`, or bytes stand behind `end`.
    End,
}

impl ScriptKind {
    /// The kind's word, as a refusal has it: `header`, `table`, `word`, `key`, `value`, `number`, `client`, `schedule`,
    /// `too-long` or `end`.
    pub fn word(self) -> &'static str
        ensures { result.now ≡ kind_word self }
    {
        match self {
            ScriptKind::Header => "header",
            ScriptKind::Table => "table",
            ScriptKind::Word => "word",
            ScriptKind::Key => "key",
            ScriptKind::Value => "value",
            ScriptKind::Number => "number",
            ScriptKind::Client => "client",
            ScriptKind::Schedule => "schedule",
            ScriptKind::TooLong => "too-long",
            ScriptKind::End => "end",
        }
    }
}

/// The line that tells a refusal: `refused line N KIND` and a line feed.
pub fn refusal_text(alloc: Global, line: u64, kind: ScriptKind) -> Result<Text, AllocError>
    ensures { IfOk result (λ text. text.items ≡ refusal_line (line, kind)) }
{
    let mut text = Writer::new(alloc);
    text.put(b"refused line ")?;
    text.put_number(line)?;
    text.push(b' ')?;
    text.put(kind.word().as_bytes())?;
    text.push(b'\n')?;
    Ok(text.into_text())
}

/// A line of a script, counted from 1, or 0 where there are too many bytes, and why it is refused.
#[derive(Clone, Copy, Debug, PartialEq, Eq)]
pub struct Refusal {
    pub line: u64,
    pub kind: ScriptKind,
}

impl Refusal {
    /// The line that tells the refusal.
    pub fn text(&self, alloc: Global) -> Result<Text, AllocError>
        ensures { IfOk result (λ text. text.items ≡ refusal_line (self.now.line, self.now.kind)) }
    {
        refusal_text(alloc, self.line, self.kind)
    }
}

/// Why there is no script.
#[derive(Clone, Copy, Debug, PartialEq, Eq, Drop, Error)]
pub enum ScriptFault {
    /// The first line that breaks a rule, counted from 1, or 0 where there are too many bytes; and the first rule that
    /// it breaks.
    #[error("refused line {line} {word}", word = .kind.word())]
    Refused { line: u64, kind: ScriptKind },
    /// Want of memory.
    #[error("out of memory")]
    OutOfMemory,
}

// Why a line is not taken.
#[derive(Clone, Copy, Debug, PartialEq, Eq)]
pub enum Halt {
    Refused(ScriptKind),
    OutOfMemory,
}

impl Halt {
    ghost use Rattle.script_reader.specs.Gives.{fault_at};

    // The fault, where this line halted.
    pub fn on_line(self, line: u64) -> ScriptFault
        ensures { result ≡ fault_at line self }
    {
        match self {
            Halt::Refused(kind) => ScriptFault::Refused { line, kind },
            Halt::OutOfMemory => ScriptFault::OutOfMemory,
        }
    }
}

impl From<AllocError> for Halt {
    ghost from_gives = { λ _ e. e ≡ OutOfMemory };

    fn from(_e: AllocError) -> Halt {
        Halt::OutOfMemory
    }
}

impl<T: Drop> From<AllocFailed<T>> for Halt {
    ghost from_gives = { λ _ e. e ≡ OutOfMemory };

    fn from(_e: AllocFailed<T>) -> Halt {
        Halt::OutOfMemory
    }
}
