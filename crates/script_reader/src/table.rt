//! The first two lines of a script.
ghost use Rattle.std.specs.Prelude.{◌≡◌, ◌≤◌, Ok, Some, None, IfSome, codes, IfOk, Err, if◌then◌else◌};
ghost use Rattle.std.specs.Option.{option_map};
ghost use Rattle.script_value.specs.Content.{sizes_of};
ghost use Rattle.spelling.specs.Words.{parts_after, parts_at, number_of};
ghost use Rattle.script_reader.specs.Rules.{or_else, version_of, behind_label, field, behind_table, size_words_1, size_words_2, size_words, sizes_told, table_of};
ghost use Rattle.script_value.specs.Valid.{most_depth, are_sizes};
ghost use Rattle.script_reader.specs.Gives.{Tells};

use crate::command::is_text;
use crate::fault::ScriptKind;
use crate::limits::{MOST_DEPTH_1, MOST_DEPTH_2, MOST_TRIES};
use node_words::Geometry;
use spelling::{cut, read_number};

// `race 1` or `race 2`
pub fn read_version(line: &[u8]) -> Result<u32, ScriptKind>
    ensures { Tells (λ version. version) result (version_of line.now) }
{
    if is_text(line, b"race 1") {
        Ok(1)
    } else if is_text(line, b"race 2") {
        Ok(2)
    } else {
        Err(ScriptKind::Header)
    }
}

// What stands behind a label at the front of a word.
fn strip_label<'a>(label: &[u8], word: &'a [u8]) -> Option<&'a [u8]>
    ensures { option_map (λ text. text.now) result ≡ behind_label label.now word.now }
{
    let mut left = label;
    let mut rest = word;
    while let [first, others @ ..] = left {
        match rest {
            [byte, behind @ ..] if byte == first => rest = behind,
            _ => return None,
        }
        left = others;
    }
    Some(rest)
}

// The words of line 2 that are left.
type Words<'a> = Option<&'a [u8]>;

// The number word behind a label, and the words behind it.
fn take_field<'a>(label: &[u8], words: Words<'a>) -> Result<(&'a [u8], Words<'a>), ScriptKind>
    ensures { Tells (λ pair. (pair.0.now, parts_after 32 (option_map (λ rest. rest.now) pair.1))) result (field label.now (parts_after 32 (option_map (λ rest. rest.now) words.entry))) }
{
    let Some(bytes) = words else {
        return Err(ScriptKind::Table);
    };
    let (word, rest) = cut(b' ', bytes);
    match strip_label(label, word) {
        Some(text) => Ok((text, rest)),
        None => Err(ScriptKind::Table),
    }
}

// The words behind `table`.
fn take_table(line: &[u8]) -> Result<Option<&[u8]>, ScriptKind>
    ensures { Tells (λ rest. parts_after 32 (option_map (λ bytes. bytes.now) rest)) result (behind_table (parts_at 32 line.now)) }
{
    let (word, rest) = cut(b' ', line);
    if is_text(word, b"table") {
        Ok(rest)
    } else {
        Err(ScriptKind::Table)
    }
}

// The number words of line 2, as they are spelled.
#[derive(Clone, Copy, Debug)]
struct SizeWords<'a> {
    groups: &'a [u8],
    max_depth: &'a [u8],
    first_depth: &'a [u8],
    nodes: &'a [u8],
    words: &'a [u8],
    tries: &'a [u8],
}

// The numbers of line 2.
#[derive(Clone, Copy, Debug)]
struct Sizes {
    groups: u64,
    max_depth: u64,
    first_depth: u64,
    nodes: u64,
    words: u64,
    tries: u64,
}

impl<'a> SizeWords<'a> {
    ghost use Rattle.script_reader.specs.Tables.{words_told, numbers_told};

    // `table groups=N depth=N words=N tries=N`
    #[tactic(auto, using(spelling::proofs::Cuts::is_empty_parts))]
    fn of_version_1(line: &'a [u8]) -> Result<SizeWords<'a>, ScriptKind>
        ensures { Tells words_told result (size_words_1 (parts_at 32 line.now)) }
    {
        let rest = take_table(line)?;
        let (groups, rest) = take_field(b"groups=", rest)?;
        let (max_depth, rest) = take_field(b"depth=", rest)?;
        let (words, rest) = take_field(b"words=", rest)?;
        let (tries, rest) = take_field(b"tries=", rest)?;
        match rest {
            None => Ok(SizeWords {
                groups,
                max_depth,
                first_depth: b"0",
                nodes: b"1",
                words,
                tries,
            }),
            Some(_) => Err(ScriptKind::Table),
        }
    }

    // `table groups=N depth=N first=N nodes=N words=N tries=N`
    #[tactic(auto, using(spelling::proofs::Cuts::is_empty_parts))]
    fn of_version_2(line: &'a [u8]) -> Result<SizeWords<'a>, ScriptKind>
        ensures { Tells words_told result (size_words_2 (parts_at 32 line.now)) }
    {
        let rest = take_table(line)?;
        let (groups, rest) = take_field(b"groups=", rest)?;
        let (max_depth, rest) = take_field(b"depth=", rest)?;
        let (first_depth, rest) = take_field(b"first=", rest)?;
        let (nodes, rest) = take_field(b"nodes=", rest)?;
        let (words, rest) = take_field(b"words=", rest)?;
        let (tries, rest) = take_field(b"tries=", rest)?;
        match rest {
            None => Ok(SizeWords {
                groups,
                max_depth,
                first_depth,
                nodes,
                words,
                tries,
            }),
            Some(_) => Err(ScriptKind::Table),
        }
    }

    // The numbers that the words spell.
    fn numbers(&self) -> Result<Sizes, ScriptKind>
        ensures { Tells numbers_told result (sizes_told (words_told self.now)) }
    {
        Ok(Sizes {
            groups: number_word(self.groups)?,
            max_depth: number_word(self.max_depth)?,
            first_depth: number_word(self.first_depth)?,
            nodes: number_word(self.nodes)?,
            words: number_word(self.words)?,
            tries: number_word(self.tries)?,
        })
    }
}

fn number_word(word: &[u8]) -> Result<u64, ScriptKind>
    ensures { Tells (λ number. number) result (or_else ScriptKind.Number (number_of word.now)) }
{
    match read_number(word) {
        Some(number) => Ok(number),
        None => Err(ScriptKind::Number),
    }
}

impl Sizes {
    ghost use Rattle.script_reader.specs.Tables.{numbers_told};

    // The geometry and the tries, where the numbers are within the limits of the version.
    fn within_limits(&self, version: u32) -> Result<(Geometry, u32), ScriptKind>
        ensures { Tells (λ told. sizes_of told.0 told.1) result (if are_sizes version (numbers_told self.now) then Ok (numbers_told self.now) else Err ScriptKind.Table) }
    {
        let most_depth = if version == 1 {
            MOST_DEPTH_1
        } else {
            MOST_DEPTH_2
        };
        if self.groups > 64
            || self.max_depth > most_depth
            || self.first_depth > 16
            || self.nodes > 8
            || self.tries < 1
            || self.tries > MOST_TRIES
        {
            return Err(ScriptKind::Table);
        }
        let geometry = Geometry::check(
            self.groups as u32,
            self.max_depth as u32,
            self.first_depth as u32,
            self.nodes as u32,
            self.words,
        );
        match geometry {
            Ok(geometry) => Ok((geometry, self.tries as u32)),
            Err(_) => Err(ScriptKind::Table),
        }
    }
}

// Line 2: the geometry and the tries.
pub fn read_table(version: u32, line: &[u8]) -> Result<(Geometry, u32), ScriptKind>
    ensures { Tells (λ told. sizes_of told.0 told.1) result (table_of version line.now) }
{
    let words = if version == 1 {
        SizeWords::of_version_1(line)?
    } else {
        SizeWords::of_version_2(line)?
    };
    words.numbers()?.within_limits(version)
}
