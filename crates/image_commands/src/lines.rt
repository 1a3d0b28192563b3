//! Lines of a word and a number.
ghost use Rattle.std.specs.Prelude.{◌≡◌, ◌≤◌, IfOk, OnErr, OnOk};
ghost use Rattle.image_commands.specs.Texts.{TellsLine, number_line};

use race_io::{Sink, put_all};
use spelling::{Text, Writer};
use std::alloc::{AllocError, Global};

/// A line of a word and a number.
pub(crate) fn line_of(alloc: Global, word: &[u8], number: u64) -> Result<Text, AllocError>
    ensures { IfOk result (λ text. text.items ≡ number_line word.now number) }
{
    let mut text = Writer::new(alloc);
    text.put_word_number(word, number)?;
    text.push(b'\n')?;
    Ok(text.into_text())
}

/// Writes a line of a word and a number, or a part of it where the sink fails. It fails only for want of memory, and then writes nothing.
pub(crate) fn put_number_line<K: Sink>(
    alloc: Global,
    word: &[u8],
    number: u64,
    sink: &mut K,
) -> Result<(), AllocError>
    ensures told { OnOk result (TellsLine (K.taken sink.old) (K.taken sink.new) (K.faults sink.old) (K.faults sink.new) (number_line word.now number)) }
    ensures wanting { OnErr result (sink.new ≡ sink.old) }
    ensures counted { K.faults sink.old ≤ K.faults sink.new }
{
    let line = line_of(alloc, word, number)?;
    let _ = put_all(sink, line.as_slice());
    Ok(())
}
