//! Numbers told for spans of words, the first of them for each word.
ghost use Rattle.std.specs.Prelude.{◌≡◌, ℕ, ◌<◌, length, None, slice_index_or};
ghost use Rattle.verb_log.specs.Indexed.{told_number};

use crate::reach::Span;

/// Tells `number` for each word of a span where no number is told already. A span that goes past the last word is told for
/// the words that are there.
pub(crate) fn tell(numbers: &mut [Option<u64>], span: &Span, number: u64)
    ensures told { (a : ℕ) → a < length numbers.old
        → slice_index_or numbers.new a None ≡ told_number span.now number numbers.old a }
    ensures len { length numbers.new ≡ length numbers.old }
{
    let words = numbers.len() as u64;
    let from = span.from.min(words) as usize;
    let to = span.from.saturating_add(span.count).min(words) as usize;
    for at in from..to {
        if numbers[at].is_none() {
            numbers[at] = Some(number);
        }
    }
}
