//! Items that are kept as words.
ghost use Rattle.std.specs.Prelude.{◌≡◌, ◌+◌, ◌≤◌, ◌++◌, length, take, drop, slice_index, vec_len, vec_capacity};
ghost use Rattle.item_list.specs.Numbers.{number_at};

/// An item that is packed into words and read back exactly.
pub trait Pack: Copy {
    ghost use Rattle.std.specs.Prelude.{ℕ, List};

    /// The greatest number of words of an item.
    const MOST: usize;

    // That number, as clauses name it.
    ghost MOST: { ℕ };

    // The words of an item.
    ghost packed: { Self → List ℕ };

    // The item that words tell. Any words tell one.
    ghost told: { List ℕ → Self };

    /// Appends the words of the item, for which there is room. They tell the item.
    fn pack(&self, words: &mut Vec<u64>)
        requires room { vec_len words.old + MOST ≤ vec_capacity words.old }
        ensures items { words.new.items ≡ words.old.items ++ packed self.now }
        ensures capacity { vec_capacity words.old ≤ vec_capacity words.new }
        ensures most { length (packed self.now) ≤ MOST }
        ensures told { told (packed self.now) ≡ self.now };

    /// The item that words tell.
    fn unpack(words: &[u64]) -> Self
        ensures { result ≡ told words.now };
}

/// The word at place `i`, counted from 0; 0 past the end.
pub fn word_at(words: &[u64], i: usize) -> u64
    ensures { result ≡ slice_index words.now i }
{
    if i < words.len() { words[i] } else { 0 }
}

/// The number of 32 bits that the word at place `i` tells.
pub fn number_at(words: &[u64], i: usize) -> u32
    ensures { result ≡ number_at words.now i }
{
    (word_at(words, i) % 4294967296) as u32
}

/// The first `count` words, or all where there are fewer.
pub fn words_to(words: &[u64], count: usize) -> &[u64]
    ensures { result.now ≡ take count words.now }
{
    if count < words.len() {
        &words[..count]
    } else {
        words
    }
}

/// The words behind the first `count`; none where there are no more.
pub fn words_from(words: &[u64], count: usize) -> &[u64]
    ensures { result.now ≡ drop count words.now }
{
    if count < words.len() {
        &words[count..]
    } else {
        &[]
    }
}
