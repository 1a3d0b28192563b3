//! The words of the block that the parent's place names, as far as they were read.

ghost use Rattle.std.specs.Prelude.{◌≤◌};

/// The words that were read so far, of which there are 137 at most.
#[derive(Clone, Copy, Debug)]
pub struct ParentWords {
    words: [u64; 137],
    len: usize,
    ghost within: { len ≤ 137 },
}

impl ParentWords {
    ghost use Rattle.std.specs.Prelude.{◌≡◌, ◌+◌, ◌<◌, [], ◌∷◌, ◌++◌};
    ghost use Rattle.work_area.specs.ParentWords.{words_of};

    /// No words.
    pub fn new() -> ParentWords
        ensures words { words_of result ≡ [] }
        ensures len { result.len ≡ 0 }
    {
        ParentWords {
            words: [0; 137],
            len: 0,
        }
    }

    /// No words are kept from now on.
    pub fn clear(&mut self)
        ensures words { words_of self.new ≡ [] }
        ensures len { self.new.len ≡ 0 }
    {
        self.len = 0;
    }

    /// One more word was read.
    pub fn push(&mut self, word: u64)
        requires { self.old.len < 137 }
        ensures words { words_of self.new ≡ words_of self.old ++ word ∷ [] }
        ensures len { self.new.len ≡ self.old.len + 1 }
    {
        self.words[self.len] = word;
        self.len += 1;
    }

    /// The words in order.
    pub fn words(&self) -> &[u64]
        ensures { result.now ≡ words_of self.now }
    {
        &self.words[..self.len]
    }
}
