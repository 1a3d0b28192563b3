//! The words of a block while they are read one by one.
ghost use Rattle.std.specs.Prelude.{◌≡◌, ◌+◌, ◌<◌, ◌≤◌, [], ◌∷◌, ◌++◌, length, slice_index};

use crate::block::BLOCK_WORDS;
use std::marker::Model;

/// At most 137 words, in order. None of its calls takes memory.
#[derive(Debug, Drop)]
pub struct Words {
    words: [u64; 137],
    len: u8,
}

impl Model for Words {
    ghost use Rattle.std.specs.Prelude.{ℕ, ◌≤◌, List, take};

    ghost Value = { List ℕ };

    ghost view = { λ b. take b.len b.words };

    ghost invariant = { λ b. b.len ≤ 137 };
}

impl Words {
    /// No word.
    pub fn new() -> Words
        ensures { result ≡ [] }
    {
        Words {
            words: [0; BLOCK_WORDS],
            len: 0,
        }
    }

    /// How many words there are: at most 137.
    pub fn len(&self) -> u8
        ensures value { result ≡ length self.now }
        ensures most { result ≤ 137 }
    {
        self.len
    }

    /// The word at place `i`, counted from 0.
    pub fn word(&self, i: u8) -> u64
        requires { i < length self.now }
        ensures { result ≡ slice_index self.now i }
    {
        self.words[i as usize]
    }

    /// The words, in order.
    pub fn words(&self) -> &[u64]
        ensures { result.now ≡ self.now }
    {
        &self.words[..self.len as usize]
    }

    /// Puts a word behind them.
    pub fn push(&mut self, word: u64)
        requires { length self.old < 137 }
        ensures { self.new ≡ self.old ++ word ∷ [] }
    {
        self.words[self.len as usize] = word;
        self.len += 1;
    }

    /// Leaves no word.
    pub fn clear(&mut self)
        ensures { self.new ≡ [] }
    {
        self.len = 0;
    }
}
