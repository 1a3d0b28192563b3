//! The words as a list.
use crate::chunks::Chunks;
use std::alloc::{AllocError, Global};
use std::marker::Model;

/// A list of words, all 0 at first, which takes memory only where it was written. A clause sees the words in order of their
/// addresses, and the room: how many writes need no memory, which is 0 or 1.
#[derive(Debug, Drop)]
pub struct SparseWords {
    len: u64,
    chunks: Chunks,
}

impl Model for SparseWords {
    ghost use Rattle.std.specs.Prelude.{◌*◌, ◌≤◌, length, vec_capacity};
    ghost use Rattle.sparse_words.specs.Words.{Words, listed, room_of};
    ghost use Rattle.sparse_words.specs.Stored.{word_of};

    ghost Value = { Words };

    ghost view = { λ words. record { items = listed words.len (word_of words.chunks); room = room_of words.chunks.spare.items } };

    ghost invariant = { λ words. words.len ≤ 8192 * vec_capacity words.chunks.chunks };
}

impl SparseWords {
    ghost use Rattle.std.specs.Prelude.{◌≡◌, ◌≤◌, ◌<◌, ◌+◌, length, replicate, slice_index, slice_set, IfOk, OnOk, OnErr, IsOk};

    /// So many words, all 0, with no room.
    #[tactic(auto, using(crate::proofs::Lists::lists))]
    pub fn zeroed(alloc: Global, len: u64) -> Result<SparseWords, AllocError>
        ensures items { IfOk result (λ words. words.items ≡ replicate len 0) }
        ensures room { IfOk result (λ words. words.room ≡ 0) }
    {
        Ok(SparseWords {
            len,
            chunks: Chunks::zeroed(alloc, len)?,
        })
    }

    /// How many words there are.
    pub fn len(&self) -> u64
        ensures { result ≡ length self.now.items }
    {
        self.len
    }

    /// Makes room for one write, wherever it goes. A refusal changes nothing.
    pub fn reserve(&mut self) -> Result<(), AllocError>
        ensures items { self.new.items ≡ self.old.items }
        ensures room { OnOk result (self.new.room ≡ 1) }
        ensures refused { OnErr result (self.new ≡ self.old) }
        ensures succeeds { 1 ≤ self.old.room → IsOk result }
    {
        self.chunks.reserve()
    }

    /// The word at an address below `len`.
    pub fn get(&self, at: u64) -> u64
        requires { at < length self.now.items }
        ensures { result ≡ slice_index self.now.items at }
    {
        self.chunks.word(at)
    }

    /// Puts a word at an address below `len`. It takes no memory, and leaves the room where it writes into a chunk that is
    /// made already.
    pub fn set(&mut self, at: u64, word: u64)
        requires place { at < length self.old.items }
        requires room { 1 ≤ self.old.room }
        ensures items { self.new.items ≡ slice_set self.old.items at word }
        ensures room { self.old.room ≤ self.new.room + 1 }
    {
        self.chunks.put(at, word);
    }
}
