//! Words by address in chunks, which are 0 where nothing was put.
ghost use Rattle.std.specs.Prelude.{◌≡◌, All, IfOk, length};
ghost use Rattle.sparse_words.specs.Chunks.{IsChunk, IsZero, IsEmpty};

use std::alloc::{AllocError, Global};

// Chunks of 8,192 words, of which those that nothing was put into are empty or behind the last one that is told, and a chunk of
// zeros to spare, or none.
#[derive(Debug, Drop)]
pub struct Chunks {
    alloc: Global,
    chunks: Vec<Vec<u64>>,
    spare: Vec<u64>,
    ghost whole: { All IsChunk chunks.items },
    ghost ready: { IsChunk spare × All IsZero spare.items },
}

impl Chunks {
    ghost use Rattle.std.specs.Prelude.{ℕ, ◌+◌, ◌*◌, ◌/◌, ◌%◌, ◌<◌, ◌≤◌, ◌==◌, if◌then◌else◌, Vec, vec_capacity, [], Some, slice_get, OnOk, OnErr, IsOk};
    ghost use Rattle.std.specs.declared.alloc.Global.{Global};
    ghost use Rattle.sparse_words.specs.Stored.{word_of};

    // Words that are all 0, with room to tell of the chunks of addresses below `len`, and no spare chunk.
    #[tactic(auto, using(crate::proofs::ChunkWords::empties))]
    pub fn zeroed(alloc: Global, len: u64) -> Result<Chunks, AllocError>
        ensures zero { IfOk result (λ c. (a : ℕ) → word_of c a ≡ 0) }
        ensures wide { IfOk result (λ c. len < 8192 * vec_capacity c.chunks) }
        ensures spare { IfOk result (λ c. c.spare.items ≡ []) }
    {
        Ok(Chunks {
            alloc,
            chunks: Vec::with_capacity(alloc, (len / 8192 + 1) as usize)?,
            spare: Vec::new(alloc),
        })
    }

    // Tells of the chunks up to this one, of which there is room to tell. It takes no memory.
    #[tactic(auto, using(crate::proofs::ChunkWords::reaches))]
    fn reach(&mut self, i: usize)
        requires { i < vec_capacity self.old.chunks }
        ensures words { (a : ℕ) → word_of self.new a ≡ word_of self.old a }
        ensures told { i < length self.new.chunks.items }
        ensures capacity { vec_capacity self.old.chunks ≤ vec_capacity self.new.chunks }
        ensures spare { self.new.spare ≡ self.old.spare }
    {
        while self.chunks.len() <= i {
            self.chunks.push_reserved(Vec::new(self.alloc));
        }
    }

    // Makes the spare chunk, where there is none. A refusal changes nothing.
    #[tactic(auto, using(crate::proofs::ChunkWords::spares))]
    pub fn reserve(&mut self) -> Result<(), AllocError>
        ensures words { self.new.chunks ≡ self.old.chunks }
        ensures spare { OnOk result (length self.new.spare.items ≡ 8192) }
        ensures refused { OnErr result (length self.new.spare.items ≡ length self.old.spare.items) }
        ensures succeeds { length self.old.spare.items ≡ 8192 → IsOk result }
    {
        if self.spare.is_empty() {
            self.spare.resize(8192, 0)?;
        }
        Ok(())
    }

    // The word at an address.
    pub fn word(&self, at: u64) -> u64
        ensures { result ≡ word_of self.now at }
    {
        match self.chunks.get((at / 8192) as usize) {
            Some(chunk) => match chunk.get((at % 8192) as usize) {
                Some(word) => *word,
                None => 0,
            },
            None => 0,
        }
    }

    // Makes the chunk of an address that is told, where nothing was put into it, of the spare one.
    #[tactic(auto, using(crate::proofs::ChunkWords::opens))]
    fn open(&mut self, at: u64)
        requires place { at / 8192 < length self.old.chunks.items }
        requires spare { length self.old.spare.items ≡ 8192 }
        ensures words { (a : ℕ) → word_of self.new a ≡ word_of self.old a }
        ensures there { (c : Vec ℕ Global) → slice_get self.new.chunks.items (at / 8192) ≡ Some c → length c.items ≡ 8192 }
        ensures len { length self.new.chunks.items ≡ length self.old.chunks.items }
        ensures capacity { vec_capacity self.old.chunks ≤ vec_capacity self.new.chunks }
    {
        let i = (at / 8192) as usize;
        if self.chunks[i].is_empty() {
            std::mem::swap(&mut self.chunks[i], &mut self.spare);
        }
    }

    // Puts a word at an address whose chunk is made.
    #[tactic(auto, using(crate::proofs::ChunkWords::puts))]
    fn put_there(&mut self, at: u64, word: u64)
        requires place { at / 8192 < length self.old.chunks.items }
        requires there { (c : Vec ℕ Global) → slice_get self.old.chunks.items (at / 8192) ≡ Some c → length c.items ≡ 8192 }
        ensures words { (a : ℕ) → word_of self.new a ≡ (if a == at then word else word_of self.old a) }
        ensures capacity { vec_capacity self.old.chunks ≤ vec_capacity self.new.chunks }
    {
        self.chunks[(at / 8192) as usize][(at % 8192) as usize] = word;
    }

    // Puts a word at an address of whose chunk there is room to tell. It takes no memory.
    pub fn put(&mut self, at: u64, word: u64)
        requires place { at / 8192 < vec_capacity self.old.chunks }
        requires spare { length self.old.spare.items ≡ 8192 }
        ensures words { (a : ℕ) → word_of self.new a ≡ (if a == at then word else word_of self.old a) }
        ensures capacity { vec_capacity self.old.chunks ≤ vec_capacity self.new.chunks }
    {
        self.reach((at / 8192) as usize);
        self.open(at);
        self.put_there(at, word);
    }
}
