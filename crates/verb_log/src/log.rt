//! The log of a run, and the words after it.
ghost use Rattle.std.specs.Prelude.{◌≡◌, ◌+◌, ◌<◌, ◌≤◌, [], ◌∷◌, ◌++◌, length, reverse, Some, slice_get, slice_index, OnOk, OnErr, IfOk, IsOk};
ghost use Rattle.verb_log.specs.Replay.{replay, WellMade};
ghost use Rattle.verb_log.specs.Changes.{changes};

use crate::entry::Entry;
use crate::indexed::IndexedLog;
use kv_block::Changes;
use node_words::Geometry;
use std::alloc::{AllocError, Global};
use std::marker::Model;

/// The entries that the writes and won swaps of a run leave, oldest first, over the opening words of a memory.
/// It is well made: each entry stands below the memory's words, and its old word is the one that stands there
/// before it. A clause sees the memory's sizes, the entries, and the room: how many more fit before memory is
/// asked for.
#[derive(Debug, Drop)]
pub struct Log {
    geometry: Geometry,
    entries: Vec<Entry>,
}

impl Model for Log {
    ghost use Rattle.std.specs.Prelude.{◌-◌, vec_len, vec_capacity};
    ghost use Rattle.verb_log.specs.Recorded.{Recorded};
    ghost use Rattle.verb_log.specs.Replay.{WellMade};

    ghost Value = { Recorded };

    ghost view = { λ log. record {
      geometry = log.geometry;
      entries = log.entries.items;
      room = vec_capacity log.entries - vec_len log.entries;
    } };

    ghost invariant = { λ log. WellMade log.geometry log.entries.items };
}

impl Log {
    /// The log with no entry. It takes no memory.
    pub fn new(alloc: Global, geometry: Geometry) -> Log
        ensures entries { result.entries ≡ [] }
        ensures geometry { result.geometry ≡ geometry }
        ensures made { WellMade result.geometry result.entries }
    {
        Log {
            geometry,
            entries: Vec::new(alloc),
        }
    }

    /// Makes room for at least one more entry. A refusal changes nothing.
    pub fn reserve(&mut self) -> Result<(), AllocError>
        ensures entries { self.new.entries ≡ self.old.entries }
        ensures geometry { self.new.geometry ≡ self.old.geometry }
        ensures made { WellMade self.new.geometry self.new.entries }
        ensures room { OnOk result (1 ≤ self.new.room) }
        ensures refused { OnErr result (self.new ≡ self.old) }
        ensures grows { self.old.room ≤ self.new.room }
        ensures succeeds { 1 ≤ self.old.room → IsOk result }
    {
        self.entries.reserve(1)
    }

    /// The sizes of the memory.
    pub fn geometry(&self) -> &Geometry
        ensures value { result.now ≡ self.now.geometry }
        ensures made { WellMade self.now.geometry self.now.entries }
    {
        &self.geometry
    }

    /// How many entries there are.
    pub fn len(&self) -> u64
        ensures len { result ≡ length self.now.entries }
        ensures made { WellMade self.now.geometry self.now.entries }
    {
        self.entries.len() as u64
    }

    /// The entry of this number, counted from 0, which is below `len`.
    pub fn entry(&self, n: u64) -> Entry
        requires { n < length self.now.entries }
        ensures there { slice_get self.now.entries n ≡ Some result }
        ensures within { result.at < self.now.geometry.words }
    {
        self.entries[n as usize]
    }

    /// The word that stands at an address below `words` after the log: the newest that was put there, else the
    /// opening's. It looks back from the newest entry, over all entries at most.
    pub fn word(&self, at: u64) -> u64
        requires { at < self.now.geometry.words }
        ensures { result ≡ slice_index (replay self.now.geometry self.now.entries) at }
    {
        for n in (0..self.entries.len()).rev() {
            let entry = self.entries[n];
            if entry.at == at {
                return entry.new;
            }
        }
        self.geometry.opening_word(at)
    }

    /// Appends an entry, which stands below the memory's words and whose old word is the one that stands at its
    /// address. It answers Ok where there is room for one more. A refusal leaves the log as it was. Over many calls it
    /// costs a constant time for each entry.
    #[tactic(auto, using(crate::proofs::InOrder::pushes))]
    pub fn push(&mut self, entry: Entry) -> Result<(), AllocError>
        requires within { entry.at < self.old.geometry.words }
        requires old { entry.old ≡ slice_index (replay self.old.geometry self.old.entries) entry.at }
        ensures pushed { OnOk result (self.new.entries ≡ self.old.entries ++ entry ∷ []) }
        ensures made { WellMade self.new.geometry self.new.entries }
        ensures geometry { self.new.geometry ≡ self.old.geometry }
        ensures room { OnOk result (self.old.room ≤ self.new.room + 1) }
        ensures refused { OnErr result (self.new ≡ self.old) }
        ensures succeeds { 1 ≤ self.old.room → IsOk result }
    {
        self.entries.reserve(1)?;
        self.entries.push_reserved(entry);
        Ok(())
    }

    /// The log with an index, which tells each kind in a constant time. The index takes six words for each word of the
    /// memory, and its making a constant time for each entry and for each word that an entry links, takes or publishes.
    pub fn indexed(&self, alloc: Global) -> Result<IndexedLog<'_>, AllocError>
        ensures geometry { IfOk result (λ log. log.geometry ≡ self.now.geometry) }
        ensures entries { IfOk result (λ log. log.entries ≡ self.now.entries) }
    {
        IndexedLog::new(alloc, &self.geometry, &self.entries)
    }

    /// The changes of the map that the log makes, oldest first: a Commit and a Replace set the pair of the block
    /// that the new word names, and a Remove takes away the pair of the block that the old word names. An entry
    /// whose block does not read as a pair, which no legal log has, gives none. It makes the index by itself.
    pub fn changes(&self, alloc: Global) -> Result<Changes, AllocError>
        ensures { IfOk result (λ list. list.items ≡ changes self.now.geometry (reverse self.now.entries)) }
    {
        self.indexed(alloc)?.changes(alloc)
    }
}
