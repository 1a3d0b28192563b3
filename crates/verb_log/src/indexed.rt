//! A log with an index, which tells the kind of each entry in a constant time.
ghost use Rattle.std.specs.Prelude.{◌≡◌, ◌<◌, ◌≤◌, length, reverse, take, Some, IfOk, IfSome, slice_get};
ghost use Rattle.verb_log.specs.Replay.{kind_at, WellMade};
ghost use Rattle.verb_log.specs.Standings.{standing_of};

use crate::entry::Entry;
use crate::index::Index;
use crate::kind::Kind;
use crate::standing::Standing;
use node_words::Geometry;
use std::alloc::{AllocError, Global};
use std::marker::Model;

/// The entries of a log, with the numbers of those that link, take and publish each word. A clause sees the memory's
/// sizes and the entries.
#[derive(Debug, Drop)]
pub struct IndexedLog<'a> {
    geometry: Geometry,
    entries: &'a [Entry],
    index: Index,
}

impl<'a> Model for IndexedLog<'a> {
    ghost use Rattle.std.specs.Prelude.{reverse};
    ghost use Rattle.verb_log.specs.Recorded.{Listed};
    ghost use Rattle.verb_log.specs.Replay.{WellMade};
    ghost use Rattle.verb_log.specs.Indexed.{Tells};

    ghost Value = { Listed };

    ghost view = { λ log. record { geometry = log.geometry; entries = log.entries.now } };

    ghost invariant = { λ log. WellMade log.geometry log.entries.now × Tells log.geometry (reverse log.entries.now) log.index };
}

impl<'a> IndexedLog<'a> {
    /// The entries of a well made log with their index, which takes six words for each word of the memory.
    pub(crate) fn new(
        alloc: Global,
        geometry: &Geometry,
        entries: &'a [Entry],
    ) -> Result<IndexedLog<'a>, AllocError>
        requires { WellMade geometry.now entries.now }
        ensures geometry { IfOk result (λ log. log.geometry ≡ geometry.now) }
        ensures entries { IfOk result (λ log. log.entries ≡ entries.now) }
    {
        let mut index = Index::new(alloc, geometry)?;
        for (n, entry) in entries.iter().enumerate() {
            index.tell(geometry, &entries[..n], entry);
        }
        Ok(IndexedLog {
            geometry: *geometry,
            entries,
            index,
        })
    }

    /// The sizes of the memory.
    pub fn geometry(&self) -> &Geometry
        ensures { result.now ≡ self.now.geometry }
    {
        &self.geometry
    }

    /// How many entries there are.
    pub fn len(&self) -> u64
        ensures { result ≡ length self.now.entries }
    {
        self.entries.len() as u64
    }

    /// The entry of this number, counted from 0, which is below `len`.
    pub fn entry(&self, n: u64) -> Entry
        requires { n < length self.now.entries }
        ensures there { slice_get self.now.entries n ≡ Some result }
        ensures within { result.at < self.now.geometry.words }
    {
        entry_of(self.entries, n)
    }

    /// The kind of the entry of this number, below `len`, as `Log::kind_of` tells it, in a constant time.
    pub fn kind_of(&self, n: u64) -> Option<Kind>
        requires { n < length self.now.entries }
        ensures { result ≡ kind_at self.now.geometry self.now.entries n }
    {
        let entry = self.entry(n);
        self.standing(n, entry.at).kind_of(&self.geometry, &entry)
    }

    /// What the log of the first `n` entries says of an address.
    pub(crate) fn standing(&self, n: u64, at: u64) -> Standing
        requires position { n ≤ length self.now.entries }
        requires at { at < self.now.geometry.words }
        ensures standing { result ≡ standing_of self.now.geometry (reverse (take n self.now.entries)) at }
        ensures below { IfSome result.table (λ table. table ≤ at) }
    {
        self.index.standing(&self.geometry, self.entries, n, at)
    }
}

/// The entry of a number.
fn entry_of(entries: &[Entry], n: u64) -> Entry
    requires { n < length entries.now }
    ensures { slice_get entries.now n ≡ Some result }
{
    entries[n as usize]
}
