//! For each word of a memory the oldest entries of a log that linked its table, took it and published it.
ghost use Rattle.std.specs.Prelude.{◌≡◌, ◌<◌, ◌≤◌, [], ◌∷◌, length, reverse, take, IfOk, IfSome};
ghost use Rattle.node_words.specs.Roles.{first_table_of};
ghost use Rattle.verb_log.specs.Tables.{table_of};
ghost use Rattle.verb_log.specs.Links.{link_of, table_then, was_before};
ghost use Rattle.verb_log.specs.Standings.{standing_of};
ghost use Rattle.verb_log.specs.Indexed.{Tells};

use crate::entry::Entry;
use crate::links::tell;
use crate::reach::Reach;
use crate::role::first_table_of;
use crate::standing::Standing;
use node_words::Geometry;
use std::alloc::{AllocError, Global};

/// For each word the numbers of three entries, each the oldest of its sort.
#[derive(Debug, Drop)]
pub(crate) struct Index {
    /// It linked a table in which the word stands.
    linked: Vec<Option<u64>>,
    /// It took the word.
    taken: Vec<Option<u64>>,
    /// It published the word.
    published: Vec<Option<u64>>,
}

impl Index {
    /// The index of the log with no entry, which tells nothing.
    pub(crate) fn new(alloc: Global, geometry: &Geometry) -> Result<Index, AllocError>
        ensures { IfOk result (λ index. Tells geometry.now [] index) }
    {
        let words = geometry.words as usize;
        let mut linked = Vec::new(alloc);
        linked.resize(words, None)?;
        let mut taken = Vec::new(alloc);
        taken.resize(words, None)?;
        let mut published = Vec::new(alloc);
        published.resize(words, None)?;
        Ok(Index {
            linked,
            taken,
            published,
        })
    }

    /// What the log of the first `n` entries says of an address.
    pub(crate) fn standing(
        &self,
        geometry: &Geometry,
        entries: &[Entry],
        n: u64,
        at: u64,
    ) -> Standing
        requires tells { Tells geometry.now (reverse entries.now) self.now }
        requires position { n ≤ length entries.now }
        requires at { at < geometry.now.words }
        ensures standing { result ≡ standing_of geometry.now (reverse (take n entries.now)) at }
        ensures below { IfSome result.table (λ table. table ≤ at) }
    {
        Standing {
            table: self.table_at(geometry, entries, n, at),
            taken: was_before(self.taken[at as usize], n),
            published: was_before(self.published[at as usize], n),
        }
    }

    /// The table in which an address stands in the log of the first `n` entries.
    fn table_at(&self, geometry: &Geometry, entries: &[Entry], n: u64, at: u64) -> Option<u64>
        requires tells { Tells geometry.now (reverse entries.now) self.now }
        requires position { n ≤ length entries.now }
        requires at { at < geometry.now.words }
        ensures table { result ≡ table_of geometry.now (reverse (take n entries.now)) at }
        ensures below { IfSome result (λ table. table ≤ at) }
    {
        match first_table_of(geometry, at) {
            Some(table) => Some(table),
            None => self.linked_table_at(geometry, entries, n, at),
        }
    }

    /// The table of the oldest link in which an address stands, where one of the first `n` entries made it.
    fn linked_table_at(
        &self,
        geometry: &Geometry,
        entries: &[Entry],
        n: u64,
        at: u64,
    ) -> Option<u64>
        requires tells { Tells geometry.now (reverse entries.now) self.now }
        requires position { n ≤ length entries.now }
        requires at { at < geometry.now.words }
        ensures { result ≡ table_then n (link_of geometry.now (reverse entries.now) at) }
    {
        let _ = geometry;
        let number = self.linked[at as usize]?;
        if number < n {
            Some(entries[number as usize].new)
        } else {
            None
        }
    }

    /// Tells of one entry more, which follows these.
    pub(crate) fn tell(&mut self, geometry: &Geometry, before: &[Entry], entry: &Entry)
        requires tells { Tells geometry.now (reverse before.now) self.old }
        requires at { entry.now.at < geometry.now.words }
        ensures { Tells geometry.now (entry.now ∷ reverse before.now) self.new }
    {
        let number = before.len() as u64;
        let there = self.standing(geometry, before, number, entry.at);
        let reach = Reach::of(geometry, entry, &there);
        tell(&mut self.linked, &reach.linked, number);
        tell(&mut self.taken, &reach.taken, number);
        tell(&mut self.published, &reach.published, number);
    }
}

/// Whether a number is told and is below `n`.
fn was_before(number: Option<u64>, n: u64) -> bool
    ensures { result ≡ was_before n number }
{
    match number {
        Some(number) => number < n,
        None => false,
    }
}
