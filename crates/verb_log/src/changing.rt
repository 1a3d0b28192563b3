//! The changes of the map that a log made.
ghost use Rattle.std.specs.Prelude.{◌≡◌, ◌<◌, length, reverse, take, Some, slice_get, IfOk};
ghost use Rattle.std.specs.Option.{option_to_list};
ghost use Rattle.node_words.specs.Opening.{opening};
ghost use Rattle.verb_log.specs.declared.entry.Entry.{Entry};
ghost use Rattle.verb_log.specs.Kinds.{kind};
ghost use Rattle.verb_log.specs.Changes.{changes_by, changes};
ghost use Rattle.verb_log.specs.Replay.{replay};

use crate::blocks::slot_change;
use crate::indexed::IndexedLog;
use crate::role::Role;
use kv_block::{Change, Changes};
use node_words::Geometry;
use std::alloc::{AllocError, Global};

/// The opening words of a memory, by address.
fn opening_words(alloc: Global, geometry: &Geometry) -> Result<Vec<u64>, AllocError>
    ensures { IfOk result (λ words. words.items ≡ opening geometry.now) }
{
    let mut words = Vec::new(alloc);
    for at in 0..geometry.words {
        words.push(geometry.opening_word(at))?;
    }
    Ok(words)
}

impl<'a> IndexedLog<'a> {
    /// The changes of the map that the log makes, as `Log::changes` lists them. It goes over the entries once, over words
    /// of its own.
    pub fn changes(&self, alloc: Global) -> Result<Changes, AllocError>
        ensures { IfOk result (λ list. list.items ≡ changes self.now.geometry (reverse self.now.entries)) }
    {
        let mut words = opening_words(alloc, self.geometry())?;
        let mut changes = Changes::new(alloc);
        for n in 0..self.len() {
            if let Some(change) = self.change_by(n, &words) {
                changes.push(change)?;
            }
            let entry = self.entry(n);
            words[entry.at as usize] = entry.new;
        }
        Ok(changes)
    }

    /// The change that the entry of this number makes, over the words that stand before it.
    fn change_by(&self, n: u64, words: &[u64]) -> Option<Change>
        requires place { n < length self.now.entries }
        requires words { words.now ≡ replay self.now.geometry (take n self.now.entries) }
        ensures { (e : Entry) → slice_get self.now.entries n ≡ Some e
            → option_to_list result ≡ changes_by self.now.geometry (reverse (take n self.now.entries)) e
            (kind self.now.geometry (reverse (take n self.now.entries)) e) }
    {
        let entry = self.entry(n);
        match self
            .standing(n, entry.at)
            .judged_role(self.geometry(), entry.at)
        {
            Role::Slot => slot_change(words, &entry),
            _ => None,
        }
    }
}
