//! The walk over the words of all tables, and what it keeps.
ghost use Rattle.std.specs.Prelude.{◌≡◌, ◌≢◌, ℕ, ◌+◌, ◌*◌, ◌%◌, ◌<◌, ◌≤◌, ◌^◌, ◌↔◌, IsTrue, IfOk, OnOk, MatchOption, length, slice_index_or, [], ◌∷◌, ◌++◌, false};
ghost use Rattle.std.specs.BTreeMap.{IsEmpty};
ghost use Rattle.std.specs.List.{flat_map};
ghost use Rattle.key_hash.specs.Placing.{Pairs};
ghost use Rattle.node_words.specs.Addresses.{table_words};
ghost use Rattle.image_laws.specs.Walk.{TableWord, firsts, tables, words_of};
ghost use Rattle.image_laws.specs.Sound.{AreTaken, Rule};
ghost use Rattle.image_audit.specs.Breaks.{AllMeet, Breaks};
ghost use Rattle.image_audit.specs.Kept.{AreFree, AllSmall, IsKeptBlock, IsSmall, Judged, Kept, Marks, Walked, setting_of};

use crate::homes::is_at_home;
use crate::memory::Memory;
use crate::reading::{birth_word_of, depth_of, is_plain_from, live_block, read_pair};
use crate::regions::{are_free, mark};
use image_laws::ImageTable;
use key_hash::Placer;
use kv_block::Key;
use std::alloc::AllocError;
use std::collections::BTreeMap;

/// Above each address that may be taken.
const LIMIT: u64 = 1 << 24;

/// Whether a table of this birth depth and depth has a child of this level.
fn is_wanted(birth: u32, level: u32, depth: u32) -> bool
    ensures { IsTrue result ↔ ((birth ≤ level) × (level < depth)) }
{
    birth <= level && level < depth
}

/// What an audit keeps of the words that it has walked.
#[derive(Debug, Drop)]
pub(crate) struct Auditor {
    /// The tables so far, in the order of the walk.
    pub tables: Vec<ImageTable>,
    /// The cells of the words of the tables so far, without the first tables.
    pub marked: Vec<bool>,
    /// The slot words of the pairs so far, by their keys.
    pub blocks: BTreeMap<Key, u64>,
}

impl Auditor {
    /// Puts a table of so many words, all taken, behind the others. A refusal leaves the tables as they were.
    fn add<M: Memory>(
        &mut self,
        memory: &M,
        table: ImageTable,
        words: u64,
    ) -> Result<(), AllocError>
        requires cells { length self.old.marked.items ≡ M.cells memory.now }
        requires low { table.at ≤ 2 ^ 24 }
        requires few { words ≤ 2 ^ 24 }
        requires taken { AreTaken (M.shape memory.now) (M.words memory.now) table.at words }
        ensures tables { OnOk result (self.new.tables.items ≡ self.old.tables.items ++ table ∷ []) }
        ensures marked { OnOk result (Marks (M.place memory.now) self.old.marked.items self.new.marked.items table.at words) }
        ensures blocks { OnOk result (self.new.blocks ≡ self.old.blocks) }
    {
        self.tables.push(table)?;
        mark(memory, &mut self.marked, table.at, words);
        Ok(())
    }

    /// Whether so many words from an address on were all taken and belong to no table.
    fn is_free<M: Memory>(&self, memory: &M, at: u64, count: u64) -> bool
        requires cells { length self.now.marked.items ≡ M.cells memory.now }
        requires low { at ≤ 2 ^ 24 }
        requires few { count ≤ 2 ^ 24 }
        ensures { IsTrue result ↔ AreFree (M.shape memory.now) (M.words memory.now) (M.place memory.now) self.now.marked.items at count }
    {
        are_free(memory, &self.marked, at, count)
    }

    /// Whether a child word meets its rule; where it does, the child stands behind the tables.
    fn check_child<M: Memory>(
        &mut self,
        memory: &M,
        table: &ImageTable,
        level: u32,
    ) -> Result<bool, AllocError>
        requires table { IsSmall table.now }
        requires level { level < 16 }
        requires cells { length self.old.marked.items ≡ M.cells memory.now }
        ensures judged { IfOk result (λ fine. (listed : Pairs) → Judged (setting_of (M.shape memory.now) listed) (M.words memory.now)
            (M.place memory.now) (M.cells memory.now) (TableWord table.now (4 + level)) fine
            self.old.tables.items self.old.marked.items self.old.blocks self.new.tables.items self.new.marked.items self.new.blocks) }
        ensures cells { IfOk result (λ _. length self.new.marked.items ≡ M.cells memory.now) }
        ensures small { IfOk result (λ _. AllSmall self.old.tables.items → AllSmall self.new.tables.items) }
    {
        let depth = depth_of(memory.word(table.at + 1));
        let child = memory.word(table.at + 4 + u64::from(level));
        let wanted = is_wanted(table.depth, level, depth);
        if child == 0 {
            return Ok(!wanted);
        }
        if !wanted {
            return Ok(false);
        }
        if child >= LIMIT {
            return Ok(false);
        }
        let words = memory.geometry().table_words();
        if !self.is_free(memory, child, words) {
            return Ok(false);
        }
        self.add(
            memory,
            ImageTable {
                at: child,
                depth: level + 1,
                suffix: table.suffix + (1 << level),
                parent: table.at,
            },
            words,
        )?;
        Ok(true)
    }

    /// Whether word `offset` of a table meets its rule; where it does, what it says is kept.
    fn check_word<M: Memory, P: Placer>(
        &mut self,
        memory: &M,
        placer: &P,
        table: &ImageTable,
        offset: u32,
    ) -> Result<bool, AllocError>
        requires table { IsSmall table.now }
        requires offset { offset < table_words (M.shape memory.now) }
        requires cells { length self.old.marked.items ≡ M.cells memory.now }
        ensures judged { IfOk result (λ fine. Judged (setting_of (M.shape memory.now) (P.listed placer.now)) (M.words memory.now)
            (M.place memory.now) (M.cells memory.now) (TableWord table.now offset) fine
            self.old.tables.items self.old.marked.items self.old.blocks self.new.tables.items self.new.marked.items self.new.blocks) }
        ensures cells { IfOk result (λ _. length self.new.marked.items ≡ M.cells memory.now) }
        ensures small { IfOk result (λ _. AllSmall self.old.tables.items → AllSmall self.new.tables.items) }
    {
        let word = memory.word(table.at + u64::from(offset));
        if offset == 0 {
            return Ok(word == birth_word_of(table));
        }
        if offset == 1 {
            return Ok(is_plain_from(word, table.depth, memory.geometry().max_depth));
        }
        if offset < 4 {
            return Ok(word == 0);
        }
        if offset < 20 {
            let fine = self.check_child(memory, table, offset - 4)?;
            return Ok(fine);
        }
        let place = offset - 20;
        if place % 8 != 0 {
            let fine = self.check_slot(memory, placer, table, place)?;
            return Ok(fine);
        }
        if place % 24 == 8 {
            return Ok(word == 0);
        }
        Ok(word == memory.word(table.at + 1))
    }

    /// Whether a slot meets its rule; where it does, its word is kept by the key of its block.
    fn check_slot<M: Memory, P: Placer>(
        &mut self,
        memory: &M,
        placer: &P,
        table: &ImageTable,
        place: u32,
    ) -> Result<bool, AllocError>
        requires table { IsSmall table.now }
        requires place { place < 24 * (M.shape memory.now).groups }
        requires slot { place % 8 ≢ 0 }
        requires cells { length self.old.marked.items ≡ M.cells memory.now }
        ensures judged { IfOk result (λ fine. Judged (setting_of (M.shape memory.now) (P.listed placer.now)) (M.words memory.now)
            (M.place memory.now) (M.cells memory.now) (TableWord table.now (20 + place)) fine
            self.old.tables.items self.old.marked.items self.old.blocks self.new.tables.items self.new.marked.items self.new.blocks) }
        ensures cells { IfOk result (λ _. length self.new.marked.items ≡ M.cells memory.now) }
        ensures small { IfOk result (λ _. AllSmall self.old.tables.items → AllSmall self.new.tables.items) }
    {
        let word = memory.word(table.at + 20 + u64::from(place));
        if word == 0 {
            return Ok(true);
        }
        let Some(slot) = live_block(word) else {
            return Ok(false);
        };
        let Some(pair) = read_pair(memory, &slot) else {
            return Ok(false);
        };
        let key = pair.0;
        let depth = depth_of(memory.word(table.at + 1));
        let hash = placer.hash(&key);
        if !is_at_home(&memory.geometry(), hash, table, depth, place, slot.fp) {
            return Ok(false);
        }
        let fresh = self.keep(key, word)?;
        Ok(fresh)
    }

    /// Keeps a slot word by its key, which is not kept yet, and says whether it was not.
    fn keep(&mut self, key: Key, word: u64) -> Result<bool, AllocError>
        ensures fresh { IfOk result (λ fresh. IsKeptBlock fresh self.old.blocks self.new.blocks key word) }
        ensures tables { self.new.tables.items ≡ self.old.tables.items }
        ensures marked { self.new.marked.items ≡ self.old.marked.items }
    {
        match self.blocks.insert(key, word)? {
            Some(_) => Ok(false),
            None => Ok(true),
        }
    }

    /// Walks the words of a table: None where each meets its rule, else the address of the first that does not.
    fn walk_table<M: Memory, P: Placer>(
        &mut self,
        memory: &M,
        placer: &P,
        table: &ImageTable,
    ) -> Result<Option<u64>, AllocError>
        requires table { IsSmall table.now }
        requires cells { length self.old.marked.items ≡ M.cells memory.now }
        ensures walked { IfOk result (λ stop. Walked (setting_of (M.shape memory.now) (P.listed placer.now)) (M.words memory.now)
            (M.place memory.now) (M.cells memory.now) (words_of (M.shape memory.now) table.now) stop
            self.old.tables.items self.old.marked.items self.old.blocks self.new.tables.items self.new.marked.items self.new.blocks) }
        ensures cells { IfOk result (λ _. length self.new.marked.items ≡ M.cells memory.now) }
        ensures small { IfOk result (λ _. AllSmall self.old.tables.items → AllSmall self.new.tables.items) }
    {
        let words = memory.geometry().table_words();
        for offset in 0..words {
            let fine = self.check_word(memory, placer, table, offset as u32)?;
            if !fine {
                return Ok(Some(table.at + offset));
            }
        }
        Ok(None)
    }

    /// Walks the words of all tables, first tables first and then each table's children by level: None where each meets its
    /// rule, else the address of the first that does not.
    pub(crate) fn walk_tables<M: Memory, P: Placer>(
        &mut self,
        memory: &M,
        placer: &P,
    ) -> Result<Option<u64>, AllocError>
        requires tables { self.old.tables.items ≡ firsts (M.shape memory.now) }
        requires small { AllSmall self.old.tables.items }
        requires cells { length self.old.marked.items ≡ M.cells memory.now }
        requires unmarked { (j : ℕ) → slice_index_or self.old.marked.items j false ≡ false }
        requires blocks { IsEmpty self.old.blocks }
        ensures small { IfOk result (λ _. AllSmall self.new.tables.items) }
        ensures walked { IfOk result (λ stop. MatchOption stop
            (AllMeet (Rule (setting_of (M.shape memory.now) (P.listed placer.now)) (M.words memory.now)) [] (flat_map (words_of (M.shape memory.now)) (tables (M.shape memory.now) (M.words memory.now)))
            × Kept (setting_of (M.shape memory.now) (P.listed placer.now)) (M.words memory.now) (M.place memory.now) (M.cells memory.now) (flat_map (words_of (M.shape memory.now)) (tables (M.shape memory.now) (M.words memory.now))) self.new.tables.items self.new.marked.items self.new.blocks)
            (λ at. Breaks (Rule (setting_of (M.shape memory.now) (P.listed placer.now)) (M.words memory.now)) [] (flat_map (words_of (M.shape memory.now)) (tables (M.shape memory.now) (M.words memory.now))) at)) }
    {
        let mut index = 0;
        while index < self.tables.len() {
            let table = self.tables[index];
            let stop = self.walk_table(memory, placer, &table)?;
            match stop {
                Some(at) => return Ok(Some(at)),
                None => index += 1,
            }
        }
        Ok(None)
    }
}
