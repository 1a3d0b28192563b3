//! The tables that splits of a call have forgotten.
ghost use Rattle.std.specs.Prelude.{◌≡◌, ◌<◌, ◌≤◌, [], ◌∷◌, ◌++◌, length};
ghost use Rattle.call_texts.specs.State.{with_forgotten, forgetting};

use dir_cache::DirCache;
use std::marker::Model;

/// A list of up to 17 tables. None of its calls takes memory.
#[derive(Clone, Copy, Debug)]
pub struct Forgotten {
    tables: [u64; 17],
    len: u8,
}

impl Model for Forgotten {
    ghost use Rattle.std.specs.Prelude.{ℕ, ◌≤◌, List, length, take};
    ghost use Rattle.kv_block.specs.Filled.{filled, IsFilled, length-take_filled};

    ghost Value = { List ℕ };

    ghost view = { λ f. take f.len f.tables };

    ghost invariant = { λ f. (f.len ≤ 17) × IsFilled 17 f.len f.tables };

    ghost inverse = { λ xs. record { tables = filled 17 xs; len = length xs } };

    ghost inverse_ok = { λ f h i. record { tables = h.1.rest i; len = length-take_filled 17 f.len f.tables h.1 i } };
}

impl Forgotten {
    /// No table.
    pub fn new() -> Forgotten
        ensures { result ≡ [] }
    {
        Forgotten {
            tables: [0; 17],
            len: 0,
        }
    }

    // How many tables there are: up to 17.
    fn len(&self) -> usize
        ensures value { result ≡ length self.now }
        ensures most { result ≤ 17 }
    {
        self.len as usize
    }

    // The tables.
    fn tables(&self) -> &[u64]
        ensures { result.now ≡ self.now }
    {
        &self.tables[..self.len as usize]
    }

    // The list with a table appended.
    fn with(self, table: u64) -> Forgotten
        requires { length self < 17 }
        ensures { result ≡ self ++ table ∷ [] }
    {
        let mut tables = self.tables;
        tables[self.len as usize] = table;
        Forgotten {
            tables,
            len: self.len + 1,
        }
    }

    /// One more table, where there are fewer than 17.
    #[tactic(auto, using(crate::proofs::Forgets::adds))]
    pub fn push(&mut self, table: u64)
        ensures { self.new ≡ with_forgotten self.old table }
    {
        if self.len() < 17 {
            *self = self.with(table);
        }
    }

    /// The cache forgets each of them.
    pub fn forget_in(&self, cache: &mut DirCache)
        ensures cache { cache.new ≡ forgetting self.now cache.old }
        ensures depth { cache.new.depth ≡ cache.old.depth }
    {
        for table in self.tables() {
            cache.forget(*table);
        }
    }
}
