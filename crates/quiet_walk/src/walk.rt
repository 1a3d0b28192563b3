//! The first word of a walk that is not quiet.
ghost use Rattle.std.specs.Prelude.{◌≡◌, ◌<◌, ◌^◌, IfOk, MatchOption};
ghost use Rattle.std.specs.List.{flat_map};
ghost use Rattle.image_laws.specs.Walk.{tables, words_of};
ghost use Rattle.image_audit.specs.Kept.{AllSmall};
ghost use Rattle.quiet_walk.specs.Loud.{AllQuiet, IsFirstLoud, Loud};

use crate::listing::list_tables;
use crate::quiet::is_quiet;
use image_audit::Memory;
use image_laws::ImageTable;
use std::alloc::{AllocError, Global};

/// Walks the words of a table: None where each is quiet, else the address of the first that is not.
fn loud_in_table<M: Memory>(memory: &M, table: &ImageTable) -> Option<u64>
    requires { table.now.at < 2 ^ 24 }
    ensures { MatchOption result (AllQuiet (M.words memory.now) (words_of (M.shape memory.now) table.now)) (Loud (M.words memory.now) (words_of (M.shape memory.now) table.now)) }
{
    let words = memory.geometry().table_words();
    for offset in 0..words {
        if !is_quiet(memory, table, offset) {
            return Some(table.at + offset);
        }
    }
    None
}

/// Walks the words of tables, one table after the other: None where each is quiet, else the address of the first that is not.
fn loud_in_tables<M: Memory>(memory: &M, tables: &[ImageTable]) -> Option<u64>
    requires { AllSmall tables.now }
    ensures { MatchOption result (AllQuiet (M.words memory.now) (flat_map (words_of (M.shape memory.now)) tables.now)) (Loud (M.words memory.now) (flat_map (words_of (M.shape memory.now)) tables.now)) }
{
    for index in 0..tables.len() {
        let loud = loud_in_table(memory, &tables[index]);
        match loud {
            Some(at) => return Some(at),
            None => {}
        }
    }
    None
}

/// Walks the words of a memory: None exactly where they are quiet, else the address of the first word of the walk that is not. The
/// tables that its words lead to have small numbers.
pub fn first_loud<M: Memory>(alloc: Global, memory: &M) -> Result<Option<u64>, AllocError>
    requires { AllSmall (tables (M.shape memory.now) (M.words memory.now)) }
    ensures { IfOk result (λ loud. IsFirstLoud (M.shape memory.now) (M.words memory.now) loud) }
{
    let tables = list_tables(alloc, memory)?;
    Ok(loud_in_tables(memory, &tables))
}
