//! The audit of words.
ghost use Rattle.std.specs.Prelude.{◌≡◌, IfOk, []};
ghost use Rattle.std.specs.List.{flat_map};
ghost use Rattle.image_laws.specs.Walk.{firsts, tables, words_of};
ghost use Rattle.image_laws.specs.Sound.{Rule};
ghost use Rattle.image_audit.specs.Breaks.{AllMeet};
ghost use Rattle.image_audit.specs.Kept.{AllSmall, Kept, setting_of};
ghost use Rattle.image_audit.specs.Outcome.{IsAudit};

use crate::auditor::Auditor;
use crate::entries::{index, two_to, walk_directory};
use crate::filling::fill_map;
use crate::memory::Memory;
use image_laws::ImageTable;
use key_hash::Placer;
use map_model::MapMachine;
use node_words::Geometry;
use std::alloc::{AllocError, Global};
use std::collections::BTreeMap;

/// What an audit says of words.
#[derive(Debug, Drop)]
pub enum Audit {
    /// They are sound, and this is the map of the slots that answer.
    Sound(MapMachine),
    /// They are not: this is the address of the first word of the walk that breaks its rule.
    Bad { at: u64 },
}

/// The first tables of the walk, by index: 2^first_depth of them.
pub fn first_tables(alloc: Global, geometry: &Geometry) -> Result<Vec<ImageTable>, AllocError>
    ensures { IfOk result (λ tables. tables.items ≡ firsts geometry.now) }
{
    let mut tables = Vec::new(alloc);
    let count = two_to(geometry.first_depth);
    for j in 0..count {
        tables.push(ImageTable {
            at: geometry.first_table(j),
            depth: geometry.first_depth,
            suffix: j as u32,
            parent: 0,
        })?;
    }
    Ok(tables)
}

/// Ends an audit after the words of all tables.
fn audit_directory<M: Memory, P: Placer>(
    alloc: Global,
    memory: &M,
    placer: &P,
    auditor: Auditor,
) -> Result<Audit, AllocError>
    requires meets { AllMeet (Rule (setting_of (M.shape memory.now) (P.listed placer.now)) (M.words memory.now)) [] (flat_map (words_of (M.shape memory.now)) (tables (M.shape memory.now) (M.words memory.now))) }
    requires kept { Kept (setting_of (M.shape memory.now) (P.listed placer.now)) (M.words memory.now) (M.place memory.now) (M.cells memory.now) (flat_map (words_of (M.shape memory.now)) (tables (M.shape memory.now) (M.words memory.now))) auditor.tables.items auditor.marked.items auditor.blocks }
    requires small { AllSmall auditor.tables.items }
    ensures { IfOk result (λ audit. IsAudit (setting_of (M.shape memory.now) (P.listed placer.now)) (M.words memory.now) audit) }
{
    let index = index(alloc, &auditor.tables)?;
    match walk_directory(memory, &index) {
        Some(at) => Ok(Audit::Bad { at }),
        None => {
            let map = fill_map(alloc, memory, auditor.blocks)?;
            Ok(Audit::Sound(map))
        }
    }
}

/// Audits words: Sound where each word of the walk meets its rule, with the map of the live slots; else Bad, of the first word
/// that breaks its rule.
pub fn audit_words<M: Memory, P: Placer>(
    alloc: Global,
    memory: &M,
    placer: &P,
) -> Result<Audit, AllocError>
    ensures { IfOk result (λ audit. IsAudit (setting_of (M.shape memory.now) (P.listed placer.now)) (M.words memory.now) audit) }
{
    let geometry = memory.geometry();
    let mut auditor = Auditor {
        tables: first_tables(alloc, &geometry)?,
        marked: vec![in alloc; false; memory.cell_count()]?,
        blocks: BTreeMap::new(alloc),
    };
    let stop = auditor.walk_tables(memory, placer)?;
    match stop {
        Some(at) => Ok(Audit::Bad { at }),
        None => audit_directory(alloc, memory, placer, auditor),
    }
}
