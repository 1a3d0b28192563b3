//! The list of the tables of a walk.
ghost use Rattle.std.specs.Prelude.{◌≡◌, ◌++◌, IfOk, OnOk};
ghost use Rattle.image_laws.specs.Walk.{children, tables};
ghost use Rattle.image_audit.specs.Kept.{AllSmall, IsSmall};

use image_audit::{Memory, first_tables};
use image_laws::ImageTable;
use std::alloc::{AllocError, Global};

/// Puts the children of a table behind the others, by level.
fn add_children<M: Memory>(
    tables: &mut Vec<ImageTable>,
    memory: &M,
    table: &ImageTable,
) -> Result<(), AllocError>
    requires { IsSmall table.now }
    ensures { OnOk result (tables.new.items ≡ tables.old.items ++ children (M.shape memory.now) (M.words memory.now) table.now) }
{
    for level in table.depth..16 {
        let child = memory.word(table.at + 4 + u64::from(level));
        if child != 0 {
            tables.push(ImageTable {
                at: child,
                depth: level + 1,
                suffix: table.suffix + (1 << level),
                parent: table.at,
            })?;
        }
    }
    Ok(())
}

/// The tables of the walk, in its order.
pub(crate) fn list_tables<M: Memory>(
    alloc: Global,
    memory: &M,
) -> Result<Vec<ImageTable>, AllocError>
    requires { AllSmall (tables (M.shape memory.now) (M.words memory.now)) }
    ensures { IfOk result (λ list. list.items ≡ tables (M.shape memory.now) (M.words memory.now)) }
{
    let geometry = memory.geometry();
    let mut list = first_tables(alloc, &geometry)?;
    let mut index = 0;
    while index < list.len() {
        let table = list[index];
        add_children(&mut list, memory, &table)?;
        index += 1;
    }
    Ok(list)
}
