//! Which taken words belong to a table.
ghost use Rattle.std.specs.Prelude.{◌≡◌, ◌≤◌, ◌^◌, ◌↔◌, IsTrue, length};
ghost use Rattle.image_laws.specs.Sound.{AreTaken};
ghost use Rattle.image_audit.specs.Kept.{AreFree, Marks};

use crate::memory::Memory;

/// Whether `count` words from an address on were all taken and belong to no table.
pub(crate) fn are_free<M: Memory>(memory: &M, marked: &[bool], at: u64, count: u64) -> bool
    requires cells { length marked.now ≡ M.cells memory.now }
    requires low { at ≤ 2 ^ 24 }
    requires few { count ≤ 2 ^ 24 }
    ensures { IsTrue result ↔ AreFree (M.shape memory.now) (M.words memory.now) (M.place memory.now) marked.now at count }
{
    for i in 0..count {
        let Some(cell) = memory.cell(at + i) else {
            return false;
        };
        if marked[cell] {
            return false;
        }
    }
    true
}

/// Gives `count` taken words from an address on to a table.
pub(crate) fn mark<M: Memory>(memory: &M, marked: &mut [bool], at: u64, count: u64)
    requires cells { length marked.old ≡ M.cells memory.now }
    requires low { at ≤ 2 ^ 24 }
    requires few { count ≤ 2 ^ 24 }
    requires taken { AreTaken (M.shape memory.now) (M.words memory.now) at count }
    ensures { Marks (M.place memory.now) marked.old marked.new at count }
{
    for i in 0..count {
        if let Some(cell) = memory.cell(at + i) {
            marked[cell] = true;
        }
    }
}
