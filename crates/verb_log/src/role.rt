//! The role of a word: what it is for, by its address.
ghost use Rattle.std.specs.Prelude.{◌≡◌, ◌<◌, ◌≤◌, ◌-◌};
ghost use Rattle.node_words.specs.Roles.{first_table_of, offset_role, outer_role};
ghost use Rattle.verb_log.specs.PlainRoles.{plain_role};

use node_words::{Geometry, Region};

/// What a word is for.
#[derive(Clone, Copy, PartialEq, Eq, Debug)]
pub(crate) enum Role {
    /// The next free word of a node.
    Next,
    /// The global depth.
    Depth,
    /// A directory word.
    Directory,
    /// The birth of a table.
    Birth,
    /// The header of a table.
    Header,
    /// The lock of a table.
    Lock,
    /// A word of a table that is always 0.
    Reserved,
    /// The child of a level.
    Child,
    /// The header of a main bucket.
    Bucket,
    /// A slot.
    Slot,
    /// A word of no table.
    Heap,
}

/// The role of the word at an offset in a table.
#[tactic(auto, using(std::proofs::lemmas::Bool::Decides::nat_tests), unfolding(node_words::specs::Roles::offset_role))]
pub(crate) fn table_role(table: u64, offset: u64) -> Role
    ensures { result ≡ plain_role (offset_role table offset) }
{
    let _ = table;
    match offset {
        0 => Role::Birth,
        1 => Role::Header,
        2 => Role::Lock,
        3 => Role::Reserved,
        4..20 => Role::Child,
        _ if (offset - 20) % 8 != 0 => Role::Slot,
        _ if (offset - 20) % 24 == 8 => Role::Reserved,
        _ => Role::Bucket,
    }
}

/// The role of a word in no table, by its region.
#[tactic(auto, using(node_words::proofs::OpeningWords::depth_region, node_words::proofs::OpeningWords::heap_region))]
pub(crate) fn outer_role(geometry: &Geometry, at: u64) -> Role
    requires { at < geometry.now.words }
    ensures { result ≡ plain_role (outer_role geometry.now at) }
{
    match geometry.region_of(at) {
        Region::Next(_) => Role::Next,
        Region::Depth => Role::Depth,
        Region::Directory(_) => Role::Directory,
        Region::Heap => Role::Heap,
    }
}

/// The first table in which an address stands.
#[tactic(auto, using(std::proofs::lemmas::Bool::Decides::nat_tests, crate::proofs::FirstTable::cell_below), unfolding(node_words::specs::Roles::first_table_of))]
pub(crate) fn first_table_of(geometry: &Geometry, at: u64) -> Option<u64>
    ensures { result ≡ first_table_of geometry.now at }
{
    let first = geometry.first_table(0);
    if at < first || geometry.first_free() <= at {
        return None;
    }
    Some(geometry.first_table((at - first) / geometry.table_words()))
}
