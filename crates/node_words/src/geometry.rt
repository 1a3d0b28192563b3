//! The sizes of a memory, and the test of five numbers for being such.
ghost use Rattle.std.specs.Prelude.{IsTrue, ◌≤◌, ◌≡◌, ◌%◌, ◌^◌, ◌+◌};
ghost use Rattle.node_words.specs.Limits.{is_group_count, words_needed};

use thiserror::Error;

/// The words of all nodes together, at most.
const MAX_WORDS: u64 = 1 << 24;

/// The sizes of a memory. Only `Geometry::check` makes one from numbers that are not known to be within
/// the limits, so every geometry is within them.
#[derive(Clone, Copy, Debug, PartialEq, Eq, Hash)]
pub struct Geometry {
    /// Groups of a table: 1, 2, 4, 8, 16, 32 or 64.
    pub groups: u32,
    /// The greatest depth that a table may have: 0 to 16. The directory has 2^max_depth words.
    pub max_depth: u32,
    /// The depth of the first tables: 0 to `max_depth`. There are 2^first_depth of them.
    pub first_depth: u32,
    /// The nodes: 1 to 8.
    pub nodes: u32,
    /// The words of all nodes together: at most 16,777,216, a multiple of `nodes`, and enough that each
    /// node could hold what node 0 opens with.
    pub words: u64,
    pub ghost grouped: { IsTrue (is_group_count groups) },
    pub ghost deep: { max_depth ≤ 16 },
    pub ghost begins: { first_depth ≤ max_depth },
    pub ghost some: { 1 ≤ nodes },
    pub ghost few: { nodes ≤ 8 },
    pub ghost even: { words % nodes ≡ 0 },
    pub ghost within: { words ≤ 2 ^ 24 },
    pub ghost enough: { words_needed groups max_depth first_depth nodes ≤ words },
}

/// Why five numbers are no geometry.
#[derive(Clone, Copy, Debug, PartialEq, Eq, Drop, Error)]
pub enum GeometryFault {
    /// The groups, which are not 1, 2, 4, 8, 16, 32 or 64.
    #[error("{0} groups: not a power of two up to 64")]
    GroupsBad(u32),
    /// The greatest depth, which is above 16, or the first depth, which is above the greatest.
    #[error("depth {0} is above its limit")]
    DepthBad(u32),
    /// The nodes, which are not 1 to 8 or do not divide the words.
    #[error("{0} nodes: not 1 to 8 that divide the words")]
    NodesBad(u32),
    /// The words are fewer than the nodes need.
    #[error("{have} words of {need} that are needed")]
    WordsFew { need: u64, have: u64 },
    /// The words, which are above 16,777,216.
    #[error("{0} words: too many")]
    WordsMany(u64),
}

impl Geometry {
    ghost use Rattle.std.specs.Prelude.{MatchResult, IfOk, Some, None, ◌<◌};
    ghost use Rattle.node_words.specs.Faults.{first_fault};
    ghost use Rattle.node_words.specs.Addresses.{table_words, first_free, directory_at, first_table};

    /// The geometry with these sizes, or the first fault of them in this order: `GroupsBad` exactly where
    /// the groups are not 1, 2, 4, 8, 16, 32 or 64; `DepthBad` of the greatest depth exactly where it is
    /// above 16, then of the first depth exactly where it is above the greatest; `NodesBad` exactly where
    /// the nodes are not 1 to 8 or do not divide the words; `WordsMany` exactly where the words are above
    /// 16,777,216; `WordsFew` exactly where they are below `need`, which is
    /// nodes · (2 + 2^max_depth + 2^first_depth · (20 + 24 · groups)).
    pub fn check(
        groups: u32,
        max_depth: u32,
        first_depth: u32,
        nodes: u32,
        words: u64,
    ) -> Result<Geometry, GeometryFault>
        ensures fault { MatchResult result
            (λ _. first_fault groups max_depth first_depth nodes words ≡ None)
            (λ fault. first_fault groups max_depth first_depth nodes words ≡ Some fault) }
        ensures fields { IfOk result (λ g. (g.groups ≡ groups) × (g.max_depth ≡ max_depth)
            × (g.first_depth ≡ first_depth) × (g.nodes ≡ nodes) × (g.words ≡ words)) }
    {
        if !matches!(groups, 1 | 2 | 4 | 8 | 16 | 32 | 64) {
            return Err(GeometryFault::GroupsBad(groups));
        }
        if max_depth > 16 {
            return Err(GeometryFault::DepthBad(max_depth));
        }
        if first_depth > max_depth {
            return Err(GeometryFault::DepthBad(first_depth));
        }
        if nodes < 1 || nodes > 8 || words % u64::from(nodes) != 0 {
            return Err(GeometryFault::NodesBad(nodes));
        }
        if words > MAX_WORDS {
            return Err(GeometryFault::WordsMany(words));
        }
        let need = words_needed_by(groups, max_depth, first_depth, nodes);
        if words < need {
            return Err(GeometryFault::WordsFew { need, have: words });
        }
        Ok(Geometry {
            groups,
            max_depth,
            first_depth,
            nodes,
            words,
        })
    }

    /// The words of a table: 20 and 24 for each group.
    pub fn table_words(&self) -> u64
        ensures { result ≡ table_words self.now }
    {
        20 + 24 * u64::from(self.groups)
    }

    /// The first word of node 0 behind its first tables, which is its opening next word.
    #[tactic(auto, unfolding(crate::specs::Addresses::first_free))]
    pub fn first_free(&self) -> u64
        ensures { result ≡ first_free self.now }
    {
        self.first_table_at() + two_to(self.first_depth) * self.table_words()
    }

    /// The address of a directory word; `index` is below 2^max_depth.
    pub fn directory_at(&self, index: u64) -> u64
        requires { index < 2 ^ self.now.max_depth }
        ensures { result ≡ directory_at index }
    {
        2 + index
    }

    /// The address of a first table; `index` is below 2^first_depth.
    #[tactic(auto, unfolding(crate::specs::Addresses::first_table))]
    pub fn first_table(&self, index: u64) -> u64
        requires { index < 2 ^ self.now.first_depth }
        ensures { result ≡ first_table self.now index }
    {
        self.first_table_at() + index * self.table_words()
    }

    /// The first word behind the directory, where first table 0 stands.
    pub(crate) fn first_table_at(&self) -> u64
        ensures at { result ≡ 2 + 2 ^ self.now.max_depth }
        ensures small { result ≤ 65538 }
    {
        2 + two_to(self.max_depth)
    }
}

/// 2^depth, for a depth within its limit.
pub(crate) fn two_to(depth: u32) -> u64
    requires { depth ≤ 16 }
    ensures power { result ≡ 2 ^ depth }
    ensures small { result ≤ 65536 }
{
    1 << depth
}

/// The words that all nodes together must have, at sizes within their limits.
fn words_needed_by(groups: u32, max_depth: u32, first_depth: u32, nodes: u32) -> u64
    requires groups { groups ≤ 64 }
    requires depth { max_depth ≤ 16 }
    requires first { first_depth ≤ max_depth }
    requires nodes { nodes ≤ 8 }
    ensures { result ≡ words_needed groups max_depth first_depth nodes }
{
    let tables = two_to(first_depth) * (20 + 24 * u64::from(groups));
    u64::from(nodes) * (2 + two_to(max_depth) + tables)
}
