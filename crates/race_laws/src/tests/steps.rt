//! The steps that the logs of the tests are made of.
use verb_log::Kind;

/// A write or a won swap: the client, the address, the old word, the new word, and the kind.
pub(super) type Step = (u32, u64, u64, u64, Kind);

/// The first table, and the child that it splits into where tables have one group.
pub(super) const TABLE: u64 = 6;

pub(super) const CHILD: u64 = 53;

/// A candidate slot of `k` in the first table, the same place of the child, and another candidate in the first table.
pub(super) const UPPER: u64 = 27;

pub(super) const LOWER: u64 = 74;

pub(super) const OTHER: u64 = 28;

/// The word of a slot is one of these and the address of a block of 3 words.
pub(super) const LIVE: u64 = 0x0003_0000_0000_0000;

pub(super) const PENDING: u64 = 0x0003_4000_0000_0000;

pub(super) const COPY: u64 = 0x0003_8000_0000_0000;

pub(super) const MOVED: u64 = 0x0003_c000_0000_0000;

/// The block of `k` and `1` at 50.
pub(super) const STORED: &[Step] = &[
    (0, 0, 50, 53, Kind::Take),
    (0, 50, 0, 65537, Kind::Store),
    (0, 51, 0, 107, Kind::Store),
    (0, 52, 0, 49, Kind::Store),
];

pub(super) const PLACED: &[Step] = &[(0, UPPER, 0, PENDING + 50, Kind::Place)];

pub(super) const COMMITTED: &[Step] = &[(0, UPPER, PENDING + 50, LIVE + 50, Kind::Commit)];

/// The first table gets its child, which is filling.
pub(super) const LINKED: &[Step] = &[
    (0, 8, 0, 1, Kind::Lock),
    (0, 0, 53, 97, Kind::Take),
    (0, 53, 0, 100663553, Kind::Store),
    (0, 54, 0, 769, Kind::Store),
    (0, 55, 0, 1, Kind::Store),
    (0, 73, 0, 769, Kind::Store),
    (0, 89, 0, 769, Kind::Store),
    (0, 10, 0, 53, Kind::Link),
];

pub(super) const BEGUN: &[Step] = &[
    (0, 26, 256, 512, Kind::Begin),
    (0, 42, 256, 512, Kind::Begin),
];

pub(super) const OPENED: &[Step] = &[(0, 7, 256, 512, Kind::Open)];

pub(super) const COPIED: &[Step] = &[(0, LOWER, 0, COPY + 50, Kind::Copy)];

pub(super) const FLIPPED: &[Step] = &[(0, UPPER, LIVE + 50, MOVED + 50, Kind::Flip)];

pub(super) const SETTLED: &[Step] = &[(0, LOWER, COPY + 50, LIVE + 50, Kind::Settle)];

pub(super) const CLEARED: &[Step] = &[(0, UPPER, MOVED + 50, 0, Kind::Clear)];

pub(super) const UNCOPIED: &[Step] = &[(0, LOWER, COPY + 50, 0, Kind::Uncopy)];

pub(super) const FINISHED: &[Step] = &[
    (0, 7, 512, 257, Kind::Finish),
    (0, 26, 512, 257, Kind::Close),
    (0, 42, 512, 257, Kind::Close),
];

pub(super) const RIPENED: &[Step] = &[
    (0, 73, 769, 257, Kind::Ripen),
    (0, 89, 769, 257, Kind::Ripen),
    (0, 54, 769, 257, Kind::Ripen),
];

pub(super) const REMOVED: &[Step] = &[(0, LOWER, LIVE + 50, 0, Kind::Remove)];

/// The block of `k` and `2` at 97, by another client.
pub(super) const STORED_AGAIN: &[Step] = &[
    (1, 0, 97, 100, Kind::Take),
    (1, 97, 0, 65537, Kind::Store),
    (1, 98, 0, 107, Kind::Store),
    (1, 99, 0, 50, Kind::Store),
];

/// That client inserts `k` into the child.
pub(super) const INSERTED_BELOW: &[Step] = &[
    (1, LOWER, 0, PENDING + 97, Kind::Place),
    (1, LOWER, PENDING + 97, LIVE + 97, Kind::Commit),
];

/// Or it updates `k` in the first table.
pub(super) const REPLACED: &[Step] = &[(1, UPPER, LIVE + 50, LIVE + 97, Kind::Replace)];

/// The new block moves as far as the Flip.
pub(super) const MOVED_NEW: &[Step] = &[
    (0, LOWER, 0, COPY + 97, Kind::Copy),
    (0, UPPER, LIVE + 97, MOVED + 97, Kind::Flip),
];

/// The old block is copied over that copy.
pub(super) const COPIED_OLD: &[Step] = &[(0, LOWER, COPY + 97, COPY + 50, Kind::Copy)];

/// The block of `k` and `2` at 53, where no child is, placed by another client in the first table.
pub(super) const PLACED_AGAIN: &[Step] = &[
    (1, 0, 53, 56, Kind::Take),
    (1, 53, 0, 65537, Kind::Store),
    (1, 54, 0, 107, Kind::Store),
    (1, 55, 0, 50, Kind::Store),
    (1, OTHER, 0, PENDING + 53, Kind::Place),
];

pub(super) const COMMITTED_AGAIN: &[Step] = &[(1, OTHER, PENDING + 53, LIVE + 53, Kind::Commit)];

/// The block of `k` and `1` at 74, behind a first table of two groups; it is committed in group 0, or in group 1 at 51.
pub(super) const STORED_WIDE: &[Step] = &[
    (0, 0, 74, 77, Kind::Take),
    (0, 74, 0, 65537, Kind::Store),
    (0, 75, 0, 107, Kind::Store),
    (0, 76, 0, 49, Kind::Store),
];

pub(super) const IN_GROUP_0: &[Step] = &[
    (0, UPPER, 0, PENDING + 74, Kind::Place),
    (0, UPPER, PENDING + 74, LIVE + 74, Kind::Commit),
];

pub(super) const IN_GROUP_1: &[Step] = &[
    (0, 51, 0, PENDING + 74, Kind::Place),
    (0, 51, PENDING + 74, LIVE + 74, Kind::Commit),
];

/// The block at 50 is committed in the child.
pub(super) const IN_CHILD: &[Step] = &[
    (0, LOWER, 0, PENDING + 50, Kind::Place),
    (0, LOWER, PENDING + 50, LIVE + 50, Kind::Commit),
];

/// The first table is split while nothing stands in it, and the block at 50 is stored.
pub(super) const SPLIT: &[&[Step]] = &[STORED, LINKED, BEGUN, OPENED, FINISHED, RIPENED];

/// `k` is inserted, and the first table opens for a split into itself and its child.
pub(super) const MOVING: &[&[Step]] = &[STORED, PLACED, COMMITTED, LINKED, BEGUN, OPENED];

/// The first table opens before its bucket headers begin, and `k` is inserted between.
pub(super) const OPENED_FIRST: &[&[Step]] = &[STORED, LINKED, OPENED, PLACED, COMMITTED, BEGUN];

/// In tables of one group, greatest depth 1: client 0 inserts `k` with `1`, client 1 splits the table as far as the Flip of `k`,
/// and client 2 updates `k` to `2`. Its Settle and its Replace are in the child.
pub(super) const UPDATED_BELOW: &[Step] = &[
    (0, 0, 48, 51, Kind::Take),
    (0, 48, 0, 65537, Kind::Store),
    (0, 49, 0, 107, Kind::Store),
    (0, 50, 0, 49, Kind::Store),
    (0, 25, 0, PENDING + 48, Kind::Place),
    (0, 25, PENDING + 48, LIVE + 48, Kind::Commit),
    (1, 6, 0, 2, Kind::Lock),
    (1, 0, 51, 95, Kind::Take),
    (1, 51, 0, 67109121, Kind::Store),
    (1, 52, 0, 769, Kind::Store),
    (1, 53, 0, 2, Kind::Store),
    (1, 71, 0, 769, Kind::Store),
    (1, 87, 0, 769, Kind::Store),
    (1, 8, 0, 51, Kind::Link),
    (1, 24, 256, 512, Kind::Begin),
    (1, 40, 256, 512, Kind::Begin),
    (1, 5, 256, 512, Kind::Open),
    (1, 72, 0, COPY + 48, Kind::Copy),
    (1, 25, LIVE + 48, MOVED + 48, Kind::Flip),
    (2, 0, 95, 98, Kind::Take),
    (2, 95, 0, 65537, Kind::Store),
    (2, 96, 0, 107, Kind::Store),
    (2, 97, 0, 50, Kind::Store),
    (2, 72, COPY + 48, LIVE + 48, Kind::Settle),
    (2, 72, LIVE + 48, LIVE + 95, Kind::Replace),
];
