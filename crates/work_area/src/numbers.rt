//! The numbers that go with where an operation stands.
ghost use Rattle.std.specs.Prelude.{◌+◌, ◌<◌, ◌^◌};

use bucket_group::Free;

/// The numbers of a delete: how many swaps may still be lost, how many were, and the live word that is to be removed.
#[derive(Clone, Copy, Debug)]
pub struct Removal {
    pub left: u32,
    pub lost: u32,
    pub live: u64,
    pub ghost tries: { left + lost < 2 ^ 32 },
}

/// The numbers of an update.
#[derive(Clone, Copy, Debug)]
pub struct Replacement {
    /// The fingerprint of its key.
    pub print: u8,
    /// How many swaps it may lose, how many more, and how many more looks may begin.
    pub tries: u32,
    pub left: u32,
    pub rounds: u32,
    /// The block that was taken and never placed.
    pub kept: Option<u64>,
    /// The address of the new block, and the live word that is to be replaced.
    pub block: u64,
    pub live: u64,
}

/// The numbers of an insert.
#[derive(Clone, Copy, Debug)]
pub struct Numbers {
    /// How many swaps might be lost at first, and how many more may be.
    pub tries: u32,
    pub left: u32,
    /// How many parts may follow.
    pub parts: u64,
    /// The block that was never placed.
    pub kept: Option<u64>,
    /// The address of the slot with the own pending word, and of the block that it names.
    pub own: u64,
    pub block: u64,
    /// The table that was split when the one where the look ended was made.
    pub parent: u64,
    /// Which candidates are free, the number of the one that is chosen, and how many choices come after it.
    pub free: Free,
    pub index: usize,
    pub more: u32,
    /// The number of the bucket header that is swapped.
    pub bucket: u32,
    /// The address of the block that is read, of its next word, and how many words come after that one; or how many bucket
    /// headers come after that one.
    pub from: u64,
    pub next: u64,
    pub after: u64,
}

impl Removal {
    /// No delete has begun.
    pub fn none() -> Removal {
        Removal {
            left: 0,
            lost: 0,
            live: 0,
        }
    }
}

impl Replacement {
    /// No update has begun.
    pub fn none() -> Replacement {
        Replacement {
            print: 0,
            tries: 0,
            left: 0,
            rounds: 0,
            kept: None,
            block: 0,
            live: 0,
        }
    }
}

impl Numbers {
    /// No insert has begun.
    pub fn none() -> Numbers {
        Numbers {
            tries: 0,
            left: 0,
            parts: 0,
            kept: None,
            own: 0,
            block: 0,
            parent: 0,
            free: Free::new(),
            index: 0,
            more: 0,
            bucket: 0,
            from: 0,
            next: 0,
            after: 0,
        }
    }
}
