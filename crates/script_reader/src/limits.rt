//! The limits of scripts.
pub use script_value::LINE_ITEMS;

/// The most bytes of a script.
pub const MOST_BYTES: usize = 4_194_304;

/// The most bytes of a line, without its line feed.
pub const MOST_LINE_BYTES: usize = 4_096;

/// The most call lines of a script.
pub const MOST_CALLS: u32 = 65_536;

/// The most clients of a `race 1` script.
pub const MOST_CLIENTS_1: u32 = 16;

/// The most clients of a `race 2` script.
pub const MOST_CLIENTS_2: u32 = 64;

/// The greatest depth of a `race 1` script.
pub const MOST_DEPTH_1: u64 = 12;

/// The greatest depth of a `race 2` script.
pub const MOST_DEPTH_2: u64 = 16;

/// The most tries.
pub const MOST_TRIES: u64 = 64;

/// The greatest stop: how many verbs a client does before it stops.
pub const MOST_VERBS: u64 = 1_000_000_000;

/// The greatest count of an item.
pub const MOST_COUNT: u64 = 1_000_000;
