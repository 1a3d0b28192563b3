//! Calls of the map and what they are answered, and lists of calls.
use crate::nexts::Nexts;
use item_list::PackedList;
use kv_block::{Change, Key, Value};

/// What a client asks: to add, find, replace or remove a key's pair, or to split the table where the key's chain ends.
#[derive(Clone, Copy, Debug, PartialEq, Eq)]
pub enum Call {
    Insert { key: Key, value: Value },
    Search { key: Key },
    Update { key: Key, value: Value },
    Delete { key: Key },
    Resize { key: Key },
}

/// What a call is answered. The first six are the map's replies: of these Inserted, Updated and Deleted come of a call
/// that changed the map, and Found, Missing and Exists of one that did not. The others are replies of no map: a split
/// was done, swaps were lost, or there was no room.
#[derive(Clone, Copy, Debug, PartialEq, Eq)]
pub enum Reply {
    /// The value that the key had.
    Found(Value),
    /// The key was not there.
    Missing,
    /// The pair was added.
    Inserted,
    /// The key was there with this value, and nothing was added.
    Exists(Value),
    /// The value that was replaced.
    Updated(Value),
    /// The value that was removed.
    Deleted(Value),
    /// The address of the table that was split, and its new depth.
    Split { table: u64, depth: u32 },
    /// How many swaps the call lost.
    Again { lost: u32 },
    /// The greatest depth, which the full table has.
    FullDepth { depth: u32 },
    /// The next free word of each node, and how many words a table needs.
    FullWords { next: Nexts, need: u64 },
    /// The next free word of each node, and how many words a block needs.
    NoBlock { next: Nexts, need: u64 },
}

impl Call {
    ghost use Rattle.std.specs.Prelude.{◌≡◌};
    ghost use Rattle.map_model.specs.Machine.{key_of, reply_at, change_of};

    /// The key that the call is about.
    pub fn key(&self) -> Key
        ensures { result ≡ key_of self.now }
    {
        match *self {
            Call::Insert { key, value: _ }
            | Call::Search { key }
            | Call::Update { key, value: _ }
            | Call::Delete { key }
            | Call::Resize { key } => key,
        }
    }

    /// The map's reply to the call, by what it has at the call's key; None exactly at a resize.
    pub fn reply_at(&self, value: Option<Value>) -> Option<Reply>
        ensures { result ≡ reply_at self.now value }
    {
        match *self {
            Call::Insert { key: _, value: _ } => Some(value.map_or(
                Reply::Inserted,
                |v| Reply::Exists(v),
            )),
            Call::Search { key: _ } => Some(value.map_or(Reply::Missing, |v| Reply::Found(v))),
            Call::Update { key: _, value: _ } => Some(value.map_or(
                Reply::Missing,
                |v| Reply::Updated(v),
            )),
            Call::Delete { key: _ } => Some(value.map_or(Reply::Missing, |v| Reply::Deleted(v))),
            Call::Resize { key: _ } => None,
        }
    }

    /// The change that the call makes where it changes the map.
    pub fn change(&self) -> Option<Change>
        ensures { result ≡ change_of self.now }
    {
        match *self {
            Call::Insert { key, value } | Call::Update { key, value } => Some(Change {
                key,
                value: Some(value),
            }),
            Call::Delete { key } => Some(Change { key, value: None }),
            Call::Search { key: _ } | Call::Resize { key: _ } => None,
        }
    }
}

impl Reply {
    ghost use Rattle.std.specs.Prelude.{◌≡◌};
    ghost use Rattle.map_model.specs.Machine.{is_change, is_quiet};

    /// Whether it is of a call that changed the map.
    pub fn is_change(&self) -> bool
        ensures { result ≡ is_change self.now }
    {
        matches!(
            self,
            Reply::Inserted | Reply::Updated(_) | Reply::Deleted(_)
        )
    }

    /// Whether it is of a call that the map answered and that left it as it was.
    pub fn is_quiet(&self) -> bool
        ensures { result ≡ is_quiet self.now }
    {
        matches!(self, Reply::Found(_) | Reply::Missing | Reply::Exists(_))
    }
}

/// A list of calls, each kept as one word more than the block of its key and value.
pub type Calls = PackedList<Call>;
