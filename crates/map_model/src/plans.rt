//! The clients' plans, and the items of a schedule.
use crate::calls::Calls;
use item_list::List;

/// A part of a schedule: so many verbs of a client, or its call as a whole.
#[derive(Clone, Copy, Debug, PartialEq, Eq)]
pub enum Item {
    /// So many verbs of the client.
    Verbs { client: u32, count: u32 },
    /// The client's verbs up to the end of the call that is under way, or of the next one.
    Call { client: u32 },
}

/// A list of items.
pub type Items = List<Item>;

/// What one client does: its calls in order, and how many verbs it does before it stops for ever, where it stops.
#[derive(Debug, Drop)]
pub struct Plan {
    pub calls: Calls,
    pub stop: Option<u64>,
}

/// A list of plans.
pub type Plans = List<Plan>;
