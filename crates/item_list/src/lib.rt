//! The lists of this repository: items in order, with room that is asked for before an item is appended.
//!
//! A `List` keeps its items as they are. A `PackedList` keeps each item as the words that it is packed into, so that
//! its memory is in proportion to what the items have, and not to what they could have; it makes the item when it is
//! asked for. Both are seen as their items and their room, by which a call says that no memory will be wanted.
//! The crate stands on no other.
#![tactic(auto)]

mod list;
mod pack;
mod packed_items;
mod packed_list;

pub use list::List;
pub use pack::{Pack, number_at, word_at, words_from, words_to};
pub use packed_items::PackedItems;
pub use packed_list::PackedList;

#[cfg(test)]
mod tests;
