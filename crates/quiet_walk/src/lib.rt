//! The walk that looks for a word that a call is at work on: whether the words of a memory are quiet, or else which word of the
//! walk is the first that is not.
//!
//! `first_loud` lists the tables from the first ones down, and then looks at each word of each table in order. It reads words
//! through the trait `Memory` of `image_audit`, and stands on the walk of `image_laws`. Words that it is asked of must lead to
//! tables of small numbers only, as those of a legal log do. docs/DEFINITIONS.md ("Images") has its words.
#![tactic(auto)]

mod listing;
mod quiet;
mod walk;

pub use walk::first_loud;
