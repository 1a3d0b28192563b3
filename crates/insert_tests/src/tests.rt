//! The tests, by what they play.
mod inserts;
mod takings;
