//! A test of clients on threads: eight at once on one memory, with few keys that look alike, while any of them splits its tables. One
//! order of all their changes is looked for, and the records of their lines over these changes are asked to stand in a legal history.
//! The crate has tests alone; it stands on `running_client` for the calls and on `map_model` for histories (docs/RUNNING.md).
#![tactic(auto)]

#[cfg(test)]
mod tests;
