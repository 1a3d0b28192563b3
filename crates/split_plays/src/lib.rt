//! Tests of whole plays in which a key changes while its table is split: after each verb of the split another client replaces or removes
//! the key, so that a swap of the mover is lost, the split is left with its ticket, and the next call goes on with it. The rules are
//! those of docs/PROTOCOL.md, "The split". The crate has tests alone; it stands on `race_play`.
#![tactic(auto)]

#[cfg(test)]
mod tests;
