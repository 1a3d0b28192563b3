//! Tests of the texts of scripts, replies and reports, and of the readers of a script. Their rules stand in
//! docs/SCRIPTS.md.
#![tactic(auto)]

#[cfg(test)]
mod tests;
