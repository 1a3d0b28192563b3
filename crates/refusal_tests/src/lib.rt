//! Tests of refusals: texts that are no scripts, each with the first line that breaks a rule and the first rule that it
//! breaks, and texts that are scripts beside them. The rules stand in docs/SCRIPTS.md, "Refusals".
#![tactic(auto)]

#[cfg(test)]
mod tests;
