//! Tests of the program's call: scripts played by their schedule and on threads, with sources and sinks that fail, with stops, and with
//! a gate; calls beside a split, and images. The crate has tests alone; it stands on `race_play`, so that that crate is not proved twice (docs/SCRIPTS.md).
#![tactic(auto)]

#[cfg(test)]
mod images;
#[cfg(test)]
mod meeting;
#[cfg(test)]
mod plays;
#[cfg(test)]
mod replays;
#[cfg(test)]
mod runs;
#[cfg(test)]
mod splits;
#[cfg(test)]
mod stopped;
