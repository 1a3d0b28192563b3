//! What the commands `audit` and `image` do to a source and a sink, beside the play of a script.
//!
//! `audit` reads an image, audits it and writes what the audit tells. `write_image` writes the image of a log, or the line that says why
//! there is none. Each answers the status with which the command ends. The map of sound words goes to the sink by way of one page of
//! 65,536 bytes, which is made before the first byte is written, so its memory does not grow with the map. The crate stands on
//! `node_image` (bytes and their audit), on `play_report` (how the line of a pair reads), and on sources and sinks; its rule is
//! written in docs/SCRIPTS.md.
#![tactic(auto)]

mod auditing;
mod imaging;
mod lines;
mod pages;

pub use auditing::audit;
pub use imaging::write_image;
