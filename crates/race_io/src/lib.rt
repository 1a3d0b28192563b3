//! What the program reads from and writes to: a source of bytes, a sink of bytes, a gate before each call
//! of a running client, and the two loops that read all there is and write all there is.
//!
//! Of this repository it stands on `item_list` alone. A source and a sink say by their contracts which bytes went over and how
//! many faults there were, so that whoever reads or writes through them can say what was read, what was
//! written and why it stopped. Its rule is written in docs/SCRIPTS.md, "Reading and writing".
#![tactic(auto)]

mod gates;
mod reading;
mod writing;

pub use gates::{Gate, OpenGate};
use item_list::List;
pub use reading::{CleanSource, MemorySource, ReaderSource, Source, TakeFault, take_all};
pub use writing::{CleanSink, MemorySink, Sink, WriterSink, put_all};

/// A list of bytes.
pub type Bytes = List<u8>;

/// A call of a source or a sink did nothing, and its count of faults rose.
#[derive(Clone, Copy, Debug, PartialEq, Eq)]
pub struct Failed;
