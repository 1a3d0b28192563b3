//! The program `race`: its words name a command, which reads standard input and writes standard output.
//!
//! Main makes the real source and sink and a gate that holds nobody, calls `race`, and ends with the status. At status 2 it prints the
//! usage line on standard error, and at 4, 5 and 6 a line that says what failed. The words and the statuses are written in
//! docs/SCRIPTS.md.
#![tactic(auto)]

use race_io::{OpenGate, ReaderSource, Sink, Source, WriterSink};
use race_play::race;
use std::alloc::{AllocError, Global};
use std::process::ExitCode;
use std::thread::Threads;
use std::{env, io};

const USAGE: &str =
    "usage: race replay | race run | race storm SEED CLIENTS CALLS | race image | race audit";

/// The words are no command.
const NO_COMMAND: u8 = 2;

/// The source failed.
const INPUT_FAILED: u8 = 4;

/// The sink failed.
const OUTPUT_FAILED: u8 = 5;

/// There was no memory.
const NO_MEMORY: u8 = 6;

fn main(rt: HostRuntime) -> ExitCode {
    let mut source = ReaderSource::new(rt.stdin());
    let mut sink = WriterSink::new(rt.stdout());
    let status = match args_of(&rt) {
        Ok(args) => status_of(&rt, rt.alloc(), &args, &mut source, &mut sink),
        // a word that is no text is no command
        Err(fault) if fault.kind() == io::ErrorKind::InvalidData => NO_COMMAND,
        Err(_) => NO_MEMORY,
    };
    if let Some(line) = told_at(status) {
        let _ = eprintln!(rt; "{line}");
    }
    ExitCode::from(status)
}

/// The line on standard error at this status, where there is one.
fn told_at(status: u8) -> Option<&'static str> {
    match status {
        NO_COMMAND => Some(USAGE),
        INPUT_FAILED => Some("race: standard input could not be read"),
        OUTPUT_FAILED => Some("race: standard output could not be written"),
        NO_MEMORY => Some("race: there was no memory"),
        _ => None,
    }
}

/// The program's words, and its name before them.
fn args_of(rt: &HostRuntime) -> io::Result<Vec<String>> {
    let args = env::args(rt)?.collect(rt.alloc())?;
    Ok(args)
}

/// The words behind the program's name.
fn words_of<'a>(alloc: Global, args: &'a [String]) -> Result<Vec<&'a str>, AllocError> {
    let mut words: Vec<&str> = Vec::new(alloc);
    for word in args.iter().skip(1) {
        words.push(word.as_str())?;
    }
    Ok(words)
}

/// The status of the command that the words behind the program's name say.
fn status_of<R: Threads + Sync, S: Source, K: Sink>(
    rt: &R,
    alloc: Global,
    args: &[String],
    source: &mut S,
    sink: &mut K,
) -> u8 {
    match words_of(alloc, args) {
        Ok(words) => race(rt, alloc, &words, source, sink, &OpenGate).status,
        Err(_) => NO_MEMORY,
    }
}
