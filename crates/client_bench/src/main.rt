//! Calls of clients, for bench/run to time.
//!
//! The program's words are the side, the share of reads in a hundred calls, `uniform` or `skewed` keys, and the number of threads, 1 to
//! 4. The table holds 4,096 keys in blocks of three words. Each thread does 200,000 calls: searches, and updates. The side `running` does
//! them by a `Client` on running words, `machine` by the machine of a call on a node of one client, whatever the number of threads, and
//! `plain` reads, for each call, the words that a search of its key reads, from standard atomics. It prints the calls that were
//! answered, or the words read, and the nanoseconds from the start of the threads to their end; with any other words 0 0.
#![tactic(auto)]

mod draws;
mod machine;
mod plain;
mod running;

use crate::draws::Draws;
use std::alloc::Global;
use std::thread::Threads;
use std::time::Clock;
use std::{env, io};

// What the words ask for, where they ask for something.
fn draws_of(reads: &str, keys: &str) -> Option<Draws> {
    let reads = reads.parse::<u64>().ok()?;
    match keys {
        "uniform" => Some(Draws {
            reads,
            skewed: false,
        }),
        "skewed" => Some(Draws {
            reads,
            skewed: true,
        }),
        _ => None,
    }
}

// What was done, and in how many nanoseconds.
fn run<R: Threads + Clock + Sync>(
    rt: &R,
    alloc: Global,
    side: &str,
    draws: Draws,
    threads: u32,
) -> io::Result<(u64, u64)> {
    match side {
        "running" => running::run(rt, alloc, draws, threads),
        "machine" => machine::run(rt, alloc, draws),
        "plain" => plain::run(rt, alloc, draws, threads),
        _ => Ok((0, 0)),
    }
}

fn main(rt: HostRuntime) -> io::Result<()> {
    let args: Vec<String> = env::args(&rt)?.collect(rt.alloc())?;
    let mut words: Vec<&str> = Vec::new(rt.alloc());
    for word in args.iter().skip(1) {
        words.push(word.as_str())?;
    }
    let (done, nanoseconds) = match words.as_slice() {
        [side, reads, keys, threads] => match draws_of(reads, keys) {
            Some(draws) => {
                let threads = threads.parse::<u32>().unwrap_or(1).clamp(1, 4);
                run(&rt, rt.alloc(), side, draws, threads)?
            }
            None => (0, 0),
        },
        _ => (0, 0),
    };
    println!(rt; "{done} {nanoseconds}")
}
