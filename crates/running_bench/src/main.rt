//! Verbs on running words, for bench/running to time.
//!
//! The program's words are the work and the number of threads, at most 4. Each thread does the work on the next word of node 0
//! (`one`) or of a node of its own (`own`): `reads_one` and `reads_own` read it 100 million times, `swaps_one` and `swaps_own`
//! win 500,000 swaps on it, each of which takes two words. `plain_reads_one` and the like do the same on plain atomics of
//! 64 bits. It prints the sum of what was told, and the nanoseconds from the start of the threads to their end. With any other
//! work, or none, it does nothing and prints 0 0.
#![tactic(auto)]

mod plain;
mod worker;

use crate::plain::{plain_reads, plain_swaps, plain_words};
use crate::worker::{Worker, workers};
use client_seat::Memory;
use key_hash::Mixed;
use node_words::Geometry;
use std::alloc::Global;
use std::sync::atomic::AtomicU64;
use std::thread::Threads;
use std::time::{Clock, Instant};
use std::{env, io, thread};

// Four nodes of 4,194,304 words.
const WORDS: u64 = 16_777_216;

// The sum of all.
fn sum_of(told: &[u64]) -> u64 {
    let mut sum = 0u64;
    for x in told {
        sum = sum.wrapping_add(*x);
    }
    sum
}

// What threads do on running words.
fn run<R: Threads + Clock + Sync>(
    rt: &R,
    alloc: Global,
    work: &str,
    threads: u32,
) -> io::Result<(u64, u64)> {
    let Ok(geometry) = Geometry::check(4, 4, 0, 4, WORDS) else {
        return Ok((0, 0));
    };
    let (memory, seats) = Memory::make(alloc, geometry, Mixed, 4)?;
    let one = work == "reads_one" || work == "swaps_one";
    let jobs = workers(alloc, &memory, seats, threads, one)?;
    let start = Instant::now(rt)?;
    let told = match work {
        "reads_one" | "reads_own" => thread::map_vec(rt, jobs, &|worker: Worker| worker.reads())?,
        "swaps_one" | "swaps_own" => thread::map_vec(rt, jobs, &|worker: Worker| worker.swaps())?,
        _ => Vec::new(alloc),
    };
    let nanos = u64::try_from(start.elapsed(rt)?.as_nanos()).unwrap_or(0);
    Ok((sum_of(told.as_slice()), nanos))
}

// What threads do on plain atomics.
fn run_plain<R: Threads + Clock + Sync>(
    rt: &R,
    alloc: Global,
    work: &str,
    threads: u32,
) -> io::Result<(u64, u64)> {
    let words = plain_words(alloc)?;
    let words = words.as_slice();
    let mut jobs: Vec<usize> = Vec::new(alloc);
    for k in 0..threads {
        let own = work == "plain_reads_own" || work == "plain_swaps_own";
        jobs.push(if own { k as usize * 16 } else { 0 })?;
    }
    let start = Instant::now(rt)?;
    let told = if work == "plain_reads_one" || work == "plain_reads_own" {
        thread::map_vec(
            rt,
            jobs,
            &|i: usize| match words.get(i) {
                Some(word) => plain_reads(word),
                None => 0,
            },
        )?
    } else {
        thread::map_vec(
            rt,
            jobs,
            &|i: usize| match words.get(i) {
                Some(word) => plain_swaps(word),
                None => 0,
            },
        )?
    };
    let nanos = u64::try_from(start.elapsed(rt)?.as_nanos()).unwrap_or(0);
    Ok((sum_of(told.as_slice()), nanos))
}

fn main(rt: HostRuntime) -> io::Result<()> {
    let args: Vec<String> = env::args(&rt)?.collect(rt.alloc())?;
    let work = match args.get(1) {
        Some(word) => word.as_str(),
        None => "",
    };
    let threads = match args.get(2) {
        Some(word) => word.as_str().parse::<u32>().unwrap_or(1).min(4),
        None => 1,
    };
    let (sum, nanos) = match work {
        "reads_one" | "reads_own" | "swaps_one" | "swaps_own" => run(
            &rt,
            rt.alloc(),
            work,
            threads,
        )?,
        "plain_reads_one" | "plain_reads_own" | "plain_swaps_one" | "plain_swaps_own" => {
            run_plain(&rt, rt.alloc(), work, threads)?
        }
        _ => (0, 0),
    };
    println!(rt; "{sum} {nanos}")
}
