//! Calls of clients on running words.
ghost use Rattle.std.specs.Prelude.{◌≡◌};

use crate::draws::{CALLS, Draws, KEYS, key_at, value_at};
use client_seat::{Memory, Seats};
use key_hash::Mixed;
use map_model::{Call, Reply};
use node_words::Geometry;
use running_client::Client;
use std::alloc::{AllocError, Global};
use std::thread::Threads;
use std::time::{Clock, Instant};
use std::{io, thread};

// A client and its number.
#[derive(Drop)]
struct Job<'a> {
    client: Client<'a, Mixed>,
    thread: u32,
}

// Inserts all keys: how many are there then.
fn fill<'a>(client: &mut Client<'a, Mixed>) -> u64 {
    let mut filled = 0u64;
    for number in 0..KEYS {
        if let Some(key) = key_at(number)
            && let Some(value) = value_at(number)
        {
            let answer = client.insert(&key, &value);
            filled = filled.wrapping_add(u64::from(answer.reply == Reply::Inserted));
        }
    }
    filled
}

// Does a call: whether it found its key.
fn is_found<'a>(client: &mut Client<'a, Mixed>, call: &Call) -> bool {
    let answer = match call {
        Call::Insert { key, value } => client.insert(key, value),
        Call::Search { key } => client.search(key),
        Call::Update { key, value } => client.update(key, value),
        Call::Delete { key } => client.delete(key),
        Call::Resize { key } => client.resize(key),
    };
    matches!(answer.reply, Reply::Found(_) | Reply::Updated(_))
}

// Does the calls of a thread: how many found their key.
fn work<'a>(job: Job<'a>, draws: Draws) -> u64 {
    let Job { mut client, thread } = job;
    (0..CALLS)
        .filter_map(|number| draws.call(thread, number))
        .filter(|call| is_found(&mut client, call))
        .count() as u64
}

// A client for each thread. The first fills the table.
fn jobs<'a>(
    alloc: Global,
    memory: &'a Memory<Mixed>,
    mut seats: Seats,
    threads: u32,
) -> Result<Vec<Job<'a>>, AllocError>
    requires { seats.home ≡ memory.now }
{
    let mut jobs = Vec::new(alloc);
    for thread in 0..threads {
        if let Some(seat) = seats.take() {
            match Client::new(alloc, memory, seat, 64) {
                Ok(mut client) => {
                    if thread == 0 {
                        fill(&mut client);
                    }
                    jobs.push(Job { client, thread })?;
                }
                Err((refused, _seat)) => return Err(refused),
            }
        }
    }
    Ok(jobs)
}

/// The calls of so many threads that found their key, and the nanoseconds.
pub fn run<R: Threads + Clock + Sync>(
    rt: &R,
    alloc: Global,
    draws: Draws,
    threads: u32,
) -> io::Result<(u64, u64)> {
    let Ok(geometry) = Geometry::check(16, 5, 5, 1, 8_388_608) else {
        return Ok((0, 0));
    };
    let (memory, seats) = Memory::make(alloc, geometry, Mixed, 4)?;
    let jobs = jobs(alloc, &memory, seats, threads)?;
    let start = Instant::now(rt)?;
    let found = thread::map_vec(rt, jobs, &|job: Job| -> u64 { work(job, draws) })?;
    let nanoseconds = u64::try_from(start.elapsed(rt)?.as_nanos()).unwrap_or(0);
    let sum = found.iter().fold(0u64, |sum, one| sum.wrapping_add(*one));
    Ok((sum, nanoseconds))
}
