//! Eight clients, each on a thread of its own.
ghost use Rattle.std.specs.Prelude.{◌≡◌};

use crate::tests::drawing::{call_of, hashes, key_of};
use crate::tests::order::Line;
use call_machine::Answer;
use client_seat::{Memory, Seats};
use key_hash::{Listed, mix_word};
use map_model::Call;
use node_words::Geometry;
use running_client::Client;
use std::alloc::{AllocError, Global};
use std::sync::atomic::{AtomicU64, Ordering};
use std::test::Fail;
use std::thread;
use std::thread::Threads;

/// How many clients there are.
pub const CLIENTS: usize = 8;

/// How many calls each of them makes.
const CALLS: u64 = 300;

// A client, and the number from which its calls are drawn.
#[derive(Drop)]
struct Job<'a> {
    client: Client<'a, Listed>,
    seed: u64,
}

// Does a call.
fn answer<'a>(client: &mut Client<'a, Listed>, call: &Call) -> Answer {
    match call {
        Call::Insert { key, value } => client.insert(key, value),
        Call::Search { key } => client.search(key),
        Call::Update { key, value } => client.update(key, value),
        Call::Delete { key } => client.delete(key),
        Call::Resize { key } => client.resize(key),
    }
}

// Makes the call of a drawn number. The clock tells when it began and ended.
fn line<'a>(client: &mut Client<'a, Listed>, clock: &AtomicU64, drawn: u64) -> Option<Line> {
    let call = call_of(drawn)?;
    let begun = clock.fetch_add(1, Ordering::SeqCst);
    let answer = answer(client, &call);
    let ended = clock.fetch_add(1, Ordering::SeqCst);
    Some(Line {
        key: key_of(drawn) as usize,
        call,
        answer,
        begun,
        ended,
    })
}

// Makes the calls of a client.
fn work<'a>(alloc: Global, clock: &AtomicU64, job: Job<'a>) -> Result<Vec<Line>, AllocError> {
    let Job { mut client, seed } = job;
    (0..CALLS)
        .filter_map(|number| line(&mut client, clock, mix_word(seed.wrapping_add(number))))
        .collect(alloc)
}

// A client at each seat.
fn jobs<'a>(
    alloc: Global,
    memory: &'a Memory<Listed>,
    mut seats: Seats,
    run: u64,
) -> Result<Vec<Job<'a>>, AllocError>
    requires { seats.home ≡ memory.now }
{
    let mut jobs = Vec::new(alloc);
    for number in 0..CLIENTS as u64 {
        if let Some(seat) = seats.take() {
            let seed = run.wrapping_mul(1_000_000).wrapping_add(number * 1_000);
            match Client::new(alloc, memory, seat, 16) {
                Ok(client) => jobs.push(Job { client, seed })?,
                Err((refused, _seat)) => return Err(refused),
            }
        }
    }
    Ok(jobs)
}

/// What the clients of a run were told, in the order of each client's calls.
pub fn lines_of<R: Threads + Sync>(
    rt: &R,
    alloc: Global,
    run: u64,
) -> Result<Vec<Vec<Line>>, Fail> {
    let geometry = Geometry::check(1, 8, 0, 1, 131_072)?;
    let (memory, seats) = Memory::make(alloc, geometry, hashes(alloc)?, CLIENTS as u32)?;
    let clock = AtomicU64::new(0);
    let jobs = jobs(alloc, &memory, seats, run)?;
    let told = thread::map_vec(
        rt,
        jobs,
        &|job: Job| -> Result<Vec<Line>, AllocError> { work(alloc, &clock, job) },
    )?;
    let mut lines = Vec::new(alloc);
    for told in told {
        lines.push(told?)?;
    }
    Ok(lines)
}
