//! The words that searches read, read from standard atomics.
ghost use Rattle.std.specs.Prelude.{◌≡◌};

use crate::draws::{CALLS, Draws, KEYS, key_at};
use crate::machine::{act, filled, sizes};
use call_machine::{CallMachine, ClientState};
use key_hash::{Mixed, Placer, mix_word};
use kv_block::Key;
use map_model::Call;
use std::alloc::{AllocError, Global};
use std::sync::atomic::{AtomicU64, Ordering};
use std::thread::Threads;
use std::time::{Clock, Instant};
use std::{io, thread};
use verb_log::Verb;
use verbs::PlainNode;

// The addresses that the search of a key reads.
fn addresses_of(
    alloc: Global,
    node: &mut PlainNode,
    state: &ClientState,
    key: Key,
) -> Result<Vec<u64>, AllocError>
    requires { node.old.log.geometry.words ≡ 8_388_608 }
    ensures { node.new.log.geometry ≡ node.old.log.geometry }
{
    let mut reads = Vec::new(alloc);
    let mut machine = CallMachine::start(state, Mixed.hash(&key), &Call::Search { key });
    for _verb in 0..10_000u32 {
        match machine.next() {
            Some(Verb::Read { at }) => reads.push(at)?,
            _ => break,
        }
        if act(node, &mut machine).is_none() {
            break;
        }
    }
    Ok(reads)
}

// The addresses that the search of each key reads.
fn addresses(
    alloc: Global,
    node: &mut PlainNode,
    state: &ClientState,
) -> Result<Vec<Vec<u64>>, AllocError>
    requires { node.old.log.geometry.words ≡ 8_388_608 }
{
    let mut all = Vec::new(alloc);
    for number in 0..KEYS {
        if let Some(key) = key_at(number) {
            all.push(addresses_of(alloc, node, state, key)?)?;
        }
    }
    Ok(all)
}

// One more than the greatest address.
fn most_of(all: &[Vec<u64>]) -> u64 {
    let mut most = 0u64;
    for reads in all {
        most = reads
            .iter()
            .fold(most, |most, at| most.max(at.wrapping_add(1)));
    }
    most
}

// So many words.
fn words(alloc: Global, most: u64) -> Result<Vec<AtomicU64>, AllocError> {
    let mut words = Vec::new(alloc);
    for at in 0..most {
        words.push(AtomicU64::new(at))?;
    }
    Ok(words)
}

// Reads the words at these addresses: how many there were.
fn read(words: &[AtomicU64], reads: &[u64], sum: &mut u64) -> u64 {
    for at in reads {
        if let Some(word) = words.get(*at as usize) {
            *sum = sum.wrapping_add(word.load(Ordering::SeqCst));
        }
    }
    reads.len() as u64
}

// Reads for each call of a thread: how many words.
fn work(words: &[AtomicU64], all: &[Vec<u64>], draws: Draws, thread: u32) -> u64 {
    let mut sum = 0u64;
    let mut count = 0u64;
    for number in 0..CALLS {
        let drawn = mix_word((u64::from(thread) << 32).wrapping_add(number));
        if let Some(reads) = all.get(draws.number(drawn) as usize) {
            count = count.wrapping_add(read(words, reads.as_slice(), &mut sum));
        }
    }
    // the sum is used, so that no read is left out
    count.wrapping_add(sum / (1 << 63))
}

/// The words that so many threads read, and the nanoseconds.
pub fn run<R: Threads + Clock + Sync>(
    rt: &R,
    alloc: Global,
    draws: Draws,
    threads: u32,
) -> io::Result<(u64, u64)> {
    let Some(geometry) = sizes() else {
        return Ok((0, 0));
    };
    let mut state = ClientState::make(alloc, &geometry, 0, 64)?;
    let mut node = filled(alloc, geometry, &mut state)?;
    let all = addresses(alloc, &mut node, &state)?;
    let words = words(alloc, most_of(&all))?;
    let (words, all) = (words.as_slice(), all.as_slice());
    let jobs: Vec<u32> = (0..threads).collect(alloc)?;
    let start = Instant::now(rt)?;
    let counts = thread::map_vec(
        rt,
        jobs,
        &|thread: u32| -> u64 { work(words, all, draws, thread) },
    )?;
    let nanoseconds = u64::try_from(start.elapsed(rt)?.as_nanos()).unwrap_or(0);
    let sum = counts.iter().fold(0u64, |sum, one| sum.wrapping_add(*one));
    Ok((sum, nanoseconds))
}
