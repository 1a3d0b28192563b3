//! Work on words, for bench/words to time.
//!
//! The program's one word names the work, and it prints the sum of what the work told: `make_small` and `make_large` make
//! and keep 500 nodes of 65,536 and of 16,777,216 words; `read_node`, `read_sparse` and `read_vec` read 65,536 words 20 million
//! times over, of a node, of `SparseWords` and of a `Vec`; `push` pushes 2 million entries into a log. With any other word, or
//! none, it does nothing.
#![tactic(auto)]

ghost use Rattle.std.specs.Prelude.{◌≡◌, ◌≤◌, ◌<◌, IfSome, length, vec_len};

use node_words::Geometry;
use sparse_words::SparseWords;
use std::alloc::{AllocError, Global};
use std::{env, io};
use verb_log::{Entry, Log};
use verbs::{PlainNode, Verbs};

const SMALL: u64 = 65_536;

const LARGE: u64 = 16_777_216;

// One node, a directory of 4,096 words, and one first table of 4 groups.
fn geometry(words: u64) -> Option<Geometry>
    ensures { IfSome result (λ g. g.words ≡ words) }
{
    match Geometry::check(4, 12, 0, 1, words) {
        Ok(geometry) => Some(geometry),
        Err(_) => None,
    }
}

// Makes so many nodes, and keeps them all: so no time is that of memory which the allocator gives back and takes again.
fn make(alloc: Global, words: u64, times: u64) -> Result<u64, AllocError> {
    let mut nodes = Vec::new(alloc);
    for _ in 0..times {
        if let Some(geometry) = geometry(words) {
            nodes.push(PlainNode::make(alloc, geometry)?)?;
        }
    }
    Ok(nodes.len() as u64)
}

// The address after this one, so that all are gone over.
fn following(at: u64) -> u64
    requires { at < 65_536 }
    ensures { result < 65_536 }
{
    (at * 25_173 + 13_849) % 65_536
}

// Reads the words of a node.
fn read_node(node: &mut PlainNode, times: u64) -> Result<u64, AllocError>
    requires { node.old.log.geometry.words ≡ 65_536 }
{
    let mut sum = 0u64;
    let mut at = 1u64;
    for _ in 0..times {
        node.reserve()?;
        sum = sum.wrapping_add(node.read(at));
        at = following(at);
    }
    Ok(sum)
}

// Words in chunks that are all made.
fn written(alloc: Global) -> Result<SparseWords, AllocError> {
    let mut words = SparseWords::zeroed(alloc, SMALL)?;
    for at in 0..SMALL {
        words.reserve()?;
        if at < words.len() {
            words.set(at, at);
        }
    }
    Ok(words)
}

// Reads words in chunks, in the same order.
fn read_sparse(words: &SparseWords, times: u64) -> u64
    requires { length words.now.items ≡ 65_536 }
{
    let mut sum = 0u64;
    let mut at = 1u64;
    for _ in 0..times {
        sum = sum.wrapping_add(words.get(at));
        at = following(at);
    }
    sum
}

// Reads the words of a `Vec`, in the same order.
fn read_vec(words: &Vec<u64>, times: u64) -> u64
    requires { vec_len words.now ≡ 65_536 }
{
    let mut sum = 0u64;
    let mut at = 1u64;
    for _ in 0..times {
        sum = sum.wrapping_add(words[at as usize]);
        at = following(at);
    }
    sum
}

// Pushes entries of one word.
fn push(log: &mut Log, times: u64) -> Result<u64, AllocError>
    requires { log.old.geometry.words ≡ 65_536 }
{
    for n in 0..times {
        let entry = Entry {
            client: 0,
            at: 60_000,
            old: log.word(60_000),
            new: n,
        };
        log.push(entry)?;
    }
    Ok(log.len())
}

// Does the work that the word names.
fn work(alloc: Global, word: &str) -> Result<u64, AllocError> {
    let Some(geometry) = geometry(SMALL) else {
        return Ok(0);
    };
    match word {
        "make_small" => make(alloc, SMALL, 500),
        "make_large" => make(alloc, LARGE, 500),
        "read_node" => read_node(&mut PlainNode::make(alloc, geometry)?, 20_000_000),
        "read_sparse" => {
            let words = written(alloc)?;
            Ok(if words.len() == SMALL {
                read_sparse(&words, 20_000_000)
            } else {
                0
            })
        }
        "read_vec" => {
            let words = vec![in alloc; 0; 65_536]?;
            Ok(read_vec(&words, 20_000_000))
        }
        "push" => push(&mut Log::new(alloc, geometry), 2_000_000),
        _ => Ok(0),
    }
}

fn main(rt: HostRuntime) -> io::Result<()> {
    let args: Vec<String> = env::args(&rt)?.collect(rt.alloc())?;
    let word = match args.get(1) {
        Some(word) => word.as_str(),
        None => "",
    };
    let sum = work(rt.alloc(), word)?;
    println!(rt; "{sum}")
}
