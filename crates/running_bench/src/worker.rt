//! A client on running words.
ghost use Rattle.std.specs.Prelude.{◌≡◌, ◌<◌, ◌≤◌, ◌+◌, ◌*◌, ◌^◌, IfSome};
ghost use Rattle.node_words.specs.Addresses.{node_at, node_size};

use client_seat::{Memory, Seat, Seats, TableNode};
use key_hash::Mixed;
use std::alloc::{AllocError, Global};
use verbs::Verbs;

pub const READS: u64 = 100_000_000;

pub const SWAPS: u64 = 500_000;

pub const TRIES: u64 = 1_000_000_000;

// A client's node, and the next word of a node of the memory, which ends at `end`.
#[derive(Drop)]
pub struct Worker<'a> {
    node: TableNode<'a, Mixed>,
    k: u64,
    at: u64,
    end: u64,
    ghost low: { k < node.home.setting.geometry.nodes },
    ghost starts: { at ≡ node_at node.home.setting.geometry k },
    ghost ends: { end ≡ (k + 1) * node_size node.home.setting.geometry },
}

impl<'a> Worker<'a> {
    // None where the memory has no node k.
    fn of(memory: &'a Memory<Mixed>, seat: Seat, k: u64) -> Option<Worker<'a>>
        requires { seat.home ≡ memory.now }
    {
        let geometry = memory.geometry();
        if k >= u64::from(geometry.nodes) {
            return None;
        }
        let size = geometry.words / u64::from(geometry.nodes);
        let end = (k + 1).checked_mul(size)?;
        let at = k.checked_mul(size)?;
        Some(Worker {
            node: TableNode::of(memory, seat),
            k,
            at,
            end,
        })
    }

    // Reads the word.
    pub fn reads(self) -> u64 {
        let Worker {
            mut node,
            k,
            at,
            end: _,
        } = self;
        read_all(&mut node, k, at)
    }

    // Wins swaps on the word.
    pub fn swaps(self) -> u64 {
        let Worker {
            mut node,
            k,
            at,
            end,
        } = self;
        swap_all(&mut node, k, at, end)
    }
}

// Reads the next word of node k.
fn read_all(node: &mut TableNode<Mixed>, k: u64, at: u64) -> u64
    requires low { k < node.old.home.setting.geometry.nodes }
    requires starts { at ≡ node_at node.old.home.setting.geometry k }
{
    let mut sum = 0u64;
    for _ in 0..READS {
        sum = sum.wrapping_add(node.read(at));
    }
    sum
}

// Takes two words at a time of node k.
fn swap_all(node: &mut TableNode<Mixed>, k: u64, at: u64, end: u64) -> u64
    requires low { k < node.old.home.setting.geometry.nodes }
    requires starts { at ≡ node_at node.old.home.setting.geometry k }
    requires ends { end ≡ (k + 1) * node_size node.old.home.setting.geometry }
{
    let mut next = node.read(at);
    let mut won = 0u64;
    for _ in 0..TRIES {
        if won >= SWAPS || next >= end || end - next < 2 {
            break;
        }
        let found = node.swap(at, next, next + 2);
        if found == next {
            won = won.wrapping_add(1);
            next += 2;
        } else {
            next = found;
        }
    }
    won
}

// A worker for each thread: on the next word of node 0, or each of a node of its own.
pub fn workers<'a>(
    alloc: Global,
    memory: &'a Memory<Mixed>,
    mut seats: Seats,
    threads: u32,
    one: bool,
) -> Result<Vec<Worker<'a>>, AllocError>
    requires { seats.home ≡ memory.now }
{
    let mut all = Vec::new(alloc);
    for n in 0..threads {
        let Some(seat) = seats.take() else { break };
        let k = if one { 0 } else { u64::from(n) };
        if let Some(worker) = Worker::of(memory, seat, k) {
            all.push(worker)?;
        }
    }
    Ok(all)
}
