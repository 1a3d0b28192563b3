//! All workers of a play, at once.
ghost use Rattle.std.specs.Prelude.{◌≡◌, ◌<◌, ℕ, IfOk, slice_index_or, vec_len};
ghost use Rattle.client_seat.specs.Seated.{Seated};
ghost use Rattle.running_play.specs.Worked.{MayWork, HasWorked};
ghost use Rattle.running_play.specs.Gathered.{all_ok};
ghost use Rattle.running_play.specs.declared.worker.Worked.{Worked};

use crate::worker::{Worked, work};
use client_seat::{Memory, Seat};
use key_hash::Placer;
use race_io::Gate;
use script_value::Script;
use std::alloc::{AllocError, Global};
use std::thread;
use std::thread::Threads;

/// A worker for each seat, all at once; each tells what it leaves, or that it found no memory.
pub fn work_all<R: Threads + Sync, P: Placer, G: Gate>(
    rt: &R,
    alloc: Global,
    memory: &Memory<P>,
    gate: &G,
    script: &Script,
    seats: Vec<Seat>,
) -> Result<Vec<Result<Worked, AllocError>>, AllocError>
    requires { (i : ℕ) (seat : Seated) → i < vec_len seats → seat ≡ slice_index_or seats.items i seat → MayWork memory.now script.now seat }
    ensures many { IfOk result (λ all. vec_len all ≡ vec_len seats) }
    ensures each { IfOk result (λ all. (i : ℕ) (d : _) → i < vec_len seats → (seat : Seated) × (seat ≡ slice_index_or seats.items i seat)
        × IfOk (slice_index_or all.items i d) (λ (worked : Worked). HasWorked memory.now script.now seat worked.seat worked.lines.items)) }
{
    thread::map_vec(
        rt,
        seats,
        &|seat: Seat| -> Result<Worked, AllocError>
            requires { MayWork memory.now script.now seat }
            ensures { IfOk result (λ worked. HasWorked memory.entry.now script.entry.now seat worked.seat worked.lines.items) }
        { work(alloc, memory, gate, script, seat) },
    )
}

/// What the workers left, in their order. It fails where one of them found no memory.
pub fn gathered(
    alloc: Global,
    mut results: Vec<Result<Worked, AllocError>>,
) -> Result<Vec<Worked>, AllocError>
    ensures { IfOk result (λ all. results.items ≡ all_ok all.items) }
{
    let mut all = Vec::new(alloc);
    while let Some(result) = results.pop() {
        all.push(result?)?;
    }
    all.reverse();
    Ok(all)
}
