//! A note that goes to another thread.
ghost use Rattle.std.specs.Prelude.{◌≡◌};
ghost use Rattle.verbs.specs.Logs.{Begins};

use crate::both::take_on;
use client_seat::{Memory, Note, Seat};
use key_hash::Placer;
use std::thread;
use std::thread::Threads;

// The seat meets the note.
fn met<P: Placer>(memory: &Memory<P>, mut seat: Seat, note: Note) -> Seat
    requires seat { seat.home ≡ memory.now }
    requires note { note.home ≡ memory.now }
    ensures home { result.home ≡ memory.now }
    ensures met { Begins note.front result.front }
{
    memory.meet(&mut seat, note);
    seat
}

/// One client takes and stores, and its note goes to another thread, where the other client meets it: all that the first has
/// seen and done begins what the other has seen.
pub fn take_and_tell<P: Placer, R: Threads + Sync>(
    rt: &R,
    memory: &Memory<P>,
    first: Seat,
    second: Seat,
) -> (Seat, Seat)
    requires first { first.home ≡ memory.now }
    requires second { second.home ≡ memory.now }
    ensures homes { (result.0.home ≡ memory.now) × (result.1.home ≡ memory.now) }
    ensures met { Begins result.0.front result.1.front }
{
    let (mut first, _taken) = take_on(memory, first, 7);
    let note = memory.note(&mut first);
    let (second, ()) = thread::join(
        rt,
        move || -> Seat
            requires { (second.home ≡ memory.now) × (note.home ≡ memory.now) }
            ensures { (result.home ≡ memory.entry.now) × Begins note.front result.front }
        { met(memory, second, note) },
        || {},
    );
    (first, second)
}
