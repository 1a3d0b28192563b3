//! Takers on running words.
ghost use Rattle.std.specs.Prelude.{◌≡◌, IfSome};
ghost use Rattle.race_laws.specs.Legal.{IsLegal};
ghost use Rattle.client_seat.specs.Seated.{all_fresh};
ghost use Rattle.takers.specs.Stored.{HasStored};

use crate::taker::Taker;
use client_seat::{Front, Memory, Seat, Seats, TableNode};
use key_hash::Placer;
use std::thread;
use std::thread::Threads;
use verbs::{Machine, run_on};

/// One client takes and stores, whatever others do.
pub fn take_on<P: Placer>(memory: &Memory<P>, seat: Seat, word: u64) -> (Seat, Option<u64>)
    requires { seat.home ≡ memory.now }
    ensures home { result.0.home ≡ memory.now }
    ensures client { result.0.client ≡ seat.client }
    ensures stored { IfSome result.1 (λ first. HasStored memory.now.setting seat.client word result.0.front first) }
{
    let geometry = memory.geometry();
    let mut taker = Taker::new(geometry.words / u64::from(geometry.nodes), word);
    let mut node = TableNode::of(memory, seat);
    node.keep();
    run_on(&mut taker, &mut node, memory.placer(), 5);
    let taken = taker.outcome();
    let seat = node.leave();
    let Some(taken) = taken else { unreachable!() };
    (seat, taken)
}

/// Two clients take and store at once; the words of each that took stand in the one log that the memory closes to.
pub fn both_take<P: Placer + Drop, R: Threads + Sync>(
    rt: &R,
    memory: Memory<P>,
    mut seats: Seats,
) -> (Front, Option<u64>, Option<u64>)
    requires seats { seats ≡ all_fresh memory }
    requires two { memory.seats ≡ 2 }
    ensures legal { IsLegal memory.setting result.0.entries }
    ensures first { IfSome result.1 (λ first. HasStored memory.setting 0 7 result.0.entries first) }
    ensures second { IfSome result.2 (λ first. HasStored memory.setting 1 9 result.0.entries first) }
{
    let Some(a) = seats.take() else {
        unreachable!()
    };
    let Some(b) = seats.take() else {
        unreachable!()
    };
    let shared = &memory;
    let (one, two) = thread::join(
        rt,
        move ||
            requires { a.home ≡ shared.now }
            ensures { (result.0.home ≡ shared.entry.now) × (result.0.client ≡ a.client) × IfSome result.1 (λ first. HasStored shared.entry.now.setting a.client 7 result.0.front first) }
        { take_on(shared, a, 7) },
        move ||
            requires { b.home ≡ shared.now }
            ensures { (result.0.home ≡ shared.entry.now) × (result.0.client ≡ b.client) × IfSome result.1 (λ first. HasStored shared.entry.now.setting b.client 9 result.0.front first) }
        { take_on(shared, b, 9) },
    );
    let (a, first) = one;
    let (b, second) = two;
    seats.give(a);
    seats.give(b);
    (memory.close(seats), first, second)
}
