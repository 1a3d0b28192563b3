//! The seats of a new memory, dealt to its clients, and one more.
ghost use Rattle.std.specs.Prelude.{◌≡◌, ◌+◌, ◌++◌, IfOk, OnOk};
ghost use Rattle.running_play.specs.Dealt.{fresh_seats, taken_places, fresh_places};
ghost use Rattle.client_seat.specs.Seated.{fresh_seat};

use client_seat::{Seat, Seats};
use std::alloc::{AllocError, Global};

// The seats of so many clients, in order; one more is left.
fn deal(alloc: Global, seats: &mut Seats, clients: u32) -> Result<Vec<Seat>, AllocError>
    requires { seats.old.places ≡ fresh_places seats.old.home 0 (clients + 1) }
    ensures dealt { IfOk result (λ dealt. dealt.items ≡ fresh_seats seats.old.home 0 clients) }
    ensures places { OnOk result (seats.new.places ≡ taken_places clients ++ fresh_places seats.old.home clients 1) }
    ensures home { seats.new.home ≡ seats.old.home }
{
    let mut dealt = Vec::new(alloc);
    for _client in 0..clients {
        let Some(seat) = seats.take() else {
            unreachable!()
        };
        dealt.push(seat)?;
    }
    Ok(dealt)
}

/// The seats of so many clients, in order, and the one more that is left then. It fails only for want of memory.
pub fn deal_all(
    alloc: Global,
    seats: &mut Seats,
    clients: u32,
) -> Result<(Vec<Seat>, Seat), AllocError>
    requires { seats.old.places ≡ fresh_places seats.old.home 0 (clients + 1) }
    ensures dealt { IfOk result (λ dealt. dealt.0.items ≡ fresh_seats seats.old.home 0 clients) }
    ensures last { IfOk result (λ dealt. dealt.1 ≡ fresh_seat seats.old.home clients) }
    ensures places { OnOk result (seats.new.places ≡ taken_places (clients + 1)) }
    ensures home { seats.new.home ≡ seats.old.home }
{
    let dealt = deal(alloc, seats, clients)?;
    let Some(last) = seats.take() else {
        unreachable!()
    };
    Ok((dealt, last))
}
