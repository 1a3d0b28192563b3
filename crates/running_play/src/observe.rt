//! One more client, which meets all.
ghost use Rattle.std.specs.Prelude.{◌≡◌, ◌<◌, ℕ, vec_len, slice_index_or};
ghost use Rattle.verbs.specs.Logs.{Begins, Longer};
ghost use Rattle.race_laws.specs.Legal.{MayFollow};
ghost use Rattle.running_play.specs.declared.worker.Worked.{Worked};

use crate::worker::Worked;
use client_seat::{Memory, TableNode};
use key_hash::Placer;

/// Meets a note of each worker's seat: what each has seen the node has seen then, and others alone lengthened its front.
pub fn meet_all<'a, P: Placer>(
    memory: &Memory<P>,
    node: &mut TableNode<'a, P>,
    all: &mut Vec<Worked>,
)
    requires node { node.old.home ≡ memory.now }
    requires seats { (i : ℕ) (d : Worked) → i < vec_len all.old → (slice_index_or all.old.items i d).seat.home ≡ memory.now }
    ensures same { all.new.items ≡ all.old.items }
    ensures home { node.new.home ≡ node.old.home }
    ensures client { node.new.client ≡ node.old.client }
    ensures trace { node.new.trace ≡ node.old.trace }
    ensures met { (i : ℕ) (d : Worked) → i < vec_len all.old → Begins (slice_index_or all.old.items i d).seat.front node.new.front }
    ensures only { Longer (MayFollow node.old.home.setting) node.old.client node.old.front node.new.front }
{
    for i in 0..all.len() {
        let worked = &mut all[i];
        let note = memory.note(&mut worked.seat);
        node.meet(note);
    }
}
