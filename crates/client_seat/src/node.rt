//! A handle on the running words.
ghost use Rattle.std.specs.Prelude.{◌≡◌};
ghost use Rattle.verbs.specs.Logs.{Lengthened, Begins};
ghost use Rattle.race_laws.specs.Legal.{MayFollow};
ghost use Rattle.client_seat.specs.Plays.{IsSound};

use crate::memory::Memory;
use crate::rule::Listing;
use crate::seat::{Note, Seat};
use std::marker::Model;
use verbs::Verbs;

/// A memory with a seat at it. A clause sees the seat.
#[derive(Drop)]
pub struct TableNode<'a, P: Listing> {
    memory: &'a Memory<P>,
    seat: Seat,
}

impl<'a, P: Listing> Model for TableNode<'a, P> {
    ghost use Rattle.std.specs.Prelude.{◌≡◌};
    ghost use Rattle.client_seat.specs.Seated.{Seated};

    ghost Value = { Seated };

    ghost view = { λ n. n.seat };

    ghost invariant = { λ n. n.seat.home ≡ n.memory.now };
}

impl<'a, P: Listing> TableNode<'a, P> {
    /// The handle of a seat of this memory.
    pub fn of(memory: &'a Memory<P>, seat: Seat) -> TableNode<'a, P>
        requires { seat.home ≡ memory.now }
        ensures seat { result ≡ seat }
    {
        TableNode { memory, seat }
    }

    /// Hands the seat back.
    pub fn leave(self) -> Seat
        ensures { result ≡ self.entry }
    {
        let TableNode { memory: _, seat } = self;
        seat
    }

    /// Hands out what always holds of a seat: its front is legal, and its trace is that of its front.
    pub fn keep(&self)
        ensures { IsSound self.now.home.setting self.now.home.seats self.now.front self.now.client self.now.trace }
    {
        self.seat.keep();
    }

    /// A copy of what the seat has seen.
    pub fn note(&mut self) -> Note
        ensures home { result.home ≡ self.old.home }
        ensures front { result.front ≡ self.old.front }
        ensures same { self.new ≡ self.old }
    {
        self.memory.note(&mut self.seat)
    }

    /// Gives what a note of this memory has seen to the seat.
    pub fn meet(&mut self, note: Note)
        requires { note.home ≡ self.old.home }
        ensures met { Begins note.front self.new.front }
        ensures longer { Lengthened (MayFollow self.old.home.setting) self.old.client self.old.front self.new.front }
        ensures trace { self.new.trace ≡ self.old.trace }
        ensures client { self.new.client ≡ self.old.client }
        ensures home { self.new.home ≡ self.old.home }
    {
        self.memory.meet(&mut self.seat, note);
    }
}

impl<'a, P: Listing> Verbs for TableNode<'a, P> {
    ghost use Rattle.std.specs.Prelude.{Some, None};
    ghost use Rattle.client_seat.specs.Seated.{Post, terms_at};
    ghost use Rattle.client_seat.specs.Traces.{verbs_in};

    ghost Home = { Post };

    ghost home = { λ node. record { home = node.home; client = node.client } };

    ghost terms = { terms_at };

    ghost front = { λ node. node.front };

    ghost trace = { λ node. Some (verbs_in node.trace) };

    ghost room = { λ node. None };

    fn read(&mut self, at: u64) -> u64 {
        self.memory.read(&mut self.seat, at)
    }

    fn write(&mut self, at: u64, word: u64) {
        self.memory.write(&mut self.seat, at, word);
    }

    fn swap(&mut self, at: u64, expected: u64, word: u64) -> u64 {
        self.memory.swap(&mut self.seat, at, expected, word)
    }
}
