//! The machine that takes three words and stores into them.
ghost use Rattle.std.specs.Prelude.{◌≡◌, ◌<◌, ◌≤◌, ◌+◌, ◌^◌, Some};
ghost use Rattle.takers.specs.Fits.{AtFits, AtFits-prop};

use kv_block::Key;
use verb_log::Verb;
use verbs::Machine;

// The verb that comes next: the read of the next word, the swap that takes, a store, or none.
#[derive(Clone, Copy, Debug)]
pub enum At {
    Next,
    Take { next: u64 },
    Store { first: u64, at: u64, more: u32 },
    Ended { taken: Option<u64> },
}

/// Takes three words of the first node, and stores a word in each. It takes no memory.
#[derive(Clone, Copy, Debug)]
pub struct Taker {
    end: u64,
    word: u64,
    at: At,
    ghost low: { end < 2 ^ 32 },
    ghost fits: { AtFits at } by { AtFits-prop at },
}

impl At {
    ghost use Rattle.std.specs.Prelude.{ℕ};
    ghost use Rattle.takers.specs.Text.{from, after_take, stores};
    ghost use Rattle.takers.specs.Rest.{at_rest};

    // The next word was read.
    fn from(end: u64, next: u64) -> At
        requires { end < 2 ^ 32 }
        ensures rest { (word : ℕ) → at_rest end word result ≡ from end word next }
        ensures fits { AtFits result }
    {
        if next < end && end - next >= 3 {
            At::Take { next }
        } else {
            At::Ended { taken: None }
        }
    }

    // The swap found this word.
    fn after_take(next: u64, found: u64) -> At
        requires { next + 3 ≤ 2 ^ 63 }
        ensures rest { (end word : ℕ) → at_rest end word result ≡ after_take word next found }
        ensures fits { AtFits result }
    {
        if found == next {
            At::Store {
                first: next,
                at: next,
                more: 2,
            }
        } else {
            At::Ended { taken: None }
        }
    }

    // The word was stored, and so many stores are left.
    fn after_store(first: u64, at: u64, more: u32) -> At
        requires { at + more ≤ 2 ^ 63 }
        ensures rest { (end word : ℕ) → at_rest end word result ≡ stores word first (at + 1) more }
        ensures fits { AtFits result }
    {
        if more == 0 {
            At::Ended { taken: Some(first) }
        } else {
            At::Store {
                first,
                at: at + 1,
                more: more - 1,
            }
        }
    }
}

impl Taker {
    ghost use Rattle.takers.specs.Text.{taking};
    ghost use Rattle.takers.specs.Rest.{rest};

    /// Before its first verb. The first node ends at `end`, which is below 2^32.
    pub fn new(end: u64, word: u64) -> Taker
        requires { end < 2 ^ 32 }
        ensures { rest result ≡ taking end word }
    {
        Taker {
            end,
            word,
            at: At::Next,
        }
    }
}

impl Machine for Taker {
    ghost use Rattle.takers.specs.Rest.{rest};

    type Outcome = Option<u64>;

    ghost Kept = { Unit {0} };

    ghost kept = { λ m. tt };

    ghost rest = { rest };

    fn next(&self) -> Option<Verb> {
        match self.at {
            At::Next => Some(Verb::Read { at: 0 }),
            At::Take { next } => Some(Verb::Swap {
                at: 0,
                expected: next,
                word: next + 3,
            }),
            At::Store { at, .. } => Some(Verb::Write {
                at,
                word: self.word,
            }),
            At::Ended { .. } => None,
        }
    }

    fn block(&self) -> Option<u64> {
        None
    }

    fn feed(&mut self, word: u64) {
        self.at = match self.at {
            At::Next => At::from(self.end, word),
            At::Take { next } => At::after_take(next, word),
            At::Store { first, at, more } => At::after_store(first, at, more),
            At::Ended { taken } => At::Ended { taken },
        };
    }

    fn asks(&self) -> Option<Key> {
        None
    }

    fn told(&mut self, hash: u64) {}

    fn outcome(&self) -> Option<Option<u64>> {
        match self.at {
            At::Ended { taken } => Some(taken),
            _ => None,
        }
    }
}
