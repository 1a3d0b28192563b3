//! A call with a call inside.
ghost use Rattle.std.specs.Prelude.{◌≡◌, ◌<◌, ◌≤◌, ◌+◌, ◌*◌, Some, None, ℕ};
ghost use Rattle.rising.specs.TwiceFits.{TwiceFits, TwiceFits-prop};

use crate::rise::{Rise, RiseEnd, Start};
use kv_block::Key;
use verb_log::Verb;
use verbs::Call;

// What comes next: an act of the rise, the read that checks its depth, or none.
#[derive(Clone, Copy, Debug)]
pub enum AtTwice {
    Rising { rise: Rise },
    Check { depth: u64 },
    Ended { end: Option<u64> },
}

/// The call that rises until the depth stays. It answers the depth, or None where a rise spent its tries. It takes no memory.
#[derive(Clone, Copy, Debug)]
pub struct Twice {
    tries: u32,
    at: AtTwice,
    ghost some: { 1 ≤ tries },
    ghost fits: { TwiceFits at } by { TwiceFits-prop at },
}

impl AtTwice {
    ghost use Rattle.verbs.specs.Programs.{goes_on, answer_of};
    ghost use Rattle.verbs.specs.Inside.{settled};
    ghost use Rattle.rising.specs.declared.rise.RiseEnd.{RiseEnd};
    ghost use Rattle.rising.specs.Rest.{rise_rest};
    ghost use Rattle.rising.specs.Twice.{rising, twice, after_rise, after_check, at_twice};

    // The rise has ended.
    #[tactic(auto, unfolding(crate::specs::Twice::after_rise))]
    fn after_rise(tries: u32, end: RiseEnd) -> AtTwice
        ensures rest { at_twice tries result ≡ goes_on twice (after_rise tries end) }
        ensures fits { TwiceFits result }
    {
        match end {
            RiseEnd::Won { depth } => AtTwice::Check { depth },
            RiseEnd::Spent => AtTwice::Ended { end: None },
        }
    }

    // The rise has done an act.
    #[tactic(auto, using(crate::proofs::Waits::waits))]
    fn rising(tries: u32, rise: Rise) -> AtTwice
        ensures rest { at_twice tries result ≡ settled twice (rising tries) (after_rise tries) (rise_rest rise) (answer_of (rise_rest rise)) }
        ensures fits { TwiceFits result }
    {
        match rise.answer() {
            Some(end) => AtTwice::after_rise(tries, end),
            None => AtTwice::Rising { rise },
        }
    }

    // The depth was read again.
    fn after_check(tries: u32, depth: u64, word: u64) -> AtTwice
        requires { 1 ≤ tries }
        ensures rest { at_twice tries result ≡ goes_on twice (after_check tries depth word) }
        ensures fits { TwiceFits result }
    {
        if word == depth {
            AtTwice::Ended { end: Some(depth) }
        } else {
            AtTwice::Rising {
                rise: Rise::start(Start {
                    tries,
                    depth: word,
                    lost: 0,
                }),
            }
        }
    }
}

impl Twice {
    ghost use Rattle.rising.specs.Twice.{rising, twice, twice_rest};

    /// Before its first act, with at least one try for each rise.
    pub fn start(tries: u32) -> Twice
        requires { 1 ≤ tries }
        ensures rest { twice_rest result ≡ twice (rising tries (record { tries = tries; depth = 0; lost = 0 })) }
    {
        let rise = Rise::start(Start {
            tries,
            depth: 0,
            lost: 0,
        });
        Twice {
            tries,
            at: AtTwice::Rising { rise },
        }
    }
}

impl Call for Twice {
    ghost use Rattle.rising.specs.Twice.{From, twice, twice_rest};

    type Answer = Option<u64>;

    ghost Kept = { Unit {0} };

    ghost kept = { λ m. tt };

    ghost State = { From };

    ghost part = { twice };

    ghost rest = { twice_rest };

    #[tactic(auto, using(crate::proofs::Twices::twices))]
    fn next(&self) -> Option<Verb> {
        match self.at {
            AtTwice::Rising { rise } => rise.next(),
            AtTwice::Check { .. } => Some(Verb::Read { at: 1 }),
            AtTwice::Ended { .. } => None,
        }
    }

    #[tactic(auto, using(crate::proofs::Twices::twices))]
    fn feed(&mut self, word: u64) {
        let tries = self.tries;
        self.at = match self.at {
            AtTwice::Rising { rise } => {
                let mut rise = rise;
                rise.feed(word);
                AtTwice::rising(tries, rise)
            }
            AtTwice::Check { depth } => AtTwice::after_check(tries, depth, word),
            AtTwice::Ended { end } => AtTwice::Ended { end },
        };
    }

    #[tactic(auto, using(crate::proofs::Twices::twices))]
    fn block(&self) -> Option<u64> {
        match self.at {
            AtTwice::Rising { rise } => rise.block(),
            AtTwice::Check { .. } => None,
            AtTwice::Ended { .. } => None,
        }
    }

    #[tactic(auto, using(crate::proofs::Twices::twices))]
    fn asks(&self) -> Option<Key> {
        match self.at {
            AtTwice::Rising { rise } => rise.asks(),
            _ => None,
        }
    }

    #[tactic(auto, using(crate::proofs::Twices::twices))]
    fn told(&mut self, hash: u64) {
        let tries = self.tries;
        self.at = match self.at {
            AtTwice::Rising { rise } => {
                let mut rise = rise;
                rise.told(hash);
                AtTwice::rising(tries, rise)
            }
            AtTwice::Check { depth } => AtTwice::Check { depth },
            AtTwice::Ended { end } => AtTwice::Ended { end },
        };
    }

    #[tactic(auto, using(crate::proofs::Twices::twices))]
    fn answer(&self) -> Option<Option<u64>> {
        match self.at {
            AtTwice::Ended { end } => Some(end),
            AtTwice::Rising { .. } => None,
            AtTwice::Check { .. } => None,
        }
    }
}
