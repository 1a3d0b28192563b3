//! The call that swaps a mark into word 2 while word 1 is what was last read of it.
ghost use Rattle.std.specs.Prelude.{◌≡◌, ◌<◌, ◌≤◌, ◌+◌, ◌^◌};
ghost use Rattle.rising.specs.Fits.{AtFits, AtFits-prop};

use kv_block::Key;
use verb_log::Verb;
use verbs::Call;

/// What a part starts from: the tries in all, the depth that was last read, and how many swaps were lost.
#[derive(Clone, Copy, Debug)]
pub struct Start {
    pub tries: u32,
    pub depth: u64,
    pub lost: u32,
}

/// How the call ends: its swap put a depth into word 2, or each of its tries was lost.
#[derive(Clone, Copy, Debug, PartialEq, Eq)]
pub enum RiseEnd {
    Won { depth: u64 },
    Spent,
}

// The verb that comes next: the read of the depth, the swap of the mark, or none.
#[derive(Clone, Copy, Debug)]
pub enum At {
    Depth { start: Start },
    Mark { start: Start },
    Ended { end: RiseEnd },
}

/// The call that swaps the depth in. It takes no memory.
#[derive(Clone, Copy, Debug)]
pub struct Rise {
    at: At,
    ghost fits: { AtFits at } by { AtFits-prop at },
}

impl At {
    ghost use Rattle.rising.specs.Rise.{rise, marked, after_depth};
    ghost use Rattle.rising.specs.Rest.{at_rest};
    ghost use Rattle.verbs.specs.Programs.{goes_on};

    // The depth was read.
    fn after_depth(start: Start, depth: u64) -> At
        requires { start.lost < start.tries }
        ensures rest { at_rest result ≡ goes_on rise (after_depth start depth) }
        ensures fits { AtFits result }
    {
        if depth == start.depth {
            At::Mark { start }
        } else {
            At::Depth {
                start: Start { depth, ..start },
            }
        }
    }

    // The swap found this word.
    fn marked(start: Start, found: u64) -> At
        requires { start.lost < start.tries }
        ensures rest { at_rest result ≡ goes_on rise (marked start found) }
        ensures fits { AtFits result }
    {
        if found == 0 {
            At::Ended {
                end: RiseEnd::Won { depth: start.depth },
            }
        } else if start.lost + 1 == start.tries {
            At::Ended {
                end: RiseEnd::Spent,
            }
        } else {
            At::Depth {
                start: Start {
                    lost: start.lost + 1,
                    ..start
                },
            }
        }
    }
}

impl Rise {
    ghost use Rattle.rising.specs.Rise.{rise};
    ghost use Rattle.rising.specs.Rest.{rise_rest};

    /// Before its first act, with fewer swaps lost than there are tries.
    pub fn start(start: Start) -> Rise
        requires { start.lost < start.tries }
        ensures rest { rise_rest result ≡ rise start }
    {
        Rise {
            at: At::Depth { start },
        }
    }
}

impl Call for Rise {
    ghost use Rattle.rising.specs.Rise.{rise};
    ghost use Rattle.rising.specs.Rest.{rise_rest};
    ghost use Rattle.rising.specs.declared.rise.Start.{Start};

    type Answer = RiseEnd;

    ghost Kept = { Unit {0} };

    ghost kept = { λ m. tt };

    ghost State = { Start };

    ghost part = { rise };

    ghost rest = { rise_rest };

    fn next(&self) -> Option<Verb> {
        match self.at {
            At::Depth { .. } => Some(Verb::Read { at: 1 }),
            At::Mark { start } => Some(Verb::Swap {
                at: 2,
                expected: 0,
                word: start.depth,
            }),
            At::Ended { .. } => None,
        }
    }

    fn feed(&mut self, word: u64) {
        self.at = match self.at {
            At::Depth { start } => At::after_depth(start, word),
            At::Mark { start } => At::marked(start, word),
            At::Ended { end } => At::Ended { end },
        };
    }

    fn block(&self) -> Option<u64> {
        None
    }

    fn asks(&self) -> Option<Key> {
        None
    }

    fn told(&mut self, hash: u64) {}

    fn answer(&self) -> Option<RiseEnd> {
        match self.at {
            At::Ended { end } => Some(end),
            _ => None,
        }
    }
}
