//! Drawn numbers.
ghost use Rattle.std.specs.Prelude.{◌≡◌};
ghost use Rattle.storm_script.specs.Draws.{drawn, stepped};

use key_hash::mix_word;

/// What a draw adds to the state.
const STEP: u64 = 0x9e3779b97f4a7c15;

/// Draws numbers of 64 bits. Each comes of a state, which goes on at each draw.
#[derive(Clone, Copy, Debug, PartialEq, Eq)]
pub struct Draws {
    pub state: u64,
}

impl Draws {
    /// The next number: the state goes on by 0x9e3779b97f4a7c15, wrapping, and is mixed.
    pub fn draw(&mut self) -> u64
        ensures number { result ≡ drawn self.old.state }
        ensures state { self.new.state ≡ stepped self.old.state }
    {
        self.state = self.state.wrapping_add(STEP);
        mix_word(self.state)
    }
}
