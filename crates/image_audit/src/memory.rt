//! The words that an audit reads.
ghost use Rattle.std.specs.Prelude.{◌≡◌, ℕ, ◌<◌, ◌^◌, IfSome, IfNone};
ghost use Rattle.node_words.specs.declared.geometry.Geometry.{Geometry};
ghost use Rattle.image_laws.specs.Sound.{IsTaken, NextsFit};

use node_words::Geometry;

/// Words by address, and a cell for each address that was taken.
pub trait Memory {
    /// The words by address.
    ghost words: { Self → ℕ → ℕ };

    /// The sizes of the memory.
    ghost shape: { Self → Geometry };

    /// How many cells there are.
    ghost cells: { Self → ℕ };

    /// The cell of a taken address.
    ghost place: { Self → ℕ → ℕ };

    /// The sizes of the memory.
    fn geometry(&self) -> Geometry
        ensures { result ≡ shape self.now };

    /// The word at an address below 2^47.
    fn word(&self, at: u64) -> u64
        requires { at < 2 ^ 47 }
        ensures { result ≡ words self.now at };

    /// How many cells there are.
    fn cell_count(&self) -> usize
        ensures { result ≡ cells self.now };

    /// The cell of an address; None exactly where it was not taken.
    fn cell(&self, at: u64) -> Option<usize>
        ensures some { IfSome result (λ cell. (cell ≡ place self.now at) × (cell < cells self.now) × IsTaken (shape self.now) (words self.now) at) }
        ensures none { IfNone result (IsTaken (shape self.now) (words self.now) at → ⊥) };

    /// No two taken addresses share a cell.
    ghost apart: { (m : Self) (a b : ℕ) → IsTaken (shape m) (words m) a → IsTaken (shape m) (words m) b → place m a ≡ place m b → a ≡ b };

    /// A taken address is below 2^24.
    ghost low: { (m : Self) (a : ℕ) → IsTaken (shape m) (words m) a → a < 2 ^ 24 };

    /// Each next word lies from its opening value to its node's end.
    ghost nexts: { (m : Self) → NextsFit (shape m) (words m) };
}
