//! Header words, of tables and of buckets.
ghost use Rattle.std.specs.Prelude.{◌≡◌, ◌≤◌, IfSome};
ghost use Rattle.slot_word.specs.declared.heads.Head.{Head};
ghost use Rattle.slot_word.specs.Heads.{IsHead, state_bits, state_of, head_of, head_word as word_of_head};

/// What becomes of a table or a bucket.
#[derive(Clone, Copy, Debug, PartialEq, Eq)]
pub enum State {
    /// It is neither split nor filled.
    Plain,
    /// Its keys are moving to a child.
    Splitting,
    /// It is a child that its parent's keys move to.
    Filling,
}

impl State {
    // The two bits of the state.
    fn bits(self) -> u64
        ensures { result ≡ state_bits self }
    {
        match self {
            State::Plain => 1,
            State::Splitting => 2,
            State::Filling => 3,
        }
    }

    // The state of the bits above the depth, where they are one.
    fn of_bits(bits: u64) -> Option<State>
        ensures { result ≡ state_of bits }
    {
        match bits {
            1 => Some(State::Plain),
            2 => Some(State::Splitting),
            3 => Some(State::Filling),
            _ => None,
        }
    }
}

/// What a header word says: the local depth, 0 to 16, and the state.
#[derive(Clone, Copy, Debug, PartialEq, Eq)]
pub struct Head {
    /// The local depth.
    pub depth: u32,
    /// What becomes of the table or the bucket.
    pub state: State,
}

/// The greatest depth of a table.
const GREATEST_DEPTH: u64 = 16;

/// The word of a header: bits 7..0 the depth, bits 9..8 the state (1 plain, 2 splitting, 3 filling), the rest 0.
#[tactic(auto, unfolding(crate::specs::Heads::head_word))]
pub fn head_word(head: &Head) -> u64
    requires { head.now.depth ≤ 16 }
    ensures word { result ≡ word_of_head head.now }
    ensures back { head_of result ≡ Some head.now }
{
    (head.state.bits() << 8) + head.depth as u64
}

/// The header that a word packs. None comes exactly where the word is not the word of a header: its depth is
/// above 16, its state is 0, or a bit above the fields is set.
#[tactic(auto, unfolding(crate::specs::Heads::head_of))]
pub fn read_head(word: u64) -> Option<Head>
    ensures value { result ≡ head_of word }
    ensures packed { IfSome result (λ head. IsHead head × (word_of_head head ≡ word)) }
    ensures each { (head : Head) → IsHead head → word_of_head head ≡ word → result ≡ Some head }
{
    let depth = word % 256;
    if depth > GREATEST_DEPTH {
        return None;
    }
    let state = State::of_bits(word >> 8)?;
    Some(Head {
        depth: depth as u32,
        state,
    })
}
