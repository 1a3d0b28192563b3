//! The next free words of the nodes, as a reply tells them.
ghost use Rattle.std.specs.Prelude.{◌≡◌, ◌+◌, ◌<◌, ◌≤◌, [], ◌∷◌, ◌++◌, length, slice_index, nat_eq, vec_len, vec_capacity};
ghost use Rattle.std.specs.Cmp.{partial_equiv_from_equiv};
ghost use Rattle.std.specs.Cmp.Lexicographic.{pointwise, nat_list_eq_equiv};
ghost use Rattle.map_model.specs.ReplyWords.{nexts_told};

use std::marker::Model;

/// A list of 1 to 8 numbers, one for each node. None of its calls takes memory.
#[derive(Clone, Copy, Debug)]
pub struct Nexts {
    numbers: [u64; 8],
    len: u8,
}

impl Model for Nexts {
    ghost use Rattle.std.specs.Prelude.{ℕ, ◌≤◌, List, length, take};
    ghost use Rattle.kv_block.specs.Filled.{filled, IsFilled, length-take_filled};

    ghost Value = { List ℕ };

    ghost view = { λ n. take n.len n.numbers };

    ghost invariant = { λ n. (1 ≤ n.len) × IsFilled 8 n.len n.numbers };

    ghost inverse = { λ xs. record { numbers = filled 8 xs; len = length xs } };

    ghost inverse_ok = { λ n h i. record { numbers = h.1.rest i; len = length-take_filled 8 n.len n.numbers h.1 i } };
}

impl Nexts {
    /// The list of one number.
    pub fn one(number: u64) -> Nexts
        ensures { result ≡ number ∷ [] }
    {
        Nexts {
            numbers: [number, 0, 0, 0, 0, 0, 0, 0],
            len: 1,
        }
    }

    /// The list with a number appended.
    pub fn with(self, number: u64) -> Nexts
        requires { length self < 8 }
        ensures { result ≡ self ++ number ∷ [] }
    {
        let mut numbers = self.numbers;
        numbers[self.len as usize] = number;
        Nexts {
            numbers,
            len: self.len + 1,
        }
    }

    /// How many numbers there are: 1 to 8.
    pub fn len(&self) -> usize
        ensures value { result ≡ length self.now }
        ensures least { 1 ≤ result }
        ensures most { result ≤ 8 }
    {
        self.len as usize
    }

    /// The number at place `i`, counted from 0.
    pub fn get(&self, i: usize) -> u64
        requires { i < length self.now }
        ensures { result ≡ slice_index self.now i }
    {
        self.numbers()[i]
    }

    // Appends the numbers to words in which there is room for them.
    pub(crate) fn push_to(&self, words: &mut Vec<u64>)
        requires room { vec_len words.old + 8 ≤ vec_capacity words.old }
        ensures items { words.new.items ≡ words.old.items ++ self.now }
        ensures capacity { vec_capacity words.old ≤ vec_capacity words.new }
        ensures least { 1 ≤ length self.now }
        ensures most { length self.now ≤ 8 }
    {
        for i in 0..self.len() {
            words.push_reserved(self.get(i));
        }
    }

    // The list of these words, where they are 1 to 8, else of one 0.
    pub(crate) fn of_words(words: &[u64]) -> Nexts
        ensures { result ≡ nexts_told words.now }
    {
        if words.is_empty() || words.len() > 8 {
            return Nexts::one(0);
        }
        let mut next = Nexts::one(words[0]);
        for i in 1..words.len() {
            next = next.with(words[i]);
        }
        next
    }

    // The numbers, in order.
    fn numbers(&self) -> &[u64]
        ensures { result.now ≡ self.now }
    {
        &self.numbers[..self.len as usize]
    }
}

impl PartialEq for Nexts {
    ghost eq = { pointwise nat_eq };

    ghost laws = { partial_equiv_from_equiv nat_list_eq_equiv };

    fn eq(&self, other: &Nexts) -> bool {
        self.numbers() == other.numbers()
    }
}

impl Eq for Nexts {
    ghost laws = { nat_list_eq_equiv };
}
