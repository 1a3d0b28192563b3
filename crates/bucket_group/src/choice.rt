//! The free candidate that an insert takes.
ghost use Rattle.std.specs.Prelude.{ℕ, ◌≡◌, ◌<◌, ◌≢◌, true, false, length, slice_set, replicate, find, count_by, not, IfSome, IfNone};
ghost use Rattle.bucket_group.specs.Choice.{is_free, choice, second_combined, emptier, IsFirstFree};

use crate::place_list::Places;
use std::marker::Model;

/// The numbers of the candidates in the first main bucket and its overflow bucket.
const FIRST: [usize; 14] = [0, 1, 2, 3, 4, 5, 6, 7, 8, 9, 10, 11, 12, 13];

/// The same of the second main bucket, where it has an overflow bucket of its own.
const SECOND: [usize; 14] = [14, 15, 16, 17, 18, 19, 20, 21, 22, 23, 24, 25, 26, 27];

/// The same of the second main bucket, where it shares the overflow bucket of the first.
const SECOND_SHARED: [usize; 14] = [14, 15, 16, 17, 18, 19, 20, 7, 8, 9, 10, 11, 12, 13];

/// Which candidates are free: 28 truth values, one for each candidate in order.
#[derive(Clone, Copy, Debug, PartialEq, Eq)]
pub struct Free {
    free: [bool; 28],
}

impl Model for Free {
    ghost use Rattle.std.specs.Prelude.{List, Bool};

    ghost Value = { List Bool };

    ghost view = { λ f. f.free };

    ghost inverse = { λ bits. record { free = bits } };
}

impl Free {
    /// No candidate is free.
    pub fn new() -> Free
        ensures { result ≡ replicate 28 false }
    {
        Free { free: [false; 28] }
    }

    /// Whether candidate `i`, which is below 28, is free.
    pub fn get(&self, i: usize) -> bool
        requires { i < 28 }
        ensures { result ≡ is_free self.now i }
    {
        self.free[i]
    }

    /// Says of candidate `i`, which is below 28, whether it is free.
    pub fn set(&mut self, i: usize, free: bool)
        requires { i < 28 }
        ensures set { self.new ≡ slice_set self.old i free }
        ensures is { is_free self.new i ≡ free }
        ensures others { (j : ℕ) → j ≢ i → is_free self.new j ≡ is_free self.old j }
    {
        self.free[i] = free;
    }

    /// Whether there is a candidate `i` that is free.
    fn is_free(&self, i: usize) -> bool
        ensures { result ≡ is_free self.now i }
    {
        i < 28 && self.free[i]
    }

    /// How many of these candidates are not free.
    fn taken(&self, candidates: &[usize]) -> usize
        ensures { result ≡ count_by (λ i. not (is_free self.now i)) candidates.now }
    {
        candidates.iter().filter(|i| !self.is_free(**i)).count()
    }

    /// The first of these candidates that is free.
    fn first_of(&self, candidates: &[usize]) -> Option<usize>
        ensures { result ≡ find (λ i. is_free self.now i) candidates.now }
    {
        candidates.iter().copied().find(|i| self.is_free(*i))
    }
}

/// The candidate that an insert takes, as its number in `places`. Of the first and the second main bucket,
/// each with its overflow bucket, it is in the one with fewer slots that are not free, and in the first
/// where both have as many; there it is the first free slot, main before overflow. `None` comes exactly
/// where no candidate is free.
pub fn choose(places: &Places, free: &Free) -> Option<usize>
    ensures choice { result ≡ choice (length places.now) free.now }
    ensures first { IfSome result (IsFirstFree free.now (emptier (length places.now) free.now)) }
    ensures some { IfSome result (λ i. (i < length places.now) × (is_free free.now i ≡ true)) }
    ensures none { IfNone result ((i : ℕ) → i < length places.now → is_free free.now i ≡ false) }
{
    let candidates = places.len();
    choice_among(candidates, free)
}

/// The choice among so many candidates.
fn choice_among(candidates: usize, free: &Free) -> Option<usize>
    ensures { result ≡ choice candidates free.now }
{
    let second = second_combined(candidates);
    if free.taken(&FIRST) <= free.taken(second) {
        free.first_of(&FIRST)
    } else {
        free.first_of(second)
    }
}

/// The numbers of the candidates in the second main bucket and its overflow bucket, of so many candidates.
fn second_combined(candidates: usize) -> &'static [usize; 14]
    ensures { result.now ≡ second_combined candidates }
{
    if candidates == 28 {
        &SECOND
    } else {
        &SECOND_SHARED
    }
}
