//! Placers: what gives each key its number.
ghost use Rattle.std.specs.Prelude.{ℕ, ◌≡◌, ◌<◌, ◌++◌, ◌∷◌, [], List, length, not, MatchResult, IfOk, slice_get, Some, option_map, if◌then◌else◌};
ghost use Rattle.key_hash.specs.Placing.{Pairs, AreDistinct, is_listed, placed};

use crate::mixing::mix_key;
use kv_block::Key;
use std::alloc::{AllocError, Global};
use std::collections::BTreeMap;
use std::marker::Model;

/// Gives each key its number.
pub trait Placer: Sync {
    /// The keys with a number of their own, each once. Every other key has the number `mixed`.
    ghost listed: { Self → Pairs };

    /// The number of a key: the one that is listed for it, else `mixed` of it. One key always gets one
    /// number.
    fn hash(&self, key: &Key) -> u64
        ensures value { result ≡ placed (listed self.now) key.now }
        ensures distinct { AreDistinct (listed self.now) };
}

/// Gives each key the number `mixed`.
#[derive(Clone, Copy, Debug)]
pub struct Mixed;

impl Placer for Mixed {
    ghost listed = { λ _. [] };

    fn hash(&self, key: &Key) -> u64 {
        mix_key(key)
    }
}

/// Gives listed keys their stated numbers, and the rest the number `mixed`. The keys stand in the order in
/// which they were added. A number is found by the order of the keys' bytes, so that no choice of keys makes
/// it slow.
#[derive(Drop)]
pub struct Listed {
    pairs: Vec<(Key, u64)>,
    numbers: BTreeMap<Key, u64>,
}

impl Model for Listed {
    ghost use Rattle.std.specs.Prelude.{ℕ, List};
    ghost use Rattle.key_hash.specs.Placing.{Pairs, AreDistinct, Finds};

    ghost Value = { List (List ℕ × ℕ) };

    ghost view = { λ l. l.pairs.items };

    ghost invariant = { λ l. AreDistinct l.pairs.items × Finds l.numbers l.pairs.items };
}

impl Listed {
    /// No key is listed.
    pub fn new(alloc: Global) -> Result<Listed, AllocError>
        ensures { IfOk result (λ listed. listed ≡ []) }
    {
        Ok(Listed {
            pairs: Vec::new(alloc),
            numbers: BTreeMap::new(alloc),
        })
    }

    /// Lists a key with its number behind the others, and answers true. A key that is listed already keeps
    /// its number: then the answer is false and nothing changes. A refusal changes nothing either.
    pub fn add(&mut self, key: Key, hash: u64) -> Result<bool, AllocError>
        ensures { MatchResult result
            (λ added. (added ≡ not (is_listed self.old key))
            × (self.new ≡ (if added then self.old ++ (key, hash) ∷ [] else self.old)))
            (λ _. self.new ≡ self.old) }
    {
        if self.contains(&key) {
            return Ok(false);
        }
        self.pairs.reserve(1)?;
        self.numbers.insert(key, hash)?;
        self.pairs.push_reserved((key, hash));
        Ok(true)
    }

    /// Whether the key is listed.
    pub fn contains(&self, key: &Key) -> bool
        ensures { result ≡ is_listed self.now key.now }
    {
        self.numbers.contains_key(key)
    }

    /// The listed keys with their numbers, in order of first appearance.
    pub fn pairs(&self) -> &[(Key, u64)]
        ensures { result.now ≡ self.now }
    {
        self.pairs.as_slice()
    }

    /// How many keys are listed.
    pub fn len(&self) -> usize
        ensures len { result ≡ length self.now }
        ensures distinct { AreDistinct self.now }
    {
        self.pairs.len()
    }

    /// Key `i`, which is below `len`, in the order of first appearance.
    pub fn key(&self, i: usize) -> Key
        requires { i < length self.now }
        ensures { option_map (λ p. p.0) (slice_get self.now i) ≡ Some result }
    {
        self.pairs[i].0
    }

    /// The number that is listed for key `i`, which is below `len`.
    pub fn hash_at(&self, i: usize) -> u64
        requires { i < length self.now }
        ensures { option_map (λ p. p.1) (slice_get self.now i) ≡ Some result }
    {
        self.pairs[i].1
    }
}

impl Placer for Listed {
    ghost listed = { λ l. l };

    fn hash(&self, key: &Key) -> u64 {
        match self.numbers.get(key) {
            Some(hash) => *hash,
            None => mix_key(key),
        }
    }
}
