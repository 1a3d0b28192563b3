//! The listed keys of an image, with their hashes.
ghost use Rattle.std.specs.Prelude.{◌≡◌, ℕ, ◌≤◌, ◌++◌, List, length, IfOk, IfSome, IfNone, drop};
ghost use Rattle.key_hash.specs.Placing.{Pairs, AreDistinct};
ghost use Rattle.node_image.specs.Numbers.{entry_of, entry_length, entries_of, AreKeys, IsKey};

use key_hash::Listed;
use kv_block::{Key, read_block};
use std::alloc::{AllocError, Global};

/// A listed key.
#[derive(Drop)]
struct Entry {
    key: Key,
    hash: u64,
    /// How many numbers it takes.
    numbers: usize,
}

/// The listed key that numbers begin with; None exactly where they begin with none.
fn read_entry(numbers: &[u64]) -> Option<Entry>
    ensures some { IfSome result (λ e. (numbers.now ≡ entry_of (e.key, e.hash) ++ drop e.numbers numbers.now) × (e.numbers ≤ length numbers.now) × IsKey (e.key, e.hash)) }
    ensures none { IfNone result ((p : List ℕ × ℕ) (rest : List ℕ) → IsKey p → numbers.now ≡ entry_of p ++ rest → ⊥) }
{
    if numbers.len() < 2 {
        return None;
    }
    let length = numbers[0];
    if length > 64 {
        return None;
    }
    let count = (length as usize + 7) / 8 + 1;
    if numbers.len() <= count {
        return None;
    }
    let Some(pair) = read_block(&numbers[..count]) else {
        return None;
    };
    Some(Entry {
        key: pair.0,
        hash: numbers[count],
        numbers: count + 1,
    })
}

/// So many listed keys, with which numbers begin, and how many numbers they take; None exactly where numbers do not begin with so
/// many distinct keys.
pub(crate) fn read_entries(
    alloc: Global,
    numbers: &[u64],
    count: u64,
) -> Result<Option<(Listed, usize)>, AllocError>
    ensures some { IfOk result (λ o. IfSome o (λ p. (numbers.now ≡ entries_of p.0 ++ drop p.1 numbers.now) × (p.1 ≤ length numbers.now) × (length p.0 ≡ count) × AreKeys p.0 × AreDistinct p.0)) }
    ensures none { IfOk result (λ o. IfNone o ((listed : Pairs) (rest : List ℕ) → length listed ≡ count → AreKeys listed → AreDistinct listed → numbers.now ≡ entries_of listed ++ rest → ⊥)) }
{
    let mut listed = Listed::new(alloc)?;
    let mut at = 0;
    for _ in 0..count {
        let Some(entry) = read_entry(&numbers[at..]) else {
            return Ok(None);
        };
        let fresh = listed.add(entry.key, entry.hash)?;
        if !fresh {
            return Ok(None);
        }
        at += entry.numbers;
    }
    Ok(Some((listed, at)))
}
