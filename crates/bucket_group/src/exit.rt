//! The level at which a key leaves a table.
ghost use Rattle.std.specs.Prelude.{ℕ, ◌≡◌, ◌<◌, ◌≤◌, IfSome, IfNone};
ghost use Rattle.bucket_group.specs.ExitLevel.{bit_of, exit_level, IsLeastSet};

/// The level at which a key with this hash leaves a table of this birth depth: the least `i` of
/// `birth_depth` to 15 whose bit of the hash is set. `None` comes exactly where there is none, and the key
/// then always stays.
pub fn exit_level(hash: u64, birth_depth: u32) -> Option<u32>
    ensures level { result ≡ exit_level hash birth_depth }
    ensures least { IfSome result (λ i. IsLeastSet birth_depth hash i) }
    ensures none { IfNone result ((i : ℕ) → birth_depth ≤ i → i < 16 → bit_of hash i ≡ 0) }
{
    for level in birth_depth..16 {
        if (hash >> level) & 1 == 1 {
            return Some(level);
        }
    }
    None
}
