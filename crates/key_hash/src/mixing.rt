//! The number of a key that is not listed.
ghost use Rattle.std.specs.Prelude.{◌≡◌};
ghost use Rattle.key_hash.specs.Mixing.{mix, hashed, mixed};

use kv_block::Key;

/// The number with which FNV-1a of 64 bits begins.
const OFFSET_BASIS: u64 = 0xcbf29ce484222325;

/// The number by which it multiplies after each byte.
const PRIME: u64 = 0x100000001b3;

/// The five steps of mixing, with wrapping products: `x ^= x >> 30`, `x *= 0xbf58476d1ce4e5b9`,
/// `x ^= x >> 27`, `x *= 0x94d049bb133111eb`, `x ^= x >> 31`.
#[tactic(auto, unfolding(crate::specs::Mixing::mix))]
pub fn mix_word(x: u64) -> u64
    ensures { result ≡ mix x }
{
    let x = (x ^ (x >> 30)).wrapping_mul(0xbf58476d1ce4e5b9);
    let x = (x ^ (x >> 27)).wrapping_mul(0x94d049bb133111eb);
    x ^ (x >> 31)
}

/// FNV-1a of 64 bits: for each byte an exclusive or and a wrapping product.
#[tactic(auto, unfolding(crate::specs::Mixing::hashed))]
fn hash_bytes(bytes: &[u8]) -> u64
    ensures { result ≡ hashed bytes.now }
{
    bytes.iter().fold(
        OFFSET_BASIS,
        |hash, byte| (hash ^ u64::from(*byte)).wrapping_mul(PRIME),
    )
}

/// The number of a key that is not listed: FNV-1a over its bytes, then the five steps.
#[tactic(auto, unfolding(crate::specs::Mixing::mixed))]
pub(crate) fn mix_key(key: &Key) -> u64
    ensures { result ≡ mixed key.now }
{
    mix_word(hash_bytes(key.bytes()))
}
