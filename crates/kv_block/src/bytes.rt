//! Keys and values: bytes of a bounded number, in fixed arrays.
ghost use Rattle.std.specs.Prelude.{◌≡◌, ℕ, ◌≤◌, [], length, refl, Some};
ghost use Rattle.std.specs.Option.{SomeIff};
ghost use Rattle.std.specs.Cmp.Lexicographic.{nat_list_eq_equiv, nat_list_cmp_total, texts_ties, texts_po};
ghost use Rattle.std.specs.Cmp.{partial_equiv_from_equiv};
ghost use Rattle.std.specs.Cmp.Rules.{hashing};
ghost use Rattle.std.specs.Hash as fed;
ghost use Rattle.std.proofs.Common.{rules};
ghost use Rattle.kv_block.specs.Filled.{filled};
ghost use Rattle.kv_block.specs.Bytes.{key_cmp, key_eq, IsKeyLength, IsValueLength, AreBytes};

use std::cmp::Ordering;
use std::hash::{Hash, Hasher};
use std::marker::Model;

/// The greatest number of bytes of a key.
pub const KEY_BYTES: usize = 64;

/// The greatest number of bytes of a value.
pub const VALUE_BYTES: usize = 1024;

/// A key: 1 to 64 bytes.
#[derive(Clone, Copy, Debug)]
pub struct Key {
    bytes: [u8; 64],
    len: u8,
}

impl Model for Key {
    ghost use Rattle.std.specs.Prelude.{ℕ, List, length, take};
    ghost use Rattle.kv_block.specs.Bytes.{IsKeyLength, AreBytes};
    ghost use Rattle.kv_block.specs.Filled.{filled, IsFilled, length-take_filled};

    ghost Value = { List ℕ };

    ghost view = { λ k. take k.len k.bytes };

    ghost invariant = { λ k. IsKeyLength k.len × IsFilled 64 k.len k.bytes × AreBytes (take k.len k.bytes) };

    ghost inverse = { λ xs. record { bytes = filled 64 xs; len = length xs } };

    ghost inverse_ok = { λ k h i. record { bytes = h.1.rest i; len = length-take_filled 64 k.len k.bytes h.1 i } };
}

/// A value: 0 to 1,024 bytes.
#[derive(Clone, Copy, Debug)]
pub struct Value {
    bytes: [u8; 1024],
    len: u16,
}

impl Model for Value {
    ghost use Rattle.std.specs.Prelude.{ℕ, List, length, take};
    ghost use Rattle.kv_block.specs.Bytes.{IsValueLength, AreBytes};
    ghost use Rattle.kv_block.specs.Filled.{filled, IsFilled, length-take_filled};

    ghost Value = { List ℕ };

    ghost view = { λ k. take k.len k.bytes };

    ghost invariant = { λ k. IsValueLength k.len × IsFilled 1024 k.len k.bytes × AreBytes (take k.len k.bytes) };

    ghost inverse = { λ xs. record { bytes = filled 1024 xs; len = length xs } };

    ghost inverse_ok = { λ k h i. record { bytes = h.1.rest i; len = length-take_filled 1024 k.len k.bytes h.1 i } };
}

/// The bytes at the front of an array of zeros.
pub fn padded<const N: usize>(bytes: &[u8]) -> [u8; N]
    requires { length bytes.now ≤ N }
    ensures { result ≡ filled N bytes.now }
{
    let mut all = [0; N];
    all[..bytes.len()].copy_from_slice(bytes);
    all
}

impl Key {
    /// The key of these bytes; None exactly where their number is 0 or above 64.
    pub fn from_bytes(bytes: &[u8]) -> Option<Key>
        ensures { SomeIff result (IsKeyLength (length bytes.now)) bytes.now }
    {
        if bytes.is_empty() || bytes.len() > KEY_BYTES {
            return None;
        }
        Some(Key {
            bytes: padded(bytes),
            len: bytes.len() as u8,
        })
    }

    /// The key's bytes.
    pub fn bytes(&self) -> &[u8]
        ensures value { result.now ≡ self.now }
        ensures len { IsKeyLength (length self.now) }
        ensures bytes { AreBytes self.now }
    {
        &self.bytes[..self.len as usize]
    }

    // The bytes, and zeros up to 64.
    pub(crate) fn padded(&self) -> &[u8]
        ensures value { result.now ≡ filled 64 self.now }
        ensures len { length result.now ≡ 64 }
    {
        &self.bytes
    }
}

impl PartialEq for Key {
    ghost eq = { key_eq };

    ghost laws = { partial_equiv_from_equiv nat_list_eq_equiv };

    fn eq(&self, other: &Key) -> bool {
        self.bytes() == other.bytes()
    }
}

impl Eq for Key {
    ghost laws = { nat_list_eq_equiv };
}

impl PartialOrd for Key {
    ghost partial_cmp = { λ a b. Some (key_cmp a b) };

    ghost laws = { texts_po };

    fn partial_cmp(&self, other: &Key) -> Option<Ordering> {
        Some(self.cmp(other))
    }
}

impl Ord for Key {
    ghost cmp = { key_cmp };

    ghost total = { nat_list_cmp_total };

    ghost matches_partial_cmp = { λ a b. refl };

    ghost matches_eq = { texts_ties };

    fn cmp(&self, other: &Key) -> Ordering {
        self.bytes().cmp(other.bytes())
    }
}

impl Hash for Key {
    ghost hash_input = { fed.slice fed.u8 };

    ghost respects_eq = { Prim.search (hashing, rules) };

    fn hash<H: Hasher>(&self, state: &mut H) {
        self.bytes().hash(state);
    }
}

impl Value {
    /// The value of these bytes; None exactly where their number is above 1,024.
    pub fn from_bytes(bytes: &[u8]) -> Option<Value>
        ensures { SomeIff result (IsValueLength (length bytes.now)) bytes.now }
    {
        if bytes.len() > VALUE_BYTES {
            return None;
        }
        Some(Value {
            bytes: padded(bytes),
            len: bytes.len() as u16,
        })
    }

    /// The value of no byte.
    pub fn empty() -> Value
        ensures { result ≡ [] }
    {
        match Value::from_bytes(&[]) {
            Some(value) => value,
            None => unreachable!(),
        }
    }

    /// The value's bytes.
    pub fn bytes(&self) -> &[u8]
        ensures value { result.now ≡ self.now }
        ensures len { IsValueLength (length self.now) }
        ensures bytes { AreBytes self.now }
    {
        &self.bytes[..self.len as usize]
    }

    // The bytes, and zeros up to 1,024.
    pub(crate) fn padded(&self) -> &[u8]
        ensures value { result.now ≡ filled 1024 self.now }
        ensures len { length result.now ≡ 1024 }
    {
        &self.bytes
    }
}

impl PartialEq for Value {
    ghost eq = { key_eq };

    ghost laws = { partial_equiv_from_equiv nat_list_eq_equiv };

    fn eq(&self, other: &Value) -> bool {
        self.bytes() == other.bytes()
    }
}

impl Eq for Value {
    ghost laws = { nat_list_eq_equiv };
}
