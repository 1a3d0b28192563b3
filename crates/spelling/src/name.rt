//! Names of clients.
ghost use Rattle.std.specs.Prelude.{◌≡◌, ℕ, ◌<◌, ◌≤◌, length, IfOk, IsTrue};
ghost use Rattle.std.specs.Option.{SomeIff};
ghost use Rattle.std.specs.Cmp.Lexicographic.{nat_list_eq_equiv};
ghost use Rattle.std.specs.Cmp.{partial_equiv_from_equiv};
ghost use Rattle.std.specs.Cmp.Rules.{hashing};
ghost use Rattle.std.specs.Hash as fed;
ghost use Rattle.std.specs.List.{list_all};
ghost use Rattle.std.proofs.Common.{rules};
ghost use Rattle.kv_block.specs.Bytes.{key_eq};
ghost use Rattle.spelling.specs.Spelling.{is_name_byte, is_small};
ghost use Rattle.spelling.specs.Words.{is_name, made_name};

use kv_block::padded;
use std::alloc::{AllocError, Global};
use std::hash::{Hash, Hasher};
use std::marker::Model;

/// The greatest number of bytes of a name.
const NAME_BYTES: usize = 16;

/// The name of a client: a small letter, and up to fifteen small letters or digits.
#[derive(Clone, Copy, Debug)]
pub struct Name {
    bytes: [u8; 16],
    len: u8,
}

impl Model for Name {
    ghost use Rattle.std.specs.Prelude.{ℕ, List, length, take, ◌≤◌, IsTrue};
    ghost use Rattle.kv_block.specs.Filled.{filled, IsFilled, length-take_filled};
    ghost use Rattle.spelling.specs.Words.{is_name};

    ghost Value = { List ℕ };

    ghost view = { λ name. take name.len name.bytes };

    ghost invariant = { λ name. IsFilled 16 name.len name.bytes × IsTrue (is_name (take name.len name.bytes)) };

    ghost inverse = { λ bytes. record { bytes = filled 16 bytes; len = length bytes } };

    ghost inverse_ok = { λ name h i. record { bytes = h.0.rest i; len = length-take_filled 16 name.len name.bytes h.0 i } };
}

fn is_small_letter(byte: u8) -> bool
    ensures { result ≡ is_small byte }
{
    byte.is_ascii_lowercase()
}

/// Whether a byte may stand in a name behind the first: a small letter or a digit.
pub fn is_byte_of_name(byte: u8) -> bool
    ensures { result ≡ is_name_byte byte }
{
    byte.is_ascii_lowercase() || byte.is_ascii_digit()
}

fn all_of_name(bytes: &[u8]) -> bool
    ensures { result ≡ list_all is_name_byte bytes.now }
{
    bytes.iter().all(|byte| is_byte_of_name(*byte))
}

fn is_name_text(bytes: &[u8]) -> bool
    ensures { result ≡ is_name bytes.now }
{
    match bytes {
        [] => false,
        [first, others @ ..] => {
            is_small_letter(*first) && all_of_name(others) && others.len() < NAME_BYTES
        }
    }
}

impl Name {
    /// The name that these bytes are, if they are one.
    pub fn from_bytes(bytes: &[u8]) -> Option<Name>
        ensures { SomeIff result (IsTrue (is_name bytes.now)) bytes.now }
    {
        if !is_name_text(bytes) {
            return None;
        }
        Some(Name {
            bytes: padded(bytes),
            len: bytes.len() as u8,
        })
    }

    /// The name of the client at a place, counted from 0: `c0` to `c15`.
    pub fn of_place(alloc: Global, place: u32) -> Result<Name, AllocError>
        requires { place < 16 }
        ensures { IfOk result (λ name. name ≡ made_name place) }
    {
        let text = format!(in alloc; "c{place}")?;
        Ok(Name::from_bytes(text.as_bytes()).unwrap())
    }

    /// The name's bytes.
    pub fn bytes(&self) -> &[u8]
        ensures value { result.now ≡ self.now }
        ensures name { IsTrue (is_name self.now) }
    {
        &self.bytes[..self.len as usize]
    }
}

impl PartialEq for Name {
    ghost eq = { key_eq };

    ghost laws = { partial_equiv_from_equiv nat_list_eq_equiv };

    fn eq(&self, other: &Name) -> bool {
        self.bytes() == other.bytes()
    }
}

impl Eq for Name {
    ghost laws = { nat_list_eq_equiv };
}

impl Hash for Name {
    ghost hash_input = { fed.slice fed.u8 };

    ghost respects_eq = { Prim.search (hashing, rules) };

    fn hash<H: Hasher>(&self, state: &mut H) {
        self.bytes().hash(state);
    }
}
