//! Texts in room that was made before.
ghost use Rattle.std.specs.Prelude.{◌≡◌, ◌+◌, ◌*◌, ◌<◌, ◌≤◌, ◌++◌, ◌∷◌, [], IfOk, length};
ghost use Rattle.spelling.specs.Spelling.{spelled, hex_text};

use crate::word::is_plainly_spelled;
use crate::writer::hex_digit_of;
use std::alloc::{AllocError, Global};
use std::marker::Model;

/// A text for which there is room. A clause sees the text so far, and how many bytes more there is room for. All calls but `new` take
/// no memory.
#[derive(Debug, Drop)]
pub struct Page {
    bytes: Vec<u8>,
}

impl Model for Page {
    ghost use Rattle.std.specs.Prelude.{ℕ, ◌-◌, vec_len, vec_capacity};
    ghost use Rattle.item_list.specs.RoomyList.{RoomyList};

    ghost Value = { RoomyList ℕ };

    ghost view = { λ page. record { items = page.bytes.items; room = vec_capacity page.bytes - vec_len page.bytes } };
}

impl Page {
    /// Nothing written yet, and room for so many bytes.
    pub fn new(alloc: Global, room: usize) -> Result<Page, AllocError>
        ensures items { IfOk result (λ page. page.items ≡ []) }
        ensures room { IfOk result (λ page. page.room ≡ room) }
    {
        let bytes = Vec::with_capacity(alloc, room)?;
        Ok(Page { bytes })
    }

    /// How many bytes more there is room for.
    pub fn room(&self) -> usize
        ensures { result ≡ self.now.room }
    {
        self.bytes.capacity() - self.bytes.len()
    }

    /// The bytes so far.
    pub fn as_slice(&self) -> &[u8]
        ensures { result.now ≡ self.now.items }
    {
        self.bytes.as_slice()
    }

    /// Takes all bytes away.
    pub fn clear(&mut self)
        ensures items { self.new.items ≡ [] }
        ensures room { self.new.room ≡ self.old.room + length self.old.items }
    {
        self.bytes.clear();
    }

    /// Appends the byte.
    pub fn push(&mut self, byte: u8)
        requires { 1 ≤ self.old.room }
        ensures items { self.new.items ≡ self.old.items ++ byte ∷ [] }
        ensures room { self.old.room ≡ self.new.room + 1 }
    {
        self.bytes.push_reserved(byte);
    }

    /// Appends bytes as they are.
    pub fn put(&mut self, bytes: &[u8])
        requires { length bytes.now ≤ self.old.room }
        ensures items { self.new.items ≡ self.old.items ++ bytes.now }
        ensures room { self.old.room ≡ self.new.room + length bytes.now }
    {
        for byte in bytes {
            self.push(*byte);
        }
    }

    /// Appends two hexadecimal digits for each byte.
    fn put_hex(&mut self, bytes: &[u8])
        requires { 2 * length bytes.now ≤ self.old.room }
        ensures items { self.new.items ≡ self.old.items ++ hex_text bytes.now }
        ensures room { self.old.room ≡ self.new.room + 2 * length bytes.now }
        ensures kept { length self.new.items + self.new.room ≡ length self.old.items + self.old.room }
    {
        for byte in bytes {
            self.push(hex_digit_of(*byte / 16));
            self.push(hex_digit_of(*byte % 16));
        }
    }

    /// Appends a key or a value as it is spelled. It takes up to two bytes for each byte, and one more.
    #[tactic(auto, unfolding(crate::specs::Spelling::spelled))]
    pub fn put_spelled(&mut self, bytes: &[u8])
        requires { 2 * length bytes.now + 1 ≤ self.old.room }
        ensures items { self.new.items ≡ self.old.items ++ spelled bytes.now }
        ensures room { self.old.room ≤ self.new.room + 2 * length bytes.now + 1 }
        ensures kept { length self.new.items + self.new.room ≡ length self.old.items + self.old.room }
    {
        if is_plainly_spelled(bytes) {
            return self.put(bytes);
        }
        self.push(b'%');
        self.put_hex(bytes);
    }
}
