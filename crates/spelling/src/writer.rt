//! Texts, and how they are written.
ghost use Rattle.std.specs.Prelude.{◌≡◌, ◌<◌, ◌++◌, ◌∷◌, [], OnOk};
ghost use Rattle.std.specs.Fmt.{decimal};
ghost use Rattle.spelling.specs.Spelling.{spelled, hex_text, hex_number, hex_digit};

use crate::word::is_plainly_spelled;
use item_list::List;
use std::alloc::{AllocError, Global};
use std::marker::Model;

/// A text: a list of bytes.
pub type Text = List<u8>;

/// Writes a text. A clause sees the text so far. Each `put` fails only for want of memory.
#[derive(Debug, Drop)]
pub struct Writer {
    alloc: Global,
    text: Text,
}

impl Model for Writer {
    ghost use Rattle.std.specs.Prelude.{ℕ};
    ghost use Rattle.item_list.specs.RoomyList.{RoomyList};

    ghost Value = { RoomyList ℕ };

    ghost view = { λ writer. writer.text };
}

impl Writer {
    /// Nothing written yet.
    pub fn new(alloc: Global) -> Writer
        ensures { result.items ≡ [] }
    {
        Writer {
            alloc,
            text: Text::new(alloc),
        }
    }

    /// The text that was written.
    pub fn into_text(self) -> Text
        ensures { result.items ≡ self.items }
    {
        self.text
    }

    /// Appends the byte.
    pub fn push(&mut self, byte: u8) -> Result<(), AllocError>
        ensures { OnOk result (self.new.items ≡ self.old.items ++ byte ∷ []) }
    {
        self.text.push(byte)
    }

    /// Appends bytes as they are.
    pub fn put(&mut self, bytes: &[u8]) -> Result<(), AllocError>
        ensures { OnOk result (self.new.items ≡ self.old.items ++ bytes.now) }
    {
        self.text.append(bytes)
    }

    /// Appends a number in decimal digits.
    pub fn put_number(&mut self, number: u64) -> Result<(), AllocError>
        ensures { OnOk result (self.new.items ≡ self.old.items ++ decimal number) }
    {
        let text = number.to_string(self.alloc)?;
        self.put(text.as_bytes())
    }

    /// Appends two hexadecimal digits for each byte.
    pub fn put_hex(&mut self, bytes: &[u8]) -> Result<(), AllocError>
        ensures { OnOk result (self.new.items ≡ self.old.items ++ hex_text bytes.now) }
    {
        for byte in bytes {
            self.push(hex_digit_of(*byte / 16))?;
            self.push(hex_digit_of(*byte % 16))?;
        }
        Ok(())
    }

    /// Appends sixteen hexadecimal digits.
    #[tactic(auto, unfolding(crate::specs::Spelling::hex_number))]
    pub fn put_hex_number(&mut self, number: u64) -> Result<(), AllocError>
        ensures { OnOk result (self.new.items ≡ self.old.items ++ hex_number number) }
    {
        self.put_hex(&number.to_be_bytes())
    }

    /// Appends a key or a value as it is spelled.
    #[tactic(auto, unfolding(crate::specs::Spelling::spelled))]
    pub fn put_spelled(&mut self, bytes: &[u8]) -> Result<(), AllocError>
        ensures { OnOk result (self.new.items ≡ self.old.items ++ spelled bytes.now) }
    {
        if is_plainly_spelled(bytes) {
            return self.put(bytes);
        }
        self.push(b'%')?;
        self.put_hex(bytes)
    }

    /// Appends a space and a number.
    pub fn put_spaced_number(&mut self, number: u64) -> Result<(), AllocError>
        ensures { OnOk result (self.new.items ≡ self.old.items ++ 32 ∷ decimal number) }
    {
        self.push(b' ')?;
        self.put_number(number)
    }

    /// Appends a space and a key or a value.
    pub fn put_spaced(&mut self, bytes: &[u8]) -> Result<(), AllocError>
        ensures { OnOk result (self.new.items ≡ self.old.items ++ 32 ∷ spelled bytes.now) }
    {
        self.push(b' ')?;
        self.put_spelled(bytes)
    }

    /// Appends a word and a number in decimal digits.
    pub fn put_word_number(&mut self, word: &[u8], number: u64) -> Result<(), AllocError>
        ensures { OnOk result (self.new.items ≡ self.old.items ++ (word.now ++ decimal number)) }
    {
        self.put(word)?;
        self.put_number(number)
    }
}

/// A hexadecimal digit.
pub(crate) fn hex_digit_of(half: u8) -> u8
    requires { half < 16 }
    ensures { result ≡ hex_digit half }
{
    if half < 10 {
        b'0' + half
    } else {
        b'a' - 10 + half
    }
}
