//! Words of a line, and the numbers, keys and values that they spell.
ghost use Rattle.std.specs.Prelude.{◌≡◌, ℕ, ◌+◌, ◌*◌, ◌^◌, ◌<◌, ◌≤◌, ◌∷◌, IsTrue, Option, None, Some, IfSome, length, take};
ghost use Rattle.std.specs.Option.{option_map, option_and_then, SomeIff};
ghost use Rattle.std.specs.List.{list_all};
ghost use Rattle.std.specs.Char.{digit_value};
ghost use Rattle.spelling.specs.Spelling.{is_plain_text, is_plain, is_name_byte, is_small, is_digit};
ghost use Rattle.spelling.specs.Words.{parts_at, parts_after, is_numeral, number_of, hex_value, hex_bytes, hex_pair, hex_number_of, eight_bytes_number, escaped_bytes, at_most, key_bytes, key_of, value_of, is_name, one_of, two_of};

use kv_block::{KEY_BYTES, Key, VALUE_BYTES, Value};

/// The part before the first byte `at`, and what stands behind that byte; None where there is no such byte.
pub fn cut(at: u8, bytes: &[u8]) -> (&[u8], Option<&[u8]>)
    ensures parts { parts_at at bytes.now ≡ result.0.now ∷ parts_after at (option_map (λ rest. rest.now) result.1) }
    ensures shorter { IfSome result.1 (λ rest. length rest.now < length bytes.now) }
{
    let mut len = 0;
    while len < bytes.len() {
        if bytes[len] == at {
            return (&bytes[..len], Some(&bytes[len + 1..]));
        }
        len += 1;
    }
    (bytes, None)
}

/// The one word that is there; None where there is none, or more than one.
pub fn one_word(words: Option<&[u8]>) -> Option<&[u8]>
    ensures { option_map (λ word. word.now) result ≡ one_of (parts_after 32 (option_map (λ rest. rest.now) words.entry)) }
{
    let (word, rest) = cut(b' ', words?);
    match rest {
        None => Some(word),
        Some(_) => None,
    }
}

/// The two words that are there; None where there are more or fewer.
pub fn two_words(words: Option<&[u8]>) -> Option<(&[u8], &[u8])>
    ensures { option_map (λ pair. (pair.0.now, pair.1.now)) result ≡ two_of (parts_after 32 (option_map (λ rest. rest.now) words.entry)) }
{
    let (first, rest) = cut(b' ', words?);
    let (second, rest) = cut(b' ', rest?);
    match rest {
        None => Some((first, second)),
        Some(_) => None,
    }
}

fn is_plain_byte(byte: u8) -> bool
    ensures { result ≡ is_plain byte }
{
    matches!(byte, b'a'..=b'z' | b'0'..=b'9' | b'A'..=b'Z' | b'_' | b'-' | b'.')
}

fn all_plain(bytes: &[u8]) -> bool
    ensures { result ≡ list_all is_plain bytes.now }
{
    bytes.iter().all(|byte| is_plain_byte(*byte))
}

/// Whether a key or a value is spelled as it is: each of its bytes is a letter, a digit, `_`, `-` or `.`, and it is not
/// empty.
pub fn is_plainly_spelled(bytes: &[u8]) -> bool
    ensures { result ≡ is_plain_text bytes.now }
{
    !bytes.is_empty() && all_plain(bytes)
}

fn is_decimal_digit(byte: u8) -> bool
    ensures { result ≡ is_digit byte }
{
    byte.is_ascii_digit()
}

fn all_digits(word: &[u8]) -> bool
    ensures { result ≡ list_all is_digit word.now }
{
    word.iter().all(|byte| is_decimal_digit(*byte))
}

fn is_decimal(word: &[u8]) -> bool
    ensures { result ≡ is_numeral word.now }
{
    if word.is_empty() || (word.len() > 1 && word[0] == b'0') {
        return false;
    }
    all_digits(word)
}

// The number with one more digit behind it, if it is below 2 ^ 64.
fn with_digit(number: u64, digit: u8) -> Option<u64>
    requires { IsTrue (is_digit digit) }
    ensures { SomeIff result (number * 10 + digit_value digit < 2 ^ 64) (number * 10 + digit_value digit) }
{
    number.checked_mul(10)?.checked_add(u64::from(digit - b'0'))
}

/// The number that a word spells, in decimal digits without a zero in front; None where it is misspelt, or is 2 ^ 64 or
/// more.
pub fn read_number(word: &[u8]) -> Option<u64>
    ensures { result ≡ number_of word.now }
{
    if !is_decimal(word) {
        return None;
    }
    let mut number: u64 = 0;
    for digit in word {
        number = with_digit(number, *digit)?;
    }
    Some(number)
}

fn read_hex_digit(digit: u8) -> Option<u8>
    ensures value { result ≡ hex_value digit }
    ensures half { IfSome result (λ half. half < 16) }
{
    match digit {
        b'0'..=b'9' => Some(digit - b'0'),
        b'a'..=b'f' => Some(digit - b'a' + 10),
        _ => None,
    }
}

fn read_hex_pair(high: u8, low: u8) -> Option<u8>
    ensures { result ≡ hex_pair (hex_value high) (hex_value low) }
{
    match (read_hex_digit(high), read_hex_digit(low)) {
        (Some(high), Some(low)) => Some(16 * high + low),
        _ => None,
    }
}

// Writes the bytes of hexadecimal digits, two a byte, to the front of `bytes`, and answers how many they are; None where
// the digits are misspelt, or there is no room.
fn fill_hex(digits: &[u8], bytes: &mut [u8]) -> Option<usize>
    ensures read { option_map (λ len. take len bytes.new) result ≡ option_and_then (at_most (length bytes.old)) (hex_bytes digits.now) }
    ensures room { IfSome result (λ len. len ≤ length bytes.new) }
    ensures same { length bytes.new ≡ length bytes.old }
{
    let mut len = 0;
    let mut rest = digits;
    while let [high, low, others @ ..] = rest {
        let byte = read_hex_pair(*high, *low)?;
        if len >= bytes.len() {
            return None;
        }
        bytes[len] = byte;
        len += 1;
        rest = others;
    }
    if rest.is_empty() { Some(len) } else { None }
}

/// The number that sixteen hexadecimal digits spell, `a` to `f` small; None where the word is no such digits.
pub fn read_hex_number(word: &[u8]) -> Option<u64>
    ensures { result ≡ hex_number_of word.now }
{
    if word.len() != 16 {
        return None;
    }
    let mut bytes = [0; 8];
    let len = fill_hex(word, &mut bytes)?;
    bytes_number(&bytes[..len])
}

fn bytes_number(bytes: &[u8]) -> Option<u64>
    ensures { result ≡ eight_bytes_number bytes.now }
{
    match bytes {
        [a, b, c, d, e, f, g, h] => Some(u64::from_be_bytes([*a, *b, *c, *d, *e, *f, *g, *h])),
        _ => None,
    }
}

// Writes the bytes that a word with `%` spells to the front of `bytes`, and answers how many they are; None where the
// word is misspelt, or there is no room.
fn fill_escaped(word: &[u8], bytes: &mut [u8]) -> Option<usize>
    ensures read { option_map (λ len. take len bytes.new) result ≡ option_and_then (at_most (length bytes.old)) (escaped_bytes word.now) }
    ensures room { IfSome result (λ len. len ≤ length bytes.new) }
{
    let [first, digits @ ..] = word else {
        return None;
    };
    if *first != b'%' {
        return None;
    }
    let len = fill_hex(digits, bytes)?;
    if is_plainly_spelled(&bytes[..len]) {
        return None;
    }
    Some(len)
}

// The key of these bytes.
fn key_from(bytes: &[u8]) -> Option<Key>
    ensures { result ≡ key_bytes bytes.now }
{
    Key::from_bytes(bytes)
}

/// The key that a word spells; None where it is misspelt, or is of no byte or more than 64.
pub fn read_key(word: &[u8]) -> Option<Key>
    ensures { result ≡ key_of word.now }
{
    if is_plainly_spelled(word) {
        return key_from(word);
    }
    let mut bytes = [0; KEY_BYTES];
    let len = fill_escaped(word, &mut bytes)?;
    key_from(&bytes[..len])
}

// The value of these bytes.
fn value_from(bytes: &[u8]) -> Option<Value>
    ensures { result ≡ at_most 1024 bytes.now }
{
    Value::from_bytes(bytes)
}

/// The value that a word spells; None where it is misspelt, or is of more than 1,024 bytes.
pub fn read_value(word: &[u8]) -> Option<Value>
    ensures { result ≡ value_of word.now }
{
    if is_plainly_spelled(word) {
        return value_from(word);
    }
    let mut bytes = [0; VALUE_BYTES];
    let len = fill_escaped(word, &mut bytes)?;
    value_from(&bytes[..len])
}
