//! The lines of a script behind line 2, but for those of calls: a function for each kind of line.
ghost use Rattle.std.specs.Prelude.{◌≡◌, ◌≤◌, IfOk, Ok};
ghost use Rattle.std.specs.Option.{option_map};
ghost use Rattle.spelling.specs.Words.{parts_after};
ghost use Rattle.script_reader.specs.Rules.{hash_step, client_step, stop_step, schedule_step, client_of, number_within, item_name, item_rest, item_with, item_of, items_of};
ghost use Rattle.script_reader.specs.Gives.{Gives};

use crate::fault::{Halt, ScriptKind};
use crate::limits::{MOST_COUNT, MOST_VERBS};
use map_model::{Calls, Item, Items};
use script_value::Body;
use spelling::{
    Name, cut, is_byte_of_name, one_word, read_hex_number, read_key, read_number, two_words,
};
use std::alloc::{AllocError, Global};

// `hash KEY HEX`
pub fn take_hash(body: &mut Body, words: Option<&[u8]>) -> Result<(), Halt>
    ensures { Gives (λ _. body.new) result (hash_step body.old (parts_after 32 (option_map (λ rest. rest.now) words.entry))) }
{
    let Some((key, hash)) = two_words(words) else {
        return Err(Halt::Refused(ScriptKind::Word));
    };
    let Some(key) = read_key(key) else {
        return Err(Halt::Refused(ScriptKind::Key));
    };
    if body.is_listed(&key) {
        return Err(Halt::Refused(ScriptKind::Key));
    }
    let Some(hash) = read_hex_number(hash) else {
        return Err(Halt::Refused(ScriptKind::Number));
    };
    body.add_hash(key, hash)?;
    Ok(())
}

// `client NAME`, of at most `most` clients
pub fn take_client(
    body: &mut Body,
    alloc: Global,
    most: u32,
    words: Option<&[u8]>,
) -> Result<(), Halt>
    requires { most ≤ 64 }
    ensures { Gives (λ _. body.new) result (client_step most body.old (parts_after 32 (option_map (λ rest. rest.now) words.entry))) }
{
    let Some(name) = one_word(words) else {
        return Err(Halt::Refused(ScriptKind::Word));
    };
    let Some(name) = Name::from_bytes(name) else {
        return Err(Halt::Refused(ScriptKind::Client));
    };
    if body.client_at(&name).is_some() || body.clients() >= most {
        return Err(Halt::Refused(ScriptKind::Client));
    }
    body.add_client(name, Calls::new(alloc))?;
    Ok(())
}

// The client of a name, where the name is not misspelt.
fn client_of(body: &Body, word: &[u8]) -> Option<u32>
    ensures { result ≡ client_of body.now word.now }
{
    match Name::from_bytes(word) {
        Some(name) => body.client_at(&name),
        None => None,
    }
}

// `stop NAME N`
pub fn take_stop(body: &mut Body, words: Option<&[u8]>) -> Result<(), Halt>
    ensures { Gives (λ _. body.new) result (stop_step body.old (parts_after 32 (option_map (λ rest. rest.now) words.entry))) }
{
    let Some((name, stop)) = two_words(words) else {
        return Err(Halt::Refused(ScriptKind::Word));
    };
    let Some(client) = client_of(body, name) else {
        return Err(Halt::Refused(ScriptKind::Client));
    };
    if body.stop_at(client).is_some() {
        return Err(Halt::Refused(ScriptKind::Client));
    }
    let Some(stop) = read_number_within(0, MOST_VERBS, stop) else {
        return Err(Halt::Refused(ScriptKind::Number));
    };
    body.add_stop(client, stop)?;
    Ok(())
}

// `NAME`, `NAME*N` or `NAME!`
fn read_item(body: &Body, word: &[u8]) -> Option<Item>
    ensures { result ≡ item_of body.now word.now }
{
    let (name, rest) = split_name(word);
    match client_of(body, name) {
        Some(client) => item_of_client(client, rest),
        None => None,
    }
}

fn read_items(body: &Body, alloc: Global, words: Option<&[u8]>) -> Result<Option<Items>, AllocError>
    ensures { IfOk result (λ read. option_map (λ items. items.items) read ≡ items_of body.now (parts_after 32 (option_map (λ rest. rest.now) words.entry))) }
{
    let mut items = Items::new(alloc);
    let mut rest = words;
    while let Some(bytes) = rest {
        let (word, behind) = cut(b' ', bytes);
        let Some(item) = read_item(body, word) else {
            return Ok(None);
        };
        items.push(item)?;
        rest = behind;
    }
    Ok(Some(items))
}

// `schedule ITEM ITEM ..`
pub fn take_schedule(body: &mut Body, alloc: Global, words: Option<&[u8]>) -> Result<(), Halt>
    ensures { Gives (λ _. body.new) result (schedule_step body.old (parts_after 32 (option_map (λ rest. rest.now) words.entry))) }
{
    let Some(_) = words else {
        return Err(Halt::Refused(ScriptKind::Word));
    };
    let Some(items) = read_items(body, alloc, words)? else {
        return Err(Halt::Refused(ScriptKind::Schedule));
    };
    body.add_schedule(items)?;
    Ok(())
}

fn read_number_within(low: u64, high: u64, word: &[u8]) -> Option<u64>
    ensures { result ≡ number_within low high word.now }
{
    match read_number(word) {
        Some(number) if low <= number && number <= high => Some(number),
        _ => None,
    }
}

// The name at the front of an item, and what is behind it.
fn split_name(word: &[u8]) -> (&[u8], &[u8])
    ensures name { result.0.now ≡ item_name word.now }
    ensures rest { result.1.now ≡ item_rest word.now }
{
    let mut len = 0;
    while len < word.len() && is_byte_of_name(word[len]) {
        len += 1;
    }
    word.split_at(len)
}

// The item of a client, by what stands behind its name.
fn item_of_client(client: u32, rest: &[u8]) -> Option<Item>
    ensures { result ≡ item_with client rest.now }
{
    match rest {
        [] => Some(Item::Verbs { client, count: 1 }),
        [b'!'] => Some(Item::Call { client }),
        [b'*', count @ ..] => match read_number_within(2, MOST_COUNT, count) {
            Some(count) => Some(Item::Verbs {
                client,
                count: count as u32,
            }),
            None => None,
        },
        _ => None,
    }
}
