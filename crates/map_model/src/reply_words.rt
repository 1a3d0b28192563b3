//! Replies as words: a number for the kind, and what the reply tells.
ghost use Rattle.std.specs.Prelude.{◌≡◌, ◌+◌, ◌≤◌, ◌∷◌, ◌++◌, length, vec_len, vec_capacity};
ghost use Rattle.kv_block.specs.ValueWords.{value_words, value_told};
ghost use Rattle.map_model.specs.ReplyWords.{reply_words, reply_told, reply_of, other_reply};

use crate::calls::Reply;
use crate::nexts::Nexts;
use item_list::{Pack, number_at, word_at, words_from};
use kv_block::{Value, push_value, value_of_words};

// Appends a kind, and the words of a value.
fn push_with_value(words: &mut Vec<u64>, kind: u64, value: &Value)
    requires room { vec_len words.old + 130 ≤ vec_capacity words.old }
    ensures items { words.new.items ≡ words.old.items ++ kind ∷ value_words value.now }
    ensures capacity { vec_capacity words.old ≤ vec_capacity words.new }
    ensures most { length (value_words value.now) ≤ 129 }
    ensures told { value_told (value_words value.now) ≡ value.now }
{
    words.push_reserved(kind);
    push_value(words, value);
}

// Appends a kind, a number of words, and the next free words.
fn push_with_nexts(words: &mut Vec<u64>, kind: u64, next: &Nexts, need: u64)
    requires room { vec_len words.old + 130 ≤ vec_capacity words.old }
    ensures items { words.new.items ≡ words.old.items ++ kind ∷ need ∷ next.now }
    ensures capacity { vec_capacity words.old ≤ vec_capacity words.new }
    ensures least { 1 ≤ length next.now }
    ensures most { length next.now ≤ 8 }
{
    words.push_reserved(kind);
    words.push_reserved(need);
    next.push_to(words);
}

// The reply of this kind, by the words behind it.
fn reply_of(kind: u64, words: &[u64]) -> Reply
    ensures { result ≡ reply_of kind words.now }
{
    if kind == 0 {
        Reply::Found(value_of_words(words))
    } else if kind == 1 {
        Reply::Missing
    } else if kind == 2 {
        Reply::Inserted
    } else if kind == 3 {
        Reply::Exists(value_of_words(words))
    } else if kind == 4 {
        Reply::Updated(value_of_words(words))
    } else if kind == 5 {
        Reply::Deleted(value_of_words(words))
    } else {
        other_reply(kind, words)
    }
}

// The same, of a reply that is not the map's.
fn other_reply(kind: u64, words: &[u64]) -> Reply
    ensures { result ≡ other_reply kind words.now }
{
    if kind == 6 {
        let (table, depth) = (word_at(words, 0), number_at(words, 1));
        Reply::Split { table, depth }
    } else if kind == 7 {
        let lost = number_at(words, 0);
        Reply::Again { lost }
    } else if kind == 8 {
        let depth = number_at(words, 0);
        Reply::FullDepth { depth }
    } else if kind == 9 {
        let (next, need) = (Nexts::of_words(words_from(words, 1)), word_at(words, 0));
        Reply::FullWords { next, need }
    } else {
        let (next, need) = (Nexts::of_words(words_from(words, 1)), word_at(words, 0));
        Reply::NoBlock { next, need }
    }
}

impl Pack for Reply {
    const MOST: usize = 130;

    ghost MOST = { 130 };

    ghost packed = { reply_words };

    ghost told = { reply_told };

    #[tactic(auto, using(crate::proofs::ReplyWords::told_replies))]
    fn pack(&self, words: &mut Vec<u64>) {
        match self {
            Reply::Found(value) => push_with_value(words, 0, value),
            Reply::Missing => words.push_reserved(1),
            Reply::Inserted => words.push_reserved(2),
            Reply::Exists(value) => push_with_value(words, 3, value),
            Reply::Updated(old) => push_with_value(words, 4, old),
            Reply::Deleted(old) => push_with_value(words, 5, old),
            Reply::Split { table, depth } => {
                words.push_reserved(6);
                words.push_reserved(*table);
                words.push_reserved(*depth as u64);
            }
            Reply::Again { lost } => {
                words.push_reserved(7);
                words.push_reserved(*lost as u64);
            }
            Reply::FullDepth { depth } => {
                words.push_reserved(8);
                words.push_reserved(*depth as u64);
            }
            Reply::FullWords { next, need } => push_with_nexts(words, 9, next, *need),
            Reply::NoBlock { next, need } => push_with_nexts(words, 10, next, *need),
        }
    }

    fn unpack(words: &[u64]) -> Reply {
        reply_of(word_at(words, 0), words_from(words, 1))
    }
}
