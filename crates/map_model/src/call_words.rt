//! Calls as words: a number for the kind, and the block of the key and the value.
ghost use Rattle.std.specs.Prelude.{◌≡◌, ◌+◌, ◌≤◌, ◌++◌, length, vec_len, vec_capacity};
ghost use Rattle.kv_block.specs.Packing.{IsPair};
ghost use Rattle.kv_block.specs.Reading.{block_key, block_value};
ghost use Rattle.map_model.specs.Machine.{key_of};
ghost use Rattle.map_model.specs.CallWords.{call_words, call_told, call_of, value_put};

use crate::calls::Call;
use item_list::{Pack, word_at, words_from};
use kv_block::{Value, block_key, block_value, push_marked_block};

// The call of this kind, of the key and the value that the words tell.
fn call_of(kind: u64, words: &[u64]) -> Call
    ensures { result ≡ call_of kind (block_key words.now) (block_value words.now) }
{
    let key = block_key(words);
    if kind == 0 {
        let value = block_value(words);
        Call::Insert { key, value }
    } else if kind == 1 {
        Call::Search { key }
    } else if kind == 2 {
        let value = block_value(words);
        Call::Update { key, value }
    } else if kind == 3 {
        Call::Delete { key }
    } else {
        Call::Resize { key }
    }
}

// Appends the words of the call, for which there is room.
pub(crate) fn push_call(words: &mut Vec<u64>, call: &Call)
    requires room { vec_len words.old + 138 ≤ vec_capacity words.old }
    ensures items { words.new.items ≡ words.old.items ++ call_words call.now }
    ensures capacity { vec_capacity words.old ≤ vec_capacity words.new }
    ensures most { length (call_words call.now) ≤ 138 }
    ensures pair { IsPair (record { key = key_of call.now; value = value_put call.now }) }
{
    match call {
        Call::Insert { key, value } => push_marked_block(words, 0, key, value),
        Call::Search { key } => push_marked_block(words, 1, key, &Value::empty()),
        Call::Update { key, value } => push_marked_block(words, 2, key, value),
        Call::Delete { key } => push_marked_block(words, 3, key, &Value::empty()),
        Call::Resize { key } => push_marked_block(words, 4, key, &Value::empty()),
    }
}

impl Pack for Call {
    const MOST: usize = 138;

    ghost MOST = { 138 };

    ghost packed = { call_words };

    ghost told = { call_told };

    #[tactic(auto, using(crate::proofs::CallWords::told_calls))]
    fn pack(&self, words: &mut Vec<u64>) {
        push_call(words, self);
    }

    fn unpack(words: &[u64]) -> Call {
        call_of(word_at(words, 0), words_from(words, 1))
    }
}
