//! Changes of the map, and lists of them.
use crate::block::push_marked_block;
use crate::bytes::{Key, Value};
use crate::reading::{block_key, block_value};
use item_list::{Pack, PackedList, word_at, words_from};

/// One change of the map: the key has the value from then on, or is gone where the value is None.
#[derive(Clone, Copy, Debug, PartialEq, Eq)]
pub struct Change {
    pub key: Key,
    pub value: Option<Value>,
}

/// A list of changes, each kept as one word more than its pair's block.
pub type Changes = PackedList<Change>;

impl Pack for Change {
    ghost use Rattle.kv_block.specs.ChangeWords.{change_words, change_told};

    const MOST: usize = 138;

    ghost MOST = { 138 };

    ghost packed = { change_words };

    ghost told = { change_told };

    // Whether there is a value, and the block of the key with the value, or with that of no byte.
    #[tactic(auto, using(crate::proofs::ChangeWords::told_changes))]
    fn pack(&self, words: &mut Vec<u64>) {
        match &self.value {
            Some(value) => push_marked_block(words, 1, &self.key, value),
            None => push_marked_block(words, 0, &self.key, &Value::empty()),
        }
    }

    fn unpack(words: &[u64]) -> Change {
        let block = words_from(words, 1);
        let key = block_key(block);
        if word_at(words, 0) == 0 {
            Change { key, value: None }
        } else {
            let value = Some(block_value(block));
            Change { key, value }
        }
    }
}
