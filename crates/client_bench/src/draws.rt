//! The keys, and the calls that are drawn.

use key_hash::mix_word;
use kv_block::{Key, Value};
use map_model::Call;

/// How many keys the table holds.
pub const KEYS: u64 = 4_096;

/// How many calls each thread does.
pub const CALLS: u64 = 200_000;

/// How calls are drawn: so many searches in a hundred, the rest updates, of any key alike or mostly of few.
#[derive(Clone, Copy, Drop)]
pub struct Draws {
    pub reads: u64,
    pub skewed: bool,
}

/// The key of a number: eight bytes.
pub fn key_at(number: u64) -> Option<Key> {
    Key::from_bytes(&number.to_le_bytes())
}

/// The value of a number: eight bytes.
pub fn value_at(number: u64) -> Option<Value> {
    Value::from_bytes(&number.to_le_bytes())
}

impl Draws {
    /// The number of the key of a drawn number, below 4,096. A skewed key is the product of three draws: half of them are among the
    /// first two hundred.
    pub fn number(&self, drawn: u64) -> u64 {
        let (first, second, third) = (
            drawn % 4_096,
            drawn / 4_096 % 4_096,
            drawn / 16_777_216 % 4_096,
        );
        if self.skewed {
            first * second / 4_096 * third / 4_096 % KEYS
        } else {
            first
        }
    }

    /// Call number `number` of a thread.
    pub fn call(&self, thread: u32, number: u64) -> Option<Call> {
        let drawn = mix_word((u64::from(thread) << 32).wrapping_add(number));
        let key = key_at(self.number(drawn))?;
        if (drawn >> 40) % 100 < self.reads {
            return Some(Call::Search { key });
        }
        let value = value_at(number)?;
        Some(Call::Update { key, value })
    }
}
