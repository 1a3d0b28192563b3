//! Records of answered calls, and lists of them.
ghost use Rattle.std.specs.Prelude.{◌≡◌};
ghost use Rattle.map_model.specs.RecordWords.{call_count};

use crate::call_words::push_call;
use crate::calls::{Call, Reply};
use item_list::{Pack, PackedList, number_at, word_at, words_from, words_to};
use kv_block::block_len;

/// An answered call of a client, with what the client had seen of the map's changes.
#[derive(Clone, Copy, Debug, PartialEq, Eq)]
pub struct Record {
    /// The client's number.
    pub client: u32,
    /// The call's number among the client's.
    pub number: u32,
    /// What was asked.
    pub call: Call,
    /// What was answered.
    pub reply: Reply,
    /// How many changes the client had seen before the call.
    pub lo: u64,
    /// How many changes the client had seen after the call.
    pub hi: u64,
    /// After how many changes the reply is that of the map: for a call that changed it the number of changes before
    /// its own, and for another the least number from `lo` on. For a reply of no map it is `lo` and means nothing.
    pub point: u64,
}

impl Record {
    ghost use Rattle.std.specs.Prelude.{◌≡◌, ◌<◌, ◌^◌};
    ghost use Rattle.map_model.specs.History.{is_answer};
    ghost use Rattle.map_model.specs.Sorting.{place_of};

    /// Whether the map answered the call.
    pub fn is_answer(&self) -> bool
        ensures { result ≡ is_answer self.now }
    {
        self.reply.is_quiet() || self.reply.is_change()
    }

    // Where the record stands in the history of so many changes.
    pub(crate) fn place(&self, count: u64) -> u64
        requires { count < 2 ^ 60 }
        ensures { result ≡ place_of count self.now }
    {
        if self.point < count {
            2 * self.point + if self.reply.is_change() { 1 } else { 0 }
        } else {
            2 * count
        }
    }
}

/// A list of records, each kept as its numbers, its call's words and its reply's.
pub type Records = PackedList<Record>;

impl Pack for Record {
    ghost use Rattle.map_model.specs.RecordWords.{record_words, record_told};

    const MOST: usize = 273;

    ghost MOST = { 273 };

    ghost packed = { record_words };

    ghost told = { record_told };

    #[tactic(auto, using(crate::proofs::RecordWords::told_records))]
    fn pack(&self, words: &mut Vec<u64>) {
        words.push_reserved(self.client as u64);
        words.push_reserved(self.number as u64);
        words.push_reserved(self.lo);
        words.push_reserved(self.hi);
        words.push_reserved(self.point);
        push_call(words, &self.call);
        self.reply.pack(words);
    }

    fn unpack(words: &[u64]) -> Record {
        let rest = words_from(words, 5);
        let count = call_count(rest);
        Record {
            client: number_at(words, 0),
            number: number_at(words, 1),
            call: Call::unpack(words_to(rest, count)),
            reply: Reply::unpack(words_from(rest, count)),
            lo: word_at(words, 2),
            hi: word_at(words, 3),
            point: word_at(words, 4),
        }
    }
}

// How many words the call has that these begin with.
fn call_count(words: &[u64]) -> usize
    ensures { result ≡ call_count words.now }
{
    1 + block_len(word_at(words, 1)) as usize
}
