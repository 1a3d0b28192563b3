//! Lines of the report as words: the numbers, the tag, and the reply's words.
ghost use Rattle.std.specs.Prelude.{◌≡◌, ◌+◌, ◌≤◌, ◌++◌, length, vec_len, vec_capacity};
ghost use Rattle.play_report.specs.LineWords.{tag_words, tag_of, outcome_words, outcome_told, line_words, line_told};

use crate::report::{Line, Tag};
use item_list::{Pack, number_at, word_at, words_from};
use map_model::Reply;

/// The kind of an open call, which no reply has.
const OPEN: u64 = 11;

// Appends the words of a tag.
fn push_tag(words: &mut Vec<u64>, tag: &Tag)
    requires room { vec_len words.old + 3 ≤ vec_capacity words.old }
    ensures items { words.new.items ≡ words.old.items ++ tag_words tag.now }
    ensures capacity { vec_capacity words.old ≤ vec_capacity words.new }
{
    let (kind, from, to) = match *tag {
        Tag::Point(point) => (0, point, 0),
        Tag::Changed { from, to } => (1, from, to),
        Tag::Read(block) => (2, block, 0),
        Tag::Nothing => (3, 0, 0),
    };
    words.push_reserved(kind);
    words.push_reserved(from);
    words.push_reserved(to);
}

// The tag of this kind, with these numbers.
fn tag_of(kind: u64, from: u64, to: u64) -> Tag
    ensures { result ≡ tag_of kind from to }
{
    if kind == 0 {
        Tag::Point(from)
    } else if kind == 1 {
        Tag::Changed { from, to }
    } else if kind == 2 {
        Tag::Read(from)
    } else {
        Tag::Nothing
    }
}

// Appends the words of a reply, or that the call is open.
#[tactic(auto, using(crate::proofs::LineWords::told_outcomes))]
fn push_outcome(words: &mut Vec<u64>, outcome: &Option<Reply>)
    requires room { vec_len words.old + 130 ≤ vec_capacity words.old }
    ensures items { words.new.items ≡ words.old.items ++ outcome_words outcome.now }
    ensures capacity { vec_capacity words.old ≤ vec_capacity words.new }
    ensures most { length (outcome_words outcome.now) ≤ 130 }
    ensures told { outcome_told (outcome_words outcome.now) ≡ outcome.now }
{
    match outcome {
        Some(reply) => reply.pack(words),
        None => words.push_reserved(OPEN),
    }
}

// The reply that words tell; None where the call is open.
fn outcome_of(words: &[u64]) -> Option<Reply>
    ensures { result ≡ outcome_told words.now }
{
    if word_at(words, 0) == OPEN {
        None
    } else {
        Some(Reply::unpack(words))
    }
}

impl Pack for Line {
    const MOST: usize = 135;

    ghost MOST = { 135 };

    ghost packed = { line_words };

    ghost told = { line_told };

    #[tactic(auto, using(crate::proofs::LineWords::told_lines))]
    fn pack(&self, words: &mut Vec<u64>) {
        words.push_reserved(self.client as u64);
        words.push_reserved(self.number as u64);
        push_tag(words, &self.tag);
        push_outcome(words, &self.reply);
    }

    fn unpack(words: &[u64]) -> Line {
        Line {
            client: number_at(words, 0),
            number: number_at(words, 1),
            reply: outcome_of(words_from(words, 5)),
            tag: tag_of(word_at(words, 2), word_at(words, 3), word_at(words, 4)),
        }
    }
}
