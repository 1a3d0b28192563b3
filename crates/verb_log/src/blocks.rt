//! The pairs of blocks that a slot named before and after an entry.
ghost use Rattle.std.specs.Prelude.{◌≡◌, ◌<◌, ◌^◌};
ghost use Rattle.std.specs.Option.{option_map, option_to_list};
ghost use Rattle.kv_block.specs.Packing.{pair_of};
ghost use Rattle.verb_log.specs.Decoded.{Full, content};
ghost use Rattle.verb_log.specs.Kinds.{slot_kind};
ghost use Rattle.verb_log.specs.Contents.{body_of};
ghost use Rattle.verb_log.specs.Blocks.{pair_read, changes_read};

use crate::entry::Entry;
use crate::kind::Kind;
use crate::kinds::{Content, read_content, slot_kind};
use kv_block::{Change, Key, Value, read_block};
use slot_word::Slot;

/// The change that an entry on a slot makes, over the words that stand before it.
pub(crate) fn slot_change(words: &[u64], entry: &Entry) -> Option<Change>
    ensures { option_to_list result
        ≡ changes_read words.now entry.now (slot_kind (content entry.now.old) (content entry.now.new)) }
{
    match slot_kind(entry.old, entry.new)? {
        Kind::Commit | Kind::Replace => {
            let (key, value) = pair_in(words, entry.new)?;
            Some(Change {
                key,
                value: Some(value),
            })
        }
        Kind::Remove => {
            let (key, _) = pair_in(words, entry.old)?;
            Some(Change { key, value: None })
        }
        _ => None,
    }
}

/// The pair of the block that a word names in a slot.
fn pair_in(words: &[u64], word: u64) -> Option<(Key, Value)>
    ensures { option_map pair_of result ≡ pair_read words.now (content word) }
{
    match read_content(word) {
        Content::Full(slot) => pair_at(words, &slot),
        Content::Empty | Content::NoSlot => None,
    }
}

/// The pair of the block that a slot names, in a list of the memory's words; None too where the block goes past the last
/// word.
fn pair_at(words: &[u64], slot: &Slot) -> Option<(Key, Value)>
    requires { slot.now.at < 2 ^ 46 }
    ensures { option_map pair_of result ≡ pair_read words.now (Full slot.now.mark (body_of slot.now)) }
{
    let end = slot.at + u64::from(slot.len);
    if (words.len() as u64) < end {
        return None;
    }
    read_block(&words[slot.at as usize..end as usize])
}
