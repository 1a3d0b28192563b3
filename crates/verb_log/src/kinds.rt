//! The rows of the table of kinds that look at the words alone.
ghost use Rattle.std.specs.Prelude.{◌≡◌, Some};
ghost use Rattle.verb_log.specs.Decoded.{Body, Empty, Full, content, header, header_with};
ghost use Rattle.verb_log.specs.Tables.{is_among, is_address, covers};
ghost use Rattle.verb_log.specs.Kinds.{slot_kind, header_kind, bucket_kind, lock_kind};
ghost use Rattle.verb_log.specs.HeadKinds.{head_kind};
ghost use Rattle.verb_log.specs.Contents.{IsRead, body_of, shown};

use crate::entry::Entry;
use crate::kind::Kind;
use node_words::Geometry;
use slot_word::{Head, Mark, Slot, State, read_head, read_slot};

/// What stands in a slot.
#[derive(Clone, Copy, PartialEq, Eq, Debug)]
pub(crate) enum Content {
    /// Nothing.
    Empty,
    /// A mark and a block.
    Full(Slot),
    /// A word that is no slot word.
    NoSlot,
}

/// What a word says in a slot.
#[tactic(auto, using(std::proofs::lemmas::Bool::Decides::nat_tests), unfolding(crate::specs::Decoded::content))]
pub(crate) fn read_content(word: u64) -> Content
    ensures content { shown result ≡ content word }
    ensures fits { IsRead result }
{
    if word == 0 {
        return Content::Empty;
    }
    match read_slot(word) {
        Some(slot) => Content::Full(slot),
        None => Content::NoSlot,
    }
}

/// Whether an address is among `count` words from `from` on.
#[tactic(auto, using(std::proofs::lemmas::Bool::Decides::nat_tests))]
pub(crate) fn is_among(from: u64, count: u64, at: u64) -> bool
    ensures { result ≡ is_among from count at }
{
    from <= at && at - from < count
}

/// Whether a word is the address of a word that may be named: 1 to the memory's words less 1.
#[tactic(auto, using(std::proofs::lemmas::Bool::Decides::nat_tests))]
pub(crate) fn names_word(geometry: &Geometry, word: u64) -> bool
    ensures { result ≡ is_address geometry.now word }
{
    word != 0 && word < geometry.words
}

/// Whether the block that a word names in a slot covers an address.
pub(crate) fn covers(word: u64, at: u64) -> bool
    ensures { result ≡ covers (content word) at }
{
    match read_content(word) {
        Content::Full(slot) => is_among(slot.at, slot.len as u64, at),
        Content::Empty | Content::NoSlot => false,
    }
}

/// The kind of an entry on a slot, by its old and new word.
pub(crate) fn slot_kind(old: u64, new: u64) -> Option<Kind>
    ensures { result ≡ slot_kind (content old) (content new) }
{
    match (read_content(old), read_content(new)) {
        (Content::Empty, Content::Full(new)) => placed_kind(new.mark),
        (Content::Full(old), Content::Empty) => Some(emptied_kind(old.mark)),
        (Content::Full(old), Content::Full(new)) => turned_kind(&old, &new),
        _ => None,
    }
}

/// The kind of an entry that puts a word of this mark into an empty slot.
fn placed_kind(mark: Mark) -> Option<Kind>
    ensures { (b : Body) → result ≡ slot_kind Empty (Full mark b) }
{
    match mark {
        Mark::Pending => Some(Kind::Place),
        Mark::Copied => Some(Kind::Copy),
        Mark::Live | Mark::Moved => None,
    }
}

/// The kind of an entry that empties a slot with a word of this mark.
fn emptied_kind(mark: Mark) -> Kind
    ensures { (b : Body) → Some result ≡ slot_kind (Full mark b) Empty }
{
    match mark {
        Mark::Pending => Kind::Drop,
        Mark::Live => Kind::Remove,
        Mark::Copied => Kind::Uncopy,
        Mark::Moved => Kind::Clear,
    }
}

/// The kind of an entry that puts one slot word in the place of another.
fn turned_kind(old: &Slot, new: &Slot) -> Option<Kind>
    ensures { result ≡ slot_kind (Full old.now.mark (body_of old.now)) (Full new.now.mark (body_of new.now)) }
{
    let same = old.fp == new.fp && old.len == new.len && old.at == new.at;
    match (old.mark, new.mark) {
        (Mark::Pending, Mark::Live) => same.then_some(Kind::Commit),
        (Mark::Live, Mark::Live) => (old.at != new.at).then_some(Kind::Replace),
        (Mark::Live, Mark::Moved) => same.then_some(Kind::Flip),
        (Mark::Copied, Mark::Copied) => Some(Kind::Copy),
        (Mark::Copied, Mark::Live) => same.then_some(Kind::Settle),
        _ => None,
    }
}

/// The kind of an entry on a header: `starts` where a split starts there, `stops` where it stops there.
fn head_kind(old: &Head, new: &Head, starts: Kind, stops: Kind) -> Option<Kind>
    ensures { result ≡ head_kind starts stops (header_with old.now.depth old.now.state) (header_with new.now.depth new.now.state) }
{
    match (old.state, new.state) {
        (State::Plain, State::Splitting) => (new.depth == old.depth).then_some(starts),
        (State::Splitting, State::Plain) => (u64::from(new.depth)
            == u64::from(old.depth) + 1).then_some(stops),
        (State::Filling, State::Plain) => (new.depth == old.depth).then_some(Kind::Ripen),
        _ => None,
    }
}

/// The kind of an entry on the header of a table.
#[tactic(auto, using(crate::proofs::HeadRows::table_heads), unfolding(crate::specs::Decoded::header))]
pub(crate) fn header_kind(old: u64, new: u64) -> Option<Kind>
    ensures { result ≡ header_kind (header old) (header new) }
{
    head_kind(&read_head(old)?, &read_head(new)?, Kind::Open, Kind::Finish)
}

/// The kind of an entry on the header of a bucket.
#[tactic(auto, using(crate::proofs::HeadRows::bucket_heads), unfolding(crate::specs::Decoded::header))]
pub(crate) fn bucket_kind(old: u64, new: u64) -> Option<Kind>
    ensures { result ≡ bucket_kind (header old) (header new) }
{
    head_kind(&read_head(old)?, &read_head(new)?, Kind::Begin, Kind::Close)
}

/// The kind of an entry on a lock: the word of a client that holds it is one more than the client's number.
#[tactic(auto, using(std::proofs::lemmas::Bool::Decides::nat_tests))]
pub(crate) fn lock_kind(entry: &Entry) -> Option<Kind>
    ensures { result ≡ lock_kind entry.now }
{
    let held = u64::from(entry.client) + 1;
    match (entry.old, entry.new) {
        (0, new) if new == held => Some(Kind::Lock),
        (old, 0) if old == held => Some(Kind::Unlock),
        _ => None,
    }
}
