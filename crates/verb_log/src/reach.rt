//! The addresses that one entry links, takes and publishes.
ghost use Rattle.std.specs.Prelude.{◌≡◌, ◌≤◌, ◌<◌, ◌&&◌, ◌||◌, ℕ, IfSome};
ghost use Rattle.verb_log.specs.Decoded.{content};
ghost use Rattle.verb_log.specs.declared.role.Role.TheVariants.{Next};
ghost use Rattle.verb_log.specs.Tables.{covers};
ghost use Rattle.verb_log.specs.Standings.{in_span, role_there, judged_there, plain_links, plain_moves, plain_publishes, may_reach, next_standing, Reaches};

use crate::entry::Entry;
use crate::kinds::{Content, covers, is_among, names_word, read_content};
use crate::role::Role;
use crate::standing::Standing;
use node_words::Geometry;

/// The `count` addresses from `from` on.
#[derive(Clone, Copy, PartialEq, Eq, Debug)]
pub(crate) struct Span {
    pub from: u64,
    pub count: u64,
}

impl Span {
    /// No address.
    const NONE: Span = Span { from: 0, count: 0 };

    /// Whether an address is among them.
    pub(crate) fn has(&self, at: u64) -> bool
        ensures { result ≡ in_span self.now at }
    {
        is_among(self.from, self.count, at)
    }
}

/// The addresses that one entry links, takes and publishes.
#[derive(Clone, Copy, PartialEq, Eq, Debug)]
pub(crate) struct Reach {
    /// The table whose address it puts into an empty child word.
    pub linked: Span,
    /// The words across which it moves the next word of their node.
    pub taken: Span,
    /// The block of a slot word, and the region of a child word.
    pub published: Span,
}

impl Reach {
    /// What an entry reaches, by what the log before it says of its word.
    pub(crate) fn of(geometry: &Geometry, entry: &Entry, there: &Standing) -> Reach
        requires at { entry.now.at < geometry.now.words }
        requires below { IfSome there.now.table (λ table. table ≤ entry.now.at) }
        ensures { Reaches geometry.now entry.now there.now result }
    {
        let judged = there.judged_role(geometry, entry.at);
        Reach {
            linked: linked_by(geometry, entry, judged),
            taken: taken_by(geometry, entry, judged),
            published: published_by(geometry, entry, there.role(geometry, entry.at)),
        }
    }
}

/// The table that an entry links.
fn linked_by(geometry: &Geometry, entry: &Entry, judged: Role) -> Span
    ensures { (a : ℕ) → in_span result a ≡ plain_links geometry.now entry.now judged a }
{
    if judged == Role::Child && entry.old == 0 && names_word(geometry, entry.new) {
        Span {
            from: entry.new,
            count: geometry.table_words(),
        }
    } else {
        Span::NONE
    }
}

/// The words that an entry takes.
fn taken_by(geometry: &Geometry, entry: &Entry, judged: Role) -> Span
    requires { entry.now.at < geometry.now.words }
    ensures { (a : ℕ) → in_span result a ≡ plain_moves geometry.now entry.now judged a }
{
    match judged {
        Role::Next => moved_across(geometry, entry),
        _ => Span::NONE,
    }
}

/// The words across which an entry moves its word, as far as the node of the word goes.
fn moved_across(geometry: &Geometry, entry: &Entry) -> Span
    requires { entry.now.at < geometry.now.words }
    ensures { (a : ℕ) → in_span result a ≡ plain_moves geometry.now entry.now Next a }
{
    let size = geometry.words / u64::from(geometry.nodes);
    let start = entry.at / size * size;
    let from = entry.old.max(start);
    Span {
        from,
        count: entry.new.min(start + size).saturating_sub(from),
    }
}

/// The words that an entry publishes.
fn published_by(geometry: &Geometry, entry: &Entry, role: Role) -> Span
    ensures { (a : ℕ) → in_span result a ≡ plain_publishes geometry.now entry.now role a }
{
    match role {
        Role::Slot => block_in(entry.new),
        Role::Child if names_word(geometry, entry.new) => Span {
            from: entry.new,
            count: geometry.table_words(),
        },
        _ => Span::NONE,
    }
}

/// The words of the block that a word names in a slot.
fn block_in(word: u64) -> Span
    ensures { (a : ℕ) → in_span result a ≡ covers (content word) a }
{
    match read_content(word) {
        Content::Full(slot) => Span {
            from: slot.at,
            count: u64::from(slot.len),
        },
        Content::Empty | Content::NoSlot => Span::NONE,
    }
}

/// Whether an entry on a word of the right role would link, take or publish an address. A next word is the first of its node.
#[tactic(auto, using(std::proofs::lemmas::Bool::Decides::nat_tests), unfolding(node_words::specs::Addresses::node_size))]
pub(crate) fn may_reach(geometry: &Geometry, entry: &Entry, at: u64) -> bool
    ensures { result ≡ may_reach geometry.now entry.now at }
{
    let size = geometry.words / u64::from(geometry.nodes);
    names_word(geometry, entry.new) && is_among(entry.new, geometry.table_words(), at)
        || entry.at % size == 0 && entry.old <= at && at < entry.new
        || covers(entry.new, at)
}
