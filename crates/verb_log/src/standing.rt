//! What a log says of one address, and how one entry more changes it.
ghost use Rattle.std.specs.Prelude.{◌≡◌, ◌≤◌, ◌<◌, ◌&&◌, not, IfSome};
ghost use Rattle.verb_log.specs.PlainKinds.{kind_of_plain};
ghost use Rattle.verb_log.specs.Standings.{role_there, judged_there, next_standing};

use crate::entry::Entry;
use crate::kind::Kind;
use crate::kinds::{bucket_kind, header_kind, lock_kind, names_word, slot_kind};
use crate::reach::Reach;
use crate::role::{Role, outer_role, table_role};
use node_words::Geometry;

/// What a log says of one address at one of its positions.
#[derive(Clone, Copy, PartialEq, Eq, Debug)]
pub(crate) struct Standing {
    /// The table in which it stands.
    pub table: Option<u64>,
    /// Whether it was taken.
    pub taken: bool,
    /// Whether it was published.
    pub published: bool,
}

impl Standing {
    /// The role of the word at this address.
    pub(crate) fn role(&self, geometry: &Geometry, at: u64) -> Role
        requires at { at < geometry.now.words }
        requires below { IfSome self.now.table (λ table. table ≤ at) }
        ensures { result ≡ role_there geometry.now self.now at }
    {
        match self.table {
            Some(table) => table_role(table, at - table),
            None => outer_role(geometry, at),
        }
    }

    /// Whether the word was taken and is not published.
    pub(crate) fn may_store(&self) -> bool
        ensures { result ≡ (self.now.taken && not self.now.published) }
    {
        self.taken && !self.published
    }

    /// What the table of kinds takes the word at this address for.
    pub(crate) fn judged_role(&self, geometry: &Geometry, at: u64) -> Role
        requires at { at < geometry.now.words }
        requires below { IfSome self.now.table (λ table. table ≤ at) }
        ensures { result ≡ judged_there geometry.now self.now at }
    {
        if self.may_store() {
            Role::Heap
        } else {
            self.role(geometry, at)
        }
    }

    /// What is said of an address behind an entry, by what was said of it and of the entry's word.
    pub(crate) fn after(
        &self,
        geometry: &Geometry,
        entry: &Entry,
        there: &Standing,
        at: u64,
    ) -> Standing
        requires at { entry.now.at < geometry.now.words }
        requires below { IfSome there.now.table (λ table. table ≤ entry.now.at) }
        ensures { result ≡ next_standing geometry.now entry.now there.now self.now at }
    {
        let reach = Reach::of(geometry, entry, there);
        let linked = reach.linked.has(at).then_some(entry.new);
        Standing {
            table: self.table.or(linked),
            taken: reach.taken.has(at) || self.taken,
            published: reach.published.has(at) || self.published,
        }
    }

    /// The kind of an entry on the word of which this is said.
    pub(crate) fn kind_of(&self, geometry: &Geometry, entry: &Entry) -> Option<Kind>
        requires at { entry.now.at < geometry.now.words }
        requires below { IfSome self.now.table (λ table. table ≤ entry.now.at) }
        ensures { result ≡ kind_of_plain geometry.now (self.now.taken && not self.now.published) entry.now (judged_there geometry.now self.now entry.now.at) }
    {
        let (old, new) = (entry.old, entry.new);
        match self.judged_role(geometry, entry.at) {
            Role::Next => (old < new).then_some(Kind::Take),
            Role::Depth => (old.checked_add(1) == Some(new)).then_some(Kind::Deepen),
            Role::Directory => names_word(geometry, new).then_some(Kind::Name),
            Role::Header => header_kind(old, new),
            Role::Lock => lock_kind(entry),
            Role::Child => (old == 0 && names_word(geometry, new)).then_some(Kind::Link),
            Role::Bucket => bucket_kind(old, new),
            Role::Slot => slot_kind(old, new),
            Role::Heap => self.may_store().then_some(Kind::Store),
            Role::Birth | Role::Reserved => None,
        }
    }
}
