//! The machine.

ghost use Rattle.directory.specs.AtFits.{AtFits, AtFits-prop};

use crate::at::At;
use crate::naming::{Named, Naming};
use crate::progress::Progress;
use kv_block::Key;
use node_words::{Geometry, birth_at};
use slot_word::Birth;
use verb_log::Verb;
use verbs::Machine;

/// The naming of a child. `start` begins it; it then does the verb that `next` tells and takes its answer by `feed`, until
/// `next` is None.
#[derive(Clone, Copy, Debug)]
pub struct NameOp {
    pub(crate) naming: Naming,
    pub(crate) progress: Progress,
    pub(crate) at: At,
    ghost fits: { AtFits naming progress at } by { AtFits-prop naming progress at },
}

impl NameOp {
    ghost use Rattle.std.specs.Prelude.{◌≡◌, ◌≤◌, ◌^◌, IsSome};
    ghost use Rattle.node_words.specs.Addresses.{directory_at};
    ghost use Rattle.verbs.specs.Programs.{next_act, Within};
    ghost use Rattle.directory.specs.Text.{naming};
    ghost use Rattle.directory.specs.Bound.{naming_verbs};
    ghost use Rattle.directory.specs.Law.{IsSafeNaming};
    ghost use Rattle.directory.specs.Rest.{name_rest};

    /// Names the child with this birth in the directory, which is doubled where it is as deep as the child's parent was. It
    /// means the text of the naming, and ends within 2^(max_depth + 2) + 2 verbs whatever is answered. It has no refusal.
    /// On each legal log in which `child` is a table with this birth, whose parent is at least as deep as it was born, it is
    /// safe, whatever others add between its verbs: each Name and Deepen that it wins is legal and changes nothing in the
    /// map, and in the end each directory word with the child's suffix has named the child or a table below it
    /// (docs/LAWS.md, "What naming shows").
    pub fn start(geometry: Geometry, child: u64, birth: Birth) -> NameOp
        ensures rest { name_rest result ≡ naming (record { geometry = geometry; child = child; birth = birth }) }
        ensures naming { result.naming ≡ record { geometry = geometry; child = child; birth = birth } }
        ensures within { Within (naming_verbs geometry.max_depth) (name_rest result) }
        ensures waits { IsSome (next_act (name_rest result)) }
        ensures safe { IsSafeNaming (record { geometry = geometry; child = child; birth = birth }) (name_rest result) }
    {
        NameOp {
            naming: Naming {
                geometry,
                child,
                birth,
            },
            progress: Progress::default(),
            at: At::Depth,
        }
    }

    // The address of a directory word.
    fn directory(&self, index: u64) -> u64
        requires { index ≤ 2 ^ 17 }
        ensures { result ≡ directory_at index }
    {
        2 + index
    }
}

impl Machine for NameOp {
    ghost use Rattle.directory.specs.declared.naming.Naming.{Naming};
    ghost use Rattle.directory.specs.Rest.{name_rest};

    type Outcome = Named;

    ghost Kept = { Naming };

    ghost kept = { λ m. m.naming };

    ghost rest = { name_rest };

    #[tactic(auto, unfolding(pass_text::specs::Words::address_of))]
    fn next(&self) -> Option<Verb> {
        let depth = self.naming.birth.depth;
        match self.at {
            At::Depth => Some(Verb::Read { at: 1 }),
            At::Lower => Some(Verb::Read {
                at: self.directory(self.progress.index - (1 << (depth - 1))),
            }),
            At::Upper => Some(Verb::Swap {
                at: self.directory(self.progress.index),
                expected: 0,
                word: self.progress.word,
            }),
            At::Deepen => Some(Verb::Swap {
                at: 1,
                expected: u64::from(depth) - 1,
                word: u64::from(depth),
            }),
            At::Word => Some(Verb::Read {
                at: self.directory(self.progress.index),
            }),
            At::Birth => Some(Verb::Read {
                at: birth_at(self.progress.word % (1 << 46)),
            }),
            At::Name => Some(Verb::Swap {
                at: self.directory(self.progress.index),
                expected: self.progress.word,
                word: self.naming.child,
            }),
            At::Done => None,
        }
    }

    fn block(&self) -> Option<u64> {
        None
    }

    fn feed(&mut self, word: u64) {
        self.at = At::fed(&mut self.progress, &self.naming, self.at, word);
    }

    fn asks(&self) -> Option<Key> {
        None
    }

    fn told(&mut self, hash: u64) {}

    fn outcome(&self) -> Option<Named> {
        match self.at {
            At::Done => Some(Named {
                depth: self.progress.depth,
            }),
            _ => None,
        }
    }
}
