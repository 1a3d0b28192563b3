//! The machine, how it has ended, and its readers.

ghost use Rattle.scan_pass.specs.AtFits.{AtFits, AtFits-prop};

use crate::at::At;
use crate::scan::Scan;
use crate::task::Task;
use bucket_group::{Free, Places};
use kv_block::{Key, Value, block_value};
use node_words::{birth_at, child_at, header_at};
use pass_text::{Held, PassEnd, Passed};
use slot_word::Head;
use verb_log::Verb;
use verbs::Machine;

/// A pass down the chain of one key. `start`, `begin` and `restart` begin one; it then does the verb that `next` tells
/// and takes its answer by `feed`, until `next` is None.
#[derive(Clone, Copy, Debug)]
pub struct Pass {
    pub(crate) task: Task,
    pub(crate) scan: Scan,
    pub(crate) at: At,
    ghost fits: { AtFits task.job scan at } by { AtFits-prop task.job scan at },
}

impl Pass {
    ghost use Rattle.std.specs.Prelude.{◌≡◌, ◌<◌, ◌^◌, IsTrue};
    ghost use Rattle.verbs.specs.Programs.{outcome_of};
    ghost use Rattle.pass_text.specs.Pass.{passed, opened_at};
    ghost use Rattle.scan_pass.specs.Seen.{seen};
    ghost use Rattle.scan_pass.specs.Rest.{pass_rest};
    ghost use Rattle.scan_pass.specs.Ends.{held_of, is_held, is_gone, is_spent, has_ended};

    /// Whether the pass has ended with the key held.
    #[inline(always)]
    pub fn is_held(&self) -> bool
        ensures { result ≡ is_held self.now.at }
    {
        matches!(self.at, At::Held)
    }

    /// Whether the pass has ended as Gone.
    pub fn is_gone(&self) -> bool
        ensures { result ≡ is_gone self.now.at }
    {
        matches!(self.at, At::Gone)
    }

    /// Whether the pass has ended as Spent.
    pub fn is_spent(&self) -> bool
        ensures { result ≡ is_spent self.now.at }
    {
        matches!(self.at, At::Spent)
    }

    /// Whether the pass has ended.
    #[inline(always)]
    pub fn has_ended(&self) -> bool
        ensures { result ≡ has_ended self.now.at }
    {
        matches!(self.at, At::Held | At::Clear | At::Gone | At::Spent)
    }

    /// The table that was searched last.
    pub fn table(&self) -> u64
        ensures table { result ≡ self.now.scan.table }
        ensures low { result < 2 ^ 46 }
    {
        self.scan.table
    }

    /// The header that was read last.
    pub fn head(&self) -> Head
        ensures { result ≡ self.now.scan.head }
    {
        self.scan.head
    }

    /// The header of the last table that was read before any candidates. None where the pass read none of it there.
    pub fn opened(&self) -> Option<Head>
        ensures { result ≡ opened_at self.now.scan.opened self.now.scan.table }
    {
        if self.scan.opened.table == self.scan.table {
            Some(self.scan.opened.head)
        } else {
            None
        }
    }

    /// The table that was searched before the last one.
    pub fn parent(&self) -> Option<u64>
        ensures { result ≡ self.now.scan.parent }
    {
        self.scan.parent
    }

    /// Which candidates of the last table were read as 0.
    pub fn free(&self) -> &Free
        ensures { result.now ≡ self.now.scan.free }
    {
        &self.scan.free
    }

    /// The candidates of the key.
    pub fn places(&self) -> &Places
        ensures { result.now ≡ self.now.task.places }
    {
        &self.task.places
    }

    /// How many drops were lost, without the one with which the pass ended as Spent.
    pub fn lost(&self) -> u32
        ensures { result ≡ self.now.scan.lost }
    {
        self.scan.lost
    }

    /// The address of the slot that holds the key.
    #[tactic(auto, using(crate::specs::Ends::ends))]
    pub fn held_at(&self) -> u64
        requires { IsTrue (is_held self.now.at) }
        ensures { result ≡ (held_of self.now).at }
    {
        self.task.candidate(self.scan.table, self.scan.index)
    }

    /// The word that holds the key.
    pub fn held_word(&self) -> u64
        ensures { result ≡ (held_of self.now).word }
    {
        self.scan.word
    }

    /// The value of the key.
    pub fn held_value(&self) -> Value
        ensures { result ≡ (held_of self.now).value }
    {
        block_value(self.scan.block.words())
    }

    /// How the pass has ended. None exactly while `next` is Some.
    pub fn passed(&self) -> Option<Passed>
        ensures { result ≡ outcome_of (pass_rest self.now) }
    {
        match self.at {
            At::Held => Some(self.ended(
                PassEnd::Held(Held {
                    at: self.task.candidate(self.scan.table, self.scan.index),
                    word: self.scan.word,
                    value: block_value(self.scan.block.words()),
                }),
                self.scan.lost,
            )),
            At::Clear => Some(self.ended(PassEnd::Clear, self.scan.lost)),
            At::Gone => Some(self.ended(PassEnd::Gone, self.scan.lost)),
            At::Spent => Some(self.ended(PassEnd::Spent, self.scan.lost + 1)),
            _ => None,
        }
    }

    // What the pass tells that has ended so, with so many lost drops.
    fn ended(&self, end: PassEnd, lost: u32) -> Passed
        requires { lost < 2 ^ 32 }
        ensures { result ≡ passed self.now.task.job (record (seen self.now.scan) { lost = lost }) end }
    {
        Passed {
            end,
            table: self.scan.table,
            head: self.scan.head,
            opened: self.opened(),
            parent: self.scan.parent,
            free: self.scan.free,
            places: self.task.places,
            lost,
        }
    }
}

impl Machine for Pass {
    ghost use Rattle.pass_text.specs.declared.job.Job.{Job};
    ghost use Rattle.scan_pass.specs.Rest.{pass_rest};

    type Outcome = Passed;

    ghost Kept = { Job };

    ghost kept = { λ m. m.task.job };

    ghost rest = { pass_rest };

    #[inline(always)]
    fn next(&self) -> Option<Verb> {
        match self.at {
            At::Depth => Some(Verb::Read { at: 1 }),
            At::Directory => Some(Verb::Read { at: self.scan.next }),
            At::Header => Some(Verb::Read {
                at: header_at(self.scan.next),
            }),
            At::Parent => Some(Verb::Read {
                at: birth_at(self.scan.opened.table),
            }),
            At::Birth => Some(Verb::Read {
                at: birth_at(self.scan.next),
            }),
            At::Slot => Some(Verb::Read {
                at: self.task.candidate(self.scan.table, self.scan.index),
            }),
            At::Block => Some(Verb::Read { at: self.scan.next }),
            At::Drop => Some(Verb::Swap {
                at: self.task.candidate(self.scan.table, self.scan.index),
                expected: self.scan.word,
                word: 0,
            }),
            At::KeyHeader => Some(Verb::Read {
                at: self.task.key_header(self.scan.table),
            }),
            At::Child => Some(Verb::Read {
                at: child_at(self.scan.table, self.scan.level),
            }),
            At::Held | At::Clear | At::Gone | At::Spent => None,
        }
    }

    fn block(&self) -> Option<u64> {
        match self.at {
            At::Block => Some(self.scan.from),
            _ => None,
        }
    }

    #[inline(always)]
    fn feed(&mut self, word: u64) {
        self.at = At::fed(&self.task, &mut self.scan, self.at, word);
    }

    fn asks(&self) -> Option<Key> {
        None
    }

    fn told(&mut self, hash: u64) {}

    fn outcome(&self) -> Option<Passed> {
        self.passed()
    }
}
