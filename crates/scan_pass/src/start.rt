//! The start of a pass: a new one, or one in place of another.

ghost use Rattle.std.specs.Prelude.{◌≡◌, Some, IsSome};
ghost use Rattle.verbs.specs.Programs.{next_act, Within};
ghost use Rattle.pass_text.specs.Pass.{pass};
ghost use Rattle.pass_text.specs.Bound.{pass_verbs};
ghost use Rattle.pass_laws.specs.Law.{IsSafePass};
ghost use Rattle.scan_pass.specs.Rest.{pass_rest};

use crate::at::At;
use crate::pass::Pass;
use crate::readings::address_of;
use crate::scan::Scan;
use crate::task::Task;
use kv_block::Key;
use node_words::Geometry;
use pass_text::{Job, PassMode};

impl Pass {
    /// A pass for the key with this hash, from the table that the cache names, or from the directory where it names none.
    /// It means the text of the pass, and ends within P verbs whatever is answered; a sweep within 138 verbs more for each
    /// swap that it may lose but for one. Of a sweep the table is the one that has the own slot, and `left` is at least 1.
    /// On each legal log on which it may begin it is safe, whatever others add between its verbs: its drops are legal and
    /// change nothing in the map, the blocks that it reads are published, and what it tells in the end was so at positions of
    /// the pass (docs/LAWS.md, "What a pass shows").
    #[tactic(auto, using(pass_text::proofs::Bounds::bounds, pass_laws::proofs::Whole::plays))]
    pub fn start(
        geometry: Geometry,
        entry: Option<u64>,
        key: &Key,
        hash: u64,
        mode: PassMode,
    ) -> Pass
        ensures rest { pass_rest result ≡ pass (record { geometry = geometry; key = key.now; hash = hash; mode = mode }) entry }
        ensures job { result.task.job ≡ record { geometry = geometry; key = key.now; hash = hash; mode = mode } }
        ensures within { Within (pass_verbs (record { geometry = geometry; key = key.now; hash = hash; mode = mode })) (pass_rest result) }
        ensures waits { IsSome (next_act (pass_rest result)) }
        ensures safe { IsSafePass (record { geometry = geometry; key = key.now; hash = hash; mode = mode }) entry (pass_rest result) }
    {
        Pass::of(
            Job {
                geometry,
                key: *key,
                hash,
                mode,
            },
            entry,
        )
    }

    // The pass of a job.
    fn of(job: Job, entry: Option<u64>) -> Pass
        ensures rest { pass_rest result ≡ pass job entry }
        ensures job { result.task.job ≡ job }
        ensures waits { IsSome (next_act (pass_rest result)) }
    {
        let (at, next) = match entry {
            Some(table) => (At::Header, address_of(table)),
            None => (At::Depth, 0),
        };
        Pass {
            task: Task::of(job),
            scan: Scan::new(next),
            at,
        }
    }

    /// A pass for another key begins in place of this one, in the same memory.
    pub fn begin(
        &mut self,
        geometry: Geometry,
        entry: Option<u64>,
        key: &Key,
        hash: u64,
        mode: PassMode,
    )
        ensures rest { pass_rest self.new ≡ pass (record { geometry = geometry; key = key.now; hash = hash; mode = mode }) entry }
        ensures job { self.new.task.job ≡ record { geometry = geometry; key = key.now; hash = hash; mode = mode } }
        ensures waits { IsSome (next_act (pass_rest self.new)) }
    {
        self.task.seek(geometry, key, hash, mode);
        match entry {
            Some(table) => {
                self.scan.next = address_of(table);
                self.at = At::Header;
            }
            None => self.at = At::Depth,
        }
    }

    /// The pass begins again, from this table.
    pub fn restart(&mut self, table: u64)
        ensures rest { pass_rest self.new ≡ pass self.old.task.job (Some table) }
        ensures job { self.new.task.job ≡ self.old.task.job }
        ensures waits { IsSome (next_act (pass_rest self.new)) }
    {
        self.scan.next = address_of(table);
        self.at = At::Header;
    }

    /// A pass for the same key begins in another mode, from this table.
    pub fn turn(&mut self, table: u64, mode: PassMode)
        ensures rest { pass_rest self.new ≡ pass (record self.old.task.job { mode = mode }) (Some table) }
        ensures job { self.new.task.job ≡ record self.old.task.job { mode = mode } }
        ensures waits { IsSome (next_act (pass_rest self.new)) }
    {
        self.task.turn(mode);
        self.scan.next = address_of(table);
        self.at = At::Header;
    }
}
