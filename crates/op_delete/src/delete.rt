//! The machine.

ghost use Rattle.op_delete.specs.AtFits.{AtFits, AtFits-prop};

use crate::at::At;
use crate::end::{DeleteEnd, DeleteOutcome};
use kv_block::Key;
use node_words::Geometry;
use verb_log::Verb;
use verbs::Machine;
use work_area::Work;

/// The delete of a key. `start` begins it; it then does the verb that `next` tells and takes its answer by `feed`, until
/// `next` is None.
#[derive(Clone, Copy, Debug)]
pub struct DeleteOp {
    pub(crate) work: Work,
    pub(crate) at: At,
    ghost fits: { AtFits work at } by { AtFits-prop work at },
}

impl DeleteOp {
    ghost use Rattle.std.specs.Prelude.{◌≡◌, ◌≤◌, ◌<◌, ◌^◌, Some, IsSome, option_map};
    ghost use Rattle.verbs.specs.Programs.{next_act, outcome_of, Within};
    ghost use Rattle.call_laws.specs.Settling.{look_job};
    ghost use Rattle.op_delete.specs.declared.end.DeleteEnd.{DeleteEnd};
    ghost use Rattle.op_delete.specs.Text.{delete};
    ghost use Rattle.op_delete.specs.Bound.{delete_verbs};
    ghost use Rattle.op_delete.specs.Law.{IsSafeDelete};
    ghost use Rattle.op_delete.specs.Ends.{has_ended};
    ghost use Rattle.op_delete.specs.Rest.{delete_rest};

    /// A delete of the key with this hash, from the table that the cache names, or from the directory where it names none,
    /// which may lose `tries_left` swaps, 1 or more. It means the text of the delete, and ends within `tries_left` times
    /// P + 2 verbs whatever is answered. On each legal log on which the look may begin it is safe, whatever others add
    /// between its verbs: each of its entries is legal, and none but the last changes the map. Deleted: the last entry is its
    /// Remove of the key's holder, which had this value. Missing: the key was looked for in vain. Again: exactly where
    /// `tries_left` counted swaps were lost; then as where it is Missing nothing has changed in the map (docs/LAWS.md, "What
    /// a delete shows").
    pub fn start(
        geometry: Geometry,
        hash: u64,
        key: &Key,
        entry: Option<u64>,
        tries_left: u32,
    ) -> DeleteOp
        requires { 1 ≤ tries_left }
        ensures rest { delete_rest result ≡ delete (look_job geometry key.now hash) tries_left entry }
        ensures job { result.work.pass.task.job ≡ look_job geometry key.now hash }
        ensures within { Within (delete_verbs geometry.max_depth tries_left) (delete_rest result) }
        ensures waits { IsSome (next_act (delete_rest result)) }
        ensures safe { IsSafeDelete geometry key.now hash tries_left entry (delete_rest result) }
    {
        let mut work = Work::idle(geometry, 0, key);
        let at = At::begin(&mut work, geometry, hash, key, entry, tries_left);
        DeleteOp { work, at }
    }

    /// How many counted swaps were lost.
    pub fn lost(&self) -> u32
        ensures lost { result ≡ self.now.work.removal.lost }
        ensures ended { (e : DeleteEnd) → outcome_of (delete_rest self.now) ≡ Some e → e.lost ≡ result }
    {
        self.work.removal.lost
    }

    /// The table where the last look ended; before that, the one that it searched last.
    pub fn table(&self) -> u64
        ensures table { result ≡ self.now.work.pass.scan.table }
        ensures ended { (e : DeleteEnd) → outcome_of (delete_rest self.now) ≡ Some e → e.table ≡ result }
        ensures low { result < 2 ^ 46 }
    {
        self.work.pass.table()
    }

    /// What the delete answers. None exactly while `next` is Some. `outcome` of `Machine` tells with it the table and the lost swaps.
    pub fn outcome(&self) -> Option<DeleteOutcome>
        ensures { result ≡ option_map (λ end. end.outcome) (outcome_of (delete_rest self.now)) }
    {
        match Machine::outcome(self) {
            Some(end) => Some(end.outcome),
            None => None,
        }
    }

    /// Whether the delete has ended.
    #[inline(always)]
    pub fn has_ended(&self) -> bool
        ensures { result ≡ has_ended self.now.at }
    {
        self.at.has_ended()
    }
}

impl Machine for DeleteOp {
    ghost use Rattle.pass_text.specs.declared.job.Job.{Job};
    ghost use Rattle.op_delete.specs.Rest.{delete_rest};

    type Outcome = DeleteEnd;

    ghost Kept = { Job };

    ghost kept = { λ m. m.work.pass.task.job };

    ghost rest = { delete_rest };

    #[inline(always)]
    fn next(&self) -> Option<Verb> {
        self.at.next(&self.work)
    }

    fn block(&self) -> Option<u64> {
        self.at.block(&self.work)
    }

    #[inline(always)]
    fn feed(&mut self, word: u64) {
        self.at = At::fed(&mut self.work, self.at, word);
    }

    fn asks(&self) -> Option<Key> {
        self.at.asks(&self.work)
    }

    fn told(&mut self, hash: u64) {
        self.at = self.at.told(&self.work, hash);
    }

    fn outcome(&self) -> Option<DeleteEnd> {
        self.at.end(&self.work)
    }
}
