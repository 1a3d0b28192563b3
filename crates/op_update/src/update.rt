//! The machine.

ghost use Rattle.std.specs.Prelude.{◌≡◌};
ghost use Rattle.op_update.specs.AtFits.{AtFits, AtFits-prop};

use crate::at::At;
use crate::end::{UpdateEnd, UpdateOutcome};
use block_taking::Area;
use kv_block::{Key, Value};
use node_words::Geometry;
use verb_log::Verb;
use verbs::Machine;
use work_area::Work;

/// The update of a key. `start` begins it; it then does the verb that `next` tells and takes its answer by `feed`, until
/// `next` is None.
#[derive(Clone, Copy, Debug)]
pub struct UpdateOp {
    pub(crate) work: Work,
    pub(crate) at: At,
    ghost fits: { AtFits work at } by { AtFits-prop work at },
}

impl UpdateOp {
    ghost use Rattle.std.specs.Prelude.{◌≡◌, ◌≤◌, ◌<◌, ◌-◌, ◌^◌, Some, IsSome, option_map};
    ghost use Rattle.verbs.specs.Programs.{next_act, outcome_of, Within};
    ghost use Rattle.op_update.specs.declared.end.UpdateEnd.{UpdateEnd};
    ghost use Rattle.op_update.specs.Text.{update};
    ghost use Rattle.op_update.specs.Bound.{update_verbs};
    ghost use Rattle.op_update.specs.Law.{plan_of, IsSafeUpdate};
    ghost use Rattle.op_update.specs.Ends.{has_ended};
    ghost use Rattle.op_update.specs.Rest.{plan, area_of, update_rest};

    /// An update of the key with this hash to the value, from the table that the cache names, or from the directory where it
    /// names none, by a client with this number and area, which may lose `tries_left` swaps, 1 or more. It means the text of
    /// the update, and ends within `tries_left` times the verbs of a look, a taking, a Settle and a Replace, whatever is
    /// answered. On each legal log on which the look may begin, where the area is the client's, it is safe, whatever others
    /// add between its verbs: each of its entries is legal, and none but the last changes the map. Updated: the last entry is
    /// its Replace of the key's holder, which had the old value, by the block of the new one. Missing: the key was looked for
    /// in vain. Again: exactly where `tries_left` counted swaps were lost. NoBlock: each node was read to have no room for the
    /// block. After these three nothing has changed in the map (docs/LAWS.md, "What an update shows").
    pub fn start(
        geometry: Geometry,
        client: u32,
        hash: u64,
        key: &Key,
        value: &Value,
        entry: Option<u64>,
        area: Area,
        tries_left: u32,
    ) -> UpdateOp
        requires { 1 ≤ tries_left }
        ensures rest { update_rest result ≡ update (plan_of geometry client (record { key = key.now; value = value.now }) hash tries_left) area entry }
        ensures plan { plan result.work ≡ plan_of geometry client (record { key = key.now; value = value.now }) hash tries_left }
        ensures within { Within (update_verbs (plan_of geometry client (record { key = key.now; value = value.now }) hash tries_left)) (update_rest result) }
        ensures waits { IsSome (next_act (update_rest result)) }
        ensures safe { IsSafeUpdate geometry client (record { key = key.now; value = value.now }) hash tries_left area entry (update_rest result) }
    {
        let mut work = Work::idle(geometry, client, key);
        let at = At::begin(
            &mut work, geometry, client, hash, key, value, entry, area, tries_left,
        );
        UpdateOp { work, at }
    }

    /// How many counted swaps were lost.
    pub fn lost(&self) -> u32
        ensures lost { result ≡ self.now.work.replacement.tries - self.now.work.replacement.left }
        ensures ended { (e : UpdateEnd) → outcome_of (update_rest self.now) ≡ Some e → e.lost ≡ result }
    {
        self.work
            .replacement
            .tries
            .saturating_sub(self.work.replacement.left)
    }

    /// The table where the last look ended; before that, the one that it searched last.
    pub fn table(&self) -> u64
        ensures table { result ≡ self.now.work.pass.scan.table }
        ensures ended { (e : UpdateEnd) → outcome_of (update_rest self.now) ≡ Some e → e.table ≡ result }
        ensures low { result < 2 ^ 46 }
    {
        self.work.pass.table()
    }

    /// The area as the update leaves it.
    pub fn area(&self) -> Area
        ensures area { result ≡ area_of self.now.work }
        ensures ended { (e : UpdateEnd) → outcome_of (update_rest self.now) ≡ Some e → e.area ≡ result }
    {
        self.work.take.area()
    }

    /// What the update answers. None exactly while `next` is Some. `outcome` of `Machine` tells with it the table, the area and the lost swaps.
    pub fn outcome(&self) -> Option<UpdateOutcome>
        ensures { result ≡ option_map (λ end. end.outcome) (outcome_of (update_rest self.now)) }
    {
        match Machine::outcome(self) {
            Some(end) => Some(end.outcome),
            None => None,
        }
    }

    /// Whether the update has ended.
    #[inline(always)]
    pub fn has_ended(&self) -> bool
        ensures { result ≡ has_ended self.now.at }
    {
        self.at.has_ended()
    }
}

impl Machine for UpdateOp {
    ghost use Rattle.op_update.specs.Text.{Plan};
    ghost use Rattle.op_update.specs.Rest.{plan, update_rest};

    type Outcome = UpdateEnd;

    ghost Kept = { Plan };

    ghost kept = { λ m. plan m.work };

    ghost rest = { update_rest };

    #[inline(always)]
    fn next(&self) -> Option<Verb> {
        self.at.next(&self.work)
    }

    fn block(&self) -> Option<u64> {
        self.at.block(&self.work)
    }

    #[inline(always)]
    fn feed(&mut self, word: u64) {
        self.at = At::fed(&mut self.work, self.at, word);
    }

    fn asks(&self) -> Option<Key> {
        self.at.asks(&self.work)
    }

    fn told(&mut self, hash: u64) {
        self.at = self.at.told(&self.work, hash);
    }

    fn outcome(&self) -> Option<UpdateEnd> {
        self.at.end(&self.work)
    }
}
