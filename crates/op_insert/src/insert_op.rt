//! The machine.

ghost use Rattle.op_insert.specs.AtFits.{AtFits, AtFits-prop};

use crate::at::At;
use crate::end::{InsertEnd, InsertOutcome};
use block_taking::Area;
use kv_block::{Key, Value};
use node_words::Geometry;
use verb_log::Verb;
use verbs::Machine;
use work_area::Work;

/// The insert of a key with its value. `start` begins it; it then does the verb that `next` tells and takes its answer by
/// `feed`, and where `asks` names a key it takes that key's hash by `told`, until neither is left.
#[derive(Clone, Copy, Debug)]
pub struct InsertOp {
    pub(crate) work: Work,
    pub(crate) at: At,
    ghost fits: { AtFits work at } by { AtFits-prop work at },
}

impl InsertOp {
    ghost use Rattle.std.specs.Prelude.{◌≡◌, ◌<◌, ◌^◌, Some, IsSome, option_map};
    ghost use Rattle.verbs.specs.Programs.{next_act, outcome_of, Within};
    ghost use Rattle.kv_block.specs.Packing.{packed};
    ghost use Rattle.pass_text.specs.declared.job.PassMode.TheVariants.{Look};
    ghost use Rattle.op_insert.specs.declared.end.InsertEnd.{InsertEnd};
    ghost use Rattle.op_insert.specs.Bound.{insert_verbs};
    ghost use Rattle.op_insert.specs.Text.{Inserting, insert};
    ghost use Rattle.op_insert.specs.Law.{IsSafeInsert};
    ghost use Rattle.op_insert.specs.Rest.{area, has_ended, lost_of};
    ghost use Rattle.op_insert.specs.InsertRest.{insert_rest, started, start_of};

    /// An insert of the key with this hash and of its value, by this client, which may lose `tries_left` swaps, 1 or more; from
    /// the table that the cache names, or from the directory where it names none, with the block that this call has written
    /// and never placed, where there is one, and from the client's area. It means the text of the insert, and ends within so many verbs
    /// and hashes, whatever is answered (specs/Bound.antt). On each legal log on
    /// which its look may begin, where the area and the kept block are the client's, it is safe, whatever others add between
    /// its verbs: it ends within so many verbs, each of its entries is legal, and none but the last changes the map. Inserted:
    /// the last entry is its Commit of the pair, and the map had no such key. Exists: the key's holder was read. NeedRoom: a
    /// look was clear and no candidate was left. Again: exactly where `tries_left` counted swaps were lost. NoBlock: each node
    /// was read to have no room for the block. After all but Inserted the map has no change of it, and no pending word that it
    /// has placed stands (docs/LAWS.md, "What an insert shows").
    pub fn start(
        geometry: Geometry,
        client: u32,
        hash: u64,
        key: &Key,
        value: &Value,
        entry: Option<u64>,
        kept: Option<u64>,
        area: Area,
        tries_left: u32,
    ) -> InsertOp
        ensures rest { insert_rest result ≡ insert (start_of geometry client hash key.now value.now tries_left) entry kept area }
        ensures started { started result ≡ start_of geometry client hash key.now value.now tries_left }
        ensures within { Within (insert_verbs (start_of geometry client hash key.now value.now tries_left)) (insert_rest result) }
        ensures waits { IsSome (next_act (insert_rest result)) }
        ensures safe { IsSafeInsert (start_of geometry client hash key.now value.now tries_left) entry kept area (insert_rest result) }
    {
        let mut work = Work::idle(geometry, client, key);
        let at = At::begin(
            &mut work, geometry, client, hash, key, value, entry, kept, area, tries_left,
        );
        InsertOp { work, at }
    }

    /// How many counted swaps were lost, of an insert that has ended as no Again.
    #[tactic(auto, using(crate::proofs::Ended::told))]
    pub fn lost(&self) -> u32
        ensures lost { result ≡ lost_of self.now.work self.now.at }
        ensures ended { (e : InsertEnd) → outcome_of (insert_rest self.now) ≡ Some e → e.lost ≡ result }
    {
        self.at.lost_of(&self.work)
    }

    /// The table where the last pass ended; before that, the one that it searched last.
    #[tactic(auto, using(crate::proofs::Ended::told))]
    pub fn table(&self) -> u64
        ensures table { result ≡ self.now.work.pass.scan.table }
        ensures ended { (e : InsertEnd) → outcome_of (insert_rest self.now) ≡ Some e → e.table ≡ result }
        ensures low { result < 2 ^ 46 }
    {
        self.work.pass.table()
    }

    /// The area as the insert leaves it.
    #[tactic(auto, using(crate::proofs::Ended::told))]
    pub fn area(&self) -> Area
        ensures area { result ≡ area self.now.work }
        ensures ended { (e : InsertEnd) → outcome_of (insert_rest self.now) ≡ Some e → e.area ≡ result }
    {
        self.work.take.area()
    }

    /// What the insert answers. None exactly while an act is left. `outcome` of `Machine` tells with it the table, the area and
    /// the lost swaps.
    pub fn outcome(&self) -> Option<InsertOutcome>
        ensures { result ≡ option_map (λ end. end.outcome) (outcome_of (insert_rest self.now)) }
    {
        match Machine::outcome(self) {
            Some(end) => Some(end.outcome),
            None => None,
        }
    }

    /// Whether the insert has ended.
    #[inline(always)]
    pub fn has_ended(&self) -> bool
        ensures { result ≡ has_ended self.now.at }
    {
        self.at.has_ended()
    }
}

impl Machine for InsertOp {
    ghost use Rattle.op_insert.specs.Text.{Inserting};
    ghost use Rattle.op_insert.specs.InsertRest.{insert_rest, started};

    type Outcome = InsertEnd;

    ghost Kept = { Inserting };

    ghost kept = { started };

    ghost rest = { insert_rest };

    #[inline(always)]
    fn next(&self) -> Option<Verb> {
        self.at.next(&self.work)
    }

    fn block(&self) -> Option<u64> {
        self.at.block(&self.work)
    }

    #[inline(always)]
    fn feed(&mut self, word: u64) {
        self.at = At::answered(&mut self.work, self.at, word);
    }

    fn asks(&self) -> Option<Key> {
        self.at.asks(&self.work)
    }

    fn told(&mut self, hash: u64) {
        self.at = At::told(&mut self.work, self.at, hash);
    }

    fn outcome(&self) -> Option<InsertEnd> {
        self.at.end(&self.work)
    }
}
