//! The area.

ghost use Rattle.std.specs.Prelude.{◌≡◌};
ghost use Rattle.work_area.specs.Looking.{look_form};

use crate::numbers::{Numbers, Removal, Replacement};
use crate::parent_words::ParentWords;
use block_taking::{Area, TakeOp};
use kv_block::{Key, Value, write_block};
use node_words::Geometry;
use scan_pass::{Job, Pass, PassMode};

/// The pass and the taking of a block that the operations of a client share, with the key that is looked for; the words of the block that
/// an insert reads in the parent; and the numbers of each operation. `removal` is a delete's, `replacement` an update's, `numbers` an
/// insert's.
#[derive(Clone, Copy, Debug)]
pub struct Work {
    pub job: Job,
    pub pass: Pass,
    pub take: TakeOp,
    pub words: ParentWords,
    pub removal: Removal,
    pub replacement: Replacement,
    pub numbers: Numbers,
    pub ghost same: { look_form pass.task.job ≡ job },
}

impl Work {
    ghost use Rattle.std.specs.Prelude.{IsSome};
    ghost use Rattle.verbs.specs.Programs.{next_act};
    ghost use Rattle.pass_text.specs.declared.job.PassMode.TheVariants.{Look};
    ghost use Rattle.pass_text.specs.Pass.{pass};
    ghost use Rattle.kv_block.specs.Packing.{packed, IsPair};
    ghost use Rattle.scan_pass.specs.Rest.{pass_rest};

    /// The area of a client that has not begun an operation. Its pass would look for this key.
    pub fn idle(geometry: Geometry, client: u32, key: &Key) -> Work {
        let area = Area { at: 0, left: 0 };
        let block = write_block(key, &Value::empty());
        Work {
            job: Job {
                geometry,
                key: *key,
                hash: 0,
                mode: PassMode::Look,
            },
            pass: Pass::start(geometry, None, key, 0, PassMode::Look),
            take: TakeOp::ready(geometry, client, block, area),
            words: ParentWords::new(),
            removal: Removal::none(),
            replacement: Replacement::none(),
            numbers: Numbers::none(),
        }
    }

    /// A pass for this key begins, from the table that the cache names, or from the directory where it names none.
    pub fn seek(
        &mut self,
        geometry: Geometry,
        entry: Option<u64>,
        key: &Key,
        hash: u64,
        mode: PassMode,
    )
        ensures rest { pass_rest self.new.pass ≡ pass (record { geometry = geometry; key = key.now; hash = hash; mode = mode }) entry }
        ensures job { self.new.pass.task.job ≡ record { geometry = geometry; key = key.now; hash = hash; mode = mode } }
        ensures look { self.new.job ≡ record { geometry = geometry; key = key.now; hash = hash; mode = Look } }
        ensures waits { IsSome (next_act (pass_rest self.new.pass)) }
        ensures take { self.new.take ≡ self.old.take }
    {
        self.pass.begin(geometry, entry, key, hash, mode);
        self.job.geometry = geometry;
        self.job.key = *key;
        self.job.hash = hash;
        self.job.mode = PassMode::Look;
    }

    /// The pair whose block is taken from now on, by this client and from this area.
    pub fn pack(&mut self, geometry: Geometry, client: u32, key: &Key, value: &Value, area: Area)
        ensures taking { self.new.take.taking ≡ record { geometry = geometry; client = client; block = packed key.now value.now } }
        ensures area { self.new.take.progress.area ≡ area }
        ensures pair { IsPair (record { key = key.now; value = value.now }) }
        ensures pass { self.new.pass ≡ self.old.pass }
        ensures look { self.new.job ≡ self.old.job }
    {
        self.take
            .refresh(geometry, client, write_block(key, value), area);
    }
}
