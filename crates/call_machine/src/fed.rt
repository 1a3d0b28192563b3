//! The answer to the operation's act, which it takes in place.
ghost use Rattle.std.specs.Prelude.{◌≡◌, IsSome};
ghost use Rattle.verbs.specs.Programs.{verb_of, key_of, after};
ghost use Rattle.call_machine.specs.declared.task.Task.{Task};
ghost use Rattle.call_machine.specs.Rest.{act_of, rest_of};
ghost use Rattle.call_machine.specs.Fits.{Stands, HasSpare};

use crate::at::At;
use crate::machines::Machines;
use op_delete::At as Deleting;
use op_insert::At as Inserting;
use op_update::At as Updating;
use verbs::Machine;

impl At {
    /// The verb was answered.
    #[inline(always)]
    #[tactic(auto, using(verbs::proofs::Progs::mappeds, crate::proofs::Parts::fed_ons))]
    pub fn feed(self, machines: &mut Machines, word: u64) -> At
        requires stands { Stands machines.old self }
        requires acts { IsSome (verb_of (act_of machines.old self)) }
        ensures rest { (t : Task) → rest_of t machines.new result ≡ after (rest_of t machines.old self) word }
        ensures spare { (t : Task) → HasSpare t machines.old self → HasSpare t machines.new result }
        ensures stands { Stands machines.new result }
    {
        match self {
            At::Search => {
                machines.work.pass.feed(word);
                At::Search
            }
            At::Delete(at) => At::Delete(Deleting::fed(&mut machines.work, at, word)),
            At::Update(at) => At::Update(Updating::fed(&mut machines.work, at, word)),
            At::Insert(at) => At::Insert(Inserting::answered(&mut machines.work, at, word)),
            At::Room => {
                machines.split.feed(word);
                At::Room
            }
            At::Split => {
                machines.split.feed(word);
                At::Split
            }
            At::Resume => {
                machines.split.feed(word);
                At::Resume
            }
            At::Walk => {
                machines.work.pass.feed(word);
                At::Walk
            }
            At::Full => At::Full,
        }
    }

    /// The hash of the key was told.
    #[tactic(auto, using(verbs::proofs::Progs::mappeds, crate::proofs::Parts::fed_ons))]
    pub fn tell(self, machines: &mut Machines, hash: u64) -> At
        requires stands { Stands machines.old self }
        requires asks { IsSome (key_of (act_of machines.old self)) }
        ensures rest { (t : Task) → rest_of t machines.new result ≡ after (rest_of t machines.old self) hash }
        ensures spare { (t : Task) → HasSpare t machines.old self → HasSpare t machines.new result }
        ensures stands { Stands machines.new result }
    {
        match self {
            At::Search => {
                machines.work.pass.told(hash);
                At::Search
            }
            At::Delete(at) => At::Delete(at.told(&machines.work, hash)),
            At::Update(at) => At::Update(at.told(&machines.work, hash)),
            At::Insert(at) => At::Insert(Inserting::told(&mut machines.work, at, hash)),
            At::Room => {
                machines.split.told(hash);
                At::Room
            }
            At::Split => {
                machines.split.told(hash);
                At::Split
            }
            At::Resume => {
                machines.split.told(hash);
                At::Resume
            }
            At::Walk => {
                machines.work.pass.told(hash);
                At::Walk
            }
            At::Full => At::Full,
        }
    }
}
