//! What the operation asks for.
ghost use Rattle.std.specs.Prelude.{◌≡◌, IsTrue, is_some};
ghost use Rattle.verbs.specs.Programs.{next_act, verb_of, block_in, key_of};
ghost use Rattle.remote_resize.specs.ResizeOpRest.{resize_rest};
ghost use Rattle.call_machine.specs.Rest.{act_of};
ghost use Rattle.call_machine.specs.Fits.{Stands, Settled};

use crate::at::At;
use crate::machines::Machines;
use kv_block::Key;
use remote_resize::ResizeOp;
use verb_log::Verb;
use verbs::Machine;

impl At {
    /// The verb to do now.
    #[inline(always)]
    #[tactic(auto, using(verbs::proofs::Progs::mappeds))]
    pub fn next(self, machines: &Machines) -> Option<Verb>
        requires { Stands machines.now self }
        ensures { result ≡ verb_of (act_of machines.now self) }
    {
        match self {
            At::Search | At::Walk => machines.work.pass.next(),
            At::Delete(at) => at.next(&machines.work),
            At::Update(at) => at.next(&machines.work),
            At::Insert(at) => at.next(&machines.work),
            At::Room | At::Split | At::Resume => machines.split.next(),
            At::Full => None,
        }
    }

    /// The block of which that verb reads a word.
    #[tactic(auto, using(verbs::proofs::Progs::mappeds))]
    pub fn block(self, machines: &Machines) -> Option<u64>
        requires { Stands machines.now self }
        ensures { result ≡ block_in (act_of machines.now self) }
    {
        match self {
            At::Search | At::Walk => machines.work.pass.block(),
            At::Delete(at) => at.block(&machines.work),
            At::Update(at) => at.block(&machines.work),
            At::Insert(at) => at.block(&machines.work),
            At::Room | At::Split | At::Resume => machines.split.block(),
            At::Full => None,
        }
    }

    /// The key whose hash is wanted.
    #[tactic(auto, using(verbs::proofs::Progs::mappeds))]
    pub fn asks(self, machines: &Machines) -> Option<Key>
        requires { Stands machines.now self }
        ensures { result ≡ key_of (act_of machines.now self) }
    {
        match self {
            At::Search | At::Walk => machines.work.pass.asks(),
            At::Delete(at) => at.asks(&machines.work),
            At::Update(at) => at.asks(&machines.work),
            At::Insert(at) => at.asks(&machines.work),
            At::Room | At::Split | At::Resume => machines.split.asks(),
            At::Full => None,
        }
    }

    /// Whether an act is left.
    #[inline(always)]
    #[tactic(auto, using(crate::proofs::Acting::acting))]
    pub fn acts(self, machines: &Machines) -> bool
        requires { Stands machines.now self }
        ensures { result ≡ is_some (act_of machines.now self) }
    {
        match self {
            At::Search => !machines.work.pass.has_ended(),
            At::Delete(at) => !at.has_ended(),
            At::Update(at) => !at.has_ended(),
            At::Insert(at) => !at.has_ended(),
            At::Room | At::Split | At::Resume => split_acts(&machines.split),
            At::Walk => !machines.work.pass.has_ended(),
            At::Full => false,
        }
    }

    /// Whether nothing follows the operation as it stands: it has an act, or is the last of its call.
    #[inline(always)]
    #[tactic(auto, using(crate::proofs::Parts::acts_settle))]
    pub fn is_settled(self, machines: &Machines) -> bool
        requires { Stands machines.now self }
        ensures { IsTrue result → Settled machines.now self }
    {
        match self {
            At::Search | At::Delete(_) | At::Update(_) | At::Full => true,
            _ => self.acts(machines),
        }
    }
}

// Whether a split has an act.
#[tactic(auto, using(crate::proofs::Parts::either_acts))]
fn split_acts(split: &ResizeOp) -> bool
    ensures { result ≡ is_some (next_act (resize_rest split.now)) }
{
    split.next().is_some() || split.asks().is_some()
}
