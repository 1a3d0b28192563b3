//! The live word of a slot's block.

ghost use Rattle.std.specs.Prelude.{◌≡◌};
ghost use Rattle.slot_word.specs.Slots.{IsSlot};
ghost use Rattle.call_laws.specs.Settling.{live_form};

use slot_word::{Mark, Slot, pack};

/// The word of the slot with the mark live, of the same block.
#[tactic(auto, unfolding(crate::specs::Settling::live_form))]
pub fn live_form(slot: &Slot) -> u64
    requires { IsSlot slot.now }
    ensures { result ≡ live_form slot.now }
{
    pack(&Slot {
        mark: Mark::Live,
        fp: slot.fp,
        len: slot.len,
        at: slot.at,
    })
}
