//! Slot words: what stands in a slot of a table.
ghost use Rattle.std.specs.Prelude.{◌≡◌, ◌%◌, ◌^◌, ◌<◌, ◌≤◌, ◌↔◌, IfSome, IsNone};
ghost use Rattle.slot_word.specs.Slots.{IsSlot, mark_bits, mark_of, slot_of, slot_word};

/// What a client has said of the block that a slot names.
#[derive(Clone, Copy, Debug, PartialEq, Eq)]
pub enum Mark {
    /// The pair of the block is in the map.
    Live,
    /// An insert has placed the block and not yet committed it.
    Pending,
    /// A split has copied the slot into the child, which is linked and fills. It answers for the key where the
    /// same place of the parent was moved of this block.
    Copied,
    /// The pair now stands at the same place of the child.
    Moved,
}

impl Mark {
    // The two bits of the mark.
    fn bits(self) -> u64
        ensures { result ≡ mark_bits self }
    {
        match self {
            Mark::Live => 0,
            Mark::Pending => 1,
            Mark::Copied => 2,
            Mark::Moved => 3,
        }
    }

    // The mark of two bits.
    fn of_bits(bits: u64) -> Mark
        requires { bits < 4 }
        ensures { result ≡ mark_of bits }
    {
        match bits {
            0 => Mark::Live,
            1 => Mark::Pending,
            2 => Mark::Copied,
            _ => Mark::Moved,
        }
    }
}

/// What a slot word says: a block of `len` words at address `at`, 1 to 2^46 - 1, the fingerprint of its key,
/// and its mark.
#[derive(Clone, Copy, Debug, PartialEq, Eq)]
pub struct Slot {
    /// What a client has said of the block.
    pub mark: Mark,
    /// The fingerprint of the block's key.
    pub fp: u8,
    /// The length of the block, in words.
    pub len: u8,
    /// The address of the block's first word.
    pub at: u64,
}

const FINGERPRINT_SHIFT: u32 = 56;

const LENGTH_SHIFT: u32 = 48;

const MARK_SHIFT: u32 = 46;

/// The word of a slot: bits 63..56 the fingerprint, 55..48 the length, 47..46 the mark (0 live, 1 pending,
/// 2 copied, 3 moved), 45..0 the address.
#[tactic(auto, unfolding(crate::specs::Slots::slot_word))]
pub fn pack(slot: &Slot) -> u64
    requires low { 1 ≤ slot.now.at }
    requires high { slot.now.at < 2 ^ 46 }
    ensures word { result ≡ slot_word slot.now }
    ensures back { slot_of result ≡ Some slot.now }
{
    ((slot.fp as u64) << FINGERPRINT_SHIFT)
        + ((slot.len as u64) << LENGTH_SHIFT)
        + (slot.mark.bits() << MARK_SHIFT)
        + slot.at
}

/// The slot that a word packs. None comes exactly where the 46 address bits are 0, and the word is then no
/// slot: of these words only 0, the empty slot, ever stands in a table.
#[tactic(auto, unfolding(crate::specs::Slots::slot_of, crate::specs::Slots::fields_of))]
pub fn read_slot(word: u64) -> Option<Slot>
    ensures value { result ≡ slot_of word }
    ensures packed { IfSome result (λ slot. IsSlot slot × (slot_word slot ≡ word)) }
    ensures none { IsNone result ↔ (word % 2 ^ 46 ≡ 0) }
{
    let at = word % (1 << MARK_SHIFT);
    if at == 0 {
        return None;
    }
    Some(Slot {
        mark: Mark::of_bits((word >> MARK_SHIFT) % 4),
        fp: (word >> FINGERPRINT_SHIFT) as u8,
        len: ((word >> LENGTH_SHIFT) % 256) as u8,
        at,
    })
}
