//! The map at the moments of a log. Each function has an empty body, and its contract is the law, over every legal log.
ghost use Rattle.call_laws.specs.Moments.{HoldsAtMoments, LacksAtMoments};

/// At a position at which a slot holds a key, the map has the key with the value of the slot's block; and it does so by the
/// changes of each later position, cut to those of that one.
pub fn law_holds_at_moments()
    ensures { HoldsAtMoments }
{}

/// Where a key was looked for in vain between two positions, the map lacked it at some position between them, by the
/// changes of the later one.
pub fn law_lacks_at_moments()
    ensures { LacksAtMoments }
{}
