//! What is known of the posted look whatever is read.
ghost use Rattle.post_text.specs.Bound.{IsFew, IsShort};

/// Of a posted look at most 137 verbs are outstanding, whatever words are read and in whatever order.
pub fn law_few_outstanding()
    ensures { IsFew }
{}

/// A posted look ends within P verbs, whatever words are read and in whatever order.
pub fn law_look_ends()
    ensures { IsShort }
{}
