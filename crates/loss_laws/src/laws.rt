//! The law of lost swaps.
ghost use Rattle.loss_laws.specs.Again.{AgainIsLost};

/// However the verbs of a call are answered: where it answers Again it has lost as many swaps as it tells, each of which
/// found another word than it expected.
pub fn law_again_is_lost()
    ensures { AgainIsLost }
{}
