//! The laws of plays.
ghost use Rattle.verb_core.specs.Traces.{ClientTraces, AgainTraces};
ghost use Rattle.verb_core.specs.One.{OneRun, OneDrawn};

use crate::playable::Playable;

/// In any run of verbs from the beginning, the verbs of each client are the traces of its calls in order.
pub fn law_client_traces<M: Playable>()
    ensures { ClientTraces M.kind }
{}

/// The trace of a call that is answered with Again has as many swaps as it tells that found another word than they expected.
pub fn law_again_traces<M: Playable>()
    ensures { AgainTraces M.kind }
{
    M::law_safe();
}

/// Under the same choices the events of a script are one list, and so are the log, the records and where the clients stand
/// after it.
pub fn law_one_run<M: Playable>()
    ensures { OneRun M.kind }
{}

/// Where the choices are drawn from one state, the events of a script are one list.
pub fn law_one_drawn<M: Playable>()
    ensures { OneDrawn M.kind }
{}
