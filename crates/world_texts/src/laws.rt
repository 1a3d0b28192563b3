//! The law of whole calls in a world.
ghost use Rattle.world_texts.specs.Safety.{AreSafe};
ghost use Rattle.world_texts.specs.Texts.{one_by_one};

use loss_laws::law_again_is_lost;
use whole_calls::{
    law_delete_call, law_insert_call, law_resize_call, law_search_call, law_states_fit,
    law_update_call,
};

/// From a log that may stand and a state that fits it, each call does a verb, ends within its bound, and is answered rightly,
/// whatever others do between its verbs; what it leaves of its client fits the log then. One that answers Again has lost as many swaps
/// as it tells.
pub fn law_calls_in_worlds()
    ensures { AreSafe one_by_one }
{
    law_states_fit();
    law_search_call();
    law_delete_call();
    law_update_call();
    law_insert_call();
    law_resize_call();
    law_again_is_lost();
}
