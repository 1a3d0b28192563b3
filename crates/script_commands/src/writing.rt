//! The text of a play, written.
ghost use Rattle.std.specs.Prelude.{◌≡◌, ◌≤◌, ◌⊎◌, Some};
ghost use Rattle.std.specs.Io.KnownBytes.{Appends};
ghost use Rattle.race_io.specs.Counts.{Rose};
ghost use Rattle.race_io.specs.Transfer.{AppendsPart};
ghost use Rattle.script_commands.specs.Endings.{TellsPlay};

use crate::ending::Ended;
use client_seat::Front;
use race_io::{Sink, put_all};
use spelling::Text;

/// The text that a command makes of a play, and the log of the play.
#[derive(Drop)]
pub struct Account {
    pub text: Text,
    pub front: Front,
}

/// Writes the text of a play and tells its log. The status is 0 where the whole text was written, and 5 only where the sink's count of
/// faults rose: then a part from the front of the text was written.
pub fn write_play<K: Sink>(account: Account, sink: &mut K) -> Ended
    ensures statuses { (result.status ≡ 0) ⊎ (result.status ≡ 5) }
    ensures front { TellsPlay result.status result.front }

    ensures log { result.front ≡ Some account.front }
    ensures whole { result.status ≡ 0 → Appends (K.taken sink.old) (K.taken sink.new) account.text.items }
    ensures part { result.status ≡ 5 → AppendsPart (K.taken sink.old) (K.taken sink.new) account.text.items }
    ensures rose { result.status ≡ 5 → Rose (K.faults sink.old) (K.faults sink.new) }
    ensures counted { K.faults sink.old ≤ K.faults sink.new }
{
    let Account { text, front } = account;
    let status = match put_all(sink, text.as_slice()) {
        Ok(()) => 0,
        Err(_) => 5,
    };
    Ended::played(status, front)
}
