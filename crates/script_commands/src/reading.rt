//! The script that a source spells.
ghost use Rattle.std.specs.Prelude.{◌≡◌, ◌≤◌, ◌⊎◌, IfOk, OnOk, None, Err};
ghost use Rattle.std.specs.Result.{IfErr};
ghost use Rattle.race_io.specs.Counts.{Rose};
ghost use Rattle.race_io.specs.Transfer.{TakesSome};
ghost use Rattle.script_commands.specs.Endings.{IsUnplayed};
ghost use Rattle.script_commands.specs.Reading.{ReadsScript, RefusesScript, Tells};

use crate::ending::Ended;
use race_io::{Sink, Source, TakeFault, put_all, take_all};
use script_reader::limits::MOST_BYTES;
use script_reader::{Refusal, ScriptFault, read_script};
use script_value::Script;
use std::alloc::Global;

/// The most bytes that are read: one more than a script may have.
const MOST_READ: u64 = MOST_BYTES as u64 + 1;

// Writes the line of a refusal. The status is 3, also where the sink fails, or 6 where there was no memory.
fn refuse<K: Sink>(alloc: Global, refusal: &Refusal, sink: &mut K) -> Ended
    ensures statuses { (result.status ≡ 3) ⊎ (result.status ≡ 6) }
    ensures told { result.status ≡ 3 → Tells (K.taken sink.old) (K.taken sink.new) (K.faults sink.old) (K.faults sink.new) (refusal.now.line, refusal.now.kind) }
    ensures wanting { result.status ≡ 6 → sink.new ≡ sink.old }
    ensures front { result.front ≡ None }
    ensures counted { K.faults sink.old ≤ K.faults sink.new }
{
    let Ok(text) = refusal.text(alloc) else {
        return Ended::unplayed(6);
    };
    let _ = put_all(sink, text.as_slice());
    Ended::unplayed(3)
}

/// Reads the source to its end, or until 4,194,305 bytes were taken, and hands out the script that the bytes spell. Else it says how
/// the command ended, without a play: at status 3, exactly where no read failed and the bytes are no script, the line of the
/// refusal was written, or a part from its front where the sink failed; at 4, only where the source's count of faults rose, and at 6,
/// where memory was wanting, nothing was written.
pub fn take_script<S: Source, K: Sink>(
    alloc: Global,
    source: &mut S,
    sink: &mut K,
) -> Result<Script, Ended>
    // The source was read to its end, its bytes spell the script, and nothing was written.
    ensures read { IfOk result (λ script. ReadsScript (S.left source.old) (S.left source.new) script) }
    ensures unwritten { OnOk result (sink.new ≡ sink.old) }

    // Nothing was played.
    ensures statuses { IfErr result (λ ended. IsUnplayed ended.status) }
    ensures front { IfErr result (λ ended. ended.front ≡ None) }

    // The bytes are no script, and the line of their refusal was written.
    ensures refused { IfErr result (λ ended. ended.status ≡ 3 → RefusesScript (S.left source.old) (S.left source.new) (K.taken sink.old) (K.taken sink.new) (K.faults sink.old) (K.faults sink.new)) }

    // The source failed, or there was no memory.
    ensures failed { IfErr result (λ ended. ended.status ≡ 4 → Rose (S.faults source.old) (S.faults source.new)) }
    ensures failed_unwritten { IfErr result (λ ended. ended.status ≡ 4 → sink.new ≡ sink.old) }
    ensures wanting { IfErr result (λ ended. ended.status ≡ 6 → sink.new ≡ sink.old) }

    ensures part { TakesSome (S.left source.old) (S.left source.new) 4194305 }
    ensures source_counted { S.faults source.old ≤ S.faults source.new }
    ensures sink_counted { K.faults sink.old ≤ K.faults sink.new }
{
    let bytes = match take_all(alloc, source, MOST_READ) {
        Ok(bytes) => bytes,
        Err(TakeFault::Failed) => return Err(Ended::unplayed(4)),
        Err(TakeFault::OutOfMemory) => return Err(Ended::unplayed(6)),
    };
    match read_script(alloc, bytes.as_slice()) {
        Ok(script) => Ok(script),
        Err(ScriptFault::Refused { line, kind }) => {
            Err(refuse(alloc, &Refusal { line, kind }, sink))
        }
        Err(ScriptFault::OutOfMemory) => Err(Ended::unplayed(6)),
    }
}
