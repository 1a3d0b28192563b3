//! The command `run`.
ghost use Rattle.std.specs.Prelude.{◌≡◌, ◌≤◌, IfOk};
ghost use Rattle.race_io.specs.Counts.{Rose};
ghost use Rattle.race_io.specs.Transfer.{TakesSome};
ghost use Rattle.script_commands.specs.Endings.{IsPlayStatus, TellsPlay};
ghost use Rattle.script_commands.specs.Reading.{RefusesScript};
ghost use Rattle.script_commands.specs.Writing.{OfScriptRead, WritesText, WritesTextInPart};
ghost use Rattle.run_commands.specs.Runs.{ReportsRun};

use play_report::{Mode, report_text};
use race_io::{Gate, Sink, Source};
use script_commands::{Account, Ended, take_script, write_play};
use script_value::Script;
use std::alloc::{AllocError, Global};
use std::thread::Threads;
use thread_play::play_threads;

// The report of the play of a script on threads, and the log of the play.
fn run_account<R: Threads + Sync, G: Gate>(
    rt: &R,
    alloc: Global,
    script: &Script,
    gate: &G,
) -> Result<Account, AllocError>
    ensures { IfOk result (λ account. ReportsRun script.now account.text.items account.front) }
{
    let played = play_threads(rt, alloc, script, gate)?;
    let text = report_text(
        alloc,
        Mode::Run,
        script,
        &played.lines,
        &played.map,
        played.next,
    )?;
    Ok(Account {
        text,
        front: played.front,
    })
}

/// Reads the source to its end, plays the script that the bytes spell on threads, a worker for each client, and writes the report.
/// Each call begins once the gate lets it; the workers wait for nobody else. Nothing is written before the whole text is made.
///
/// The status is 0 where the script was played and the whole report written. It is 3 exactly where no read failed and the bytes read
/// are no script: then the line of the refusal is written, or a part from its front where the sink fails. It is 4 only where the
/// source's count of faults rose, and 5 only where the sink's count rose, after the play. At 6 memory was wanting, and nothing is
/// written. The log is told exactly at 0 and 5: it is kept by a badge of the memory on which the clients ran.
pub fn run<R: Threads + Sync, S: Source, K: Sink, G: Gate>(
    rt: &R,
    alloc: Global,
    source: &mut S,
    sink: &mut K,
    gate: &G,
) -> Ended
    ensures statuses { IsPlayStatus result.status }

    // The log is told exactly where the script was played.
    ensures front { TellsPlay result.status result.front }

    // The script was played on threads and its whole report written.
    ensures played { result.status ≡ 0 → WritesText (OfScriptRead ReportsRun (S.left source.old) (S.left source.new)) (K.taken sink.old) (K.taken sink.new) result.front }

    // The bytes are no script, and the line of their refusal was written.
    ensures refused { result.status ≡ 3 → RefusesScript (S.left source.old) (S.left source.new) (K.taken sink.old) (K.taken sink.new) (K.faults sink.old) (K.faults sink.new) }

    // The source failed: its count of faults rose.
    ensures failed { result.status ≡ 4 → Rose (S.faults source.old) (S.faults source.new) }
    ensures failed_part { result.status ≡ 4 → TakesSome (S.left source.old) (S.left source.new) 4194305 }
    ensures failed_unwritten { result.status ≡ 4 → sink.new ≡ sink.old }

    // The sink failed: its count of faults rose, and the report was written in part.
    ensures cut_off { result.status ≡ 5 → Rose (K.faults sink.old) (K.faults sink.new) }
    ensures in_part { result.status ≡ 5 → WritesTextInPart (OfScriptRead ReportsRun (S.left source.old) (S.left source.new)) (K.taken sink.old) (K.taken sink.new) result.front }

    // There was no memory: what was read is a part of the source, or all of it up to the limit.
    ensures wanting { result.status ≡ 6 → sink.new ≡ sink.old }
    ensures wanting_part { result.status ≡ 6 → TakesSome (S.left source.old) (S.left source.new) 4194305 }

    ensures source_counted { S.faults source.old ≤ S.faults source.new }
    ensures sink_counted { K.faults sink.old ≤ K.faults sink.new }
{
    let script = match take_script(alloc, source, sink) {
        Ok(script) => script,
        Err(ended) => return ended,
    };
    match run_account(rt, alloc, &script, gate) {
        Ok(account) => write_play(account, sink),
        Err(_) => Ended::unplayed(6),
    }
}
