//! The call that reads a script, plays it and writes its report.
ghost use Rattle.std.specs.Prelude.{◌≡◌, ℕ, ◌≤◌, ◌↔◌, map, None, Some};
ghost use Rattle.race_io.specs.Counts.{Rose};
ghost use Rattle.race_io.specs.Transfer.{TakesSome};
ghost use Rattle.race_play.specs.Commands.{command_of};
ghost use Rattle.race_play.specs.Outcomes.{FindsBad, IsStatus, MayReplay, Refuses, TellsFront, TellsNone, Writes, WritesInPart, most_read};
ghost use Rattle.race_play.specs.declared.command.Command.{Command};
ghost use Rattle.race_play.specs.declared.command.Command.TheVariants.{Storm};

use crate::command::{Command, command_of};
use crate::doing::{image_source, replay_source, sum_up};
use image_commands::audit;
use race_io::{Gate, Sink, Source};
use run_commands::run;
use script_commands::Ended;
use std::alloc::Global;
use std::thread::Threads;

/// Does a command other than `run`: reads the source to its end where the command reads a script, plays the script by its schedule
/// and writes the report, for a storm the summary, or the image of the words that it leaves; or audits an image. It waits for
/// nobody, every call returns, and nothing is written before the whole text is made. The numbers of a storm are within their limits.
///
/// The status is 7 exactly where the command is `image`, the script was played and there is no image, and 8 exactly where the command
/// is `audit`, no read failed and a word of the image is bad: then a line that says so is written, or a part from its front where the
/// sink fails. The status is 4 only where the source's count of faults rose, and 5 only where the sink's count rose, after the play. It is 3
/// exactly where the command reads a script, no read failed and the bytes read are none: then the line of the refusal is written,
/// or a part from its front where the sink fails. At 6 memory was wanting, and nothing is written. A storm reads nothing.
pub fn replay<S: Source, K: Sink>(
    alloc: Global,
    command: &Command,
    source: &mut S,
    sink: &mut K,
) -> Ended
    requires { MayReplay command.now }
    ensures statuses { IsStatus command.now result.status }

    // The log is told exactly where a script was played.
    ensures front { TellsFront command.now result.status result.front }

    // A storm reads nothing.
    ensures unread { (seed clients calls : ℕ) → command.now ≡ Storm seed clients calls → source.new ≡ source.old }

    // The script was played and its whole text written.
    ensures played { result.status ≡ 0 → Writes command.now (S.left source.old) (S.left source.new) (K.taken sink.old) (K.taken sink.new) result.front }

    // The bytes are no script, and the line of their refusal was written.
    ensures refused { result.status ≡ 3 → Refuses command.now (S.left source.old) (S.left source.new) (K.taken sink.old) (K.taken sink.new) (K.faults sink.old) (K.faults sink.new) }

    // There is no image, or a bad one, and the line that says so was written.
    ensures none { result.status ≡ 7 → TellsNone command.now (S.left source.old) (S.left source.new) (K.taken sink.old) (K.taken sink.new) (K.faults sink.old) (K.faults sink.new) result.front }
    ensures bad { result.status ≡ 8 → FindsBad command.now (S.left source.old) (S.left source.new) (K.taken sink.old) (K.taken sink.new) (K.faults sink.old) (K.faults sink.new) }

    // The source failed: its count of faults rose.
    ensures failed { result.status ≡ 4 → Rose (S.faults source.old) (S.faults source.new) }
    ensures failed_part { result.status ≡ 4 → TakesSome (S.left source.old) (S.left source.new) (most_read command.now) }
    ensures failed_unwritten { result.status ≡ 4 → sink.new ≡ sink.old }

    // The sink failed: its count of faults rose, and the text was written in part.
    ensures cut_off { result.status ≡ 5 → Rose (K.faults sink.old) (K.faults sink.new) }
    ensures in_part { result.status ≡ 5 → WritesInPart command.now (S.left source.old) (S.left source.new) (K.taken sink.old) (K.taken sink.new) result.front }

    // There was no memory: what was read is a part of the source, or all of it up to the limit.
    ensures wanting { result.status ≡ 6 → sink.new ≡ sink.old }
    ensures wanting_part { result.status ≡ 6 → TakesSome (S.left source.old) (S.left source.new) (most_read command.now) }

    ensures source_counted { S.faults source.old ≤ S.faults source.new }
    ensures sink_counted { K.faults sink.old ≤ K.faults sink.new }
{
    match *command {
        Command::Replay => replay_source(alloc, source, sink),
        Command::Run => unreachable!(),
        Command::Storm {
            seed,
            clients,
            calls,
        } => sum_up(alloc, seed, clients, calls, sink),
        Command::Image => image_source(alloc, source, sink),
        Command::Audit => Ended::unplayed(audit(alloc, source, sink)),
    }
}

/// Does the command that the words name: `run` plays the script of the source on threads, a worker for each client, and writes its
/// report, each other one is done as `replay` does it. The gate holds the workers of `run`, which wait for nobody else. The status is
/// 2 exactly where the words name no command, and then nothing is read or written.
///
/// At 0 and 5 of `run` the log that is told is kept by a badge of the memory on which the clients ran, with the trace of each client's
/// verbs. The lines are those of the calls that these traces did, with the replies and the blocks that the traces give. The replies
/// stand in a legal history over the changes of the log, and the map is that of all changes.
pub fn race<R: Threads + Sync, S: Source, K: Sink, G: Gate>(
    rt: &R,
    alloc: Global,
    words: &[&str],
    source: &mut S,
    sink: &mut K,
    gate: &G,
) -> Ended
    ensures statuses { (command : Command) → command_of (map (λ word. word.now) words.now) ≡ Some command → IsStatus command result.status }
    ensures command { (result.status ≡ 2) ↔ (command_of (map (λ word. word.now) words.now) ≡ None) }
    ensures front { (command : Command) → command_of (map (λ word. word.now) words.now) ≡ Some command → TellsFront command result.status result.front }

    // The words are no command: nothing is read or written.
    ensures unread { result.status ≡ 2 → source.new ≡ source.old }
    ensures unused { result.status ≡ 2 → sink.new ≡ sink.old }
    ensures unplayed { result.status ≡ 2 → result.front ≡ None }

    // A storm reads nothing.
    ensures storm { (seed clients calls : ℕ) → command_of (map (λ word. word.now) words.now) ≡ Some (Storm seed clients calls) → source.new ≡ source.old }

    // The script was played and its whole text written.
    ensures played { (command : Command) → command_of (map (λ word. word.now) words.now) ≡ Some command → result.status ≡ 0
        → Writes command (S.left source.old) (S.left source.new) (K.taken sink.old) (K.taken sink.new) result.front }

    // The bytes are no script, and the line of their refusal was written.
    ensures refused { (command : Command) → command_of (map (λ word. word.now) words.now) ≡ Some command → result.status ≡ 3
        → Refuses command (S.left source.old) (S.left source.new) (K.taken sink.old) (K.taken sink.new) (K.faults sink.old) (K.faults sink.new) }

    // There is no image, or a bad one, and the line that says so was written.
    ensures none { (command : Command) → command_of (map (λ word. word.now) words.now) ≡ Some command → result.status ≡ 7
        → TellsNone command (S.left source.old) (S.left source.new) (K.taken sink.old) (K.taken sink.new) (K.faults sink.old) (K.faults sink.new) result.front }
    ensures bad { (command : Command) → command_of (map (λ word. word.now) words.now) ≡ Some command → result.status ≡ 8
        → FindsBad command (S.left source.old) (S.left source.new) (K.taken sink.old) (K.taken sink.new) (K.faults sink.old) (K.faults sink.new) }

    // The source failed: its count of faults rose.
    ensures failed { result.status ≡ 4 → Rose (S.faults source.old) (S.faults source.new) }
    ensures failed_part { (command : Command) → command_of (map (λ word. word.now) words.now) ≡ Some command → result.status ≡ 4
        → TakesSome (S.left source.old) (S.left source.new) (most_read command) }
    ensures failed_unwritten { result.status ≡ 4 → sink.new ≡ sink.old }

    // The sink failed: its count of faults rose, and the text was written in part.
    ensures cut_off { result.status ≡ 5 → Rose (K.faults sink.old) (K.faults sink.new) }
    ensures in_part { (command : Command) → command_of (map (λ word. word.now) words.now) ≡ Some command → result.status ≡ 5
        → WritesInPart command (S.left source.old) (S.left source.new) (K.taken sink.old) (K.taken sink.new) result.front }

    // There was no memory: what was read is a part of the source, or all of it up to the limit.
    ensures wanting { result.status ≡ 6 → sink.new ≡ sink.old }
    ensures wanting_part { (command : Command) → command_of (map (λ word. word.now) words.now) ≡ Some command → result.status ≡ 6
        → TakesSome (S.left source.old) (S.left source.new) (most_read command) }

    ensures source_counted { S.faults source.old ≤ S.faults source.new }
    ensures sink_counted { K.faults sink.old ≤ K.faults sink.new }
{
    match command_of(words) {
        Some(Command::Run) => run(rt, alloc, source, sink, gate),
        Some(command) => replay(alloc, &command, source, sink),
        None => Ended::unplayed(2),
    }
}
