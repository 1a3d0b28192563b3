//! What each command does that plays on one thread.
ghost use Rattle.std.specs.Prelude.{◌≡◌, ◌≢◌, ◌≤◌, MatchOption, None, ◌⊎◌};
ghost use Rattle.race_laws.specs.Legal.{IsLegal};
ghost use Rattle.image_audit.specs.Kept.{setting_of};
ghost use Rattle.race_io.specs.Counts.{Rose};
ghost use Rattle.race_io.specs.Transfer.{TakesSome};
ghost use Rattle.image_commands.specs.Images.{TellsNoImage, WritesImage, WritesImageInPart};
ghost use Rattle.script_commands.specs.Endings.{IsPlayStatus, TellsPlay};
ghost use Rattle.script_commands.specs.Reading.{RefusesScript};
ghost use Rattle.script_commands.specs.Writing.{OfScriptRead, WritesText, WritesTextInPart};
ghost use Rattle.race_play.specs.Outcomes.{IsImageStatus, TellsNoPicture, WritesPicture, WritesPictureInPart};
ghost use Rattle.race_play.specs.Texts.{Reports, Sums};

use crate::texts::{Logged, replay_account, replay_log, storm_account};
use client_seat::Front;
use image_commands::write_image;
use race_io::{Sink, Source};
use script_commands::{Ended, take_script, write_play};
use std::alloc::Global;

/// Reads the source to its end, plays the script by its schedule and writes its report.
pub(crate) fn replay_source<S: Source, K: Sink>(
    alloc: Global,
    source: &mut S,
    sink: &mut K,
) -> Ended
    ensures statuses { IsPlayStatus result.status }
    ensures front { TellsPlay result.status result.front }
    ensures played { result.status ≡ 0 → WritesText (OfScriptRead Reports (S.left source.old) (S.left source.new)) (K.taken sink.old) (K.taken sink.new) result.front }
    ensures refused { result.status ≡ 3 → RefusesScript (S.left source.old) (S.left source.new) (K.taken sink.old) (K.taken sink.new) (K.faults sink.old) (K.faults sink.new) }
    ensures failed { result.status ≡ 4 → Rose (S.faults source.old) (S.faults source.new) }
    ensures failed_part { result.status ≡ 4 → TakesSome (S.left source.old) (S.left source.new) 4194305 }
    ensures failed_unwritten { result.status ≡ 4 → sink.new ≡ sink.old }
    ensures cut_off { result.status ≡ 5 → Rose (K.faults sink.old) (K.faults sink.new) }
    ensures in_part { result.status ≡ 5 → WritesTextInPart (OfScriptRead Reports (S.left source.old) (S.left source.new)) (K.taken sink.old) (K.taken sink.new) result.front }
    ensures wanting { result.status ≡ 6 → sink.new ≡ sink.old }
    ensures wanting_part { result.status ≡ 6 → TakesSome (S.left source.old) (S.left source.new) 4194305 }
    ensures source_counted { S.faults source.old ≤ S.faults source.new }
    ensures sink_counted { K.faults sink.old ≤ K.faults sink.new }
{
    let script = match take_script(alloc, source, sink) {
        Ok(script) => script,
        Err(ended) => return ended,
    };
    match replay_account(alloc, &script) {
        Ok(account) => write_play(account, sink),
        Err(_) => Ended::unplayed(6),
    }
}

/// Plays the storm and writes its summary.
pub(crate) fn sum_up<K: Sink>(
    alloc: Global,
    seed: u64,
    clients: u32,
    calls: u32,
    sink: &mut K,
) -> Ended
    requires clients_least { 1 ≤ clients }
    requires clients_most { clients ≤ 16 }
    requires calls_least { 1 ≤ calls }
    requires calls_most { calls ≤ 1024 }
    ensures statuses { (result.status ≡ 0) ⊎ (result.status ≡ 5) ⊎ (result.status ≡ 6) }
    ensures front { TellsPlay result.status result.front }
    ensures played { result.status ≡ 0 → WritesText (Sums seed clients calls) (K.taken sink.old) (K.taken sink.new) result.front }
    ensures cut_off { result.status ≡ 5 → Rose (K.faults sink.old) (K.faults sink.new) }
    ensures in_part { result.status ≡ 5 → WritesTextInPart (Sums seed clients calls) (K.taken sink.old) (K.taken sink.new) result.front }
    ensures wanting { result.status ≡ 6 → sink.new ≡ sink.old }
    ensures counted { K.faults sink.old ≤ K.faults sink.new }
{
    let Ok(account) = storm_account(alloc, seed, clients, calls) else {
        return Ended::unplayed(6);
    };
    write_play(account, sink)
}

// Writes the image of the words that a play leaves, or why there is none.
fn picture<K: Sink>(alloc: Global, logged: Logged, sink: &mut K) -> Ended
    requires geometry { logged.log.geometry ≡ logged.geometry }
    requires legal { IsLegal (setting_of logged.geometry logged.listed) logged.log.entries }
    ensures statuses { (result.status ≡ 0) ⊎ (result.status ≡ 5) ⊎ (result.status ≡ 6) ⊎ (result.status ≡ 7) }
    ensures front { MatchOption result.front (result.status ≡ 6) (λ front. (front.geometry ≡ logged.log.geometry) × (front.entries ≡ logged.log.entries) × (front.ran ≡ None) × (result.status ≢ 6)) }
    ensures whole { result.status ≡ 0 → WritesImage (setting_of logged.geometry logged.listed) logged.log.entries (K.taken sink.old) (K.taken sink.new) }
    ensures part { result.status ≡ 5 → WritesImageInPart (setting_of logged.geometry logged.listed) logged.log.entries (K.taken sink.old) (K.taken sink.new) }
    ensures rose { result.status ≡ 5 → Rose (K.faults sink.old) (K.faults sink.new) }
    ensures none { result.status ≡ 7 → TellsNoImage (setting_of logged.geometry logged.listed) logged.log.entries (K.taken sink.old) (K.taken sink.new) (K.faults sink.old) (K.faults sink.new) }
    ensures wanting { result.status ≡ 6 → sink.new ≡ sink.old }
    ensures counted { K.faults sink.old ≤ K.faults sink.new }
{
    let status = write_image(alloc, &logged.log, &logged.geometry, &logged.listed, sink);
    if status == 6 {
        return Ended::unplayed(status);
    }
    Ended::played(status, Front::of_log(logged.log))
}

/// Reads the source to its end, plays the script and writes the image of the words that it leaves.
pub(crate) fn image_source<S: Source, K: Sink>(alloc: Global, source: &mut S, sink: &mut K) -> Ended
    ensures statuses { IsImageStatus result.status }
    ensures front { TellsPlay result.status result.front }
    ensures played { result.status ≡ 0 → WritesPicture (S.left source.old) (S.left source.new) (K.taken sink.old) (K.taken sink.new) result.front }
    ensures refused { result.status ≡ 3 → RefusesScript (S.left source.old) (S.left source.new) (K.taken sink.old) (K.taken sink.new) (K.faults sink.old) (K.faults sink.new) }
    ensures failed { result.status ≡ 4 → Rose (S.faults source.old) (S.faults source.new) }
    ensures failed_part { result.status ≡ 4 → TakesSome (S.left source.old) (S.left source.new) 4194305 }
    ensures failed_unwritten { result.status ≡ 4 → sink.new ≡ sink.old }
    ensures cut_off { result.status ≡ 5 → Rose (K.faults sink.old) (K.faults sink.new) }
    ensures in_part { result.status ≡ 5 → WritesPictureInPart (S.left source.old) (S.left source.new) (K.taken sink.old) (K.taken sink.new) result.front }
    ensures none { result.status ≡ 7 → TellsNoPicture (S.left source.old) (S.left source.new) (K.taken sink.old) (K.taken sink.new) (K.faults sink.old) (K.faults sink.new) result.front }
    ensures wanting { result.status ≡ 6 → sink.new ≡ sink.old }
    ensures wanting_part { result.status ≡ 6 → TakesSome (S.left source.old) (S.left source.new) 4194305 }
    ensures source_counted { S.faults source.old ≤ S.faults source.new }
    ensures sink_counted { K.faults sink.old ≤ K.faults sink.new }
{
    let script = match take_script(alloc, source, sink) {
        Ok(script) => script,
        Err(ended) => return ended,
    };
    match replay_log(alloc, &script) {
        Ok(logged) => picture(alloc, logged, sink),
        Err(_) => Ended::unplayed(6),
    }
}
