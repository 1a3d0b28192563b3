//! What a command tells of the play of a script.
ghost use Rattle.std.specs.Prelude.{◌≤◌, IfOk};
ghost use Rattle.race_play.specs.Texts.{LogsPlay, Reports, Sums};

use crate::played::{play_log, play_replay};
use key_hash::Listed;
use node_words::Geometry;
use script_commands::Account;
use std::alloc::{AllocError, Global};
use storm_script::{storm_script, summary_text};
use trace_script::{Mode, Script, report_text};
use verb_log::Log;

/// The log of the play of a script, with the script's sizes and listed hashes.
#[derive(Drop)]
pub(crate) struct Logged {
    pub(crate) log: Log,
    pub(crate) geometry: Geometry,
    pub(crate) listed: Listed,
}

/// The report of the play of a script by its schedule.
pub(crate) fn replay_account(alloc: Global, script: &Script) -> Result<Account, AllocError>
    ensures { IfOk result (λ account. Reports script.now account.text.items account.front) }
{
    let played = play_replay(alloc, script)?;
    let text = report_text(
        alloc,
        Mode::Replay,
        script,
        &played.lines,
        &played.map,
        played.next,
    )?;
    Ok(Account {
        text,
        front: played.front,
    })
}

/// The log of the play of a script by its schedule.
pub(crate) fn replay_log(alloc: Global, script: &Script) -> Result<Logged, AllocError>
    ensures { IfOk result (λ logged. LogsPlay script.now logged.log logged.geometry logged.listed) }
{
    let log = play_log(alloc, script)?;
    let listed = script.placer(alloc)?;
    Ok(Logged {
        log,
        geometry: script.geometry(),
        listed,
    })
}

/// The summary of the play of a storm.
pub(crate) fn storm_account(
    alloc: Global,
    seed: u64,
    clients: u32,
    calls: u32,
) -> Result<Account, AllocError>
    requires clients_least { 1 ≤ clients }
    requires clients_most { clients ≤ 16 }
    requires calls_least { 1 ≤ calls }
    requires calls_most { calls ≤ 1024 }
    ensures { IfOk result (λ account. Sums seed clients calls account.text.items account.front) }
{
    let script = storm_script(alloc, seed, clients, calls)?;
    let played = play_replay(alloc, &script)?;
    let text = summary_text(
        alloc,
        seed,
        clients,
        calls,
        &played.lines,
        &played.map,
        played.next,
    )?;
    Ok(Account {
        text,
        front: played.front,
    })
}
