//! The law of workers.
ghost use Rattle.running_play.specs.GivenBack.{WorkersHaveRun};

/// A worker that began at a new seat is a client of the run of the closed memory, told by its answered calls: so the laws of runs
/// speak of it.
pub fn law_workers_have_run()
    ensures { WorkersHaveRun }
{}
