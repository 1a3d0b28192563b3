//! The laws of runs.
ghost use Rattle.run_laws.specs.Whole.{RightOverAll, MetAll, LastLooks};
ghost use Rattle.run_laws.specs.Headline.{HeadlineForRun, HeadlineBeside, ChangesAreAsked};

/// A reply that is right between two fronts is right over the changes of the whole log.
pub fn law_right_over_all()
    ensures { RightOverAll }
{}

/// A front that has met all seats is the whole log.
pub fn law_met_all()
    ensures { MetAll }
{}

/// What a last client, which has met all others and then only looks, learns by its calls is the map after all changes.
pub fn law_last_looks()
    ensures { LastLooks }
{}

/// The records of what the clients of a closed memory were told stand in a legal history over the changes of its log.
pub fn law_headline_for_run()
    ensures { HeadlineForRun }
{}

/// So do those of the clients of a closed memory that had one seat more, whose client made no change: it is left out of the records.
pub fn law_headline_beside()
    ensures { HeadlineBeside }
{}

/// Each change of the log of such a memory is that of a call of these clients.
pub fn law_changes_are_asked()
    ensures { ChangesAreAsked }
{}
