//! The laws of records that lines determine.
ghost use Rattle.run_records.specs.Lines.{RecordsStand, RecordsExist, RecordsOne};

/// The records of the lines of all clients, one client after another, stand in a legal history over the changes of the log.
pub fn law_records_stand()
    ensures { RecordsStand }
{}

/// There are such records, whatever the replies.
pub fn law_records_exist()
    ensures { RecordsExist }
{}

/// And no others.
pub fn law_records_one()
    ensures { RecordsOne }
{}
