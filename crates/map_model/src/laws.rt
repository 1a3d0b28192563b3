//! The laws of histories: functions that do nothing, whose contracts are the laws.
ghost use Rattle.map_model.specs.Laws.{EachKeyIsCell, SeenStandsBefore, FoundedIsLegal, NoneIsFounded, QuietKeepsFounded, ChangeKeepsFounded, AnyOrderIsFounded, PointsStay};

/// In a legal history each key by itself behaves as a cell of one thread that is empty at first: each call of the key
/// gets the reply that the cell's value gives, and leaves the cell to the next.
pub fn law_each_key()
    ensures { EachKeyIsCell }
{}

/// In a legal history a call stands before another where all that its client had seen after it had been seen by the
/// other's client before it, and one of the two changed the map. It is said where a changing call had seen its own
/// change after it.
pub fn law_order()
    ensures { SeenStandsBefore }
{}

/// A history is legal where each record alone and each change alone is right: the reply at the record's point, within
/// its bounds, the one record of each change, and the order of each client's records.
pub fn law_founded()
    ensures { FoundedIsLegal }
{}

/// Those facts hold of no record and no change, and one record more keeps them, with its change where it made one.
pub fn law_one_more()
    ensures none { NoneIsFounded }
    ensures quiet { QuietKeepsFounded }
    ensures change { ChangeKeepsFounded }
{}

/// Those facts hold of records in any order of their clients, where each record is right, each changing record's
/// change is its own, no two have one point, and each change has a record.
pub fn law_any_order()
    ensures { AnyOrderIsFounded }
{}

/// More changes do not move a point that is among those that there were.
pub fn law_points_stay()
    ensures { PointsStay }
{}
