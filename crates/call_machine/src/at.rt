//! Where a call stands.

use op_delete::At as Deleting;
use op_insert::At as Inserting;
use op_update::At as Updating;

/// The operation that is under way, and where it stands, or that has ended with the answer of the call. What goes with it stands in the
/// machines; another one comes only with another part of the call.
#[derive(Clone, Copy, Debug)]
pub enum At {
    /// The search, the delete, the update.
    Search,
    Delete(Deleting),
    Update(Updating),
    /// The insert.
    Insert(Inserting),
    /// The split that an insert needs room by, or the one that its client's ticket is of.
    Room,
    /// The walk of a resize.
    Walk,
    /// The split of the table where the walk has ended.
    Split,
    /// The split of a resize that its client's ticket is of.
    Resume,
    /// The table is as deep as may be: the call has answered.
    Full,
}
