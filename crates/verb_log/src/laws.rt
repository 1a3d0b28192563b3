//! The laws of kinds and roles. Each function has an empty body, and its contract is the law.
ghost use Rattle.verb_log.specs.Laws.{RowsAreKinds, NoRowNoKind, OneRow, RolesStay};

/// The kind of an entry is the one whose row of the table of kinds fits it.
pub fn law_rows_are_kinds()
    ensures { RowsAreKinds }
{}

/// An entry has no kind exactly where no row of the table of kinds fits it.
pub fn law_no_row_no_kind()
    ensures { NoRowNoKind }
{}

/// Two rows of the table of kinds never fit one entry.
pub fn law_one_row()
    ensures { OneRow }
{}

/// A role inside a table never changes as the log grows.
pub fn law_roles_stay()
    ensures { RolesStay }
{}
