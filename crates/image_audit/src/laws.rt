//! What audits say of the words of logs.
ghost use Rattle.image_audit.specs.Law.{AuditOfLog};

/// An audit of the words after a legal log, where they are quiet, says Sound, with the map of all changes of the log: over every checked
/// geometry and hashes that never change.
pub fn law_audit_of_log()
    ensures { AuditOfLog }
{}
