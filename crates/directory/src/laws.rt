//! What is proved of a naming.
ghost use Rattle.directory.specs.Law.{NamingIsSafe};

/// A naming of any client, of a table whose parent is at least as deep as it was born: on each legal log, whatever others
/// add between its verbs, each Name and Deepen that it wins is a legal entry and changes nothing in the map, and in the end
/// each directory word with the child's suffix has named the child or a table below it.
pub fn law_naming_safe()
    ensures { NamingIsSafe }
{}
