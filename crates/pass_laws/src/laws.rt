//! What is proved of the pass.
ghost use Rattle.pass_laws.specs.Law.{PassIsSafe};

/// A pass of any client for any key, in each of its modes, from a table where it may start or through the directory: on
/// each legal log, whatever others add between its verbs, each drop that it wins is a legal entry and changes nothing in
/// the map, each block that it reads is published, and what it tells in the end was so at positions of the pass.
pub fn law_pass_safe()
    ensures { PassIsSafe }
{}
