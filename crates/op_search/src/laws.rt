//! What is proved of a search.
ghost use Rattle.op_search.specs.Law.{SearchIsSafe};

/// A search of any client, for a key of bytes, on each legal log on which its look may begin: whatever others add between
/// its verbs, it makes no entry, each block whose word it reads is published then, and in the end the key's holder was read
/// with its value, or the key was looked for in vain.
pub fn law_search_safe()
    ensures { SearchIsSafe }
{}
