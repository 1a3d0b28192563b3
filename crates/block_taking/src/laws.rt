//! What is proved of a taking.
ghost use Rattle.block_taking.specs.Law.{TakingIsSafe};

/// A taking of any client, of a block of 2 to 137 words, from an area that is the client's: on each legal log, whatever others
/// add between its verbs, each Take that it wins and each word that it writes is a legal entry and changes nothing in the map.
/// In the end the block's words are the client's, written and not published, and the area is the client's and apart from them;
/// or each node's next word was read so that the block goes past its end; or as many Takes were lost as swaps might be.
pub fn law_taking_safe()
    ensures { TakingIsSafe }
{}
