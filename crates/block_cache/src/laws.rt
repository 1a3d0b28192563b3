//! The laws of what a cache saves over the block readings of a client. Their premise is that each block has the same words at
//! each reading, as a published block has.
ghost use Rattle.block_cache.specs.Saved.{CountsSaved, KeepsMet, DoesLeft};

/// Over acts whose reads of blocks are readings one after another, of which the last may be cut short, the number of served
/// words rises by that of the definition, up to the greatest number of 64 bits. The blocks kept after whole readings are those
/// of the definition's list, in its order.
pub fn law_saved()
    ensures saved { CountsSaved }
    ensures kept { KeepsMet }
{}

/// Of such readings the reads that are done as verbs are exactly those that the definition does not serve.
pub fn law_reads_done()
    ensures { DoesLeft }
{}
