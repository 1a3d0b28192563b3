//! What is proved of a split.
ghost use Rattle.split_laws.specs.Law.{SplitIsSafe, ResumeIsSafe, TicketStands};

/// A split of any table whose suffix is the lowest bits of a hash, by any client: on each legal log, whatever others add between its
/// verbs, each entry is legal and changes nothing in the map, no swap that is said never to be lost is lost, and the words that the
/// client had taken and not published stay as they are. In the end the last entry is the client's Unlock of a child that the split made
/// and that the directory names; or the cause stands why the split did not begin; or the client keeps a ticket that fits.
pub fn law_split_safe()
    ensures { SplitIsSafe }
{}

/// Going on with a ticket that fits is safe in the same way, and ends with the table split or with another ticket of it that fits.
pub fn law_resume_safe()
    ensures { ResumeIsSafe }
{}

/// A ticket fits on as long as no entry uses a lock of its client: through each entry of others, and through each entry of the client's
/// own searches, inserts, updates and deletes.
pub fn law_ticket_stands()
    ensures { TicketStands }
{}
