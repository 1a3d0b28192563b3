//! What a call comes to.
ghost use Rattle.std.specs.Prelude.{◌≡◌, [], None};

use crate::forgotten::Forgotten;
use block_taking::Area;
use map_model::Reply;
use split_text::Ticket;

/// What a call comes to, as a `CallEnd` of `call_texts`.
#[derive(Clone, Copy, Debug)]
pub struct End {
    pub reply: Reply,
    pub source: u64,
    pub target: u64,
    pub table: Option<u64>,
    pub forgotten: Forgotten,
    pub split: Option<u64>,
    pub area: Area,
    pub ticket: Option<Ticket>,
}

impl End {
    /// An end with this reply, which is of no block, at this table.
    pub fn at(reply: Reply, table: Option<u64>, area: Area, ticket: Option<Ticket>) -> End
        ensures { result ≡ record { reply = reply; source = 0; target = 0; table = table; forgotten = []; split = None; area = area; ticket = ticket } }
    {
        End {
            reply,
            source: 0,
            target: 0,
            table,
            forgotten: Forgotten::new(),
            split: None,
            area,
            ticket,
        }
    }

    /// .. which is of these blocks.
    pub fn of_blocks(self, source: u64, target: u64) -> End
        ensures { result ≡ record self { source = source; target = target } }
    {
        let mut end = self;
        end.source = source;
        end.target = target;
        end
    }

    /// .. after splits that had forgotten these tables.
    pub fn after(self, forgotten: Forgotten) -> End
        ensures { result ≡ record self { forgotten = forgotten } }
    {
        let mut end = self;
        end.forgotten = forgotten;
        end
    }
}
