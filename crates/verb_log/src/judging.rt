//! The kind of an entry of a log, without an index.
ghost use Rattle.std.specs.Prelude.{◌≡◌, ◌<◌, ◌≤◌, length, reverse, take, IfSome};
ghost use Rattle.verb_log.specs.Replay.{kind_at};
ghost use Rattle.verb_log.specs.Standings.{standing_of};

use crate::kind::Kind;
use crate::log::Log;
use crate::reach::may_reach;
use crate::role::first_table_of;
use crate::standing::Standing;

impl Log {
    /// The kind of the entry of this number, below `len`, by the role of its word in the log before it and by its old and
    /// new word: the first row of the table of kinds that fits; None exactly where no row fits. It takes no memory, and goes
    /// over the entries before it; for each that may link, take or publish the word it goes over those before that one. Who
    /// wants many kinds makes the index once, by `indexed`.
    pub fn kind_of(&self, n: u64) -> Option<Kind>
        requires { n < length self.now.entries }
        ensures { result ≡ kind_at self.now.geometry self.now.entries n }
    {
        let entry = self.entry(n);
        self.standing(n, entry.at).kind_of(self.geometry(), &entry)
    }

    /// What the log of the first `n` entries says of an address.
    fn standing(&self, n: u64, at: u64) -> Standing
        requires position { n ≤ length self.now.entries }
        requires at { at < self.now.geometry.words }
        ensures standing { result ≡ standing_of self.now.geometry (reverse (take n self.now.entries)) at }
        ensures below { IfSome result.table (λ table. table ≤ at) }
    {
        let geometry = self.geometry();
        let mut standing = Standing {
            table: first_table_of(geometry, at),
            taken: false,
            published: false,
        };
        for k in 0..n {
            let entry = self.entry(k);
            if may_reach(geometry, &entry, at) {
                let there = self.standing(k, entry.at);
                standing = standing.after(geometry, &entry, &there, at);
            }
        }
        standing
    }
}
