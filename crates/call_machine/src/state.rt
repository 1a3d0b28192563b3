//! What a client keeps from call to call.
ghost use Rattle.std.specs.Prelude.{◌≡◌, ℕ, ◌≤◌, None, IfOk};
ghost use Rattle.dir_cache.specs.Cached.{entry_of};
ghost use Rattle.call_machine.specs.Fresh.{fresh_state};

use block_taking::Area;
use dir_cache::DirCache;
use node_words::Geometry;
use split_text::Ticket;
use std::alloc::{AllocError, Global};
use std::marker::Model;

/// What a client keeps from call to call: the sizes of the memory, its number, how many swaps a call may lose, 1 to 64, the
/// cached directory, the ticket of its open split, and its area. A clause sees them as a `State` of `call_texts`.
#[derive(Debug, Drop)]
pub struct ClientState {
    pub(crate) geometry: Geometry,
    pub(crate) client: u32,
    pub(crate) tries: u32,
    pub(crate) cache: DirCache,
    pub(crate) ticket: Option<Ticket>,
    pub(crate) area: Area,
}

impl Model for ClientState {
    ghost use Rattle.std.specs.Prelude.{◌≡◌, ◌≤◌};
    ghost use Rattle.call_texts.specs.State.{State};

    ghost Value = { State };

    ghost view = { λ s. record { geometry = s.geometry; client = s.client; tries = s.tries; cache = s.cache; ticket = s.ticket; area = s.area } };

    ghost invariant = { λ s. (1 ≤ s.tries) × (s.tries ≤ 64) × (s.cache.depth ≡ s.geometry.max_depth) };
}

impl ClientState {
    /// The state of a client with this number that has made no call: no entry of the cache is known, there is no ticket, and
    /// the area has no word. A call may lose `tries` swaps, 1 to 64. It takes memory for the cache, and for nothing else
    /// afterwards.
    pub fn make(
        alloc: Global,
        geometry: &Geometry,
        client: u32,
        tries: u32,
    ) -> Result<ClientState, AllocError>
        requires some { 1 ≤ tries }
        requires few { tries ≤ 64 }
        ensures state { IfOk result (λ s. s ≡ fresh_state geometry.now client tries) }
        ensures unknown { IfOk result (λ s. (h : ℕ) → entry_of s.cache h ≡ None) }
    {
        let cache = DirCache::make(alloc, geometry)?;
        Ok(ClientState {
            geometry: *geometry,
            client,
            tries,
            cache,
            ticket: None,
            area: Area { at: 0, left: 0 },
        })
    }

    /// The cached directory.
    pub fn cache(&self) -> &DirCache
        ensures { result.now ≡ self.now.cache }
    {
        &self.cache
    }

    /// Hands out what always holds of a state.
    pub fn keep(&self)
        ensures some { 1 ≤ self.now.tries }
        ensures few { self.now.tries ≤ 64 }
        ensures depth { self.now.cache.depth ≡ self.now.geometry.max_depth }
    {
        let _ = &self.cache;
    }
}
