//! A client on running words.
ghost use Rattle.std.specs.Prelude.{◌≡◌, ◌≤◌, Some, None, IfOk, IfErr};
ghost use Rattle.verbs.specs.Logs.{Lengthened, Begins};
ghost use Rattle.race_laws.specs.Legal.{MayFollow};
ghost use Rattle.call_machine.specs.Fresh.{fresh_state};
ghost use Rattle.log_facts.specs.Among.{among};
ghost use Rattle.running_client.specs.Called.{Called};
ghost use Rattle.running_client.specs.Cached.{AllKept, saved_by};
ghost use Rattle.running_client.specs.Saving.{empty_cache};
ghost use Rattle.running_client.specs.Through.{CalledThrough};

use crate::call::do_call;
use block_cache::BlockCache;
use call_machine::{Answer, ClientState};
use client_seat::{Memory, Note, Seat, TableNode};
use key_hash::Placer;
use kv_block::{Key, Value};
use map_model::Call;
use std::alloc::{AllocError, Global};
use std::marker::Model;
use whole_calls::law_states_fit;
use world_texts::law_calls_in_worlds;

/// One client on a running memory. A clause sees its seat, what it keeps from call to call, and its cache of blocks, where it has
/// one.
#[derive(Drop)]
pub struct Client<'a, P: Placer> {
    memory: &'a Memory<P>,
    node: TableNode<'a, P>,
    state: ClientState,
    cache: Option<BlockCache>,
}

impl<'a, P: Placer> Model for Client<'a, P> {
    ghost use Rattle.running_client.specs.Served.{Serving, IsServing};

    ghost Value = { Serving };

    ghost view = { λ c. record { seat = c.node; state = c.state; cache = c.cache } };

    ghost invariant = { λ c. IsServing c.memory.now c.node c.state c.cache };
}

impl<'a, P: Placer> Client<'a, P> {
    /// A client at a seat of this memory, whose calls may lose `tries` swaps each, 1 to 64. It knows no entry of the directory, has
    /// no ticket, no word in its area, and no cache of blocks. A refusal hands the seat back.
    pub fn new(
        alloc: Global,
        memory: &'a Memory<P>,
        seat: Seat,
        tries: u32,
    ) -> Result<Client<'a, P>, (AllocError, Seat)>
        requires home { seat.home ≡ memory.now }
        requires some { 1 ≤ tries }
        requires few { tries ≤ 64 }
        ensures made { IfOk result (λ client. client ≡ record { seat = seat; state = fresh_state seat.home.setting.geometry seat.client tries; cache = None }) }
        ensures refused { IfErr result (λ refusal. refusal.1 ≡ seat) }
    {
        Client::seated(alloc, memory, seat, tries, None)
    }

    /// A client as `new` makes it, with a cache of so many blocks, 1 to 1,024, that keeps none. A refusal hands the seat back.
    pub fn with_cache(
        alloc: Global,
        memory: &'a Memory<P>,
        seat: Seat,
        tries: u32,
        blocks: u32,
    ) -> Result<Client<'a, P>, (AllocError, Seat)>
        requires home { seat.home ≡ memory.now }
        requires some { 1 ≤ tries }
        requires few { tries ≤ 64 }
        requires some_blocks { 1 ≤ blocks }
        requires few_blocks { blocks ≤ 1024 }
        ensures made { IfOk result (λ client. client ≡ record { seat = seat; state = fresh_state seat.home.setting.geometry seat.client tries; cache = Some (empty_cache blocks) }) }
        ensures refused { IfErr result (λ refusal. refusal.1 ≡ seat) }
    {
        let cache = match BlockCache::make(alloc, blocks) {
            Ok(cache) => cache,
            Err(refusal) => return Err((refusal, seat)),
        };
        Client::seated(alloc, memory, seat, tries, Some(cache))
    }

    // A client at a seat of this memory, with this cache.
    fn seated(
        alloc: Global,
        memory: &'a Memory<P>,
        seat: Seat,
        tries: u32,
        cache: Option<BlockCache>,
    ) -> Result<Client<'a, P>, (AllocError, Seat)>
        requires home { seat.home ≡ memory.now }
        requires some { 1 ≤ tries }
        requires few { tries ≤ 64 }
        requires keeps { AllKept (among seat.home.setting seat.client) seat.front cache }
        ensures made { IfOk result (λ client. client ≡ record { seat = seat; state = fresh_state seat.home.setting.geometry seat.client tries; cache = cache }) }
        ensures refused { IfErr result (λ refusal. refusal.1 ≡ seat) }
    {
        law_states_fit();
        let geometry = memory.geometry();
        let state = match ClientState::make(alloc, &geometry, seat.number(), tries) {
            Ok(state) => state,
            Err(refusal) => return Err((refusal, seat)),
        };
        let node = TableNode::of(memory, seat);
        node.keep();
        Ok(Client {
            memory,
            node,
            state,
            cache,
        })
    }

    /// How many reads the cache has served, and at most the greatest number of 64 bits; 0 without a cache.
    pub fn saved(&self) -> u64
        ensures { result ≡ saved_by self.now.cache }
    {
        match &self.cache {
            Some(cache) => cache.saved(),
            None => 0,
        }
    }

    // Does a call, whatever others do meanwhile.
    fn call(&mut self, call: &Call) -> Answer
        ensures called { self.old.cache ≡ None → Called self.old.seat self.old.state call.now self.new.seat self.new.state result }
        ensures none { self.old.cache ≡ None → self.new.cache ≡ None }
        ensures through { CalledThrough self.old.seat self.old.cache self.old.state call.now self.new.seat self.new.cache self.new.state result }
    {
        do_call(
            self.memory,
            &mut self.node,
            &mut self.cache,
            &mut self.state,
            call,
        )
    }

    /// Searches a key. Found, with the block that was read, or Missing.
    pub fn search(&mut self, key: &Key) -> Answer
        ensures called { self.old.cache ≡ None → Called self.old.seat self.old.state (Call.Search key.now) self.new.seat self.new.state result }
        ensures none { self.old.cache ≡ None → self.new.cache ≡ None }
        ensures through { CalledThrough self.old.seat self.old.cache self.old.state (Call.Search key.now) self.new.seat self.new.cache self.new.state result }
    {
        self.call(&Call::Search { key: *key })
    }

    /// Adds a pair. Inserted, with its block; Exists, with the block that was read, where the key is there; Again, where `tries`
    /// swaps were lost; FullDepth or FullWords, where no candidate is free and no split has room; NoBlock, where there is no room for
    /// the block.
    pub fn insert(&mut self, key: &Key, value: &Value) -> Answer
        ensures called { self.old.cache ≡ None → Called self.old.seat self.old.state (Call.Insert key.now value.now) self.new.seat self.new.state result }
        ensures none { self.old.cache ≡ None → self.new.cache ≡ None }
        ensures through { CalledThrough self.old.seat self.old.cache self.old.state (Call.Insert key.now value.now) self.new.seat self.new.cache self.new.state result }
    {
        self.call(&Call::Insert {
            key: *key,
            value: *value,
        })
    }

    /// Replaces the value of a key. Updated, with the blocks before and after; Missing; Again, where `tries` swaps were lost;
    /// NoBlock, where there is no room for the block.
    pub fn update(&mut self, key: &Key, value: &Value) -> Answer
        ensures called { self.old.cache ≡ None → Called self.old.seat self.old.state (Call.Update key.now value.now) self.new.seat self.new.state result }
        ensures none { self.old.cache ≡ None → self.new.cache ≡ None }
        ensures through { CalledThrough self.old.seat self.old.cache self.old.state (Call.Update key.now value.now) self.new.seat self.new.cache self.new.state result }
    {
        self.call(&Call::Update {
            key: *key,
            value: *value,
        })
    }

    /// Removes a key. Deleted, with the block before; Missing; Again, where `tries` swaps were lost.
    pub fn delete(&mut self, key: &Key) -> Answer
        ensures called { self.old.cache ≡ None → Called self.old.seat self.old.state (Call.Delete key.now) self.new.seat self.new.state result }
        ensures none { self.old.cache ≡ None → self.new.cache ≡ None }
        ensures through { CalledThrough self.old.seat self.old.cache self.old.state (Call.Delete key.now) self.new.seat self.new.cache self.new.state result }
    {
        self.call(&Call::Delete { key: *key })
    }

    /// Splits the table where the key's chain ends; with a ticket, goes on with that split, whatever the key. Split, with the table
    /// split and its new depth; Again, where `tries` swaps were lost; FullDepth, where that table is as deep as may be; FullWords,
    /// where there is no room for a table.
    pub fn resize(&mut self, key: &Key) -> Answer
        ensures called { self.old.cache ≡ None → Called self.old.seat self.old.state (Call.Resize key.now) self.new.seat self.new.state result }
        ensures none { self.old.cache ≡ None → self.new.cache ≡ None }
        ensures through { CalledThrough self.old.seat self.old.cache self.old.state (Call.Resize key.now) self.new.seat self.new.cache self.new.state result }
    {
        self.call(&Call::Resize { key: *key })
    }

    /// A copy of what the client has seen.
    pub fn note(&mut self) -> Note
        ensures home { result.home ≡ self.old.seat.home }
        ensures front { result.front ≡ self.old.seat.front }
        ensures same { self.new ≡ self.old }
    {
        self.node.note()
    }

    /// Gives what a note of this memory has seen to the client: the note's front and the client's old front begin its front from then
    /// on, and its front is lengthened by entries of others alone. What it keeps stays.
    pub fn meet(&mut self, note: Note)
        requires { note.home ≡ self.old.seat.home }
        ensures met { Begins note.front self.new.seat.front }
        ensures begins { Begins self.old.seat.front self.new.seat.front }
        ensures longer { Lengthened (MayFollow self.old.seat.home.setting) self.old.seat.client self.old.seat.front self.new.seat.front }
        ensures trace { self.new.seat.trace ≡ self.old.seat.trace }
        ensures client { self.new.seat.client ≡ self.old.seat.client }
        ensures home { self.new.seat.home ≡ self.old.seat.home }
        ensures state { self.new.state ≡ self.old.state }
        ensures cache { self.new.cache ≡ self.old.cache }
    {
        law_calls_in_worlds();
        self.node.meet(note);
    }

    /// Hands the seat back. A client that leaves with a ticket leaves its split open for ever.
    pub fn leave(self) -> Seat
        ensures { result ≡ self.entry.seat }
    {
        let Client {
            memory: _,
            node,
            state: _,
            cache: _,
        } = self;
        node.leave()
    }
}
