//! Worlds of any calls: clients with their plans on one node, one verb after another, of each client an outstanding one.
ghost use Rattle.std.specs.Prelude.{◌≡◌, ℕ, ◌+◌, ◌<◌, ◌≤◌, ◌^◌, true, false, List, [], ◌∷◌, ◌++◌, length, Some, None, IsSome, IsTrue, Ok, MatchResult, IfOk, All, OnOk, OnErr, slice_get, if◌then◌else◌};
ghost use Rattle.std.specs.Option.{option_to_list};
ghost use Rattle.key_hash.specs.Placing.{placed};
ghost use Rattle.std.specs.FinMap as fin;
ghost use Rattle.log_facts.specs.Among.{changes_of};
ghost use Rattle.map_model.specs.Machine.{is_change, is_quiet, change_of, map_after, map_at};
ghost use Rattle.map_model.specs.Moments.{IsFirst};
ghost use Rattle.verb_core.specs.Play.{Play, Event, Turn, is_idle, IsLegalPlay, unfinished_of, outstanding_of, AreFresh};
ghost use Rattle.verb_core.specs.Drawn.{Drawn};
ghost use Rattle.verb_core.specs.Concluded.{Concluded};
ghost use Rattle.verb_core.specs.declared.player.Open.{Open};
ghost use Rattle.call_texts.specs.State.{CallEnd};
ghost use Rattle.verb_core.specs.declared.player.Player.{Player};
ghost use Rattle.map_model.specs.declared.plans.Plan.{Plan};
ghost use Rattle.verb_core.specs.Traces.{Turns};
ghost use Rattle.verb_core.specs.Schedules.{IsIdle, Does, Goes, Finishes, DoesItem, DoesItems, Calls, Tail, Plays, left_in, calls_in, IsFor};

use crate::chooser::Chooser;
use crate::playable::Playable;
use crate::player::{Player, Told};
use call_machine::ClientState;
use key_hash::Placer;
use kv_block::Change;
use map_model::{Call, Calls, Item, Items, MapMachine, Plans, Record, Records, Timeline, map_at};
use node_words::Geometry;
use std::alloc::{AllocError, Global};
use std::marker::Model;
use verb_log::Log;
use verbs::PlainNode;

/// What a step did.
#[derive(Clone, Copy, Debug, PartialEq, Eq)]
pub enum Stepped {
    /// Nothing: the client has stopped or has no call left.
    Idle,
    /// A verb, and its call has not answered.
    Went,
    /// A verb, with which its call answered.
    Answered,
}

/// Clients with their plans on one node, with the records of their answered calls.
#[derive(Drop)]
pub struct AnyWorld<P: Placer, M: Playable> {
    alloc: Global,
    placer: P,
    plans: Plans,
    node: PlainNode,
    /// The changes of the log, but for the pending one.
    timeline: Timeline,
    /// The change of the last verb, where it made one.
    pending: Option<Change>,
    players: Vec<Player<M>>,
    records: Records,
}

impl<P: Placer, M: Playable> Model for AnyWorld<P, M> {
    ghost use Rattle.verb_core.specs.Play.{Play};
    ghost use Rattle.verb_core.specs.Kept.{IsWorld};

    ghost Value = { Play M };

    ghost view = { λ w. record {
      setting = record { geometry = w.node.log.geometry; listed = P.listed w.placer };
      plans = w.plans.items;
      entries = w.node.log.entries;
      players = w.players.items;
      records = w.records.items;
    } };

    ghost invariant = { λ w. IsWorld M.kind (record { geometry = w.node.log.geometry; listed = P.listed w.placer }) w.plans.items w.node.log.entries w.players.items w.records.items w.timeline w.pending };
}

// Takes the pending change into the timeline. A refusal changes nothing. A change is a kilobyte: it has a function of its own, so
// that verbs that made none do not clear the room for it.
#[inline(never)]
fn take_in(
    alloc: Global,
    timeline: &mut Timeline,
    pending: &mut Option<Change>,
) -> Result<(), AllocError>
    ensures ok { OnOk result ((timeline.new ≡ timeline.old ++ option_to_list pending.old) × (pending.new ≡ None)) }
    ensures err { OnErr result ((timeline.new ≡ timeline.old) × (pending.new ≡ pending.old)) }
{
    if let Some(change) = &*pending {
        timeline.push(alloc, change)?;
        *pending = None;
    }
    Ok(())
}

// Takes the pending change, where there is one, into the timeline.
#[inline(always)]
fn catch_up(
    alloc: Global,
    timeline: &mut Timeline,
    pending: &mut Option<Change>,
) -> Result<(), AllocError>
    ensures ok { OnOk result ((timeline.new ≡ timeline.old ++ option_to_list pending.old) × (pending.new ≡ None)) }
    ensures err { OnErr result ((timeline.new ≡ timeline.old) × (pending.new ≡ pending.old)) }
{
    if pending.is_some() {
        return take_in(alloc, timeline, pending);
    }
    Ok(())
}

// The map after the changes of the timeline and the pending one.
fn map_of(
    alloc: Global,
    timeline: &Timeline,
    pending: &Option<Change>,
) -> Result<MapMachine, AllocError>
    ensures { IfOk result (λ map. map ≡ map_after fin.empty (timeline.now ++ option_to_list pending.now)) }
{
    let changes = timeline.changes();
    let mut map = map_at(alloc, changes, changes.len() as u64)?;
    match pending {
        Some(change) => {
            map.apply(change)?;
            Ok(map)
        }
        None => Ok(map),
    }
}

// Where the map gave the reply, after so many changes.
fn point_of(timeline: &Timeline, call: &Call, told: &Told) -> u64
    requires { told.now.lo ≤ length timeline.now }
    ensures changing { is_change told.now.reply ≡ true → result ≡ length timeline.now }
    ensures quiet { is_change told.now.reply ≡ false → is_quiet told.now.reply ≡ true → IsFirst timeline.now told.now.lo call.now told.now.reply result }
    ensures refused { is_change told.now.reply ≡ false → is_quiet told.now.reply ≡ false → result ≡ told.now.lo }
{
    if told.reply.is_change() {
        timeline.len() as u64
    } else if told.reply.is_quiet() {
        timeline.first(told.lo, call, &told.reply)
    } else {
        told.lo
    }
}

// How many changes there are after the call's last verb.
fn seen_after(timeline: &Timeline, told: &Told) -> u64
    ensures { result ≡ (if is_change told.now.reply then length timeline.now + 1 else length timeline.now) }
{
    let count = timeline.changes().len() as u64;
    if told.reply.is_change() {
        count + 1
    } else {
        count
    }
}

// The change that an answered call made.
fn made_by(call: &Call, told: &Told) -> Option<Change>
    ensures changing { is_change told.now.reply ≡ true → result ≡ change_of call.now }
    ensures staying { is_change told.now.reply ≡ false → result ≡ None }
{
    if told.reply.is_change() {
        call.change()
    } else {
        None
    }
}

// The record of a call that was answered with the last verb, where the timeline has the changes before that verb.
fn tell(timeline: &Timeline, client: u32, number: u32, call: &Call, told: &Told) -> Record
    requires { told.now.lo ≤ length timeline.now }
    ensures asked { (result.client ≡ client) × (result.number ≡ number) × (result.call ≡ call.now) }
    ensures reply { (result.reply ≡ told.now.reply) × (result.lo ≡ told.now.lo) }
    ensures hi { result.hi ≡ (if is_change told.now.reply then length timeline.now + 1 else length timeline.now) }
    ensures changing { is_change told.now.reply ≡ true → result.point ≡ length timeline.now }
    ensures quiet { is_change told.now.reply ≡ false → is_quiet told.now.reply ≡ true → IsFirst timeline.now told.now.lo call.now told.now.reply result.point }
    ensures refused { is_change told.now.reply ≡ false → is_quiet told.now.reply ≡ false → result.point ≡ told.now.lo }
{
    let hi = seen_after(timeline, told);
    let point = point_of(timeline, call, told);
    Record {
        client,
        number,
        call: *call,
        reply: told.reply,
        lo: told.lo,
        hi,
        point,
    }
}

// Takes the call that has answered with the last verb, where the timeline has the changes before that verb: its record goes
// to the others, where there is room for it, and its change is pending. Replies and records are kilobytes: they have a function of
// their own, so that verbs that end no call do not clear the room for them.
#[inline(never)]
fn conclude<M: Playable + Drop>(
    player: &mut Player<M>,
    calls: &Calls,
    client: u32,
    timeline: &Timeline,
    records: &mut Records,
    pending: &mut Option<Change>,
)
    requires ended { (h : List ℕ → ℕ) × (o : Open M) × (player.old.under_way ≡ Some o) × (M.kind.wants o.machine ≡ None) × IsSome (M.kind.sort.answer (M.kind.text h o.machine)) }
    requires few { player.old.answered < 2 ^ 31 }
    requires some { player.old.answered < length calls.now.items }
    requires lo { (o : Open M) → player.old.under_way ≡ Some o → o.lo ≤ length timeline.now }
    requires room { 1 ≤ records.old.room }
    ensures { (h : List ℕ → ℕ) (o : Open M) (e : CallEnd) → player.old.under_way ≡ Some o → M.kind.sort.answer (M.kind.text h o.machine) ≡ Some e
        → Concluded client calls.now.items timeline.now o.lo e player.old player.new records.old.items records.new.items pending.new }
{
    let told = player.close();
    let number = player.answered;
    let call = calls.get(number as usize - 1);
    let answered = tell(timeline, client, number, &call, &told);
    let Ok(()) = records.push(answered) else {
        unreachable!()
    };
    *pending = made_by(&call, &told);
}

// So many clients at the beginning of their plans.
fn fresh_players<M: Drop>(
    alloc: Global,
    geometry: &Geometry,
    tries: u32,
    count: u32,
) -> Result<Vec<Player<M>>, AllocError>
    requires some { 1 ≤ tries }
    requires few { tries ≤ 64 }
    ensures { IfOk result (λ players. AreFresh geometry.now tries count players.items) }
{
    let mut players = Vec::new(alloc);
    for client in 0..count {
        let state = ClientState::make(alloc, geometry, client, tries)?;
        players.push(Player {
            state,
            answered: 0,
            verbs: 0,
            under_way: None,
        })?;
    }
    Ok(players)
}

impl<P: Placer + Drop, M: Playable + Drop> AnyWorld<P, M> {
    /// Clients at the beginning of their plans, on the opening words of a memory.
    pub fn make(
        alloc: Global,
        geometry: Geometry,
        placer: P,
        tries: u32,
        plans: Plans,
    ) -> Result<AnyWorld<P, M>, AllocError>
        requires some { 1 ≤ tries }
        requires tries { tries ≤ 64 }
        requires few { length plans.items ≤ 64 }
        requires short { (c : ℕ) (plan : Plan) → slice_get plans.items c ≡ Some plan → length plan.calls.items ≤ 65536 }
        ensures setting { IfOk result (λ w. w.setting ≡ record { geometry = geometry; listed = P.listed placer }) }
        ensures plans { IfOk result (λ w. w.plans ≡ plans.items) }
        ensures empty { IfOk result (λ w. (w.entries ≡ []) × (w.records ≡ [])) }
        ensures players { IfOk result (λ w. AreFresh geometry tries (length plans.items) w.players) }
    {
        M::law_safe();
        let players = fresh_players(alloc, &geometry, tries, plans.len() as u32)?;
        let node = PlainNode::make(alloc, geometry)?;
        Ok(AnyWorld {
            alloc,
            placer,
            plans,
            node,
            timeline: Timeline::new(alloc),
            pending: None,
            players,
            records: Records::new(alloc),
        })
    }
}

impl<P: Placer, M: Playable + Drop> AnyWorld<P, M> {
    // Does the client's next verb. A refusal changes nothing.
    fn advance<C: Chooser>(&mut self, client: u32, chooser: &mut C) -> Result<Stepped, AllocError>
        requires { client < length self.old.players }
        ensures idle { result ≡ Ok Stepped.Idle → IsIdle self.old client × (self.new ≡ self.old) × Drawn (C.draws chooser.old) [] (C.draws chooser.new) }
        ensures went { result ≡ Ok Stepped.Went → (e : Event) × Turn M.kind self.old client e false self.new × Drawn (C.draws chooser.old) (e ∷ []) (C.draws chooser.new) }
        ensures answered { result ≡ Ok Stepped.Answered → (e : Event) × Turn M.kind self.old client e true self.new × Drawn (C.draws chooser.old) (e ∷ []) (C.draws chooser.new) }
        ensures refused { OnErr result (self.new ≡ self.old) }
        ensures fewer { result ≡ Ok Stepped.Went → left_in self.new client < left_in self.old client }
        ensures many { length self.new.players ≡ length self.old.players }
        ensures plans { self.new.plans ≡ self.old.plans }
    {
        let place = client as usize;
        let plan = self.plans.get(place);
        let player = &self.players[place];
        if player.is_idle(plan) {
            return Ok(Stepped::Idle);
        }
        let alloc = self.alloc;
        catch_up(alloc, &mut self.timeline, &mut self.pending)?;
        self.node.turn(client);
        self.node.reserve()?;
        self.records.reserve()?;
        M::law_safe();
        let lo = self.timeline.len() as u64;
        let player = &mut self.players[place];
        player.begin(&plan.calls, &self.placer, lo);
        let choice = chooser.choose();
        if !player.go(&mut self.node, &self.placer, choice) {
            return Ok(Stepped::Went);
        }
        conclude(
            player,
            &plan.calls,
            client,
            &self.timeline,
            &mut self.records,
            &mut self.pending,
        );
        Ok(Stepped::Answered)
    }

    // Hands out what always holds of a world.
    fn keep(&self)
        ensures { IsLegalPlay self.now }
    {
        let _ = &self.records;
    }

    /// Does the client's next verb, and begins its next call where none is under way. A refusal changes nothing.
    pub fn step<C: Chooser>(&mut self, client: u32, chooser: &mut C) -> Result<Stepped, AllocError>
        requires { client < length self.old.players }
        ensures idle { result ≡ Ok Stepped.Idle → IsIdle self.old client × (self.new ≡ self.old) × Drawn (C.draws chooser.old) [] (C.draws chooser.new) }
        ensures went { result ≡ Ok Stepped.Went → (e : Event) × Turn M.kind self.old client e false self.new × Drawn (C.draws chooser.old) (e ∷ []) (C.draws chooser.new) }
        ensures answered { result ≡ Ok Stepped.Answered → (e : Event) × Turn M.kind self.old client e true self.new × Drawn (C.draws chooser.old) (e ∷ []) (C.draws chooser.new) }
        ensures refused { OnErr result (self.new ≡ self.old) }
        ensures fewer { result ≡ Ok Stepped.Went → left_in self.new client < left_in self.old client }
        ensures many { length self.new.players ≡ length self.old.players }
        ensures plans { self.new.plans ≡ self.old.plans }
        ensures legal { IsLegalPlay self.new }
    {
        let stepped = self.advance(client, chooser);
        self.keep();
        stepped
    }

    /// Does verbs of the client until its call under way, or its next one, has answered. False where the client is idle.
    fn finish<C: Chooser>(&mut self, client: u32, chooser: &mut C) -> Result<bool, AllocError>
        requires { client < length self.old.players }
        ensures done { IfOk result (λ _. (es : List Event) × Finishes M.kind self.old client es self.new × Drawn (C.draws chooser.old) es (C.draws chooser.new)) }
        ensures idle { result ≡ Ok false → IsIdle self.new client }
        ensures fewer { result ≡ Ok true → calls_in self.new client < calls_in self.old client }
        ensures refused { OnErr result ((es : List Event) × Turns M.kind self.old es self.new) }
        ensures many { length self.new.players ≡ length self.old.players }
        ensures plans { self.new.plans ≡ self.old.plans }
    {
        loop {
            match self.step(client, chooser)? {
                Stepped::Went => {}
                Stepped::Answered => return Ok(true),
                Stepped::Idle => return Ok(false),
            }
        }
    }

    /// How many clients there are.
    fn count(&self) -> u32
        ensures players { result ≡ length self.now.players }
        ensures plans { result ≡ length self.now.plans }
    {
        self.plans.len() as u32
    }

    /// So many verbs of the client, where it is not idle.
    fn do_verbs<C: Chooser>(
        &mut self,
        client: u32,
        count: u32,
        chooser: &mut C,
    ) -> Result<(), AllocError>
        requires { client < length self.old.players }
        ensures done { IfOk result (λ _. (es : List Event) × Does M.kind self.old client count es self.new × Drawn (C.draws chooser.old) es (C.draws chooser.new)) }
        ensures refused { OnErr result ((es : List Event) × Turns M.kind self.old es self.new) }
        ensures many { length self.new.players ≡ length self.old.players }
        ensures plans { self.new.plans ≡ self.old.plans }
    {
        for _ in 0..count {
            self.step(client, chooser)?;
        }
        Ok(())
    }

    /// All that is left of the client's calls, up to its stop.
    fn play_out<C: Chooser>(&mut self, client: u32, chooser: &mut C) -> Result<(), AllocError>
        requires { client < length self.old.players }
        ensures done { IfOk result (λ _. (es : List Event) × Calls M.kind self.old client es self.new × IsIdle self.new client × Drawn (C.draws chooser.old) es (C.draws chooser.new)) }
        ensures refused { OnErr result ((es : List Event) × Turns M.kind self.old es self.new) }
        ensures many { length self.new.players ≡ length self.old.players }
        ensures plans { self.new.plans ≡ self.old.plans }
    {
        while self.finish(client, chooser)? {}
        Ok(())
    }

    fn play_item<C: Chooser>(&mut self, item: &Item, chooser: &mut C) -> Result<(), AllocError>
        requires { IsFor (length self.old.players) item.now }
        ensures done { IfOk result (λ _. (es : List Event) × DoesItem M.kind self.old item.now es self.new × Drawn (C.draws chooser.old) es (C.draws chooser.new)) }
        ensures refused { OnErr result ((es : List Event) × Turns M.kind self.old es self.new) }
        ensures many { length self.new.players ≡ length self.old.players }
        ensures plans { self.new.plans ≡ self.old.plans }
    {
        match *item {
            Item::Verbs { client, count } => self.do_verbs(client, count, chooser),
            Item::Call { client } => {
                self.finish(client, chooser)?;
                Ok(())
            }
        }
    }

    fn play_items<C: Chooser>(&mut self, items: &[Item], chooser: &mut C) -> Result<(), AllocError>
        requires { All (IsFor (length self.old.players)) items.now }
        ensures done { IfOk result (λ _. (es : List Event) × DoesItems M.kind self.old items.now es self.new × Drawn (C.draws chooser.old) es (C.draws chooser.new)) }
        ensures refused { OnErr result ((es : List Event) × Turns M.kind self.old es self.new) }
        ensures many { length self.new.players ≡ length self.old.players }
        ensures plans { self.new.plans ≡ self.old.plans }
    {
        for item in items {
            self.play_item(item, chooser)?;
        }
        Ok(())
    }

    fn play_tail<C: Chooser>(&mut self, chooser: &mut C) -> Result<(), AllocError>
        ensures done { IfOk result (λ _. (es : List Event) × Tail M.kind self.old (length self.old.plans) es self.new × Drawn (C.draws chooser.old) es (C.draws chooser.new)) }
        ensures refused { OnErr result ((es : List Event) × Turns M.kind self.old es self.new) }
        ensures many { length self.new.players ≡ length self.old.players }
        ensures plans { self.new.plans ≡ self.old.plans }
    {
        for client in 0..self.count() {
            self.play_out(client, chooser)?;
        }
        Ok(())
    }

    fn play<C: Chooser>(&mut self, items: &[Item], chooser: &mut C) -> Result<(), AllocError>
        requires { All (IsFor (length self.old.players)) items.now }
        ensures played { IfOk result (λ _. (es : List Event) × Plays M.kind self.old items.now es self.new × Drawn (C.draws chooser.old) es (C.draws chooser.new)) }
        ensures refused { OnErr result ((es : List Event) × Turns M.kind self.old es self.new) }
    {
        self.play_items(items, chooser)?;
        self.play_tail(chooser)
    }

    /// Does the items, and then each client in order plays what is left of its calls, up to its stop. A refusal leaves the
    /// world after some of these steps.
    pub fn run<C: Chooser>(&mut self, items: &Items, chooser: &mut C) -> Result<(), AllocError>
        requires { All (IsFor (length self.old.players)) items.now.items }
        ensures played { IfOk result (λ _. (es : List Event) × Plays M.kind self.old items.now.items es self.new × Drawn (C.draws chooser.old) es (C.draws chooser.new)) }
        ensures refused { OnErr result ((es : List Event) × Turns M.kind self.old es self.new) }
        ensures legal { IsLegalPlay self.new }
    {
        let done = self.play(items.as_slice(), chooser);
        self.keep();
        done
    }

    /// The records of the answered calls, in the order in which they were answered.
    pub fn records(&self) -> &Records
        ensures items { result.now.items ≡ self.now.records }
        ensures legal { IsLegalPlay self.now }
    {
        self.keep();
        &self.records
    }

    /// The log of what was done.
    pub fn log(&self) -> &Log
        ensures entries { result.now.entries ≡ self.now.entries }
        ensures geometry { result.now.geometry ≡ self.now.setting.geometry }
        ensures legal { IsLegalPlay self.now }
    {
        self.keep();
        self.node.log()
    }

    /// The map after all changes of the log. It fails only for want of memory.
    pub fn map(&self, alloc: Global) -> Result<MapMachine, AllocError>
        ensures { IfOk result (λ map. map ≡ map_at (changes_of self.now.setting self.now.entries) (length (changes_of self.now.setting self.now.entries))) }
    {
        map_of(alloc, &self.timeline, &self.pending)
    }

    /// How many verbs of the client are outstanding: one where it stands before a call, none where it has no call left.
    pub fn outstanding(&self, client: u32) -> u32
        requires { client < length self.now.players }
        ensures { (plan : Plan) (p : Player M) → slice_get self.now.plans client ≡ Some plan → slice_get self.now.players client ≡ Some p → result ≡ outstanding_of M.kind (placed self.now.setting.listed) plan p }
    {
        let place = client as usize;
        let player = &self.players[place];
        match &player.under_way {
            Some(under_way) => under_way.machine.outstanding(),
            None => {
                let plan = self.plans.get(place);
                if (player.answered as usize) < plan.calls.len() {
                    1
                } else {
                    0
                }
            }
        }
    }

    /// The number of the client's call that is begun and not answered.
    pub fn unfinished(&self, client: u32) -> Option<u32>
        requires { client < length self.now.players }
        ensures { (p : Player M) → slice_get self.now.players client ≡ Some p → result ≡ unfinished_of p }
    {
        let player = &self.players[client as usize];
        match player.under_way {
            Some(_) => Some(player.answered + 1),
            None => None,
        }
    }
}

impl<P: Placer + Drop, M: Playable + Drop> AnyWorld<P, M> {
    /// Hands out the records and the log.
    pub fn into_parts(self) -> (Records, Log)
        ensures records { result.0.items ≡ self.records }
        ensures entries { result.1.entries ≡ self.entries }
        ensures geometry { result.1.geometry ≡ self.setting.geometry }
        ensures legal { IsLegalPlay self }
    {
        self.keep();
        let AnyWorld {
            alloc: _,
            placer: _,
            plans: _,
            node,
            timeline: _,
            pending: _,
            players: _,
            records,
        } = self;
        (records, node.into_log())
    }
}
