//! What comes after an operation that has ended: another part of the call, or its answer.
ghost use Rattle.std.specs.Prelude.{◌≡◌, ◌≤◌, ◌<◌, ◌-◌, ◌%◌, ◌^◌, None, IsSome};
ghost use Rattle.verbs.specs.Programs.{Outcomes, next_act, goes_on};
ghost use Rattle.op_insert.specs.Text.{is_plain_at};
ghost use Rattle.remote_resize.specs.ResizeOpRest.{resize_rest};
ghost use Rattle.split_text.specs.Text.{resize, resume};
ghost use Rattle.call_texts.specs.Text.{part_of, insert_part, walk_part, split_job, room, is_table, plain_full, was_full, unless_split, full_now};
ghost use Rattle.call_machine.specs.Tasks.{caller_in, pair_in, inserting_in};
ghost use Rattle.call_machine.specs.Spare.{InsertSpares, SplitSpares, InsertDone, RoomDone, SplitDone};
ghost use Rattle.call_machine.specs.Rest.{rest_of, on_insert, on_room, on_walk, on_split};
ghost use Rattle.call_machine.specs.Fits.{CallFits, Stands, HasSpare, Settled};
ghost use Rattle.call_machine.specs.Follows.{Follows};

use crate::at::At;
use crate::forgotten::Forgotten;
use crate::machines::Machines;
use crate::task::Task;
use op_insert::{At as Inserting, InsertEnd, InsertOutcome};
use remote_resize::ResizeOp;
use scan_pass::{PassMode, Passed};
use slot_word::{Head, State};
use split_text::{ResizeEnd, ResizeOutcome, Ticket};
use verbs::Machine;

// The lowest bits of a hash, as many as the depth says.
#[tactic(auto, using(crate::proofs::Bits::low_all))]
fn low_bits(hash: u64, depth: u32) -> u64
    ensures { result ≡ hash % 2 ^ depth }
{
    if depth < 64 {
        hash % (1 << depth)
    } else {
        hash
    }
}

// Whether a header is plain of this depth.
fn is_plain_at(depth: u32, head: &Head) -> bool
    ensures { result ≡ is_plain_at depth head.now }
{
    matches!(head.state, State::Plain) && head.depth == depth
}

// The table that the cache names, unless a split of this table has forgotten it.
fn unless_split(start: Option<u64>, table: u64) -> Option<u64>
    ensures { result ≡ unless_split start table }
{
    match start {
        Some(named) if named != table => Some(named),
        _ => None,
    }
}

// Whether the table's header was read as plain at the greatest depth before the pass read its candidates.
fn was_full(task: &Task, table: u64, passed: &Passed) -> bool
    ensures { result ≡ was_full (caller_in task.now) (pair_in task.now) (inserting_in task.now) table passed.now }
{
    is_table(task, table) || plain_full(task, &passed.opened)
}

// Whether it is the table that is remembered.
fn is_table(task: &Task, table: u64) -> bool
    ensures { result ≡ is_table (caller_in task.now) (pair_in task.now) task.now.full table }
{
    match task.full {
        Some(told) => told == table,
        None => false,
    }
}

// Whether a header was read, and is plain at the greatest depth.
fn plain_full(task: &Task, opened: &Option<Head>) -> bool
    ensures { result ≡ plain_full (caller_in task.now) (pair_in task.now) opened.now }
{
    match opened {
        Some(head) => is_plain_at(task.geometry.max_depth, head),
        None => false,
    }
}

impl Task {
    // The insert starts again, from what the task says.
    #[tactic(auto, using(crate::proofs::Inserts::spares_on))]
    pub fn insert(&self, machines: &mut Machines) -> At
        requires { 1 ≤ self.now.left }
        ensures rest { rest_of self.now machines.new result ≡ insert_part (caller_in self.now) (pair_in self.now) (inserting_in self.now) }
        ensures fits { CallFits self.now machines.new result }
    {
        At::Insert(Inserting::begin(
            &mut machines.work,
            self.geometry,
            self.client,
            self.hash,
            &self.key,
            &self.value,
            self.start,
            self.kept,
            self.area,
            self.left,
        ))
    }

    // The walk starts again.
    pub fn walk(&self, machines: &mut Machines, start: Option<u64>) -> At
        requires { 1 ≤ self.now.left }
        ensures rest { rest_of self.now machines.new result ≡ walk_part (caller_in self.now) self.now.key self.now.area start self.now.left }
        ensures fits { CallFits self.now machines.new result }
    {
        machines
            .work
            .seek(self.geometry, start, &self.key, self.hash, PassMode::Walk);
        At::Walk
    }

    // The split of the table where the pass has ended.
    #[tactic(auto, using(crate::proofs::Splits::spares_on))]
    fn split(&self, left: u32) -> ResizeOp
        requires { 1 ≤ left }
        ensures rest { resize_rest result ≡ resize (split_job (caller_in self.now) self.now.table self.now.depth) left }
        ensures waits { IsSome (next_act (resize_rest result)) }
        ensures spare { Outcomes SplitSpares (resize_rest result) }
    {
        ResizeOp::start(
            self.geometry,
            self.client,
            self.table,
            self.depth,
            low_bits(self.hash, self.depth),
            left,
        )
    }
}

// The split of a ticket is gone on with.
#[tactic(auto, using(crate::proofs::Splits::spares_on, crate::proofs::Resumes::waits))]
pub fn gone_on(ticket: Ticket, left: u32) -> ResizeOp
    requires { 1 ≤ left }
    ensures rest { resize_rest result ≡ resume ticket left }
    ensures waits { IsSome (next_act (resize_rest result)) }
    ensures spare { Outcomes SplitSpares (resize_rest result) }
{
    ResizeOp::go_on(ticket, left)
}

// The insert has ended so that it needs room.
fn room(
    task: &mut Task,
    machines: &mut Machines,
    end: &InsertEnd,
    passed: &Passed,
    kept: Option<u64>,
) -> At
    requires low { end.now.table < 2 ^ 46 }
    requires spare { end.now.lost < task.old.left }
    ensures rest { rest_of task.new machines.new result ≡ goes_on part_of (room (caller_in task.old) (pair_in task.old) (inserting_in task.old) end.now passed.now kept (task.old.left - end.now.lost) task.old.ticket) }
    ensures fits { CallFits task.new machines.new result }
    ensures caller { caller_in task.new ≡ caller_in task.old }
{
    task.left = task.left.saturating_sub(end.lost);
    task.kept = kept;
    task.area = end.area;
    task.table = end.table;
    task.depth = passed.head.depth;
    if let Some(ticket) = task.ticket {
        machines.split = gone_on(ticket, task.left);
        return At::Room;
    }
    if !is_plain_at(task.geometry.max_depth, &passed.head) {
        machines.split = task.split(task.left);
        return At::Room;
    }
    if was_full(task, end.table, passed) {
        return At::Full;
    }
    task.full = Some(end.table);
    insert_again(task, machines, Some(end.table), task.left)
}

// What follows an insert that has ended.
fn after_insert(task: &mut Task, machines: &mut Machines, end: &InsertEnd) -> Option<At>
    requires low { end.now.table < 2 ^ 46 }
    requires spare { InsertSpares task.old.left end.now }
    ensures { Follows (InsertDone end.now) (on_insert task.old end.now) task.old machines.old task.new machines.new result }
{
    match &end.outcome {
        InsertOutcome::NeedRoom { passed, kept } => Some(room(task, machines, end, passed, *kept)),
        _ => None,
    }
}

// The insert starts again from this cached table, while `left` swaps may be lost.
fn insert_again(task: &mut Task, machines: &mut Machines, start: Option<u64>, left: u32) -> At
    requires { 1 ≤ left }
    ensures rest { rest_of task.new machines.new result ≡ insert_part (caller_in task.old) (pair_in task.old) (record { start = start; kept = task.old.kept; left = left; full = task.old.full; forgotten = task.old.forgotten; area = task.old.area; ticket = None }) }
    ensures fits { CallFits task.new machines.new result }
    ensures caller { caller_in task.new ≡ caller_in task.old }
{
    task.ticket = None;
    task.left = left;
    task.start = start;
    task.insert(machines)
}

// Under the lock the table's header was read as plain at the greatest depth.
fn full_now(task: &Task) -> Option<u64>
    ensures { result ≡ full_now (caller_in task.now) (pair_in task.now) task.now.table task.now.depth task.now.full }
{
    if task.depth == task.geometry.max_depth {
        Some(task.table)
    } else {
        task.full
    }
}

// What follows the split of an insert.
fn after_room(task: &mut Task, machines: &mut Machines, end: &ResizeEnd) -> Option<At>
    requires { SplitSpares end.now }
    ensures { Follows (RoomDone end.now) (on_room task.old end.now) task.old machines.old task.new machines.new result }
{
    match &end.outcome {
        ResizeOutcome::Split { table, .. } => {
            let start = unless_split(Some(task.table), *table);
            task.forgotten.push(*table);
            Some(insert_again(task, machines, start, end.left))
        }
        ResizeOutcome::Changed => {
            task.full = full_now(task);
            Some(insert_again(task, machines, Some(task.table), end.left))
        }
        ResizeOutcome::Locked => Some(insert_again(task, machines, Some(task.table), end.left)),
        ResizeOutcome::Again { .. } | ResizeOutcome::FullWords { .. } => None,
    }
}

// What follows a walk.
fn after_walk(task: &mut Task, machines: &mut Machines, passed: &Passed) -> At
    requires low { passed.now.table < 2 ^ 46 }
    requires spare { 1 ≤ task.old.left }
    ensures rest { rest_of task.new machines.new result ≡ goes_on part_of (on_walk task.old passed.now) }
    ensures fits { CallFits task.new machines.new result }
    ensures caller { caller_in task.new ≡ caller_in task.old }
{
    task.table = passed.table;
    task.depth = passed.head.depth;
    if is_plain_at(task.geometry.max_depth, &passed.head) {
        task.forgotten = Forgotten::new();
        return At::Full;
    }
    machines.split = task.split(task.left);
    At::Split
}

// What follows the split of a resize, after a walk that ended at this table, or after none.
fn after_split(
    task: &mut Task,
    machines: &mut Machines,
    table: Option<u64>,
    end: &ResizeEnd,
) -> Option<At>
    requires { SplitSpares end.now }
    ensures { Follows (SplitDone end.now) (on_split task.old table end.now) task.old machines.old task.new machines.new result }
{
    match &end.outcome {
        ResizeOutcome::Changed | ResizeOutcome::Locked => {
            task.left = end.left;
            Some(task.walk(machines, table))
        }
        _ => None,
    }
}

impl At {
    // What follows the operation: None where it has an act, or the call its answer. A part is begun in a function of its own, so that
    // the verbs within a part do not pay for it.
    #[inline(never)]
    #[tactic(auto, using(crate::proofs::Parts::onward))]
    fn follow(self, machines: &mut Machines, task: &mut Task) -> Option<At>
        requires stands { Stands machines.old self }
        requires spare { HasSpare task.old machines.old self }
        ensures { Follows (Settled machines.old self) (rest_of task.old machines.old self) task.old machines.old task.new machines.new result }
    {
        match self {
            At::Insert(at) => match at.end(&machines.work) {
                Some(end) => after_insert(task, machines, &end),
                None => None,
            },
            At::Room => match Machine::outcome(&machines.split) {
                Some(end) => after_room(task, machines, &end),
                None => None,
            },
            At::Walk => match machines.work.pass.passed() {
                Some(passed) => {
                    let _table = machines.work.pass.table();
                    Some(after_walk(task, machines, &passed))
                }
                None => None,
            },
            At::Split => match Machine::outcome(&machines.split) {
                Some(end) => {
                    let table = task.table;
                    after_split(task, machines, Some(table), &end)
                }
                None => None,
            },
            At::Resume => match Machine::outcome(&machines.split) {
                Some(end) => after_split(task, machines, None, &end),
                None => None,
            },
            At::Search | At::Delete(_) | At::Update(_) | At::Full => None,
        }
    }

    /// Another part begins, where the operation has ended so that one does.
    #[inline(always)]
    #[tactic(auto, using(crate::proofs::Parts::onward))]
    pub fn settle(self, machines: &mut Machines, task: &mut Task) -> At
        requires stands { Stands machines.old self }
        requires spare { HasSpare task.old machines.old self }
        ensures rest { rest_of task.new machines.new result ≡ goes_on part_of (rest_of task.old machines.old self) }
        ensures fits { CallFits task.new machines.new result }
        ensures caller { caller_in task.new ≡ caller_in task.old }
    {
        if self.is_settled(machines) {
            return self;
        }
        match self.follow(machines, task) {
            Some(next) => next,
            None => self,
        }
    }
}
