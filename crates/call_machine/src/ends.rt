//! How a call ends, by the operation that has ended with its answer.
ghost use Rattle.std.specs.Prelude.{◌≡◌, ◌<◌, ◌-◌, ◌^◌, ℕ, Option, Some, None, IfSome, option_map};
ghost use Rattle.verbs.specs.Programs.{answer_of};
ghost use Rattle.map_model.specs.declared.calls.Reply.TheVariants.{Again};
ghost use Rattle.call_texts.specs.Text.{block_of};
ghost use Rattle.call_machine.specs.Low.{LowTable};
ghost use Rattle.call_machine.specs.Tasks.{call_end};
ghost use Rattle.call_machine.specs.Spare.{InsertDone, RoomDone, SplitDone};
ghost use Rattle.call_machine.specs.Fits.{Stands, Settled};
ghost use Rattle.call_machine.specs.Rest.{rest_of, full, on_search, on_delete, on_update, on_insert, on_room, on_split};

use crate::at::At;
use crate::end::End;
use crate::machines::Machines;
use crate::task::Task;
use map_model::Reply;
use op_delete::{DeleteEnd, DeleteOutcome};
use op_insert::{InsertEnd, InsertOutcome};
use op_search::{SearchEnd, SearchOutcome};
use op_update::{UpdateEnd, UpdateOutcome};
use scan_pass::Held;
use slot_word::read_slot;
use split_text::{ResizeEnd, ResizeOutcome};
use verbs::Machine;

// The block of a word that holds a key.
fn block_of(held: &Held) -> u64
    ensures { result ≡ block_of held.now }
{
    match read_slot(held.word) {
        Some(slot) => slot.at,
        None => 0,
    }
}

/// .. of a search.
pub fn search_end(task: &Task, end: &SearchEnd) -> End
    requires { end.now.table < 2 ^ 46 }
    ensures end { Some (call_end task.now.hash result) ≡ answer_of (on_search task.now end.now) }
    ensures low { LowTable result.table }
{
    let table = Some(end.table);
    match &end.outcome {
        SearchOutcome::Found(held) => {
            let block = block_of(held);
            End::at(Reply::Found(held.value), table, task.area, task.ticket).of_blocks(block, block)
        }
        SearchOutcome::Missing => End::at(Reply::Missing, table, task.area, task.ticket),
    }
}

/// .. of a delete.
pub fn delete_end(task: &Task, end: &DeleteEnd) -> End
    requires { end.now.table < 2 ^ 46 }
    ensures end { Some (call_end task.now.hash result) ≡ answer_of (on_delete task.now end.now) }
    ensures low { LowTable result.table }
{
    let table = Some(end.table);
    match &end.outcome {
        DeleteOutcome::Deleted(held) => {
            let block = block_of(held);
            End::at(Reply::Deleted(held.value), table, task.area, task.ticket).of_blocks(block, 0)
        }
        DeleteOutcome::Missing => End::at(Reply::Missing, table, task.area, task.ticket),
        DeleteOutcome::Again => End::at(again(task), table, task.area, task.ticket),
    }
}

/// .. of an update.
pub fn update_end(task: &Task, end: &UpdateEnd) -> End
    requires { end.now.table < 2 ^ 46 }
    ensures end { Some (call_end task.now.hash result) ≡ answer_of (on_update task.now end.now) }
    ensures low { LowTable result.table }
{
    let table = Some(end.table);
    match &end.outcome {
        UpdateOutcome::Updated { old, at } => {
            let block = block_of(old);
            End::at(Reply::Updated(old.value), table, end.area, task.ticket).of_blocks(block, *at)
        }
        UpdateOutcome::Missing => End::at(Reply::Missing, table, end.area, task.ticket),
        UpdateOutcome::Again => End::at(again(task), table, end.area, task.ticket),
        UpdateOutcome::NoBlock { next, need } => End::at(
            Reply::NoBlock {
                next: *next,
                need: *need,
            },
            table,
            end.area,
            task.ticket,
        ),
    }
}

/// .. of an insert that needs no room.
pub fn insert_end(task: &Task, end: &InsertEnd) -> End
    requires low { end.now.table < 2 ^ 46 }
    requires done { InsertDone end.now }
    ensures end { Some (call_end task.now.hash result) ≡ answer_of (on_insert task.now end.now) }
    ensures low { LowTable result.table }
{
    let table = Some(end.table);
    match &end.outcome {
        InsertOutcome::Inserted { at } => End::at(Reply::Inserted, table, end.area, task.ticket)
            .of_blocks(0, *at)
            .after(task.forgotten),
        InsertOutcome::Exists(held) => {
            let block = block_of(held);
            End::at(Reply::Exists(held.value), table, end.area, task.ticket)
                .of_blocks(block, block)
                .after(task.forgotten)
        }
        InsertOutcome::NoBlock { next, need } => {
            let reply = Reply::NoBlock {
                next: *next,
                need: *need,
            };
            End::at(reply, table, end.area, task.ticket).after(task.forgotten)
        }
        InsertOutcome::Again | InsertOutcome::NeedRoom { .. } => {
            End::at(again_after(task, end.lost), table, end.area, task.ticket).after(task.forgotten)
        }
    }
}

/// .. of a split of an insert, by which the call is refused.
pub fn room_end(task: &Task, end: &ResizeEnd) -> End
    requires { RoomDone end.now }
    ensures end { Some (call_end task.now.hash result) ≡ answer_of (on_room task.now end.now) }
    ensures low { LowTable result.table }
{
    let table = Some(task.table);
    match &end.outcome {
        ResizeOutcome::FullWords { next, need } => {
            let reply = Reply::FullWords {
                next: *next,
                need: *need,
            };
            End::at(reply, table, task.area, None).after(task.forgotten)
        }
        ResizeOutcome::Again { ticket } => {
            End::at(again(task), table, task.area, *ticket).after(task.forgotten)
        }
        _ => End::at(again(task), table, task.area, None),
    }
}

/// .. of a split of a resize, after a walk that ended at this table, or after none.
pub fn split_end(task: &Task, table: Option<u64>, end: &ResizeEnd) -> End
    requires low { LowTable table }
    requires done { SplitDone end.now }
    ensures end { Some (call_end task.now.hash result) ≡ answer_of (on_split task.now table end.now) }
    ensures low { LowTable result.table }
{
    match &end.outcome {
        ResizeOutcome::Split {
            table: parent,
            depth,
        } => {
            let reply = Reply::Split {
                table: *parent,
                depth: *depth,
            };
            let mut end = End::at(reply, table, task.area, None);
            end.split = Some(*parent);
            end
        }
        ResizeOutcome::FullWords { next, need } => {
            let reply = Reply::FullWords {
                next: *next,
                need: *need,
            };
            End::at(reply, table, task.area, None)
        }
        ResizeOutcome::Again { ticket } => End::at(again(task), table, task.area, *ticket),
        _ => End::at(again(task), table, task.area, None),
    }
}

/// .. at a table that is as deep as may be.
pub fn full_end(task: &Task) -> End
    ensures end { Some (call_end task.now.hash result) ≡ answer_of (full task.now) }
    ensures low { LowTable result.table }
{
    let reply = Reply::FullDepth {
        depth: task.geometry.max_depth,
    };
    End::at(reply, Some(task.table), task.area, None).after(task.forgotten)
}

// So many swaps were lost in the last part, and those that were not left before it.
fn again_after(task: &Task, lost: u32) -> Reply
    ensures { result ≡ Again (task.now.tries - (task.now.left - lost)) }
{
    let left = task.left.saturating_sub(lost);
    Reply::Again {
        lost: task.tries.saturating_sub(left),
    }
}

// As many swaps were lost as might be.
fn again(task: &Task) -> Reply
    ensures { result ≡ Again task.now.tries }
{
    Reply::Again { lost: task.tries }
}

impl At {
    /// How the call ends. None exactly until it has answered.
    #[tactic(auto, using(crate::proofs::Parts::told))]
    pub fn end(self, machines: &Machines, task: &Task) -> Option<End>
        requires stands { Stands machines.now self }
        requires settled { Settled machines.now self }
        ensures end { option_map (call_end task.now.hash) result ≡ answer_of (rest_of task.now machines.now self) }
        ensures low { IfSome result (λ end. LowTable end.table) }
    {
        match self {
            At::Search => match op_search::search_end(&machines.work.pass) {
                Some(end) => Some(search_end(task, &end)),
                None => None,
            },
            At::Delete(at) => match at.end(&machines.work) {
                Some(end) => Some(delete_end(task, &end)),
                None => None,
            },
            At::Update(at) => match at.end(&machines.work) {
                Some(end) => Some(update_end(task, &end)),
                None => None,
            },
            At::Insert(at) => match at.end(&machines.work) {
                Some(end) => Some(insert_end(task, &end)),
                None => None,
            },
            At::Room => match Machine::outcome(&machines.split) {
                Some(end) => Some(room_end(task, &end)),
                None => None,
            },
            At::Split => match Machine::outcome(&machines.split) {
                Some(end) => Some(split_end(task, Some(task.table), &end)),
                None => None,
            },
            At::Resume => match Machine::outcome(&machines.split) {
                Some(end) => Some(split_end(task, None, &end)),
                None => None,
            },
            At::Walk => None,
            At::Full => Some(full_end(task)),
        }
    }
}
