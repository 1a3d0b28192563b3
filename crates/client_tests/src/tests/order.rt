//! One order of the changes that clients made, from what they were told.
//!
//! A block is written once, so a reply tells what its key had: a change that replaces or removes a block comes after all that found
//! this block, and an insert where the key has none. What may be done at once without a choice is done at once; where several inserts
//! may come next, the one that ended first is tried first, and another where no order was found.

use crate::tests::clients::CLIENTS;
use call_machine::Answer;
use map_model::{Call, Reply};
use std::alloc::{AllocError, Global};

/// How many keys have a number.
const MOST_KEYS: usize = 64;

/// How many choices are made before no order is found.
const CHOICES: u32 = 100_000;

/// What a client was told of a call.
#[derive(Clone, Copy, Drop)]
pub struct Line {
    /// The number of the call's key, below 64.
    pub key: usize,
    pub call: Call,
    pub answer: Answer,
    /// When the call began and ended, by a clock that all clients have.
    pub begun: u64,
    pub ended: u64,
}

/// A line that tells of a change: the client's line of this number, from 0.
#[derive(Clone, Copy, Drop)]
pub struct Made {
    pub client: usize,
    pub number: usize,
}

/// The changes in order.
#[derive(Drop)]
pub struct Order {
    pub made: Vec<Made>,
}

// How far the clients have come: the number of lines done of each, and the block that each key has, or 0.
#[derive(Clone, Copy, Drop)]
struct Place {
    done: [usize; CLIENTS],
    blocks: [u64; MOST_KEYS],
}

// A choice: how far the clients had come, how many changes were ordered, and the clients that were tried.
#[derive(Clone, Copy, Drop)]
struct Choice {
    place: Place,
    ordered: usize,
    tried: [bool; CLIENTS],
}

impl Place {
    // The next line of a client.
    fn next<'a>(&self, lines: &'a [Vec<Line>], client: usize) -> Option<&'a Line> {
        let done = self.done.get(client)?;
        lines.get(client)?.get(*done)
    }

    // The block that a key has.
    fn block(&self, key: usize) -> u64 {
        match self.blocks.get(key) {
            Some(block) => *block,
            None => 0,
        }
    }

    // A client has done its line, after which the key has this block. The number of the line.
    fn pass(&mut self, client: usize, key: usize, block: u64) -> usize {
        if let Some(now) = self.blocks.get_mut(key) {
            *now = block;
        }
        match self.done.get_mut(client) {
            Some(done) => {
                let number = *done;
                *done = number.wrapping_add(1);
                number
            }
            None => 0,
        }
    }

    // Whether a line of a client that is not done has found this block.
    fn is_found_later(&self, lines: &[Vec<Line>], block: u64) -> bool {
        lines.iter().zip(self.done.iter()).any(|(told, done)| {
            told.iter().skip(*done).any(|line| finds(&line.answer.reply)
                && line.answer.from == block)
        })
    }

    // Whether the line may be done now, and no other has to come before it.
    fn is_free(&self, lines: &[Vec<Line>], line: &Line) -> bool {
        let block = self.block(line.key);
        match line.answer.reply {
            Reply::Found(_) | Reply::Exists(_) | Reply::Missing => block == line.answer.from,
            Reply::Updated(_) | Reply::Deleted(_) => {
                block == line.answer.from && !self.is_found_later(lines, block)
            }
            Reply::Inserted => false,
            _ => true,
        }
    }

    // Does the next line of a client, where it is free. Whether it was.
    fn step(
        &mut self,
        lines: &[Vec<Line>],
        client: usize,
        order: &mut Vec<Made>,
    ) -> Result<bool, AllocError> {
        let Some(line) = self.next(lines, client) else {
            return Ok(false);
        };
        if !self.is_free(lines, line) {
            return Ok(false);
        }
        let change = line.answer.reply.is_change();
        let block = if change {
            line.answer.to
        } else {
            self.block(line.key)
        };
        let number = self.pass(client, line.key, block);
        if change {
            order.push(Made { client, number })?;
        }
        Ok(true)
    }

    // Does the free lines of a client, one after another. Whether there was one.
    fn step_on(
        &mut self,
        lines: &[Vec<Line>],
        client: usize,
        order: &mut Vec<Made>,
    ) -> Result<bool, AllocError> {
        let mut some = false;
        for _line in 0..1_000_000u32 {
            if !self.step(lines, client, order)? {
                break;
            }
            some = true;
        }
        Ok(some)
    }

    // Does the free lines of each client once round. Whether there was one.
    fn round(&mut self, lines: &[Vec<Line>], order: &mut Vec<Made>) -> Result<bool, AllocError> {
        let mut some = false;
        for client in 0..CLIENTS {
            some = self.step_on(lines, client, order)? || some;
        }
        Ok(some)
    }

    // Does all free lines.
    fn advance(&mut self, lines: &[Vec<Line>], order: &mut Vec<Made>) -> Result<(), AllocError> {
        for _round in 0..1_000_000u32 {
            if !self.round(lines, order)? {
                break;
            }
        }
        Ok(())
    }

    // Whether a client has ended a next line before this line began.
    fn is_late(&self, lines: &[Vec<Line>], line: &Line) -> bool {
        (0..CLIENTS).any(|client| match self.next(lines, client) {
            Some(other) => other.ended < line.begun,
            None => false,
        })
    }

    // When the client's next line ended, where it is an insert that may come next.
    fn insert_end(&self, lines: &[Vec<Line>], client: usize) -> Option<u64> {
        let line = self.next(lines, client)?;
        let may = line.answer.reply == Reply::Inserted
            && self.block(line.key) == 0
            && !self.is_late(lines, line);
        may.then_some(line.ended)
    }

    // Of the inserts that may come next, and were not tried, the client of the one that ended first.
    fn first_insert(&self, lines: &[Vec<Line>], tried: &[bool; CLIENTS]) -> Option<usize> {
        let mut first: Option<(u64, usize)> = None;
        for client in 0..CLIENTS {
            let untried = tried.get(client) == Some(&false);
            if let Some(ended) = self.insert_end(lines, client)
                && untried
            {
                first = match first {
                    Some(other) if other.0 < ended => Some(other),
                    _ => Some((ended, client)),
                };
            }
        }
        first.map(|(_ended, client)| client)
    }

    // Does the client's next line, an insert.
    fn insert(
        &mut self,
        lines: &[Vec<Line>],
        client: usize,
        order: &mut Vec<Made>,
    ) -> Result<(), AllocError> {
        if let Some(line) = self.next(lines, client) {
            let number = self.pass(client, line.key, line.answer.to);
            order.push(Made { client, number })?;
        }
        Ok(())
    }

    // Whether all lines are done.
    fn is_end(&self, lines: &[Vec<Line>]) -> bool {
        (0..CLIENTS).all(|client| self.next(lines, client).is_none())
    }
}

// Whether the reply tells a block that was found, and left.
fn finds(reply: &Reply) -> bool {
    matches!(reply, Reply::Found(_) | Reply::Exists(_))
}

impl Order {
    /// An order of the changes in these lines of eight clients. None where none is found.
    pub fn find(alloc: Global, lines: &[Vec<Line>]) -> Result<Option<Order>, AllocError> {
        let mut made = Vec::new(alloc);
        let mut choices: Vec<Choice> = Vec::new(alloc);
        let mut place = Place {
            done: [0; CLIENTS],
            blocks: [0; MOST_KEYS],
        };
        let mut tried = [false; CLIENTS];
        for _choice in 0..CHOICES {
            place.advance(lines, &mut made)?;
            if place.is_end(lines) {
                return Ok(Some(Order { made }));
            }
            if let Some(client) = place.first_insert(lines, &tried) {
                if let Some(now) = tried.get_mut(client) {
                    *now = true;
                }
                choices.push(Choice {
                    place,
                    ordered: made.len(),
                    tried,
                })?;
                place.insert(lines, client, &mut made)?;
                tried = [false; CLIENTS];
            } else if let Some(choice) = choices.pop() {
                place = choice.place;
                made.truncate(choice.ordered);
                tried = choice.tried;
            } else {
                return Ok(None);
            }
        }
        Ok(None)
    }
}
