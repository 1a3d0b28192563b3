//! The machine.

ghost use Rattle.block_taking.specs.AtFits.{AtFits, AtFits-prop};

use crate::at::At;
use crate::progress::Progress;
use crate::steps::node_at;
use crate::taking::{Area, TakeEnd, TakeOutcome, Taking};
use kv_block::{Block, Key};
use map_model::Nexts;
use node_words::Geometry;
use verb_log::Verb;
use verbs::Machine;

/// The taking of a block. `start` begins one, `restart` one more of the same words; it then does the verb that `next` tells and
/// takes its answer by `feed`, until `next` is None.
#[derive(Clone, Copy, Debug)]
pub struct TakeOp {
    pub(crate) taking: Taking,
    pub(crate) progress: Progress,
    pub(crate) at: At,
    ghost fits: { AtFits taking progress at } by { AtFits-prop taking progress at },
}

impl TakeOp {
    ghost use Rattle.std.specs.Prelude.{◌≡◌, ◌≤◌, ◌<◌, ◌^◌, ◌+◌, IsTrue, IsSome, length, take};
    ghost use Rattle.node_words.specs.Addresses.{node_at};
    ghost use Rattle.verbs.specs.Programs.{next_act, Within};
    ghost use Rattle.block_taking.specs.Text.{need, take_block};
    ghost use Rattle.block_taking.specs.Bound.{taking_verbs};
    ghost use Rattle.block_taking.specs.Law.{IsSafeTaking};
    ghost use Rattle.block_taking.specs.Rest.{take_rest};
    ghost use Rattle.block_taking.specs.Ends.{has_ended, is_taken, is_full};

    /// Takes words for the block and writes it, from the client's area or from a node, while `left` swaps may be lost. It means
    /// the text of the taking, and ends within a read of each node, `left` Takes and the words of the block, whatever is
    /// answered. On each legal log, of an area that is the client's and where a swap may be lost, it is safe, whatever others add
    /// between its verbs: each Take and each write is legal and changes nothing in the map. Taken: the block's words are the
    /// client's, written and not published, and apart from the area that is left. NoBlock: each node was read to have no room.
    /// Spent: `left` Takes were lost (docs/LAWS.md, "What a taking shows").
    pub fn start(geometry: Geometry, client: u32, block: Block, area: Area, left: u32) -> TakeOp
        ensures rest { take_rest result ≡ take_block (record { geometry = geometry; client = client; block = block }) area left }
        ensures taking { result.taking ≡ record { geometry = geometry; client = client; block = block } }
        ensures within { Within (taking_verbs (record { geometry = geometry; client = client; block = block }) left) (take_rest result) }
        ensures waits { IsSome (next_act (take_rest result)) }
        ensures safe { IsSafeTaking (record { geometry = geometry; client = client; block = block }) area left (take_rest result) }
    {
        let mut op = TakeOp::ready(geometry, client, block, area);
        op.restart(left);
        op
    }

    /// No taking is under way, and `restart` begins one.
    pub fn ready(geometry: Geometry, client: u32, block: Block, area: Area) -> TakeOp
        ensures taking { result.taking ≡ record { geometry = geometry; client = client; block = block } }
        ensures area { result.progress.area ≡ area }
    {
        TakeOp {
            taking: Taking {
                geometry,
                client,
                block,
            },
            progress: Progress::new(area),
            at: At::Spent,
        }
    }

    /// .. by this client, of this block and from this area from now on, in the same memory.
    pub fn refresh(&mut self, geometry: Geometry, client: u32, block: Block, area: Area)
        ensures taking { self.new.taking ≡ record { geometry = geometry; client = client; block = block } }
        ensures area { self.new.progress.area ≡ area }
    {
        self.taking.geometry = geometry;
        self.taking.client = client;
        self.taking.block = block;
        self.progress.area = area;
        self.at = At::Spent;
    }

    /// Takes words for the block again, from the area as it was left, while `left` swaps may be lost.
    pub fn restart(&mut self, left: u32)
        ensures rest { take_rest self.new ≡ take_block self.old.taking self.old.progress.area left }
        ensures taking { self.new.taking ≡ self.old.taking }
        ensures waits { IsSome (next_act (take_rest self.new)) }
    {
        self.progress.left = left;
        self.at = At::begun(&mut self.progress, &self.taking);
    }

    /// The area as the taking leaves it.
    pub fn area(&self) -> Area
        ensures { result ≡ self.now.progress.area }
    {
        self.progress.area
    }

    /// How many words the block has.
    pub fn need(&self) -> u8
        ensures need { result ≡ need self.now.taking }
        ensures least { 2 ≤ result }
        ensures most { result ≤ 137 }
    {
        self.taking.block.len()
    }

    /// Whether the taking has ended.
    #[inline(always)]
    pub fn has_ended(&self) -> bool
        ensures { result ≡ has_ended self.now.at }
    {
        matches!(self.at, At::Taken | At::NoBlock | At::Spent)
    }

    /// Whether the block's words are the client's, and written.
    pub fn is_taken(&self) -> bool
        ensures { result ≡ is_taken self.now.at }
    {
        matches!(self.at, At::Taken)
    }

    /// Whether no node had room for the block.
    pub fn is_full(&self) -> bool
        ensures { result ≡ is_full self.now.at }
    {
        matches!(self.at, At::NoBlock)
    }

    /// The address of the block, where it is taken.
    pub fn taken_at(&self) -> u64
        ensures { result ≡ self.now.progress.block }
    {
        self.progress.block
    }

    /// How many more swaps may be lost.
    pub fn left(&self) -> u32
        ensures { result ≡ self.now.progress.left }
    {
        self.progress.left
    }

    // The address of the next word of the node.
    fn node(&self) -> u64
        requires { self.now.progress.node < self.now.taking.geometry.nodes }
        ensures at { result ≡ node_at self.now.taking.geometry self.now.progress.node }
    {
        node_at(&self.taking.geometry, self.progress.node)
    }

    /// The last number read of each node.
    pub fn nexts(&self) -> Nexts
        ensures { result ≡ take self.now.taking.geometry.nodes self.now.progress.nexts }
    {
        let mut nexts = Nexts::one(self.progress.nexts[0]);
        for i in 1..self.taking.geometry.nodes as usize {
            nexts = nexts.with(self.progress.nexts[i]);
        }
        nexts
    }
}

impl Machine for TakeOp {
    ghost use Rattle.block_taking.specs.declared.taking.Taking.{Taking};
    ghost use Rattle.block_taking.specs.Rest.{take_rest};

    type Outcome = TakeEnd;

    ghost Kept = { Taking };

    ghost kept = { λ m. m.taking };

    ghost rest = { take_rest };

    #[inline(always)]
    fn next(&self) -> Option<Verb> {
        match self.at {
            At::Read => Some(Verb::Read { at: self.node() }),
            At::Area => Some(Verb::Swap {
                at: self.node(),
                expected: self.progress.next,
                word: self.progress.next + 1024,
            }),
            At::Alone => Some(Verb::Swap {
                at: self.node(),
                expected: self.progress.next,
                word: self.progress.next + u64::from(self.need()),
            }),
            At::Write => Some(Verb::Write {
                at: self.progress.block + u64::from(self.progress.index),
                word: self.taking.block.word(self.progress.index),
            }),
            At::Taken | At::NoBlock | At::Spent => None,
        }
    }

    fn block(&self) -> Option<u64> {
        None
    }

    #[inline(always)]
    fn feed(&mut self, word: u64) {
        self.at = At::fed(&mut self.progress, &self.taking, self.at, word);
    }

    fn asks(&self) -> Option<Key> {
        None
    }

    fn told(&mut self, hash: u64) {}

    fn outcome(&self) -> Option<TakeEnd> {
        match self.at {
            At::Taken => Some(TakeEnd {
                outcome: TakeOutcome::Taken {
                    at: self.progress.block,
                },
                area: self.progress.area,
                left: self.progress.left,
            }),
            At::NoBlock => Some(TakeEnd {
                outcome: TakeOutcome::NoBlock {
                    next: self.nexts(),
                    need: u64::from(self.need()),
                },
                area: self.progress.area,
                left: self.progress.left,
            }),
            At::Spent => Some(TakeEnd {
                outcome: TakeOutcome::Spent,
                area: self.progress.area,
                left: 0,
            }),
            _ => None,
        }
    }
}
