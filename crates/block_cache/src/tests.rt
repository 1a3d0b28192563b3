//! Block readings on words that no one changes, beside the numbers that the definition of "saved" gives.
ghost use Rattle.std.specs.Prelude.{◌≡◌, ℕ, ◌+◌, ◌<◌, ◌≤◌, IsTrue, IfSome, length, slice_index};
ghost use Rattle.kv_block.specs.Packing.{HasShape};
ghost use Rattle.verbs.specs.Logs.{word};
ghost use Rattle.block_cache.specs.Keeps.{Keeps};
ghost use Rattle.block_cache.specs.Still.{StandsAt, still};

use crate::BlockCache;
use kv_block::{Block, Key, Value, write_block};
use node_words::Geometry;
use std::alloc::AllocError;
use std::test::Fail;
use verb_log::{Entry, Log, Verb};
use verbs::Verbs;

// The words after a log to which nothing is added, and how many reads were done on them.
#[derive(Drop)]
struct StillNode {
    log: Log,
    reads: u64,
}

impl Verbs for StillNode {
    ghost use Rattle.std.specs.Prelude.{None};
    ghost use Rattle.node_words.specs.declared.geometry.Geometry.{Geometry};
    ghost use Rattle.block_cache.specs.Still.{still};

    ghost Home = { Geometry };

    ghost home = { λ node. node.log.geometry };

    ghost terms = { still };

    ghost front = { λ node. node.log.entries };

    ghost trace = { λ node. None };

    ghost room = { λ node. None };

    fn read(&mut self, at: u64) -> u64 {
        self.reads = self.reads.wrapping_add(1);
        self.log.word(at)
    }

    // No write is allowed.
    fn write(&mut self, at: u64, word: u64) {
        let _ = (at, word);
        unreachable!()
    }

    // A swap is allowed where it is lost.
    fn swap(&mut self, at: u64, expected: u64, word: u64) -> u64 {
        let _ = (expected, word);
        self.log.word(at)
    }
}

// The block of a key with its value, where they may be such.
fn block_of(key: &[u8], value: &[u8]) -> Option<Block>
    ensures { IfSome result (λ block. HasShape block) }
{
    let key = Key::from_bytes(key)?;
    let value = Value::from_bytes(value)?;
    Some(write_block(&key, &value))
}

// The block of a name: `a` has 3 words, `b` 2, and any other 5.
fn block_named(name: char) -> Option<Block>
    ensures { IfSome result (λ block. HasShape block) }
{
    if name == 'a' {
        return block_of(b"a", b"8 bytes.");
    }
    if name == 'b' {
        return block_of(b"b", b"");
    }
    block_of(b"cccc cccc", b"9 bytes..")
}

// The address of the block of a name.
fn address_of(name: char) -> u64
    ensures { result < 1000 }
{
    if name == 'a' {
        return 200;
    }
    if name == 'b' {
        return 300;
    }
    400
}

// Puts a word at an address. An error where there is no such address, or no memory.
fn put_word(log: &mut Log, at: u64, word: u64) -> Result<(), AllocError> {
    if at >= log.geometry().words {
        return Err(AllocError);
    }
    let old = log.word(at);
    log.push(Entry {
        client: 0,
        at,
        old,
        new: word,
    })
}

// Puts the words of a block at its address.
fn put_block(log: &mut Log, at: u64, block: &Block) -> Result<(), AllocError>
    requires { at < 1000 }
{
    for i in 0..block.len() {
        put_word(log, at + u64::from(i), block.word(i))?;
    }
    Ok(())
}

// The words of a block stand at its address.
fn stands(log: &Log, at: u64, block: &Block) -> bool
    requires place { at < 1000 }
    requires shape { HasShape block.now }
    ensures { IsTrue result → StandsAt log.now.geometry log.now.entries at block.now }
{
    for i in 0..block.len() {
        let place = at + u64::from(i);
        if place >= log.geometry().words || log.word(place) != block.word(i) {
            return false;
        }
    }
    true
}

// Reads the words of a block through the cache, and no more than `most`.
fn read_words(cache: &mut BlockCache, node: &mut StillNode, at: u64, block: &Block, most: u8)
    requires place { at < 1000 }
    requires stands { StandsAt node.old.log.geometry node.old.log.entries at block.now }
    requires keeps { Keeps (still node.old.log.geometry) node.old.log.entries cache.old }
    ensures { Keeps (still node.new.log.geometry) node.new.log.entries cache.new }
{
    for i in 0..block.len() {
        if i < most {
            let verb = Verb::Read {
                at: at + u64::from(i),
            };
            let _ = cache.perform(node, &verb, Some(at));
        }
    }
}

// A reading: the block's name, how many words are read at most, and then how many words were saved and how many reads done.
#[derive(Drop)]
struct Row(char, u8, u64, u64);

// Does the readings in order; the number of the first one that comes to other numbers than its row says.
fn wrong_row(cache: &mut BlockCache, node: &mut StillNode, rows: &[Row]) -> Option<usize>
    requires { Keeps (still node.old.log.geometry) node.old.log.entries cache.old }
{
    for n in 0..rows.len() {
        let Row(name, most, saved, reads) = rows[n];
        let at = address_of(name);
        let Some(block) = block_named(name) else {
            return Some(n);
        };
        if !stands(&node.log, at, &block) {
            return Some(n);
        }
        read_words(cache, node, at, &block, most);
        if cache.saved() != saved || node.reads != reads {
            return Some(n);
        }
    }
    None
}

// Caches of 1, of 2 and of 1,024 blocks. The last reading of a table is cut short.
#[test]
fn readings_beside_the_definition(rt: HostRuntime) -> Result<(), Fail> {
    let geometry = Geometry::check(1, 0, 0, 1, 1000)?;
    let mut log = Log::new(rt.alloc(), geometry);
    for name in ['a', 'b', 'c'] {
        let block = block_named(name).ok_or("no block")?;
        put_block(&mut log, address_of(name), &block)?;
    }
    let mut node = StillNode { log, reads: 0 };

    let one = [
        Row('a', 9, 0, 3),
        Row('a', 9, 3, 3),
        Row('b', 9, 3, 5),
        Row('a', 9, 3, 8),
        Row('a', 9, 6, 8),
        Row('c', 4, 6, 12),
    ];
    let mut cache = BlockCache::make(rt.alloc(), 1)?;
    assert_eq!(rt; wrong_row(&mut cache, &mut node, &one), None, "1 block");

    // At the reading of `c` the block `b` goes, which was read before `a`.
    let two = [
        Row('a', 9, 0, 3),
        Row('b', 9, 0, 5),
        Row('a', 9, 3, 5),
        Row('c', 9, 3, 10),
        Row('a', 9, 6, 10),
        Row('b', 9, 6, 12),
        Row('c', 9, 6, 17),
        Row('b', 9, 8, 17),
        Row('c', 2, 10, 17),
    ];
    node.reads = 0;
    let mut cache = BlockCache::make(rt.alloc(), 2)?;
    assert_eq!(rt; wrong_row(&mut cache, &mut node, &two), None, "2 blocks");

    let many = [
        Row('a', 9, 0, 3),
        Row('b', 9, 0, 5),
        Row('c', 9, 0, 10),
        Row('a', 9, 3, 10),
        Row('b', 9, 5, 10),
        Row('c', 9, 10, 10),
        Row('a', 1, 11, 10),
    ];
    node.reads = 0;
    let mut cache = BlockCache::make(rt.alloc(), 1024)?;
    assert_eq!(rt;
        wrong_row(&mut cache, &mut node, &many),
        None,
        "1,024 blocks"
    );
    Ok(())
}
