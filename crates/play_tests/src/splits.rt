//! Calls beside a split and beside one another, played by their schedule, and two nodes.

use crate::plays::expect;
use std::test::Fail;

// Two keys with one hash: delete takes the right one.
const EQUAL_FINGERPRINTS_SCRIPT: &[u8] = b"race 1\n\
    table groups=1 depth=0 words=100 tries=3\n\
    hash k 1100000000000000\n\
    hash j 1100000000000000\n\
    client a\n\
    insert k 1\n\
    insert j 2\n\
    delete j\n\
    search k\n\
    search j\n\
    end\n";

const EQUAL_FINGERPRINTS_REPORT: &[u8] = b"race 1 replay\n\
    a 1 insert k 1 inserted @0\n\
    a 2 insert j 2 inserted @1\n\
    a 3 delete j deleted 2 @2\n\
    a 4 search k found 1 @3\n\
    a 5 search j missing @3\n\
    map k 1\n\
    end calls=5 open=0 changes=3 next=53\n";

// A key that stands at both ends of a search, and not between, is missed.
const KEY_AT_BOTH_ENDS_SCRIPT: &[u8] = b"race 1\n\
    table groups=1 depth=0 words=100 tries=3\n\
    hash f 0100000000000000\n\
    hash k 0200000000000000\n\
    client s\n\
    insert f 1\n\
    insert k 1\n\
    delete f\n\
    delete k\n\
    insert k 2\n\
    client r\n\
    search k\n\
    schedule s! s! r*10 s! s! s! r!\n\
    end\n";

const KEY_AT_BOTH_ENDS_REPORT: &[u8] = b"race 1 replay\n\
    s 1 insert f 1 inserted @0\n\
    s 2 insert k 1 inserted @1\n\
    s 3 delete f deleted 1 @2\n\
    s 4 delete k deleted 1 @3\n\
    s 5 insert k 2 inserted @4\n\
    r 1 search k missing @4\n\
    map k 2\n\
    end calls=6 open=0 changes=5 next=56\n";

// Both inserts of one key have placed before either sweeps: each drops the other, and one wins with a second block.
const TWO_INSERTS_BOTH_PLACED_SCRIPT: &[u8] = b"race 1\n\
    table groups=1 depth=0 words=100 tries=3\n\
    hash k 0000000000000000\n\
    client a\n\
    insert k 1\n\
    client b\n\
    insert k 2\n\
    client c\n\
    search k\n\
    schedule a*31 b*31 c! b*26 a! b!\n\
    end\n";

const TWO_INSERTS_BOTH_PLACED_REPORT: &[u8] = b"race 1 replay\n\
    a 1 insert k 1 inserted @0\n\
    b 1 insert k 2 exists 1 @1\n\
    c 1 search k missing @0\n\
    map k 1\n\
    end calls=3 open=0 changes=1 next=56\n";

// The same where no swap may be lost: both answer Again, and nothing has changed.
const TWO_INSERTS_ONE_TRY_SCRIPT: &[u8] = b"race 1\n\
    table groups=1 depth=0 words=100 tries=1\n\
    hash k 0000000000000000\n\
    client a\n\
    insert k 1\n\
    client b\n\
    insert k 2\n\
    client c\n\
    search k\n\
    schedule a*31 b*31 c! b*26 a! b!\n\
    end\n";

const TWO_INSERTS_ONE_TRY_REPORT: &[u8] = b"race 1 replay\n\
    a 1 insert k 1 again 1\n\
    b 1 insert k 2 again 1\n\
    c 1 search k missing @0\n\
    end calls=3 open=0 changes=0 next=53\n";

// A search after Copy, after Flip, after Settle and after the split.
const SEARCH_THROUGH_SPLIT_SCRIPT: &[u8] = b"race 1\n\
    table groups=1 depth=1 words=200 tries=3\n\
    hash k 0000000000000001\n\
    client s\n\
    insert k 1\n\
    client m\n\
    resize k\n\
    client r\n\
    search k\n\
    search k\n\
    search k\n\
    search k\n\
    schedule s! m*22 r! m r! m r! m! r!\n\
    end\n";

const SEARCH_THROUGH_SPLIT_REPORT: &[u8] = b"race 1 replay\n\
    s 1 insert k 1 inserted @0\n\
    m 1 resize k split 4 1\n\
    r 1 search k found 1 @1\n\
    r 2 search k found 1 @1\n\
    r 3 search k found 1 @1\n\
    r 4 search k found 1 @1\n\
    map k 1\n\
    end calls=6 open=0 changes=1 next=95\n";

// A stale client places into the parent just after Begin, withdraws, and commits in the child.
const STALE_INSERT_AFTER_BEGIN_SCRIPT: &[u8] = b"race 1\n\
    table groups=1 depth=1 words=200 tries=3\n\
    hash k 0000000000000001\n\
    client a\n\
    insert k 1\n\
    client m\n\
    resize k\n\
    client r\n\
    search k\n\
    schedule a*30 m*17 a! m! r!\n\
    end\n";

const STALE_INSERT_AFTER_BEGIN_REPORT: &[u8] = b"race 1 replay\n\
    a 1 insert k 1 inserted @0\n\
    m 1 resize k split 4 1\n\
    r 1 search k found 1 @1\n\
    map k 1\n\
    end calls=3 open=0 changes=1 next=98\n";

// The split has begun one bucket header: the inserting client helps with the second Begin and Open.
const HELPED_BEGIN_SCRIPT: &[u8] = b"race 1\n\
    table groups=1 depth=1 words=200 tries=3\n\
    hash k 0000000000000001\n\
    client a\n\
    insert k 1\n\
    client m\n\
    resize k\n\
    client r\n\
    search k\n\
    schedule a*30 m*15 a! m! r!\n\
    end\n";

const HELPED_BEGIN_REPORT: &[u8] = b"race 1 replay\n\
    a 1 insert k 1 inserted @0\n\
    m 1 resize k split 4 1\n\
    r 1 search k found 1 @1\n\
    map k 1\n\
    end calls=3 open=0 changes=1 next=98\n";

// An update between Copy and Flip: the split clears its copy and reads the place again.
const UPDATE_BETWEEN_SCRIPT: &[u8] = b"race 1\n\
    table groups=1 depth=1 words=200 tries=3\n\
    hash k 0000000000000001\n\
    client s\n\
    insert k 1\n\
    client m\n\
    resize k\n\
    client u\n\
    update k 2\n\
    client r\n\
    search k\n\
    schedule s! m*22 u! m! r!\n\
    end\n";

const UPDATE_BETWEEN_REPORT: &[u8] = b"race 1 replay\n\
    s 1 insert k 1 inserted @0\n\
    m 1 resize k split 4 1\n\
    u 1 update k 2 updated 1 @1\n\
    r 1 search k found 2 @2\n\
    map k 2\n\
    end calls=4 open=0 changes=2 next=98\n";

// The same where no swap may be lost: the split answers Again, and the next call goes on with its ticket.
const UPDATE_BETWEEN_ONE_TRY_SCRIPT: &[u8] = b"race 1\n\
    table groups=1 depth=1 words=200 tries=1\n\
    hash k 0000000000000001\n\
    client s\n\
    insert k 1\n\
    client m\n\
    resize k\n\
    resize k\n\
    client u\n\
    update k 2\n\
    client r\n\
    search k\n\
    search k\n\
    schedule s! m*22 u! m! r! m! r!\n\
    end\n";

const UPDATE_BETWEEN_ONE_TRY_REPORT: &[u8] = b"race 1 replay\n\
    s 1 insert k 1 inserted @0\n\
    m 1 resize k again 1\n\
    m 2 resize k split 4 1\n\
    u 1 update k 2 updated 1 @1\n\
    r 1 search k found 2 @2\n\
    r 2 search k found 2 @2\n\
    map k 2\n\
    end calls=6 open=0 changes=2 next=98\n";

// A delete between Copy and Flip, and then an insert into the child.
const DELETE_BETWEEN_SCRIPT: &[u8] = b"race 1\n\
    table groups=1 depth=1 words=200 tries=3\n\
    hash k 0000000000000001\n\
    client s\n\
    insert k 1\n\
    client m\n\
    resize k\n\
    client d\n\
    delete k\n\
    insert k 3\n\
    client r\n\
    search k\n\
    schedule s! m*22 d! m! d! r!\n\
    end\n";

const DELETE_BETWEEN_REPORT: &[u8] = b"race 1 replay\n\
    s 1 insert k 1 inserted @0\n\
    m 1 resize k split 4 1\n\
    d 1 delete k deleted 1 @1\n\
    d 2 insert k 3 inserted @2\n\
    r 1 search k found 3 @3\n\
    map k 3\n\
    end calls=5 open=0 changes=3 next=98\n";

// A client that stopped for ever inside its split: a split of that table answers Again, a search finds.
const STOPPED_SPLITTER_SCRIPT: &[u8] = b"race 1\n\
    table groups=1 depth=1 words=400 tries=1\n\
    hash k01 0000000000000000\n\
    hash k02 0000000000000000\n\
    hash k03 0000000000000000\n\
    hash k04 0000000000000000\n\
    hash k05 0000000000000000\n\
    hash k06 0000000000000000\n\
    hash k07 0000000000000000\n\
    hash k08 0000000000000000\n\
    hash k09 0000000000000000\n\
    hash k10 0000000000000000\n\
    hash k11 0000000000000000\n\
    hash k12 0000000000000000\n\
    hash k13 0000000000000000\n\
    hash k14 0000000000000000\n\
    hash k15 0000000000000000\n\
    hash k16 0000000000000000\n\
    hash k17 0000000000000000\n\
    hash k18 0000000000000000\n\
    hash k19 0000000000000000\n\
    hash k20 0000000000000000\n\
    hash k21 0000000000000000\n\
    hash k22 0000000000000000\n\
    client s\n\
    insert k01 1\n\
    insert k02 1\n\
    insert k03 1\n\
    insert k04 1\n\
    insert k05 1\n\
    insert k06 1\n\
    insert k07 1\n\
    insert k08 1\n\
    insert k09 1\n\
    insert k10 1\n\
    insert k11 1\n\
    insert k12 1\n\
    insert k13 1\n\
    insert k14 1\n\
    insert k15 1\n\
    insert k16 1\n\
    insert k17 1\n\
    insert k18 1\n\
    insert k19 1\n\
    insert k20 1\n\
    insert k21 1\n\
    client m\n\
    resize k01\n\
    client b\n\
    insert k22 1\n\
    search k01\n\
    stop m 13\n\
    end\n";

const STOPPED_SPLITTER_REPORT: &[u8] = b"race 1 replay\n\
    s 1 insert k01 1 inserted @0\n\
    s 2 insert k02 1 inserted @1\n\
    s 3 insert k03 1 inserted @2\n\
    s 4 insert k04 1 inserted @3\n\
    s 5 insert k05 1 inserted @4\n\
    s 6 insert k06 1 inserted @5\n\
    s 7 insert k07 1 inserted @6\n\
    s 8 insert k08 1 inserted @7\n\
    s 9 insert k09 1 inserted @8\n\
    s 10 insert k10 1 inserted @9\n\
    s 11 insert k11 1 inserted @10\n\
    s 12 insert k12 1 inserted @11\n\
    s 13 insert k13 1 inserted @12\n\
    s 14 insert k14 1 inserted @13\n\
    s 15 insert k15 1 inserted @14\n\
    s 16 insert k16 1 inserted @15\n\
    s 17 insert k17 1 inserted @16\n\
    s 18 insert k18 1 inserted @17\n\
    s 19 insert k19 1 inserted @18\n\
    s 20 insert k20 1 inserted @19\n\
    s 21 insert k21 1 inserted @20\n\
    m 1 resize k01 open\n\
    b 1 insert k22 1 again 1\n\
    b 2 search k01 found 1 @21\n\
    map k01 1\n\
    map k02 1\n\
    map k03 1\n\
    map k04 1\n\
    map k05 1\n\
    map k06 1\n\
    map k07 1\n\
    map k08 1\n\
    map k09 1\n\
    map k10 1\n\
    map k11 1\n\
    map k12 1\n\
    map k13 1\n\
    map k14 1\n\
    map k15 1\n\
    map k16 1\n\
    map k17 1\n\
    map k18 1\n\
    map k19 1\n\
    map k20 1\n\
    map k21 1\n\
    end calls=23 open=1 changes=21 next=155\n";

// An update that another overtakes, where no swap may be lost.
const UPDATE_OVERTAKEN_ONE_TRY_SCRIPT: &[u8] = b"race 1\n\
    table groups=1 depth=0 words=100 tries=1\n\
    hash k 0000000000000000\n\
    client s\n\
    insert k 1\n\
    client u\n\
    update k 2\n\
    client v\n\
    update k 3\n\
    schedule s! u*12 v! u!\n\
    end\n";

const UPDATE_OVERTAKEN_ONE_TRY_REPORT: &[u8] = b"race 1 replay\n\
    s 1 insert k 1 inserted @0\n\
    u 1 update k 2 again 1\n\
    v 1 update k 3 updated 1 @1\n\
    map k 3\n\
    end calls=3 open=0 changes=2 next=56\n";

// The same where one may be.
const UPDATE_OVERTAKEN_TWO_TRIES_SCRIPT: &[u8] = b"race 1\n\
    table groups=1 depth=0 words=100 tries=2\n\
    hash k 0000000000000000\n\
    client s\n\
    insert k 1\n\
    client u\n\
    update k 2\n\
    client v\n\
    update k 3\n\
    schedule s! u*12 v! u!\n\
    end\n";

const UPDATE_OVERTAKEN_TWO_TRIES_REPORT: &[u8] = b"race 1 replay\n\
    s 1 insert k 1 inserted @0\n\
    u 1 update k 2 updated 3 @2\n\
    v 1 update k 3 updated 1 @1\n\
    map k 2\n\
    end calls=3 open=0 changes=3 next=56\n";

// Update, delete and resize where the map is empty.
const NOTHING_HELD_SCRIPT: &[u8] = b"race 1\n\
    table groups=1 depth=0 words=100 tries=3\n\
    client a\n\
    update k 1\n\
    delete k\n\
    resize k\n\
    end\n";

const NOTHING_HELD_REPORT: &[u8] = b"race 1 replay\n\
    a 1 update k 1 missing @0\n\
    a 2 delete k missing @0\n\
    a 3 resize k full-depth 0\n\
    end calls=3 open=0 changes=0 next=47\n";

// Two nodes and a first depth of 1.
const TWO_NODES_SCRIPT: &[u8] = b"race 2\n\
    table groups=1 depth=2 first=1 nodes=2 words=200 tries=3\n\
    hash k 0000000000000001\n\
    client a\n\
    insert k 1\n\
    search k\n\
    end\n";

const TWO_NODES_REPORT: &[u8] = b"race 2 replay\n\
    a 1 insert k 1 inserted @0\n\
    a 2 search k found 1 @1\n\
    map k 1\n\
    end calls=2 open=0 changes=1 next=97,101\n";

#[test]
fn worked_rows(rt: HostRuntime) -> Result<(), Fail> {
    for (script, report) in [
        (EQUAL_FINGERPRINTS_SCRIPT, EQUAL_FINGERPRINTS_REPORT),
        (KEY_AT_BOTH_ENDS_SCRIPT, KEY_AT_BOTH_ENDS_REPORT),
        (
            TWO_INSERTS_BOTH_PLACED_SCRIPT,
            TWO_INSERTS_BOTH_PLACED_REPORT,
        ),
        (TWO_INSERTS_ONE_TRY_SCRIPT, TWO_INSERTS_ONE_TRY_REPORT),
        (SEARCH_THROUGH_SPLIT_SCRIPT, SEARCH_THROUGH_SPLIT_REPORT),
        (
            STALE_INSERT_AFTER_BEGIN_SCRIPT,
            STALE_INSERT_AFTER_BEGIN_REPORT,
        ),
        (HELPED_BEGIN_SCRIPT, HELPED_BEGIN_REPORT),
        (UPDATE_BETWEEN_SCRIPT, UPDATE_BETWEEN_REPORT),
        (UPDATE_BETWEEN_ONE_TRY_SCRIPT, UPDATE_BETWEEN_ONE_TRY_REPORT),
        (DELETE_BETWEEN_SCRIPT, DELETE_BETWEEN_REPORT),
        (STOPPED_SPLITTER_SCRIPT, STOPPED_SPLITTER_REPORT),
        (
            UPDATE_OVERTAKEN_ONE_TRY_SCRIPT,
            UPDATE_OVERTAKEN_ONE_TRY_REPORT,
        ),
        (
            UPDATE_OVERTAKEN_TWO_TRIES_SCRIPT,
            UPDATE_OVERTAKEN_TWO_TRIES_REPORT,
        ),
        (NOTHING_HELD_SCRIPT, NOTHING_HELD_REPORT),
        (TWO_NODES_SCRIPT, TWO_NODES_REPORT),
    ] {
        expect(&rt, rt.alloc(), "replay", script, &[], &[], 4096, 0, report)?;
    }
    Ok(())
}
