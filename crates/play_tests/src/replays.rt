//! Scripts that are played by their schedule.

use crate::plays::{SMALLEST_RUN_SCRIPT, expect};
use race_io::{CleanSink, CleanSource, MemorySink, MemorySource, OpenGate};
use race_play::race;
use std::test::Fail;

const SMALLEST_RUN_REPORT: &[u8] = b"race 1 replay\n\
    a 1 insert k 1 inserted @0\n\
    a 2 search k found 1 @1\n\
    a 3 search j missing @1\n\
    map k 1\n\
    end calls=3 open=0 changes=1 next=50\n";

const NO_CALLS_SCRIPT: &[u8] = b"race 1\n\
    table groups=1 depth=0 words=100 tries=3\n\
    client a\n\
    end\n";

const NO_CALLS_REPORT: &[u8] = b"race 1 replay\n\
    end calls=0 open=0 changes=0 next=47\n";

const INSERTED_TWICE_SCRIPT: &[u8] = b"race 1\n\
    table groups=1 depth=0 words=100 tries=3\n\
    client a\n\
    insert k 1\n\
    insert k 2\n\
    end\n";

const INSERTED_TWICE_REPORT: &[u8] = b"race 1 replay\n\
    a 1 insert k 1 inserted @0\n\
    a 2 insert k 2 exists 1 @1\n\
    map k 1\n\
    end calls=2 open=0 changes=1 next=50\n";

const NO_ROOM_FOR_BLOCK_SCRIPT: &[u8] = b"race 1\n\
    table groups=1 depth=0 words=49 tries=3\n\
    client a\n\
    insert k 1\n\
    end\n";

const NO_ROOM_FOR_BLOCK_REPORT: &[u8] = b"race 1 replay\n\
    a 1 insert k 1 no-block 47 3\n\
    end calls=1 open=0 changes=0 next=47\n";

const ROOM_FOR_BLOCK_SCRIPT: &[u8] = b"race 1\n\
    table groups=1 depth=0 words=50 tries=3\n\
    client a\n\
    insert k 1\n\
    end\n";

const ROOM_FOR_BLOCK_REPORT: &[u8] = b"race 1 replay\n\
    a 1 insert k 1 inserted @0\n\
    map k 1\n\
    end calls=1 open=0 changes=1 next=50\n";

const ONE_TABLE_FULL_SCRIPT: &[u8] = b"race 1\n\
    table groups=1 depth=0 words=200 tries=3\n\
    client a\n\
    insert k01 1\n\
    insert k02 1\n\
    insert k03 1\n\
    insert k04 1\n\
    insert k05 1\n\
    insert k06 1\n\
    insert k07 1\n\
    insert k08 1\n\
    insert k09 1\n\
    insert k10 1\n\
    insert k11 1\n\
    insert k12 1\n\
    insert k13 1\n\
    insert k14 1\n\
    insert k15 1\n\
    insert k16 1\n\
    insert k17 1\n\
    insert k18 1\n\
    insert k19 1\n\
    insert k20 1\n\
    insert k21 1\n\
    insert k22 1\n\
    end\n";

const ONE_TABLE_FULL_REPORT: &[u8] = b"race 1 replay\n\
    a 1 insert k01 1 inserted @0\n\
    a 2 insert k02 1 inserted @1\n\
    a 3 insert k03 1 inserted @2\n\
    a 4 insert k04 1 inserted @3\n\
    a 5 insert k05 1 inserted @4\n\
    a 6 insert k06 1 inserted @5\n\
    a 7 insert k07 1 inserted @6\n\
    a 8 insert k08 1 inserted @7\n\
    a 9 insert k09 1 inserted @8\n\
    a 10 insert k10 1 inserted @9\n\
    a 11 insert k11 1 inserted @10\n\
    a 12 insert k12 1 inserted @11\n\
    a 13 insert k13 1 inserted @12\n\
    a 14 insert k14 1 inserted @13\n\
    a 15 insert k15 1 inserted @14\n\
    a 16 insert k16 1 inserted @15\n\
    a 17 insert k17 1 inserted @16\n\
    a 18 insert k18 1 inserted @17\n\
    a 19 insert k19 1 inserted @18\n\
    a 20 insert k20 1 inserted @19\n\
    a 21 insert k21 1 inserted @20\n\
    a 22 insert k22 1 full-depth 0\n\
    map k01 1\n\
    map k02 1\n\
    map k03 1\n\
    map k04 1\n\
    map k05 1\n\
    map k06 1\n\
    map k07 1\n\
    map k08 1\n\
    map k09 1\n\
    map k10 1\n\
    map k11 1\n\
    map k12 1\n\
    map k13 1\n\
    map k14 1\n\
    map k15 1\n\
    map k16 1\n\
    map k17 1\n\
    map k18 1\n\
    map k19 1\n\
    map k20 1\n\
    map k21 1\n\
    end calls=22 open=0 changes=21 next=110\n";

const SECOND_INSERT_WINS_SCRIPT: &[u8] = b"race 1\n\
    table groups=1 depth=0 words=100 tries=3\n\
    hash k 0000000000000000\n\
    client a\n\
    insert k 1\n\
    client b\n\
    insert k 2\n\
    schedule a*31 b! a!\n\
    end\n";

const SECOND_INSERT_WINS_REPORT: &[u8] = b"race 1 replay\n\
    a 1 insert k 1 exists 2 @1\n\
    b 1 insert k 2 inserted @0\n\
    map k 2\n\
    end calls=2 open=0 changes=1 next=53\n";

const FINISHED_INSERT_KEPT_SCRIPT: &[u8] = b"race 1\n\
    table groups=1 depth=0 words=100 tries=3\n\
    hash x 0100000000000000\n\
    hash y 0200000000000000\n\
    hash k 0300000000000000\n\
    client s\n\
    insert x 9\n\
    insert y 9\n\
    delete x\n\
    client a\n\
    insert k 1\n\
    client b\n\
    insert k 2\n\
    client c\n\
    delete k\n\
    schedule s! s! a*25 s! b*25 a! b*6 c! b!\n\
    end\n";

const FINISHED_INSERT_KEPT_REPORT: &[u8] = b"race 1 replay\n\
    s 1 insert x 9 inserted @0\n\
    s 2 insert y 9 inserted @1\n\
    s 3 delete x deleted 9 @2\n\
    a 1 insert k 1 inserted @3\n\
    b 1 insert k 2 inserted @5\n\
    c 1 delete k deleted 1 @4\n\
    map k 2\n\
    map y 9\n\
    end calls=6 open=0 changes=6 next=59\n";

const STOP_INSIDE_SECOND_SEARCH_SCRIPT: &[u8] = b"race 1\n\
    table groups=1 depth=0 words=100 tries=3\n\
    client a\n\
    search j\n\
    search j\n\
    stop a 47\n\
    end\n";

const STOP_INSIDE_SECOND_SEARCH_REPORT: &[u8] = b"race 1 replay\n\
    a 1 search j missing @0\n\
    a 2 search j open\n\
    end calls=1 open=1 changes=0 next=47\n";

// The worked rows of one client, and of several under a schedule.
#[test]
fn worked_rows(rt: HostRuntime) -> Result<(), Fail> {
    for (script, report) in [
        (SMALLEST_RUN_SCRIPT, SMALLEST_RUN_REPORT),
        (NO_CALLS_SCRIPT, NO_CALLS_REPORT),
        (INSERTED_TWICE_SCRIPT, INSERTED_TWICE_REPORT),
        (NO_ROOM_FOR_BLOCK_SCRIPT, NO_ROOM_FOR_BLOCK_REPORT),
        (ROOM_FOR_BLOCK_SCRIPT, ROOM_FOR_BLOCK_REPORT),
        (ONE_TABLE_FULL_SCRIPT, ONE_TABLE_FULL_REPORT),
        (SECOND_INSERT_WINS_SCRIPT, SECOND_INSERT_WINS_REPORT),
        (FINISHED_INSERT_KEPT_SCRIPT, FINISHED_INSERT_KEPT_REPORT),
        (
            STOP_INSIDE_SECOND_SEARCH_SCRIPT,
            STOP_INSIDE_SECOND_SEARCH_REPORT,
        ),
    ] {
        expect(&rt, rt.alloc(), "replay", script, &[], &[], 4096, 0, report)?;
    }
    Ok(())
}

// The largest key and value: the first block has 2 words, the second 137.
#[test]
fn largest_sizes(rt: HostRuntime) -> Result<(), Fail> {
    let mut pair = Vec::new(rt.alloc());
    for _ in 0..64 {
        pair.push(b'q')?;
    }
    pair.push(b' ')?;
    for _ in 0..1024 {
        pair.push(b'v')?;
    }
    let mut script = Vec::new(rt.alloc());
    for part in [
        b"race 1\ntable groups=1 depth=0 words=186 tries=3\nclient a\ninsert e %\ninsert ".as_slice(),
        pair.as_slice(),
        b"\nsearch e\nend\n".as_slice(),
    ] {
        script.extend_from_slice(part)?;
    }
    let mut report = Vec::new(rt.alloc());
    for part in [
        b"race 1 replay\na 1 insert e % inserted @0\na 2 insert ".as_slice(),
        pair.as_slice(),
        b" inserted @1\na 3 search e found % @2\nmap e %\nmap ".as_slice(),
        pair.as_slice(),
        b"\nend calls=3 open=0 changes=2 next=186\n".as_slice(),
    ] {
        report.extend_from_slice(part)?;
    }
    expect(
        &rt,
        rt.alloc(),
        "replay",
        &script,
        &[],
        &[],
        4096,
        0,
        &report,
    )?;
    Ok(())
}

#[test]
fn words_that_are_no_command(rt: HostRuntime) {
    let none: &[&str] = &[];
    let now: &[&str] = &["replay", "now"];
    let zero: &[&str] = &["storm", "01", "2", "5"];
    let crowd: &[&str] = &["storm", "1", "17", "5"];
    for words in [none, now, zero, crowd] {
        let mut source = CleanSource::new(SMALLEST_RUN_SCRIPT);
        let ended = race(
            &rt,
            rt.alloc(),
            words,
            &mut source,
            &mut CleanSink::new(),
            &OpenGate,
        );
        assert_eq!(rt; ended.status, 2);
    }
}

// The smallest run from a source, and to a sink, whose call number k fails. The whole script comes at the first
// take, and the second finds its end; the whole report goes at the first put.
#[test]
fn faults(rt: HostRuntime) -> Result<(), Fail> {
    let (script, report) = (SMALLEST_RUN_SCRIPT, SMALLEST_RUN_REPORT);
    for (k, status, written) in [
        (1, 4, b"".as_slice()),
        (2, 4, b"".as_slice()),
        (3, 0, report),
        (4, 0, report),
    ] {
        expect(
            &rt,
            rt.alloc(),
            "replay",
            script,
            &[k],
            &[],
            4096,
            status,
            written,
        )?;
    }
    for (k, status, written) in [
        (1, 5, b"".as_slice()),
        (2, 0, report),
        (3, 0, report),
        (4, 0, report),
    ] {
        expect(
            &rt,
            rt.alloc(),
            "replay",
            script,
            &[],
            &[k],
            4096,
            status,
            written,
        )?;
    }
    expect(
        &rt,
        rt.alloc(),
        "replay",
        script,
        &[],
        &[],
        10,
        5,
        b"race 1 rep",
    )?;
    Ok(())
}

// No proper prefix of the smallest run's script is a script: its last line has no line feed, or there is no `end`.
#[test]
fn cut_scripts(rt: HostRuntime) -> Result<(), Fail> {
    let script = SMALLEST_RUN_SCRIPT;
    let mut line = *b"refused line 1 end\n";
    for (len, byte) in script.iter().enumerate() {
        expect(
            &rt,
            rt.alloc(),
            "replay",
            &script[..len],
            &[],
            &[],
            4096,
            3,
            &line,
        )?;
        if *byte == b'\n' {
            line[13] = line[13].wrapping_add(1);
        }
    }
    Ok(())
}

// A script that is refused, and a sink that fails takes a part of the line.
#[test]
fn refused_scripts(rt: HostRuntime) -> Result<(), Fail> {
    let script =
        b"race 1\ntable groups=1 depth=0 words=100 tries=3\nclient a\ninsert k 1\nsearch\nend\n";
    let line = b"refused line 5 word\n";
    expect(&rt, rt.alloc(), "replay", script, &[], &[], 4096, 3, line)?;
    expect(&rt, rt.alloc(), "replay", script, &[], &[1], 4096, 3, b"")?;
    expect(
        &rt,
        rt.alloc(),
        "replay",
        script,
        &[],
        &[],
        10,
        3,
        b"refused li",
    )?;
    Ok(())
}

// Where memory is wanting the status is 6 and nothing is written, and else the row comes: for runs in which one
// allocation fails.
#[test]
fn smallest_run_or_want_of_memory(rt: HostRuntime) {
    let Ok(room) = vec![in rt.alloc(); 0u8; 4096] else {
        return;
    };
    let mut source = CleanSource::new(SMALLEST_RUN_SCRIPT);
    let mut sink = MemorySink::new(room, &[]);
    let ended = race(
        &rt,
        rt.alloc(),
        &["replay"],
        &mut source,
        &mut sink,
        &OpenGate,
    );
    if ended.status == 6 {
        assert_eq!(rt; sink.taken(), b"".as_slice());
    } else {
        assert_eq!(rt; ended.status, 0);
        assert_eq!(rt; sink.taken(), SMALLEST_RUN_REPORT);
    }
}

const STORM_OF_FOUR: &[u8] = b"race 1 storm 7 4 250\n\
    inserted 229\n\
    exists 253\n\
    found 157\n\
    missing 222\n\
    updated 65\n\
    deleted 74\n\
    again 0\n\
    full-depth 0\n\
    full-words 0\n\
    no-block 0\n\
    keys 155\n\
    end calls=1000 open=0 changes=368 next=4586\n";

// A storm reads nothing, and its summary is that of the specification.
#[test]
fn storm_of_four(rt: HostRuntime) -> Result<(), Fail> {
    let mut source = MemorySource::new(SMALLEST_RUN_SCRIPT, &[1]);
    let mut sink = MemorySink::new(vec![in rt.alloc(); 0u8; 4096]?, &[]);
    let words = ["storm", "7", "4", "250"];
    let ended = race(&rt, rt.alloc(), &words, &mut source, &mut sink, &OpenGate);
    assert_eq!(rt; ended.status, 0);
    assert_eq!(rt; sink.taken(), STORM_OF_FOUR);
    Ok(())
}
