//! Plays on threads.

use crate::meeting::Meeting;
use crate::plays::{SMALLEST_RUN_SCRIPT, expect, joined};
use race_io::{CleanSource, MemorySink, OpenGate};
use race_play::race;
use std::alloc::{AllocError, Global};
use std::test::Fail;

const SMALLEST_RUN_REPORT: &[u8] = b"race 1 run\n\
    a 1 insert k 1 inserted 0>47\n\
    a 2 search k found 1 =47\n\
    a 3 search j missing =0\n\
    map k 1\n\
    end calls=3 open=0 changes=1 next=50\n";

const TWO_CLIENTS_SCRIPT: &[u8] = b"race 1\n\
    table groups=1 depth=0 words=100 tries=3\n\
    client a\n\
    search j\n\
    search j\n\
    client b\n\
    search j\n\
    search j\n\
    end\n";

const TWO_CLIENTS_REPORT: &[u8] = b"race 1 run\n\
    a 1 search j missing =0\n\
    a 2 search j missing =0\n\
    b 1 search j missing =0\n\
    b 2 search j missing =0\n\
    end calls=4 open=0 changes=0 next=47\n";

// The smallest run: its blocks and its next word are those of the protocol.
#[test]
fn smallest_run(rt: HostRuntime) -> Result<(), Fail> {
    let (script, report) = (SMALLEST_RUN_SCRIPT, SMALLEST_RUN_REPORT);
    expect(&rt, rt.alloc(), "run", script, &[], &[], 4096, 0, report)?;
    Ok(())
}

// The workers of both clients are there at once: else one of them waits in vain.
#[test]
fn workers_wait_for_one_another(rt: HostRuntime) -> Result<(), Fail> {
    let gate = Meeting::new();
    let mut source = CleanSource::new(TWO_CLIENTS_SCRIPT);
    let mut sink = MemorySink::new(vec![in rt.alloc(); 0u8; 4096]?, &[]);
    let ended = race(&rt, rt.alloc(), &["run"], &mut source, &mut sink, &gate);
    assert_eq!(rt; gate.gave_up(), 0);
    assert_eq!(rt; ended.status, 0);
    assert_eq!(rt; sink.taken(), TWO_CLIENTS_REPORT);
    Ok(())
}

// Where memory is wanting the status is 6 and nothing is written, and else the row comes: for runs in which one allocation fails.
#[test]
fn smallest_run_or_want_of_memory(rt: HostRuntime) {
    let Ok(room) = vec![in rt.alloc(); 0u8; 4096] else {
        return;
    };
    let mut source = CleanSource::new(SMALLEST_RUN_SCRIPT);
    let mut sink = MemorySink::new(room, &[]);
    let ended = race(&rt, rt.alloc(), &["run"], &mut source, &mut sink, &OpenGate);
    if ended.status == 6 {
        assert_eq!(rt; sink.taken(), b"".as_slice());
    } else {
        assert_eq!(rt; ended.status, 0);
        assert_eq!(rt; sink.taken(), SMALLEST_RUN_REPORT);
    }
}

// Two searches of a key that is not there, and the verb after which their client stops: the first has 25 verbs, the second, whose
// table is known, 23. A call that has done no verb has no line.
#[test]
fn stops(rt: HostRuntime) -> Result<(), Fail> {
    for (stop, lines, end) in [
        ("0", "", "end calls=0 open=0 changes=0 next=47\n"),
        (
            "1",
            "a 1 search j open\n",
            "end calls=0 open=1 changes=0 next=47\n",
        ),
        (
            "24",
            "a 1 search j open\n",
            "end calls=0 open=1 changes=0 next=47\n",
        ),
        (
            "25",
            "a 1 search j missing =0\n",
            "end calls=1 open=0 changes=0 next=47\n",
        ),
        (
            "26",
            "a 1 search j missing =0\na 2 search j open\n",
            "end calls=1 open=1 changes=0 next=47\n",
        ),
        (
            "47",
            "a 1 search j missing =0\na 2 search j open\n",
            "end calls=1 open=1 changes=0 next=47\n",
        ),
        (
            "48",
            "a 1 search j missing =0\na 2 search j missing =0\n",
            "end calls=2 open=0 changes=0 next=47\n",
        ),
        (
            "49",
            "a 1 search j missing =0\na 2 search j missing =0\n",
            "end calls=2 open=0 changes=0 next=47\n",
        ),
    ] {
        let script = joined(
            rt.alloc(),
            &[
                "race 1\ntable groups=1 depth=0 words=100 tries=3\nclient a\nsearch j\nsearch j\nstop a ",
                stop,
                "\nend\n",
            ],
        )?;
        let report = joined(rt.alloc(), &["race 1 run\n", lines, end])?;
        expect(&rt, rt.alloc(), "run", &script, &[], &[], 4096, 0, &report)?;
    }
    Ok(())
}

// The smallest run from a source, and to a sink, whose call number k fails. The whole script comes at the first take, and the second
// finds its end; the whole report goes at the first put.
#[test]
fn faults(rt: HostRuntime) -> Result<(), Fail> {
    let (script, report) = (SMALLEST_RUN_SCRIPT, SMALLEST_RUN_REPORT);
    for (k, status, written) in [
        (1, 4, b"".as_slice()),
        (2, 4, b"".as_slice()),
        (3, 0, report),
        (4, 0, report),
    ] {
        expect(
            &rt,
            rt.alloc(),
            "run",
            script,
            &[k],
            &[],
            4096,
            status,
            written,
        )?;
    }
    for (k, status, written) in [
        (1, 5, b"".as_slice()),
        (2, 0, report),
        (3, 0, report),
        (4, 0, report),
    ] {
        expect(
            &rt,
            rt.alloc(),
            "run",
            script,
            &[],
            &[k],
            4096,
            status,
            written,
        )?;
    }
    expect(
        &rt,
        rt.alloc(),
        "run",
        script,
        &[],
        &[],
        10,
        5,
        b"race 1 run",
    )?;
    let cut = b"race 1\ntable groups=1 depth=0 words=100 tries=3\nclient a\n";
    expect(
        &rt,
        rt.alloc(),
        "run",
        cut,
        &[],
        &[],
        4096,
        3,
        b"refused line 4 end\n",
    )?;
    Ok(())
}
