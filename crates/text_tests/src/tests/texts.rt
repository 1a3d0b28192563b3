//! The texts of replies, scripts and reports.
use kv_block::Value;
use map_model::{MapMachine, Nexts, Reply};
use std::alloc::{AllocError, Global};
use std::test::Fail;
use trace_script::{Lines, Mode, Text, read_script, reply_text, report_text, script_text};

/// The first two lines of a `race 1` script.
const HEAD_1: &str = "race 1\ntable groups=1 depth=0 words=100 tries=3\n";

/// The first two lines of a `race 2` script.
const HEAD_2: &str = "race 2\ntable groups=1 depth=0 first=0 nodes=1 words=100 tries=3\n";

/// Lines behind line 2 that are taken.
const TAKEN: &[&str] = &[
    "client a\nend\n",
    "client a\ninsert k 1\nsearch k\nsearch j\nend\n",
    "client a\nupdate k 2\ndelete k\nresize k\nclient b\nclient c\nsearch k\nend\n",
    "client a\ninsert k %\nupdate %00 %\nend\n",
    "client a\ninsert %20 %7f\ninsert %c3a9 %2525\ninsert a_b-C.9 .\nend\n",
    "hash k 0123456789abcdef\nhash %25 ffffffffffffffff\nclient a\nend\n",
    "client a\nclient a1\nclient abcdefghijklmnop\nend\n",
    "client end\nclient stop\nsearch client\nstop stop 1\nschedule end stop!\nend\n",
    "client a\nclient b\nstop b 0\nstop a 1000000000\nend\n",
    "client a\nstop a 3\nschedule a*2 a*1000000 a! a\nschedule a\nend\n",
];

/// Whether this is the text of a reply.
fn says(alloc: Global, reply: &Reply, wanted: &str) -> Result<bool, AllocError> {
    let text = reply_text(alloc, reply)?;
    Ok(text.as_slice() == wanted.as_bytes())
}

/// Replies of calls, with their texts.
#[test]
fn replies(rt: HostRuntime) -> Result<(), Fail> {
    let value = Value::from_bytes(b"v 1").ok_or("a value")?;
    assert!(rt; says(rt.alloc(), &Reply::Found(value), "found %762031")?);
    assert!(rt; says(rt.alloc(), &Reply::Missing, "missing")?);
    assert!(rt; says(rt.alloc(), &Reply::Inserted, "inserted")?);
    Ok(())
}

/// Replies that tell of splits and of want of room, with their texts.
#[test]
fn numbered_replies(rt: HostRuntime) -> Result<(), Fail> {
    let alloc = rt.alloc();
    let next = Nexts::one(47).with(93);
    let full = Reply::FullWords { next, need: 44 };
    let next = Nexts::one(50);
    let no_block = Reply::NoBlock { next, need: 3 };
    assert!(rt;
        says(
            alloc,
            &Reply::Split {
                table: 47,
                depth: 2
            },
            "split 47 2"
        )?
    );
    assert!(rt; says(alloc, &Reply::Again { lost: 3 }, "again 3")?);
    assert!(rt; says(alloc, &Reply::FullDepth { depth: 0 }, "full-depth 0")?);
    assert!(rt; says(alloc, &full, "full-words 47,93 44")?);
    assert!(rt; says(alloc, &no_block, "no-block 50 3")?);
    Ok(())
}

/// Whether a text is a script's, and is written again as it was.
fn is_kept(alloc: Global, head: &str, lines: &str) -> Result<bool, AllocError> {
    let mut text = String::from_str(alloc, head)?;
    text.push_str(lines)?;
    match read_script(alloc, text.as_bytes()) {
        Ok(script) => {
            let again = script_text(alloc, &script)?;
            Ok(again.as_slice() == text.as_bytes())
        }
        Err(_) => Ok(false),
    }
}

/// The first lines that are not written again as they were, behind this head.
fn first_changed(alloc: Global, head: &str) -> Result<Option<&'static str>, AllocError> {
    for lines in TAKEN {
        if !is_kept(alloc, head, lines)? {
            return Ok(Some(*lines));
        }
    }
    Ok(None)
}

/// Scripts of both versions are read, and written again as they were.
#[test]
fn scripts(rt: HostRuntime) -> Result<(), Fail> {
    assert_eq!(rt; first_changed(rt.alloc(), HEAD_1)?, None);
    assert_eq!(rt; first_changed(rt.alloc(), HEAD_2)?, None);
    Ok(())
}

/// The report of a script without calls, or None where the text spells no script.
fn empty_report(alloc: Global, text: &str) -> Result<Option<Text>, AllocError> {
    match read_script(alloc, text.as_bytes()) {
        Ok(script) => {
            let lines = Lines::new(alloc);
            let map = MapMachine::new(alloc);
            let next = Nexts::one(47);
            let report = report_text(alloc, Mode::Replay, &script, &lines, &map, next)?;
            Ok(Some(report))
        }
        Err(_) => Ok(None),
    }
}

/// The report of a script without calls has a first and a last line.
#[test]
fn report(rt: HostRuntime) -> Result<(), Fail> {
    let text = "race 1\ntable groups=1 depth=0 words=100 tries=3\nclient a\nend\n";
    let report = empty_report(rt.alloc(), text)?.ok_or("a script")?;
    let wanted = "race 1 replay\nend calls=0 open=0 changes=0 next=47\n";
    assert!(rt; report.as_slice() == wanted.as_bytes());
    Ok(())
}
