//! Lines behind line 2.
use super::{Case, HEAD_1, HEAD_2, first_other};
use std::test::Fail;
use trace_script::ScriptKind::{Client, End, Key, Number, Schedule, Value, Word};

/// Lines behind line 2 that break one rule, by the order of the rules.
const FAULTS: &[Case] = &[
    // the bytes end, or the line stands behind `end`
    ("", 3, End),
    ("client a", 3, End),
    ("client a\n", 4, End),
    ("client a\ninse", 4, End),
    ("client a\nend", 4, End),
    ("client a\nend\nend\n", 5, End),
    ("client a\nend\n\n", 5, End),
    ("client a\nend\nx", 5, End),
    // bytes and empty words
    ("\n", 3, Word),
    (" \n", 3, Word),
    ("client a\r\n", 3, Word),
    ("client a\n\n", 4, Word),
    ("client a\n search k\n", 4, Word),
    ("client a\nsearch k \n", 4, Word),
    ("client a\nsearch  k\n", 4, Word),
    ("client a\nsearch\tk\n", 4, Word),
    ("client a\nsearch \0\n", 4, Word),
    ("client a\nsearch \x1f\n", 4, Word),
    ("client a\nsearch \x7f\n", 4, Word),
    ("client a\nsearch é\n", 4, Word),
    ("client a\nend\r\n", 4, Word),
    // the first word and the order of lines
    ("end\n", 3, Client),
    ("schedule a\n", 3, Client),
    ("stop a 1\n", 3, Client),
    ("hash k 0000000000000000\nend\n", 4, Client),
    ("insert k 1\n", 3, Word),
    ("find k\n", 3, Word),
    ("Client a\n", 3, Word),
    ("clients a\n", 3, Word),
    ("race 1\n", 3, Word),
    ("table groups=1 depth=0 words=100 tries=3\n", 3, Word),
    ("hash k 0000000000000000\nsearch k\n", 4, Word),
    ("client a\nfind k\n", 4, Word),
    ("client a\nhash k 0000000000000000\n", 4, Word),
    ("client a\nstop a 1\nclient b\n", 5, Word),
    ("client a\nstop a 1\nsearch k\n", 5, Word),
    ("client a\nstop a 1\nhash k 0000000000000000\n", 5, Word),
    ("client a\nschedule a\nstop a 1\n", 5, Word),
    ("client a\nschedule a\nclient b\n", 5, Word),
    ("client a\nschedule a\nresize k\n", 5, Word),
    // the number of words
    ("hash k\n", 3, Word),
    ("hash k 0000000000000000 0\n", 3, Word),
    ("client\n", 3, Word),
    ("client a b\n", 3, Word),
    ("client a\ninsert k\n", 4, Word),
    ("client a\ninsert k 1 2\n", 4, Word),
    ("client a\nsearch\n", 4, Word),
    ("client a\nsearch k 1\n", 4, Word),
    ("client a\nupdate k\n", 4, Word),
    ("client a\nupdate k 1 2\n", 4, Word),
    ("client a\ndelete\n", 4, Word),
    ("client a\ndelete k 1\n", 4, Word),
    ("client a\nresize\n", 4, Word),
    ("client a\nresize k 1\n", 4, Word),
    ("client a\nstop a\n", 4, Word),
    ("client a\nstop a 1 2\n", 4, Word),
    ("client a\nschedule\n", 4, Word),
    ("client a\nend a\n", 4, Word),
    // keys
    ("hash % 0000000000000000\n", 3, Key),
    ("hash k 0000000000000000\nhash k 0000000000000001\n", 4, Key),
    (
        "hash %00 0000000000000000\nhash k 0000000000000001\nhash %00 0000000000000002\n",
        5,
        Key,
    ),
    ("client a\nsearch %\n", 4, Key),
    ("client a\nsearch %6b\n", 4, Key),
    ("client a\nsearch %0\n", 4, Key),
    ("client a\nsearch %C3\n", 4, Key),
    ("client a\nupdate %0g 1\n", 4, Key),
    ("client a\ndelete k=1\n", 4, Key),
    ("client a\nresize k%20\n", 4, Key),
    // values
    ("client a\ninsert k %0\n", 4, Value),
    ("client a\ninsert k %C3\n", 4, Value),
    ("client a\ninsert k %31\n", 4, Value),
    ("client a\nupdate k %%\n", 4, Value),
    ("client a\nupdate k v=1\n", 4, Value),
    // numbers
    ("hash k 000000000000000\n", 3, Number),
    ("hash k 00000000000000000\n", 3, Number),
    ("hash k 00000000000000fg\n", 3, Number),
    ("hash k 00000000000000FF\n", 3, Number),
    ("client a\nstop a 00\n", 4, Number),
    ("client a\nstop a 01\n", 4, Number),
    ("client a\nstop a -1\n", 4, Number),
    ("client a\nstop a 1000000001\n", 4, Number),
    ("client a\nstop a 18446744073709551616\n", 4, Number),
    // names
    ("client A\n", 3, Client),
    ("client 1a\n", 3, Client),
    ("client a_b\n", 3, Client),
    ("client a\nclient a\n", 4, Client),
    ("client a\nclient b\nsearch k\nclient a\n", 6, Client),
    ("client a\nstop b 1\n", 4, Client),
    ("client a\nstop A 1\n", 4, Client),
    ("client a\nstop a 1\nstop a 1\n", 5, Client),
    // items
    ("client a\nschedule b\n", 4, Schedule),
    ("client a\nschedule A\n", 4, Schedule),
    ("client a\nschedule a*\n", 4, Schedule),
    ("client a\nschedule a*0\n", 4, Schedule),
    ("client a\nschedule a*1\n", 4, Schedule),
    ("client a\nschedule a*02\n", 4, Schedule),
    ("client a\nschedule a*1000001\n", 4, Schedule),
    ("client a\nschedule a*18446744073709551618\n", 4, Schedule),
    ("client a\nschedule a!!\n", 4, Schedule),
    ("client a\nschedule a!*2\n", 4, Schedule),
    ("client a\nschedule a*2!\n", 4, Schedule),
    ("client a\nschedule !\n", 4, Schedule),
    ("client a\nschedule a b\n", 4, Schedule),
];

/// Lines behind line 2 of which one breaks several rules, or of which several break a rule.
const SEVERAL: &[Case] = &[
    // the bytes end or stand behind `end`, before the other rules
    ("client A", 3, End),
    ("stop a 1", 3, End),
    ("client a\nsearch  \t", 4, End),
    ("client a\nsearch % k", 4, End),
    ("client a\nend\n\t\n", 5, End),
    ("client a\nend\nfind\n", 5, End),
    ("client a\nend\nsearch %\n", 5, End),
    // bytes and empty words before the first word
    ("end \n", 3, Word),
    ("stop a 1\t\n", 3, Word),
    ("schedule  a\n", 3, Word),
    ("client a\nfind\tk\n", 4, Word),
    // and before the other words
    ("client A \n", 3, Word),
    ("hash % é\n", 3, Word),
    ("client a\nsearch %\x7f\n", 4, Word),
    ("client a\ninsert k  %0\n", 4, Word),
    ("client a\nstop b\t1\n", 4, Word),
    ("client a\nschedule b \n", 4, Word),
    // the first word before the number of words
    ("end a\n", 3, Client),
    ("stop\n", 3, Client),
    ("schedule\n", 3, Client),
    // and before the other words
    ("schedule a*0\n", 3, Client),
    ("stop a 01\n", 3, Client),
    ("search %\n", 3, Word),
    ("client a\nfind %\n", 4, Word),
    ("client a\nhash % 0\n", 4, Word),
    ("client a\nstop a 1\nclient A\n", 5, Word),
    ("client a\nschedule a\nstop b 01\n", 5, Word),
    // the number of words before these words
    ("hash %\n", 3, Word),
    ("client A b\n", 3, Word),
    ("client a\ninsert %6b\n", 4, Word),
    ("client a\nsearch % k\n", 4, Word),
    ("client a\nupdate k %0 1\n", 4, Word),
    ("client a\nstop b\n", 4, Word),
    ("client a\nstop b 01 2\n", 4, Word),
    ("client a\nend %\n", 4, Word),
    // the words from left to right
    ("hash %6b 0\n", 3, Key),
    ("hash k 0000000000000000\nhash k 0\n", 4, Key),
    ("client a\ninsert % %0\n", 4, Key),
    ("client a\nupdate %6b %31\n", 4, Key),
    ("client a\nstop b 01\n", 4, Client),
    ("client a\nstop A 1000000001\n", 4, Client),
    ("client a\nstop a 1\nstop a 01\n", 5, Client),
    // the first of several lines
    ("hash k 0\nend\n", 3, Number),
    ("client A\nfind\n", 3, Client),
    ("client a\nsearch %\nclient a\n", 4, Key),
    ("client a\ninsert k %0\nend", 4, Value),
    ("client a\nsearch k\nsearch  k\nsearch %\n", 5, Word),
    ("client a\nstop a 01\nstop b 1\n", 4, Number),
    ("client a\nschedule b\nend\nend\n", 4, Schedule),
];

/// Lines that are refused behind line 2 of either version.
#[test]
fn refused_lines(rt: HostRuntime) -> Result<(), Fail> {
    assert_eq!(rt; first_other(rt.alloc(), HEAD_1, FAULTS, "")?, None);
    assert_eq!(rt; first_other(rt.alloc(), HEAD_2, FAULTS, "")?, None);
    assert_eq!(rt; first_other(rt.alloc(), HEAD_1, SEVERAL, "")?, None);
    assert_eq!(rt; first_other(rt.alloc(), HEAD_2, SEVERAL, "")?, None);
    Ok(())
}
