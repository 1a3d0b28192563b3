//! First and second lines.
use super::{Case, first_other};
use std::test::Fail;
use trace_script::ScriptKind::{Client, End, Header, Key, Number, Table};

/// Whole texts that are no script, each with the first line that breaks a rule and the first rule that it breaks.
const SCRIPTS: &[Case] = &[
    ("", 1, End),
    ("race", 1, End),
    ("race 1", 1, End),
    ("race 3", 1, End),
    ("race 1\n", 2, End),
    ("race 2\n", 2, End),
    ("race 1\ntable groups=1 depth=0 words=100 tries=3", 2, End),
    ("race 1\ntable groups=3", 2, End),
    ("race 3\n", 1, Header),
    ("race 01\n", 1, Header),
    ("race  1\n", 1, Header),
    ("race 1 \n", 1, Header),
    ("race\t1\n", 1, Header),
    ("race 1\r\n", 1, Header),
    ("Race 1\n", 1, Header),
    ("\n", 1, Header),
    ("\nrace 1\n", 1, Header),
    ("race 3\ntable\n", 1, Header),
    ("race 1\ntable\nfind\n", 2, Table),
    (
        "race 3\ntable groups=1 depth=0 words=100 tries=3\nclient a\ninsert k 1\nsearch k\nsearch j\nend\n",
        1,
        Header,
    ),
    (
        "race 1\ntable groups=1 depth=0 words=049 tries=3\nclient a\ninsert k 1\nsearch k\nsearch j\nend\n",
        2,
        Number,
    ),
    (
        "race 1\ntable groups=1 depth=2 words=49 tries=3\nclient a\ninsert k 1\nsearch k\nsearch j\nend\n",
        2,
        Table,
    ),
    (
        "race 2\ntable groups=1 depth=2 first=1 nodes=2 words=201 tries=3\nhash k 0000000000000001\nclient a\ninsert k 1\nsearch k\nend\n",
        2,
        Table,
    ),
    (
        "race 1\ntable groups=1 depth=0 words=100 tries=3\nclient a\ninse",
        4,
        End,
    ),
    (
        "race 1\ntable groups=1 depth=0 words=100 tries=3\nclient a\ninsert xxxxxxxxxxxxxxxxxxxxxxxxxxxxxxxxxxxxxxxxxxxxxxxxxxxxxxxxxxxxxxxxx 1\nsearch k\nsearch j\nend\n",
        4,
        Key,
    ),
    (
        "race 1\ntable groups=1 depth=0 words=100 tries=3\nclient a\ninsert k 1\nsearch k\nsearch j\n",
        7,
        End,
    ),
    (
        "race 1\ntable groups=1 depth=0 words=100 tries=3\nclient a\ninsert k 1\nsearch k\nsearch j\nend",
        7,
        End,
    ),
    (
        "race 1\ntable groups=1 depth=0 words=100 tries=3\nclient a\ninsert k 1\nsearch k\nsearch j\nend\nend\n",
        8,
        End,
    ),
];

/// Lines 1 and 2, before an `end` on line 3, which is the first line that breaks a rule where line 2 breaks none.
const SIZES: &[Case] = &[
    // the form
    ("race 1\n", 2, Table),
    ("race 1\ntable", 2, Table),
    (
        "race 1\ntables groups=1 depth=0 words=100 tries=3",
        2,
        Table,
    ),
    (
        "race 1\n table groups=1 depth=0 words=100 tries=3",
        2,
        Table,
    ),
    (
        "race 1\ntable groups=1 depth=0 words=100 tries=3 ",
        2,
        Table,
    ),
    (
        "race 1\ntable groups=1  depth=0 words=100 tries=3",
        2,
        Table,
    ),
    (
        "race 1\ntable groups=1\tdepth=0 words=100 tries=3",
        2,
        Table,
    ),
    ("race 1\ntable groups=1 depth=0 words=100", 2, Table),
    (
        "race 1\ntable groups=1 depth=0 words=100 tries=3 x=1",
        2,
        Table,
    ),
    ("race 1\ntable depth=0 groups=1 words=100 tries=3", 2, Table),
    ("race 1\ntable groups=1 depth=0 words=100 tries", 2, Table),
    (
        "race 1\ntable groups=1 depth=0 first=0 nodes=1 words=100 tries=3",
        2,
        Table,
    ),
    ("race 2\ntable groups=1 depth=0 words=100 tries=3", 2, Table),
    (
        "race 2\ntable groups=1 depth=0 nodes=1 first=0 words=100 tries=3",
        2,
        Table,
    ),
    (
        "race 2\ntable groups=1 depth=0 first=0 nodes=1  words=100 tries=3",
        2,
        Table,
    ),
    (
        "race 2\ntable groups=1 depth=0 first=0 nodes=1 words=100 tries=3 end",
        2,
        Table,
    ),
    // the form before the numbers
    ("race 1\ntable groups=01 depth=0 words=100", 2, Table),
    ("race 1\ntable groups=01 depth=0 words=100 try=3", 2, Table),
    (
        "race 2\ntable groups=1 depth=x first=0 words=100 tries=3",
        2,
        Table,
    ),
    (
        "race 2\ntable groups=01 depth=0 first=0 nodes=1 words=100",
        2,
        Table,
    ),
    // the numbers
    ("race 1\ntable groups= depth=0 words=100 tries=3", 2, Number),
    (
        "race 1\ntable groups=+1 depth=0 words=100 tries=3",
        2,
        Number,
    ),
    (
        "race 1\ntable groups=1 depth=-1 words=100 tries=3",
        2,
        Number,
    ),
    (
        "race 1\ntable groups=1 depth=00 words=100 tries=3",
        2,
        Number,
    ),
    (
        "race 1\ntable groups=1 depth=0 words=0x64 tries=3",
        2,
        Number,
    ),
    (
        "race 1\ntable groups=1 depth=0 words=18446744073709551616 tries=3",
        2,
        Number,
    ),
    (
        "race 1\ntable groups=1 depth=0 words=100 tries=03",
        2,
        Number,
    ),
    (
        "race 1\ntable groups=1 depth=0 words=100 tries=3\r",
        2,
        Number,
    ),
    (
        "race 1\ntable groups=1 depth=0 words=100 tries=3\u{7f}",
        2,
        Number,
    ),
    (
        "race 2\ntable groups=1 depth=0 first= nodes=1 words=100 tries=3",
        2,
        Number,
    ),
    (
        "race 2\ntable groups=1 depth=0 first=0 nodes=1.0 words=100 tries=3",
        2,
        Number,
    ),
    (
        "race 2\ntable groups=1 depth=0 first=0 nodes=1 words=99999999999999999999 tries=3",
        2,
        Number,
    ),
    // the numbers before the limits
    ("race 1\ntable groups=3 depth=0 words=1x tries=3", 2, Number),
    (
        "race 1\ntable groups=1 depth=13 words=0 tries=065",
        2,
        Number,
    ),
    (
        "race 2\ntable groups=1 depth=0 first=1 nodes=01 words=100 tries=3",
        2,
        Number,
    ),
    (
        "race 2\ntable groups=0 depth=17 first=0 nodes=9 words=0 tries=",
        2,
        Number,
    ),
    // the limits
    ("race 1\ntable groups=0 depth=0 words=100 tries=3", 2, Table),
    ("race 1\ntable groups=3 depth=0 words=100 tries=3", 2, Table),
    (
        "race 1\ntable groups=64 depth=0 words=1559 tries=3",
        3,
        Client,
    ),
    (
        "race 1\ntable groups=128 depth=0 words=16777216 tries=3",
        2,
        Table,
    ),
    (
        "race 1\ntable groups=4294967297 depth=0 words=100 tries=3",
        2,
        Table,
    ),
    (
        "race 1\ntable groups=1 depth=12 words=16777216 tries=3",
        3,
        Client,
    ),
    (
        "race 1\ntable groups=1 depth=13 words=16777216 tries=3",
        2,
        Table,
    ),
    (
        "race 1\ntable groups=1 depth=4294967296 words=100 tries=3",
        2,
        Table,
    ),
    ("race 1\ntable groups=1 depth=2 words=50 tries=3", 3, Client),
    ("race 1\ntable groups=1 depth=2 words=49 tries=3", 2, Table),
    (
        "race 1\ntable groups=1 depth=0 words=16777217 tries=3",
        2,
        Table,
    ),
    (
        "race 1\ntable groups=1 depth=0 words=18446744073709551615 tries=3",
        2,
        Table,
    ),
    ("race 1\ntable groups=1 depth=0 words=100 tries=0", 2, Table),
    (
        "race 1\ntable groups=1 depth=0 words=100 tries=1",
        3,
        Client,
    ),
    (
        "race 1\ntable groups=1 depth=0 words=100 tries=64",
        3,
        Client,
    ),
    (
        "race 1\ntable groups=1 depth=0 words=100 tries=65",
        2,
        Table,
    ),
    (
        "race 1\ntable groups=1 depth=0 words=100 tries=4294967299",
        2,
        Table,
    ),
    (
        "race 2\ntable groups=1 depth=16 first=8 nodes=8 words=16777216 tries=3",
        3,
        Client,
    ),
    (
        "race 2\ntable groups=1 depth=17 first=0 nodes=1 words=16777216 tries=3",
        2,
        Table,
    ),
    (
        "race 2\ntable groups=1 depth=1 first=1 nodes=1 words=92 tries=3",
        3,
        Client,
    ),
    (
        "race 2\ntable groups=1 depth=1 first=1 nodes=1 words=91 tries=3",
        2,
        Table,
    ),
    (
        "race 2\ntable groups=1 depth=0 first=1 nodes=1 words=16777216 tries=3",
        2,
        Table,
    ),
    (
        "race 2\ntable groups=1 depth=0 first=4294967296 nodes=1 words=100 tries=3",
        2,
        Table,
    ),
    (
        "race 2\ntable groups=1 depth=0 first=0 nodes=0 words=100 tries=3",
        2,
        Table,
    ),
    (
        "race 2\ntable groups=1 depth=0 first=0 nodes=9 words=900 tries=3",
        2,
        Table,
    ),
    (
        "race 2\ntable groups=1 depth=0 first=0 nodes=2 words=94 tries=3",
        3,
        Client,
    ),
    (
        "race 2\ntable groups=1 depth=0 first=0 nodes=2 words=95 tries=3",
        2,
        Table,
    ),
    (
        "race 2\ntable groups=1 depth=0 first=0 nodes=2 words=92 tries=3",
        2,
        Table,
    ),
    (
        "race 2\ntable groups=1 depth=0 first=0 nodes=1 words=100 tries=65",
        2,
        Table,
    ),
];

/// Texts that are no script, and second lines of both versions.
#[test]
fn first_lines(rt: HostRuntime) -> Result<(), Fail> {
    assert_eq!(rt; first_other(rt.alloc(), "", SCRIPTS, "")?, None);
    assert_eq!(rt; first_other(rt.alloc(), "", SIZES, "\nend\n")?, None);
    Ok(())
}
