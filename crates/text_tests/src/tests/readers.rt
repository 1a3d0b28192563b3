//! What the readers of a script tell.
use key_hash::Placer;
use kv_block::Key;
use std::alloc::{AllocError, Global};
use std::test::Fail;
use trace_script::{Item, Items, Script, read_script};

const SCRIPT: &str =
    "race 2\ntable groups=1 depth=2 first=1 nodes=2 words=200 tries=3\nhash k 0000000000000007\nclient a\nsearch k\nclient b2\ndelete k\nresize k\nstop b2 9\nschedule a! b2*7\nschedule a\nend\n";

/// Whether the first two lines say what they say in the script above.
fn has_sizes(script: &Script) -> bool {
    let sizes = script.geometry();
    script.version() == 2
        && sizes.groups == 1
        && sizes.max_depth == 2
        && sizes.first_depth == 1
        && sizes.nodes == 2
        && sizes.words == 200
        && script.tries() == 3
}

/// Whether a script has a client of this name, with so many calls and this stop.
fn has_client(script: &Script, client: u32, name: &[u8], calls: usize, stop: Option<u64>) -> bool {
    client < script.clients()
        && script.name(client) == name
        && script.calls(client).len() == calls
        && script.stop(client) == stop
}

/// Whether the items are those of the schedule lines above.
fn are_items(items: &Items) -> bool {
    items.len() == 3
        && *items.get(0) == Item::Call { client: 0 }
        && *items.get(1)
            == Item::Verbs {
                client: 1,
                count: 7,
            }
        && *items.get(2)
            == Item::Verbs {
                client: 0,
                count: 1,
            }
}

/// Whether the clients are those of the script above.
fn has_clients(script: &Script) -> bool {
    script.clients() == 2
        && has_client(script, 0, b"a", 1, None)
        && has_client(script, 1, b"b2", 2, Some(9))
}

/// Whether the listed hash and the items are those of the script above.
fn has_lists(alloc: Global, script: &Script, key: &Key) -> Result<bool, AllocError> {
    let listed = script.placer(alloc)?;
    let items = script.items(alloc)?;
    Ok(listed.hash(key) == 7 && are_items(&items))
}

/// The readers of a script tell what its lines say.
#[test]
fn readers(rt: HostRuntime) -> Result<(), Fail> {
    let key = Key::from_bytes(b"k").ok_or("no key")?;
    let Ok(script) = read_script(rt.alloc(), SCRIPT.as_bytes()) else {
        return Err("no script".into());
    };
    assert!(rt; has_sizes(&script));
    assert!(rt; has_clients(&script));
    assert!(rt; has_lists(rt.alloc(), &script, &key)?);
    Ok(())
}
