//! Numbers of keys that were worked out apart from this code.

use super::*;
use kv_block::Key;
use std::alloc::AllocError;

/// The key of a text.
fn key_of(text: &str) -> Option<Key> {
    Key::from_bytes(text.as_bytes())
}

#[test]
fn mixed_numbers(rt: HostRuntime) {
    for (text, hash) in [
        ("k", 0x8b51faabf1452e60),
        ("j", 0x8d1ed21cc2604292),
        ("k0", 0x43db55d3ac266e8e),
        ("k199", 0xddc45583d4e57e82),
    ] {
        let key = key_of(text).expect(&rt, "a key");
        assert_eq!(rt; Mixed.hash(&key), hash, "{text}");
    }
}

/// The first two draws from the state 0.
#[test]
fn draws(rt: HostRuntime) {
    let mut state: u64 = 0;
    for draw in [0xe220a8397b1dcdaf, 0x6e789e6aa1b965f4] {
        state = state.wrapping_add(0x9e3779b97f4a7c15);
        assert_eq!(rt; mix_word(state), draw);
    }
}

/// A listed key has its own number and keeps it; the keys stand in the order of first appearance.
#[test]
fn listed_numbers(rt: HostRuntime) -> Result<(), AllocError> {
    let k = key_of("k").expect(&rt, "a key");
    let j = key_of("j").expect(&rt, "a key");
    let mut listed = Listed::new(rt.alloc())?;
    assert!(rt; listed.add(k, 5)?);
    assert!(rt; listed.add(j, 1)?);
    assert!(rt; !listed.add(k, 6)?);
    assert_eq!(rt; listed.len(), 2);
    for (i, key, hash) in [(0, k, 5), (1, j, 1)] {
        assert!(rt; i < listed.len() && listed.key(i) == key && listed.hash_at(i) == hash);
        assert_eq!(rt; listed.hash(&key), hash);
    }
    let other = key_of("k0").expect(&rt, "a key");
    assert_eq!(rt; listed.hash(&other), 0x43db55d3ac266e8e);
    Ok(())
}
