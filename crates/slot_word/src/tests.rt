//! Outside vectors of slot, header and birth words.

use crate::{
    Birth, Head, Mark, Slot, State, birth_word, head_word, pack, read_birth, read_head, read_slot,
};

#[test]
fn a_live_slot(rt: HostRuntime) {
    let slot = Slot {
        mark: Mark::Live,
        fp: 3,
        len: 3,
        at: 47,
    };
    assert_eq!(rt; pack(&slot), 217017207043915823);
    assert_eq!(rt; pack(&slot), 0x0303_0000_0000_002f);
    assert_eq!(rt; read_slot(217017207043915823), Some(slot));
    for word in [0, 1 << 46, 0xffff_c000_0000_0000] {
        assert_eq!(rt; read_slot(word), None);
    }
}

#[test]
fn header_words(rt: HostRuntime) {
    for (word, depth, state) in [
        (256, 0, State::Plain),
        (0x210, 16, State::Splitting),
        (0x303, 3, State::Filling),
    ] {
        let head = Head { depth, state };
        assert_eq!(rt; read_head(word), Some(head));
        assert_eq!(rt; head_word(&head), word);
    }
    for word in [0, 5, 0x111, 0x400, 0x1_0000_0100] {
        assert_eq!(rt; read_head(word), None);
    }
}

#[test]
fn birth_words(rt: HostRuntime) {
    for (word, depth, suffix, parent) in [
        (0, 0, 0, 0),
        (0x2f00_0101, 1, 1, 47),
        (0xffff_ffff_ffff_ff10, 16, 0xffff, 0xff_ffff_ffff),
    ] {
        let birth = Birth {
            depth,
            suffix,
            parent,
        };
        assert_eq!(rt; read_birth(word), Some(birth));
        assert_eq!(rt; birth_word(&birth), word);
    }
    for word in [0x100, 0x201, 17, 0x11] {
        assert_eq!(rt; read_birth(word), None);
    }
}
