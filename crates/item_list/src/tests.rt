//! Lists that grow, and items that are kept as words.
ghost use Rattle.std.specs.Prelude.{◌≡◌, ◌+◌, ◌≤◌, ◌∷◌, ◌++◌, [], slice_index};

use super::*;
use std::alloc::Global;
use std::test::Fail;

// A span of numbers, kept as its two ends.
#[derive(Clone, Copy, Debug, PartialEq, Eq)]
struct Span {
    from: u64,
    to: u64,
}

impl Pack for Span {
    const MOST: usize = 2;

    ghost MOST = { 2 };

    ghost packed = { λ span. span.from ∷ span.to ∷ [] };

    ghost told = { λ words. record { from = slice_index words 0; to = slice_index words 1 } };

    fn pack(&self, words: &mut Vec<u64>) {
        words.push_reserved(self.from);
        words.push_reserved(self.to);
    }

    fn unpack(words: &[u64]) -> Span {
        Span {
            from: word_at(words, 0),
            to: word_at(words, 1),
        }
    }
}

#[test]
fn a_list_keeps_its_items(rt: HostRuntime) -> Result<(), Fail> {
    let mut list = List::new(rt.alloc());
    assert!(rt; list.is_empty());
    list.reserve()?;
    list.push(7)?;
    list.append(&[8, 9])?;
    assert_eq!(rt; list.len(), 3);
    assert_eq!(rt; *list.get(1), 8);
    assert_eq!(rt; list.as_slice(), [7, 8, 9].as_slice());
    Ok(())
}

#[test]
fn a_packed_list_tells_its_items(rt: HostRuntime) -> Result<(), Fail> {
    let alloc = rt.alloc();
    let spans = [Span { from: 1, to: 2 }, Span { from: 5, to: 3 }];
    let mut list = PackedList::of(alloc, &spans)?;
    list.reserve()?;
    list.push(Span { from: 0, to: 9 })?;
    assert_eq!(rt; list.len(), 3);
    assert!(rt; list.get(1) == Span { from: 5, to: 3 });
    assert_eq!(rt; list.words(2), [0, 9].as_slice());
    assert_eq!(rt; list.iter().count(), 3);
    let all = list.unpacked(alloc)?;
    assert_eq!(rt; all.len(), 3);
    assert!(rt; all[0] == spans[0]);
    assert!(rt; !list.is_empty());
    Ok(())
}
