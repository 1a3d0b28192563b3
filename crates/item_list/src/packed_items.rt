//! The items of a packed list, one after another.
use crate::pack::Pack;
use crate::packed_list::PackedList;
use std::marker::Model;

/// The items of a packed list that are left, in order. A clause sees them.
#[derive(Drop)]
pub struct PackedItems<'a, T: Pack> {
    list: &'a PackedList<T>,
    at: usize,
    end: usize,
}

impl<'a, T: Pack> Model for PackedItems<'a, T> {
    ghost use Rattle.std.specs.Prelude.{◌≡◌, List, drop, length};

    ghost Value = { List T };

    ghost view = { λ s. drop s.at s.list.now.items };

    ghost invariant = { λ s. s.end ≡ length s.list.now.items };
}

impl<'a, T: Pack> PackedItems<'a, T> {
    ghost use Rattle.std.specs.Prelude.{◌≡◌, ◌<◌, ◌^◌, length};

    // All items of a list.
    pub(crate) fn of(list: &'a PackedList<T>) -> PackedItems<'a, T>
        ensures items { result ≡ list.now.items }
        ensures few { length list.now.items < 2 ^ 60 }
    {
        PackedItems {
            list,
            at: 0,
            end: list.len(),
        }
    }
}

impl<'a, T: Pack> Iterator for PackedItems<'a, T> {
    ghost use Rattle.std.specs.Iterator.{YieldsFirst, item_count};

    type Item = T;

    ghost next_gives = { YieldsFirst (λ items. items) };

    ghost remaining = { item_count (λ items. items) };

    fn next(&mut self) -> Option<T> {
        if self.at < self.end {
            let item = self.list.get(self.at);
            self.at += 1;
            Some(item)
        } else {
            None
        }
    }
}
