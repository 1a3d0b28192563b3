//! Lists of small items.
use std::alloc::{AllocError, Global};
use std::marker::Model;

/// A list that grows. A clause sees its items, and its room: how many more fit before memory is asked for.
#[derive(Debug, Drop)]
pub struct List<T> {
    items: Vec<T>,
}

impl<T> Model for List<T> {
    ghost use Rattle.std.specs.Prelude.{◌-◌, vec_len, vec_capacity};
    ghost use Rattle.item_list.specs.RoomyList.{RoomyList};

    ghost Value = { RoomyList T };

    ghost view = { λ list. record { items = list.items.items; room = vec_capacity list.items - vec_len list.items } };
}

impl<T: Drop> List<T> {
    ghost use Rattle.std.specs.Prelude.{◌≡◌, ◌<◌, ◌≤◌, ◌^◌, ◌↔◌, IsTrue, Some, [], ◌∷◌, ◌++◌, length, slice_get, OnOk, OnErr, IsOk};

    /// The list with no item.
    pub fn new(alloc: Global) -> List<T>
        ensures { result.items ≡ [] }
    {
        List {
            items: Vec::new(alloc),
        }
    }

    /// How many items there are.
    pub fn len(&self) -> usize
        ensures { result ≡ length self.now.items }
    {
        self.items.len()
    }

    /// Whether there is no item.
    pub fn is_empty(&self) -> bool
        ensures { IsTrue result ↔ (self.now.items ≡ []) }
    {
        self.items.is_empty()
    }

    /// The item at place `i`, counted from 0.
    pub fn get(&self, i: usize) -> &T
        requires { i < length self.now.items }
        ensures { slice_get self.now.items i ≡ Some result.now }
    {
        &self.items[i]
    }

    /// Makes room for at least one more item. A refusal changes nothing.
    pub fn reserve(&mut self) -> Result<(), AllocError>
        ensures items { self.new.items ≡ self.old.items }
        ensures room { OnOk result (1 ≤ self.new.room) }
        ensures refused { OnErr result (self.new ≡ self.old) }
        ensures succeeds { 1 ≤ self.old.room → IsOk result }
    {
        self.items.reserve(1)
    }

    /// Appends the item. It answers Ok where there is room for one more. A refusal leaves the list as it was and gives
    /// the item up.
    pub fn push(&mut self, item: T) -> Result<(), AllocError>
        ensures appended { OnOk result (self.new.items ≡ self.old.items ++ item ∷ []) }
        ensures refused { OnErr result (self.new.items ≡ self.old.items) }
        ensures succeeds { 1 ≤ self.old.room → IsOk result }
    {
        self.reserve()?;
        self.items.push_reserved(item);
        Ok(())
    }

    /// The items, in order.
    pub fn as_slice(&self) -> &[T]
        ensures { result.now ≡ self.now.items }
    {
        self.items.as_slice()
    }
}

impl<T: Copy> List<T> {
    ghost use Rattle.std.specs.Prelude.{◌≡◌, ◌++◌, OnOk, OnErr};

    /// Appends the items of `more`, in order. A refusal leaves the list as it was.
    pub fn append(&mut self, more: &[T]) -> Result<(), AllocError>
        ensures appended { OnOk result (self.new.items ≡ self.old.items ++ more.now) }
        ensures refused { OnErr result (self.new.items ≡ self.old.items) }
    {
        self.items.extend_from_slice(more)
    }
}
