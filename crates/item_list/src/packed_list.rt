//! A list of items that are kept as words.
ghost use Rattle.std.specs.Prelude.{◌≡◌, ◌<◌, ◌≤◌, ◌^◌, ◌∷◌, length, slice_get, slice_index, Some};
ghost use Rattle.std.specs.List.{between};
ghost use Rattle.item_list.specs.Pieces.{pieces, IsCut};

use crate::pack::Pack;
use crate::packed_items::PackedItems;
use std::alloc::{AllocError, Global};
use std::marker::{Model, PhantomData};

/// A list that grows and keeps each item as its words. A clause sees its items, and its room: 1 where one more fits
/// before memory is asked for, whatever its words, else 0.
#[derive(Debug, Drop)]
pub struct PackedList<T: Pack> {
    // The words of the items, one item behind the other.
    words: Vec<u64>,
    // Where the words of each item end.
    ends: Vec<usize>,
    item: PhantomData<T>,
}

impl<T: Pack> Model for PackedList<T> {
    ghost use Rattle.std.specs.Prelude.{ℕ, map, length};
    ghost use Rattle.item_list.specs.RoomyList.{RoomyList};
    ghost use Rattle.item_list.specs.Pieces.{room_of, pieces, IsCut};

    ghost Value = { RoomyList T };

    ghost view = { λ list. record {
      items = map T.told (pieces 0 list.words.items list.ends.items);
      room = room_of T.MOST list.words list.ends;
    } };

    ghost invariant = { λ list. IsCut 0 (length list.words.items) list.ends.items };
}

impl<T: Pack> PackedList<T> {
    ghost use Rattle.std.specs.Prelude.{◌≡◌, ◌<◌, ◌≤◌, ◌^◌, ◌↔◌, IsTrue, Some, [], ◌∷◌, ◌++◌, length, slice_get, OnOk, OnErr, IfOk, IsOk};

    /// The list with no item.
    pub fn new(alloc: Global) -> PackedList<T>
        ensures { result.items ≡ [] }
    {
        PackedList {
            words: Vec::new(alloc),
            ends: Vec::new(alloc),
            item: PhantomData,
        }
    }

    /// The list of these items.
    pub fn of(alloc: Global, items: &[T]) -> Result<PackedList<T>, AllocError>
        ensures { IfOk result (λ list. list.items ≡ items.now) }
    {
        let mut list = PackedList::new(alloc);
        for item in items {
            list.push(*item)?;
        }
        Ok(list)
    }

    /// How many items there are.
    pub fn len(&self) -> usize
        ensures value { result ≡ length self.now.items }
        ensures few { result < 2 ^ 60 }
    {
        count(&self.ends)
    }

    /// Whether there is no item.
    pub fn is_empty(&self) -> bool
        ensures { IsTrue result ↔ (self.now.items ≡ []) }
    {
        self.len() == 0
    }

    /// The item at place `i`, counted from 0, made of its words.
    pub fn get(&self, i: usize) -> T
        requires { i < length self.now.items }
        ensures { slice_get self.now.items i ≡ Some result }
    {
        T::unpack(self.words(i))
    }

    /// The words of the item at place `i`, counted from 0. No item is made.
    pub fn words(&self, i: usize) -> &[u64]
        requires { i < length self.now.items }
        ensures { slice_get self.now.items i ≡ Some (T.told result.now) }
    {
        piece(&self.words, &self.ends, i)
    }

    /// The items, in order, each made as it is asked for.
    pub fn iter(&self) -> PackedItems<'_, T>
        ensures items { result ≡ self.now.items }
        ensures few { length self.now.items < 2 ^ 60 }
    {
        PackedItems::of(self)
    }

    /// All items, in order, each as large as its type.
    pub fn unpacked(&self, alloc: Global) -> Result<Vec<T>, AllocError>
        ensures { IfOk result (λ all. all.items ≡ self.now.items) }
    {
        self.iter().collect(alloc)
    }

    /// Makes room for at least one more item. A refusal changes nothing.
    pub fn reserve(&mut self) -> Result<(), AllocError>
        ensures items { self.new.items ≡ self.old.items }
        ensures room { OnOk result (1 ≤ self.new.room) }
        ensures refused { OnErr result (self.new ≡ self.old) }
        ensures succeeds { 1 ≤ self.old.room → IsOk result }
    {
        self.ends.reserve(1)?;
        self.words.reserve(T::MOST)
    }

    /// Appends the item. It answers Ok where there is room for one more. A refusal leaves the list as it was and gives
    /// the item up.
    pub fn push(&mut self, item: T) -> Result<(), AllocError>
        ensures appended { OnOk result (self.new.items ≡ self.old.items ++ item ∷ []) }
        ensures refused { OnErr result (self.new.items ≡ self.old.items) }
        ensures succeeds { 1 ≤ self.old.room → IsOk result }
    {
        self.reserve()?;
        item.pack(&mut self.words);
        self.ends.push_reserved(self.words.len());
        Ok(())
    }
}

// Where the piece at place `i` starts.
fn start(ends: &[usize], i: usize) -> usize
    requires { i < length ends.now }
    ensures { result ≡ slice_index (0 ∷ ends.now) i }
{
    if i == 0 { 0 } else { ends[i - 1] }
}

// The piece at place `i`.
fn piece<'w>(words: &'w [u64], ends: &[usize], i: usize) -> &'w [u64]
    requires place { i < length ends.now }
    requires cut { IsCut 0 (length words.now) ends.now }
    ensures { slice_get (pieces 0 words.now ends.now) i ≡ Some result.now }
{
    part(words, start(ends, i), ends[i])
}

// The words from one place to another.
fn part(words: &[u64], from: usize, to: usize) -> &[u64]
    requires rise { from ≤ to }
    requires within { to ≤ length words.now }
    ensures { result.now ≡ between from to words.now }
{
    &words[from..to]
}

// How many numbers there are.
fn count(ends: &[usize]) -> usize
    ensures value { result ≡ length ends.now }
    ensures few { result < 2 ^ 60 }
{
    ends.len()
}
