ghost use Rattle.std.specs.Prelude.{◌≡◌, ◌<◌, ◌↔◌, [], ◌∷◌, ◌++◌, length, slice_get, slice_set, IsTrue, IfOk, OnOk, OnErr};
ghost use Rattle.std.specs.Option.{option_copied};

use crate::Memory;
use std::alloc::Global;
use std::marker::Model;

/// How many items a list that grows by `push_bounded` has at most.
pub const MOST_ITEMS: usize = 1_048_576;

/// A list that grows at its end, which contracts see as that list.
#[derive(Debug, Drop)]
pub struct Items<T> {
    items: Vec<T>,
}

/// Bytes in order.
pub type Bytes = Items<u8>;

impl<T> Model for Items<T> {
    ghost use Rattle.std.specs.Prelude.{List};
    ghost use Rattle.std.specs.Coded.{coded_list};

    ghost Value = { List T };

    ghost coded = { coded_list T.code };

    ghost view = { λ it. it.items.items };
}

impl<T> Items<T> {
    ghost use Rattle.std.specs.Borrow.{Lends, sem, Array};
    ghost use Rattle.dip_lists.specs.Refilled.{refilled};
    ghost use Rattle.dip_lists.specs.contracts.items.Items.{the_row};

    /// The empty list, which takes its memory from `alloc` as it grows.
    pub fn new(alloc: Global) -> Items<T>
        ensures { result ≡ [] }
    {
        Items {
            items: Vec::new(alloc),
        }
    }

    /// The items of a vector, in their order.
    pub fn from_vec(items: Vec<T>) -> Items<T>
        ensures { result ≡ items.items }
    {
        Items { items }
    }

    /// The vector of the items, in their order.
    pub fn into_vec(self) -> Vec<T>
        ensures { result.items ≡ self }
    {
        let Items { items } = self;
        items
    }

    /// The items as a slice.
    pub fn as_slice(&self) -> &[T]
        ensures { result.now ≡ self.now }
    {
        self.items.as_slice()
    }

    /// The items as a slice whose items can be replaced; the list keeps its length.
    pub fn as_mut_slice(&mut self) -> &mut [T]
        ensures* lends { sem 𝓛 (Lends (the_row T.row) (Array T.row 0) self.entry result (refilled self.old)) }
        ensures value { result.now ≡ self.old }
    {
        self.items.as_mut_slice()
    }

    /// How many items there are.
    pub fn len(&self) -> usize
        ensures { result ≡ length self.now }
    {
        self.items.len()
    }

    /// Whether there is no item.
    pub fn is_empty(&self) -> bool
        ensures { IsTrue result ↔ (self.now ≡ []) }
    {
        self.items.is_empty()
    }

    /// The item at a place, counted from 0; `None` exactly where the place isn't below the length.
    pub fn get(&self, place: usize) -> Option<&T>
        ensures value { option_copied result ≡ slice_get self.now place }
    {
        self.items.get(place)
    }
}

impl<T: Drop> Items<T> {
    /// Adds an item at the end. After `Memory` the list is as before, and the item is dropped.
    pub fn push(&mut self, item: T) -> Result<(), Memory>
        ensures ok { OnOk result (self.new ≡ self.old ++ item ∷ []) }
        ensures err { OnErr result (self.new ≡ self.old) }
    {
        self.items.push(item)?;
        Ok(())
    }

    /// Adds an item at the end of a list that a small file can make long: with `MOST_ITEMS` items it answers
    /// `Memory`. After `Memory` the list is as before, and the item is dropped.
    pub fn push_bounded(&mut self, item: T) -> Result<(), Memory>
        ensures bounded { OnOk result (length self.old < 1048576) }
        ensures ok { OnOk result (self.new ≡ self.old ++ item ∷ []) }
        ensures err { OnErr result (self.new ≡ self.old) }
    {
        if self.items.len() >= MOST_ITEMS {
            return Err(Memory);
        }
        self.push(item)
    }
}

impl<T: Copy> Items<T> {
    /// The same items in memory of their own.
    pub fn copy(&self, alloc: Global) -> Result<Items<T>, Memory>
        ensures { IfOk result (λ copy. copy ≡ self.now) }
    {
        let items = Vec::from_slice(alloc, self.items.as_slice())?;
        Ok(Items { items })
    }

    /// Replaces the items by as many others, and takes no memory.
    pub fn refill(&mut self, items: &[T])
        requires { length items.now ≡ length self.old }
        ensures { self.new ≡ items.now }
    {
        self.as_mut_slice().copy_from_slice(items);
    }

    /// Replaces the item at a place, and takes no memory.
    pub fn set(&mut self, place: usize, item: T)
        requires { place < length self.old }
        ensures { self.new ≡ slice_set self.old place item }
    {
        self.as_mut_slice()[place] = item;
    }
}
