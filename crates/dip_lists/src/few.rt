ghost use Rattle.std.specs.Prelude.{◌≡◌, ◌↔◌, [], ◌∷◌, ◌++◌, length, slice_get, IsTrue, IfOk, OnOk, OnErr};
ghost use Rattle.std.specs.Option.{option_copied};

use crate::Memory;
use smallvec::SmallVec;
use std::alloc::Global;
use std::marker::Model;

/// A list that keeps up to four items in place, which contracts see as that list.
#[derive(Drop)]
pub struct Few<T> {
    items: SmallVec<T, 4>,
}

impl<T> Model for Few<T> {
    ghost use Rattle.std.specs.Prelude.{List};
    ghost use Rattle.std.specs.Coded.{coded_list};

    ghost Value = { List T };

    ghost coded = { coded_list T.code };

    ghost view = { λ it. it.items.items };
}

impl<T: Default + Drop> Few<T> {
    /// The empty list, which takes memory from `alloc` for its fifth item and those after it.
    pub fn new(alloc: Global) -> Few<T>
        ensures { result ≡ [] }
    {
        Few {
            items: SmallVec::new(alloc),
        }
    }

    /// The items as a slice.
    pub fn as_slice(&self) -> &[T]
        ensures { result.now ≡ self.now }
    {
        self.items.as_slice()
    }

    /// How many items there are.
    pub fn len(&self) -> usize
        ensures { result ≡ length self.now }
    {
        self.items.len()
    }

    /// Whether there is no item.
    pub fn is_empty(&self) -> bool
        ensures { IsTrue result ↔ (self.now ≡ []) }
    {
        self.items.as_slice().is_empty()
    }

    /// The item at a place, counted from 0; `None` exactly where the place isn't below the length.
    pub fn get(&self, place: usize) -> Option<&T>
        ensures value { option_copied result ≡ slice_get self.now place }
    {
        self.items.as_slice().get(place)
    }

    /// Adds an item at the end. After `Memory` the list is as before, and the item is dropped.
    pub fn push(&mut self, item: T) -> Result<(), Memory>
        ensures ok { OnOk result (self.new ≡ self.old ++ item ∷ []) }
        ensures err { OnErr result (self.new ≡ self.old) }
    {
        self.items.push(item)?;
        Ok(())
    }
}

impl<T: Copy + Default> Few<T> {
    /// The same items in memory of their own.
    pub fn copy(&self, alloc: Global) -> Result<Few<T>, Memory>
        ensures { IfOk result (λ copy. copy ≡ self.now) }
    {
        let items = SmallVec::from_slice(alloc, self.items.as_slice())?;
        Ok(Few { items })
    }
}
