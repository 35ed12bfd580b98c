ghost use Rattle.std.specs.Prelude.{◌≡◌, IfOk};

use crate::{Few, Items, Memory};
use std::alloc::Global;

/// A value of which an equal one can be made, where memory allows.
pub trait Duplicate: Drop {
    /// An equal value in memory of its own.
    fn duplicate(&self, alloc: Global) -> Result<Self, Memory>
        ensures { IfOk result (λ copy. copy ≡ self.now) };
}

/// Equal items in the same order, in memory of their own.
pub fn duplicate_items<T: Duplicate>(alloc: Global, items: &[T]) -> Result<Items<T>, Memory>
    ensures { IfOk result (λ copy. copy ≡ items.now) }
{
    let mut copy = Items::new(alloc);
    for item in items {
        copy.push(item.duplicate(alloc)?)?;
    }
    Ok(copy)
}

impl<T: Duplicate> Duplicate for Items<T> {
    fn duplicate(&self, alloc: Global) -> Result<Items<T>, Memory> {
        duplicate_items(alloc, self.as_slice())
    }
}

impl<T: Copy + Default + Drop> Duplicate for Few<T> {
    fn duplicate(&self, alloc: Global) -> Result<Few<T>, Memory> {
        self.copy(alloc)
    }
}
