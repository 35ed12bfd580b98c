use dip_lists::Memory;
use sim_ports::{Cells, Device, Role};
use std::alloc::Global;
use std::cell::Cell;
use std::rc::Rc;
use tl_edge::Request;

/// A memory that counts the drops of all that share its count.
pub struct Counting {
    cells: Cells,
    drops: Rc<Cell<u32>>,
}

impl Counting {
    /// A memory that isn't prepared.
    pub fn new(alloc: Global, drops: Rc<Cell<u32>>) -> Counting {
        Counting {
            cells: Cells::new(alloc),
            drops,
        }
    }
}

impl Drop for Counting {
    fn drop(self) {
        let Counting { cells: _, drops } = self;
        drops.set(drops.get().wrapping_add(1));
    }
}

impl Device for Counting {
    ghost use Rattle.sim_ports.specs.Kept.{meaning_of};

    ghost meaning = { λ counting. meaning_of counting.cells };

    fn prepare(&mut self, role: Role, addresses: &[u64]) -> Result<(), Memory> {
        self.cells.prepare(role, addresses)
    }

    fn answer(&mut self, request: &Request, payload: &mut [u8]) -> bool {
        self.cells.answer(request, payload)
    }
}
