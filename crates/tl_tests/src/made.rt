use dip_lists::{Few, Memory};
use dip_sets::{AddressSet, IdRange, Sizes};
use std::alloc::Global;
use tl_params::{Master, Op, Ops, Slave};

// The sizes from one byte to a power of two up to 256; none where the number isn't one.
fn sizes_to(most: u32) -> Sizes {
    Sizes::new(1, most).unwrap_or(Sizes::none())
}

/// The same sizes for gets and whole writes, from one byte to a greatest size, and none for the others.
pub fn ops_to(most: u32) -> Ops {
    let none = Sizes::none();
    Ops {
        get: sizes_to(most),
        put_full: sizes_to(most),
        put_partial: none,
        arithmetic: none,
        logical: none,
        intent: none,
    }
}

/// The sizes to 256 bytes for one operation alone, and of one byte for the others.
pub fn ops_of(op: Op) -> Ops {
    let sizes = |own: Op| sizes_to(if own == op { 256 } else { 1 });
    Ops {
        get: sizes(Op::Get),
        put_full: sizes(Op::PutFull),
        put_partial: sizes(Op::PutPartial),
        arithmetic: sizes(Op::Arithmetic),
        logical: sizes(Op::Logical),
        intent: sizes(Op::Intent),
    }
}

/// A master with the ids from a start to before an end.
pub fn master_of(start: u32, end: u32) -> Master {
    Master {
        node: 1,
        port: 2,
        ids: IdRange { start, end },
        emits: ops_to(64),
    }
}

/// A slave with the set of a base and a mask, and none where they are no set's.
pub fn slave_of(alloc: Global, base: u64, mask: u64, most: u32) -> Result<Slave, Memory> {
    let mut addresses = Few::new(alloc);
    if let Ok(set) = AddressSet::new(base, mask) {
        addresses.push(set)?;
    }
    Ok(Slave {
        node: 3,
        port: 0,
        addresses,
        supports: ops_to(most),
    })
}
