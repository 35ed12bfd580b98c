ghost use Rattle.std.specs.Prelude.{◌≡◌, ◌+◌, ◌%◌, ◌≤◌, ◌^◌, nat_le, IfOk, length, slice_index_or};
ghost use Rattle.net_build.specs.Bits.{wire_values};
ghost use Rattle.net_build.specs.Built.{IsBit, IsWire};
ghost use Rattle.net_build.specs.Values.{Adds, Means, Tells};
ghost use Rattle.net_table.specs.Tables.{AreEntries};

use dip_lists::Memory;
use net_build::{Builder, Wire};
use net_table::read_entry;

/// The entry that keeps an address, of which the lowest 3 bits are given: these, and a bit before them.
#[tactic(auto, using(net_build::proofs::Steps::steps))]
pub fn entry_of(builder: &mut Builder, address: Wire) -> Result<Wire, Memory>
    requires { IsWire builder.old address × (address.width ≡ 3) }
    ensures adds { IfOk result (λ _. Adds builder.old builder.new) }
    ensures wire { IfOk result (λ w. IsWire builder.new w × (w.width ≡ 4)) }
    ensures value { IfOk result (λ w. Means builder.new w (λ v. 8 + v address.number)) }
{
    let one = builder.constant(1, 1)?;
    let entry = builder.concat(one, address)?;
    Ok(entry)
}

/// What is kept for an id.
#[derive(Debug, Clone, Copy)]
pub struct Kept {
    /// 1 where an address is.
    pub known: Wire,
    /// Its lowest 3 bits.
    pub address: Wire,
}

/// What a table of entries keeps for an id.
pub fn kept_at(builder: &mut Builder, entries: &[Wire], id: Wire) -> Result<Kept, Memory>
    requires entries { AreEntries builder.old 4 entries.now }
    requires id { IsWire builder.old id }
    requires small { length entries.now ≤ 2 ^ id.width }
    ensures adds { IfOk result (λ _. Adds builder.old builder.new) }
    ensures known { IfOk result (λ k. IsBit builder.new k.known
        × Tells builder.new k.known
        (λ v. nat_le 8 (slice_index_or (wire_values v entries.now) (v id.number) 0))) }
    ensures address { IfOk result (λ k. IsWire builder.new k.address × (k.address.width ≡ 3)
        × Means builder.new k.address
        (λ v. slice_index_or (wire_values v entries.now) (v id.number) 0 % 8)) }
{
    let entry = read_entry(builder, entries, 4, id)?;
    let known = builder.select(entry, 3, 3)?;
    let address = builder.select(entry, 2, 0)?;
    Ok(Kept { known, address })
}
