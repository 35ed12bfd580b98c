ghost use Rattle.std.specs.Prelude.{◌≡◌, ◌<◌, ◌≤◌, ◌^◌, All, IfOk, is_some, bit_or};
ghost use Rattle.std.specs.List.{list_any};
ghost use Rattle.dip_sets.specs.Sets.{IsSet, Pattern, is_in};
ghost use Rattle.net_cells.specs.Rules.{IsWidth};
ghost use Rattle.tl_params.specs.OwnerLaw.{HaveSets};
ghost use Rattle.tl_params.specs.Owners as spec;
ghost use Rattle.net_build.specs.Built.{IsBit, IsWire};
ghost use Rattle.net_build.specs.Values.{Adds, Tells};

use crate::ids::fits;
use dip_lists::Memory;
use dip_sets::AddressSet;
use net_build::{Builder, Wire, either, low};
use net_queue::fit_wire;
use tl_params::Slave;

// As many bits as hold both the address and the set: those of the address, or 48.
fn bits_of(address: u32, all: u64) -> u32
    requires address { IsWidth address }
    requires all { all < 2 ^ 48 }
    ensures width { IsWidth result }
    ensures address { address ≤ result }
    ensures all { all < 2 ^ result }
{
    if address >= 48 {
        return address;
    }
    if fits(all, address) {
        return address;
    }
    48
}

// 1 where an address is in a set: with the mask's bits set both are the same.
#[tactic(auto, using(net_build::proofs::Steps::steps, net_build::proofs::Steps::bit_made))]
fn in_set(builder: &mut Builder, address: Wire, set: &AddressSet) -> Result<Wire, Memory>
    requires { IsWire builder.old address }
    ensures adds { IfOk result (λ _. Adds builder.old builder.new) }
    ensures bit { IfOk result (λ w. IsBit builder.new w) }
    ensures tells { IfOk result (λ w. Tells builder.new w (λ v. is_in set.now (v address.number))) }
{
    let mask = set.mask();
    let all = set.base() | mask;
    let width = bits_of(address.width, all);
    let wide = fit_wire(builder, address, width)?;
    let free = builder.constant(width, mask)?;
    let masked = builder.or(wide, free)?;
    let greatest = builder.constant(width, all)?;
    let wire = builder.eq(masked, greatest)?;
    Ok(wire)
}

// 1 where an address is in one of some sets.
fn in_some(builder: &mut Builder, address: Wire, sets: &[AddressSet]) -> Result<Wire, Memory>
    requires { IsWire builder.old address }
    ensures adds { IfOk result (λ _. Adds builder.old builder.new) }
    ensures bit { IfOk result (λ w. IsBit builder.new w) }
    ensures tells { IfOk result (λ w. Tells builder.new w
        (λ v. list_any (λ (s : Pattern). is_in s (v address.number)) sets.now)) }
{
    let mut owned = low(builder)?;
    for place in 0..sets.len() {
        let held = in_set(builder, address, &sets[place])?;
        owned = either(builder, owned, held)?;
    }
    Ok(owned)
}

// 1 where a slave holds an address.
fn is_held(builder: &mut Builder, address: Wire, slave: &Slave) -> Result<Wire, Memory>
    requires { IsWire builder.old address }
    ensures adds { IfOk result (λ _. Adds builder.old builder.new) }
    ensures bit { IfOk result (λ w. IsBit builder.new w) }
    ensures tells { IfOk result (λ w. Tells builder.new w (λ v. spec.holds slave.now (v address.number))) }
{
    let wire = in_some(builder, address, slave.addresses.as_slice())?;
    Ok(wire)
}

/// 1 where one of some slaves owns an address.
pub fn owns(builder: &mut Builder, address: Wire, slaves: &[Slave]) -> Result<Wire, Memory>
    requires { IsWire builder.old address }
    ensures adds { IfOk result (λ _. Adds builder.old builder.new) }
    ensures bit { IfOk result (λ w. IsBit builder.new w) }
    ensures tells { IfOk result (λ w. Tells builder.new w
        (λ v. is_some (spec.owner slaves.now (v address.number)))) }
{
    let mut owned = low(builder)?;
    for place in 0..slaves.len() {
        let held = is_held(builder, address, &slaves[place])?;
        owned = either(builder, owned, held)?;
    }
    Ok(owned)
}
