ghost use Rattle.std.specs.Prelude.{◌≡◌, ◌+◌, ◌-◌, ◌*◌, ◌/◌, ◌%◌, ◌^◌, ◌==◌, IfOk};
ghost use Rattle.net_build.specs.Built.{IsBit, IsWire};
ghost use Rattle.net_build.specs.Values.{Adds, Means, Tells};
ghost use Rattle.net_lanes.specs.Lanes.{AreTwo};

use crate::bits::{equals, low_bits};
use dip_lists::Memory;
use net_build::{Builder, Wire};

/// A narrow and a wide bus, by the base-2 logarithms of their bytes.
#[derive(Debug, Clone, Copy)]
pub struct Buses {
    /// Of the narrow one.
    pub narrow: u32,
    /// Of the wide one.
    pub wide: u32,
}

// The bytes of so many narrow beats, modulo those of a wide one. The number of beats has 8 bits.
#[tactic(auto, using(net_build::proofs::Steps::steps))]
fn bytes_done(builder: &mut Builder, done: Wire, buses: Buses) -> Result<Wire, Memory>
    requires buses { AreTwo buses }
    requires done { IsWire builder.old done × (done.width ≡ 8) }
    ensures adds { IfOk result (λ _. Adds builder.old builder.new) }
    ensures wire { IfOk result (λ w. IsWire builder.new w × (w.width ≡ buses.wide)) }
    ensures value { IfOk result (λ w. Means builder.new w
        (λ v. v done.number * 2 ^ buses.narrow % 2 ^ buses.wide)) }
{
    let zeros = builder.constant(3, 0)?;
    let eightfold = builder.concat(done, zeros)?;
    let low = 3 - buses.narrow;
    let bytes = builder.select(eightfold, low + buses.wide - 1, low)?;
    Ok(bytes)
}

/// Where the narrow beat with a number begins in its wide one, in bytes, for a message at an address, of
/// which the lowest 3 bits are given. The number has 8 bits.
#[tactic(auto, using(net_build::proofs::Steps::steps))]
pub fn here(builder: &mut Builder, address: Wire, done: Wire, buses: Buses) -> Result<Wire, Memory>
    requires buses { AreTwo buses }
    requires address { IsWire builder.old address }
    requires done { IsWire builder.old done × (done.width ≡ 8) }
    ensures adds { IfOk result (λ _. Adds builder.old builder.new) }
    ensures wire { IfOk result (λ w. IsWire builder.new w × (w.width ≡ buses.wide)) }
    ensures value { IfOk result (λ w. Means builder.new w
        (λ v. (v address.number + v done.number * 2 ^ buses.narrow) % 2 ^ buses.wide)) }
{
    let first = low_bits(builder, address, buses.wide)?;
    let bytes = bytes_done(builder, done, buses)?;
    let sum = builder.add(first, bytes)?;
    Ok(sum)
}

/// The number of the lane in its wide beat at which a narrow one begins.
pub fn lane_index(builder: &mut Builder, here: Wire, buses: Buses) -> Result<Wire, Memory>
    requires buses { AreTwo buses }
    requires here { IsWire builder.old here × (here.width ≡ buses.wide) }
    ensures adds { IfOk result (λ _. Adds builder.old builder.new) }
    ensures wire { IfOk result
        (λ w. IsWire builder.new w × (w.width ≡ buses.wide - buses.narrow)) }
    ensures value { IfOk result (λ w. Means builder.new w (λ v. v here.number / 2 ^ buses.narrow)) }
{
    let lane = builder.select(here, buses.wide - 1, buses.narrow)?;
    Ok(lane)
}

/// 1 where the narrow beat that begins here has its wide beat's last lanes.
#[tactic(auto, using(net_build::proofs::Steps::steps))]
pub fn turns(builder: &mut Builder, here: Wire, buses: Buses) -> Result<Wire, Memory>
    requires buses { AreTwo buses }
    requires here { IsWire builder.old here × (here.width ≡ buses.wide) }
    ensures adds { IfOk result (λ _. Adds builder.old builder.new) }
    ensures bit { IfOk result (λ w. IsBit builder.new w) }
    ensures tells { IfOk result (λ w. Tells builder.new w
        (λ v. (v here.number + 2 ^ buses.narrow) % 2 ^ buses.wide == 0)) }
{
    let step = builder.constant(buses.wide, 1 << buses.narrow)?;
    let next = builder.add(here, step)?;
    let end = equals(builder, next, 0)?;
    Ok(end)
}

/// Where a narrow beat lies in its wide one.
#[derive(Debug, Clone, Copy)]
pub struct Place {
    /// The number of the lane at which it begins.
    pub lane: Wire,
    /// 1 where it has the last lanes.
    pub turn: Wire,
}

/// The same of the narrow beat with a number, of 8 bits, of a message at an address, of which the lowest bits
/// are given.
#[tactic(auto, using(net_build::proofs::Steps::steps))]
pub fn place_of(
    builder: &mut Builder,
    address: Wire,
    done: Wire,
    buses: Buses,
) -> Result<Place, Memory>
    requires buses { AreTwo buses }
    requires address { IsWire builder.old address }
    requires done { IsWire builder.old done × (done.width ≡ 8) }
    ensures adds { IfOk result (λ _. Adds builder.old builder.new) }
    ensures bit { IfOk result (λ p. IsBit builder.new p.turn) }
    ensures turn { IfOk result (λ p. Tells builder.new p.turn
        (λ v. (v address.number + (v done.number + 1) * 2 ^ buses.narrow) % 2 ^ buses.wide == 0)) }
    ensures wire { IfOk result
        (λ p. IsWire builder.new p.lane × (p.lane.width ≡ buses.wide - buses.narrow)) }
    ensures lane { IfOk result (λ p. Means builder.new p.lane
        (λ v. (v address.number + v done.number * 2 ^ buses.narrow) % 2 ^ buses.wide
        / 2 ^ buses.narrow)) }
{
    let begin = here(builder, address, done, buses)?;
    let turn = turns(builder, begin, buses)?;
    let lane = lane_index(builder, begin, buses)?;
    Ok(Place { lane, turn })
}
