ghost use Rattle.std.specs.Prelude.{◌≡◌, ◌<◌, ◌≤◌, ◌%◌, ◌^◌, ◌==◌, IfOk};
ghost use Rattle.net_cells.specs.Rules.{IsWidth};
ghost use Rattle.net_build.specs.Built.{IsBit, IsWire};
ghost use Rattle.net_build.specs.Values.{Adds, Means, Tells};

use dip_lists::Memory;
use net_build::{Builder, Wire};

/// 1 where a wire has this value.
#[tactic(auto, using(net_build::proofs::Steps::steps, net_build::proofs::Steps::bit_made))]
pub fn equals(builder: &mut Builder, wire: Wire, value: u64) -> Result<Wire, Memory>
    requires wire { IsWire builder.old wire }
    requires small { value < 2 ^ wire.width }
    ensures adds { IfOk result (λ _. Adds builder.old builder.new) }
    ensures bit { IfOk result (λ w. IsBit builder.new w) }
    ensures tells { IfOk result (λ w. Tells builder.new w (λ v. v wire.number == value)) }
{
    let number = builder.constant(wire.width, value)?;
    let same = builder.eq(wire, number)?;
    Ok(same)
}

// With zeros before it.
#[tactic(auto, using(net_build::proofs::Steps::steps))]
fn with_zeros(builder: &mut Builder, wire: Wire, width: u32) -> Result<Wire, Memory>
    requires wire { IsWire builder.old wire }
    requires width { IsWidth width }
    requires more { wire.width < width }
    ensures adds { IfOk result (λ _. Adds builder.old builder.new) }
    ensures wire { IfOk result (λ w. IsWire builder.new w × (w.width ≡ width)) }
    ensures value { IfOk result (λ w. Means builder.new w (λ v. v wire.number % 2 ^ width)) }
{
    let zeros = builder.constant(width - wire.width, 0)?;
    let wide = builder.concat(zeros, wire)?;
    Ok(wide)
}

// Its lowest bits alone.
fn cut_off(builder: &mut Builder, wire: Wire, width: u32) -> Result<Wire, Memory>
    requires wire { IsWire builder.old wire }
    requires width { IsWidth width }
    requires fewer { width ≤ wire.width }
    ensures adds { IfOk result (λ _. Adds builder.old builder.new) }
    ensures wire { IfOk result (λ w. IsWire builder.new w × (w.width ≡ width)) }
    ensures value { IfOk result (λ w. Means builder.new w (λ v. v wire.number % 2 ^ width)) }
{
    let low = builder.select(wire, width - 1, 0)?;
    Ok(low)
}

/// The lowest bits of a wire, so many: the value modulo their power of two.
pub fn low_bits(builder: &mut Builder, wire: Wire, width: u32) -> Result<Wire, Memory>
    requires wire { IsWire builder.old wire }
    requires width { IsWidth width }
    ensures adds { IfOk result (λ _. Adds builder.old builder.new) }
    ensures wire { IfOk result (λ w. IsWire builder.new w × (w.width ≡ width)) }
    ensures value { IfOk result (λ w. Means builder.new w (λ v. v wire.number % 2 ^ width)) }
{
    if wire.width < width {
        with_zeros(builder, wire, width)
    } else {
        cut_off(builder, wire, width)
    }
}
