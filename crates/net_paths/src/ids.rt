ghost use Rattle.std.specs.Prelude.{◌≡◌, ◌<◌, ◌≤◌, ◌-◌, ◌^◌, ◌/◌, ◌==◌, ◌⊎◌, IfOk, nat_lt, false};
ghost use Rattle.dip_sets.specs.declared.ids.IdRange.{IdRange};
ghost use Rattle.dip_sets.specs.Ids as spec;
ghost use Rattle.net_cells.specs.Rules.{IsWidth};
ghost use Rattle.net_build.specs.Built.{IsBit, IsWire};
ghost use Rattle.net_build.specs.Values.{Adds, Means, Tells};
ghost use Rattle.net_paths.specs.Paths.{IsIdBlock, MovesBack, MovesId};

use dip_lists::Memory;
use net_build::{Builder, Wire};
use net_queue::fit_wire;

/// A range of a power of two of ids that begins at a multiple of their number: the ids whose bits from a
/// place on are a prefix.
#[derive(Debug, Clone, Copy)]
pub struct IdBlock {
    /// The bits of its ids from `bits` on.
    pub prefix: u32,
    /// The exponent of how many ids it has.
    pub bits: u32,
}

// 1 always, or never.
#[tactic(auto, using(net_build::proofs::Steps::bit_made))]
fn always(builder: &mut Builder, held: bool) -> Result<Wire, Memory>
    ensures adds { IfOk result (λ _. Adds builder.old builder.new) }
    ensures bit { IfOk result (λ w. IsBit builder.new w) }
    ensures tells { IfOk result (λ w. Tells builder.new w (λ v. held)) }
{
    if held {
        let wire = builder.constant(1, 1)?;
        return Ok(wire);
    }
    let wire = builder.constant(1, 0)?;
    Ok(wire)
}

// 1 where the bits of an id from a place on are a prefix.
#[tactic(auto, using(net_build::proofs::Steps::steps, net_build::proofs::Steps::bit_made))]
fn has_prefix(builder: &mut Builder, id: Wire, bits: u32, prefix: u64) -> Result<Wire, Memory>
    requires id { IsWire builder.old id }
    requires bits { bits < id.width }
    requires prefix { prefix < 2 ^ (id.width - bits) }
    ensures adds { IfOk result (λ _. Adds builder.old builder.new) }
    ensures bit { IfOk result (λ w. IsBit builder.new w) }
    ensures tells { IfOk result (λ w. Tells builder.new w (λ v. v id.number / 2 ^ bits == prefix)) }
{
    let number = builder.constant(id.width - bits, prefix)?;
    let high = builder.select(id, id.width - 1, bits)?;
    let wire = builder.eq(high, number)?;
    Ok(wire)
}

/// Whether a number has at most so many bits.
pub fn fits(value: u64, bits: u32) -> bool
    requires { bits ≤ 64 }
    ensures { result ≡ nat_lt value (2 ^ bits) }
{
    bits >= 64 || value >> bits == 0
}

/// 1 where an id is in a range.
pub fn has_id(builder: &mut Builder, id: Wire, block: IdBlock) -> Result<Wire, Memory>
    requires id { IsWire builder.old id }
    ensures adds { IfOk result (λ _. Adds builder.old builder.new) }
    ensures bit { IfOk result (λ w. IsBit builder.new w) }
    ensures tells { IfOk result (λ w. (range : IdRange) → IsIdBlock range block
        → Tells builder.new w (λ v. spec.has_id range (v id.number))) }
{
    let prefix = u64::from(block.prefix);
    if block.bits >= id.width {
        let wire = always(builder, prefix == 0)?;
        return Ok(wire);
    }
    if fits(prefix, id.width - block.bits) {
        let wire = has_prefix(builder, id, block.bits, prefix)?;
        return Ok(wire);
    }
    let wire = always(builder, false)?;
    Ok(wire)
}

// So many bits, or 32 where a number has more.
fn width_for(value: u32, bits: u32) -> u32
    requires { IsWidth bits }
    ensures width { IsWidth result }
    ensures which { (result ≡ bits) ⊎ (result ≡ 32) }
    ensures fits { value < 2 ^ result }
{
    if fits(u64::from(value), bits) {
        return bits;
    }
    32
}

// A prefix before the low bits of an id. The whole is to have so many bits, if they suffice.
#[tactic(auto, using(net_build::proofs::Steps::steps))]
fn with_prefix(builder: &mut Builder, id: Wire, block: IdBlock, width: u32) -> Result<Wire, Memory>
    requires id { IsWire builder.old id }
    requires width { IsWidth width }
    requires bits { 0 < block.bits × block.bits < 32 }
    ensures adds { IfOk result (λ _. Adds builder.old builder.new) }
    ensures wire { IfOk result (λ w. IsWire builder.new w) }
    ensures moves { IfOk result (λ w. (range : IdRange) → IsIdBlock range block
        → MovesId builder.new range block id w) }
{
    let more = width.saturating_sub(block.bits).max(1);
    let high_width = width_for(block.prefix, more);
    let high = builder.constant(high_width, u64::from(block.prefix))?;
    let low = fit_wire(builder, id, block.bits)?;
    let wire = builder.concat(high, low)?;
    Ok(wire)
}

/// An id moved to a range, wherever it is below the number of its ids: a prefix before its bits. The wire is
/// to have so many bits, if they suffice.
pub fn move_id(builder: &mut Builder, id: Wire, block: IdBlock, width: u32) -> Result<Wire, Memory>
    requires id { IsWire builder.old id }
    requires width { IsWidth width }
    requires bits { block.bits < 32 }
    ensures adds { IfOk result (λ _. Adds builder.old builder.new) }
    ensures wire { IfOk result (λ w. IsWire builder.new w) }
    ensures moves { IfOk result (λ w. (range : IdRange) → IsIdBlock range block
        → MovesId builder.new range block id w) }
{
    if block.prefix == 0 {
        return Ok(id);
    }
    if block.bits == 0 {
        let alone = builder.constant(width_for(block.prefix, width), u64::from(block.prefix))?;
        return Ok(alone);
    }
    let wire = with_prefix(builder, id, block, width)?;
    Ok(wire)
}

/// An id moved back from a range, wherever it is in it: its low bits.
pub fn move_back(builder: &mut Builder, id: Wire, block: IdBlock) -> Result<Wire, Memory>
    requires id { IsWire builder.old id }
    ensures adds { IfOk result (λ _. Adds builder.old builder.new) }
    ensures wire { IfOk result (λ w. IsWire builder.new w) }
    ensures moves { IfOk result (λ w. (range : IdRange) → IsIdBlock range block
        → MovesBack builder.new range id w) }
{
    if block.prefix == 0 {
        return Ok(id);
    }
    if block.bits >= id.width {
        return Ok(id);
    }
    if block.bits == 0 {
        let none = builder.constant(1, 0)?;
        return Ok(none);
    }
    let low = builder.select(id, block.bits - 1, 0)?;
    Ok(low)
}
