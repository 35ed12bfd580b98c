ghost use Rattle.std.specs.Prelude.{ℕ, ◌≡◌, ◌↔◌, ◌+◌, ◌<◌, ◌≤◌, ◌^◌, IfOk, AllPairs};
ghost use Rattle.dip_sets.specs.Sets.{InSome, Disjoint};
ghost use Rattle.dip_sets.specs.Regions.{InRegion, IsBlock, IsSplit, region_sets};

use crate::set::{AddressSet, AddressSets};
use dip_lists::{Items, Memory};
use std::alloc::Global;

// The greatest power of two that divides the start and fits in the size; every power divides 0.
fn largest_block(start: u64, size: u64) -> u64
    requires { 0 < size }
    ensures { IsBlock start size result }
{
    1 << start.trailing_zeros().min(size.ilog2())
}

/// Disjoint sets that together hold the `size` addresses from `start` on, in rising order: each has the
/// greatest power of two of addresses that divides its start and fits in what is left. Size 0 gives none.
pub fn split_region(alloc: Global, start: u64, size: u64) -> Result<AddressSets, Memory>
    requires { start + size ≤ 2 ^ 48 }
    ensures split { IfOk result (IsSplit start size) }
    ensures list { IfOk result (λ sets. sets ≡ region_sets start size) }
    ensures members { IfOk result (λ sets. (x : ℕ) → InSome sets x ↔ InRegion start size x) }
    ensures disjoint { IfOk result (AllPairs Disjoint) }
{
    let mut sets = Items::new(alloc);
    let mut base = start;
    let mut left = size;
    while left > 0 {
        let block = largest_block(base, left);
        sets.push(AddressSet::block(base, block))?;
        base += block;
        left -= block;
    }
    Ok(sets)
}
