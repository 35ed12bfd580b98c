ghost use Rattle.std.specs.Prelude.{◌≡◌, ◌≤◌, ◌-◌};
ghost use Rattle.tl_params.specs.Owners.{largest_end as ids_of};
ghost use Rattle.tl_edge.specs.Bundles as spec;

use tl_params::{DownPort, Slave, UpPort, largest_end};

/// The widths of an edge's wires.
#[derive(Clone, Copy, Debug, PartialEq, Eq)]
pub struct Bundle {
    /// The bits of an address.
    pub address_bits: u32,
    /// The bytes of the data bus.
    pub data_bytes: u32,
    /// The bits of a source id.
    pub source_bits: u32,
    /// The bits of a size.
    pub size_bits: u32,
}

// The number of a number's binary digits.
#[tactic(auto, using(crate::proofs::Widths::digits_between, crate::proofs::Widths::digits_none))]
fn digits_of(n: u64) -> u32
    ensures value { result ≡ spec.digits_of n }
    ensures bound { result ≤ 64 }
{
    if n == 0 { 0 } else { n.ilog2() + 1 }
}

// The least number of bits, at least one, that hold a number.
fn bits_for(n: u64) -> u32
    ensures value { result ≡ spec.bits_for n }
    ensures least { spec.IsLeastBits n result }
{
    digits_of(n).max(1)
}

/// The base-2 logarithm of a power of two, and 0 for 0.
pub fn log_of(n: u32) -> u32
    ensures { result ≡ spec.log_of n }
{
    digits_of(u64::from(n)).saturating_sub(1)
}

// The greatest address that a slave answers, 0 where there is none.
fn last_address(slave: &Slave) -> u64
    ensures { result ≡ spec.last_address slave.now.addresses }
{
    let mut last = 0;
    for set in slave.addresses.as_slice() {
        last = last.max(set.base() | set.mask());
    }
    last
}

// The greatest address that one of the slaves answers, 0 where there is none.
fn greatest_address(slaves: &[Slave]) -> u64
    ensures { result ≡ spec.greatest_address slaves.now }
{
    let mut greatest = 0;
    for slave in slaves {
        greatest = greatest.max(last_address(slave));
    }
    greatest
}

// The bytes of the largest transfer that one of the slaves supports, 0 where there is none.
fn largest_transfer(slaves: &[Slave]) -> u32
    ensures { result ≡ spec.largest_transfer slaves.now }
{
    let mut largest = 0;
    for slave in slaves {
        largest = largest.max(slave.supports.largest());
    }
    largest
}

/// The bundle of an edge with these two ports: the least numbers of bits, at least one each, that hold the
/// greatest address of a slave, the greatest id of a master and the base-2 logarithm of the largest transfer
/// that a slave supports. What doesn't exist counts as 0.
pub fn bundle_of(down: &DownPort, up: &UpPort) -> Bundle
    ensures value { result ≡ spec.bundle up.now.slaves (ids_of down.now.masters) up.now.beat }
    ensures address { spec.IsLeastBits (spec.greatest_address up.now.slaves) result.address_bits }
    ensures source { spec.IsLeastBits (ids_of down.now.masters - 1) result.source_bits }
    ensures size { spec.IsLeastBits (spec.log_of (spec.largest_transfer up.now.slaves)) result.size_bits }
{
    let slaves = up.slaves.as_slice();
    let greatest_id = largest_end(down).saturating_sub(1);
    let largest_size = log_of(largest_transfer(slaves));
    Bundle {
        address_bits: bits_for(greatest_address(slaves)),
        data_bytes: up.beat,
        source_bits: bits_for(u64::from(greatest_id)),
        size_bits: bits_for(u64::from(largest_size)),
    }
}
