ghost use Rattle.std.specs.Prelude.{◌≡◌, ◌↔◌, ◌++◌, length, IsTrue, IfOk, OnOk};
ghost use Rattle.std.specs.List.{AllAdjacentBelow, list_any};
ghost use Rattle.dip_sets.specs.Sets.{overlap};
ghost use Rattle.tl_params.specs.Owners as owners;
ghost use Rattle.dip_checks.specs.Checks as spec;
ghost use Rattle.dip_checks.specs.Rows.{EndsBefore};

use dip_lists::{Items, Memory};
use dip_sets::AddressSet;
use std::alloc::Global;
use tl_params::{Slave, UpPort};

fn overlaps_any(set: &AddressSet, others: &[AddressSet]) -> bool
    ensures { result ≡ list_any (overlap set.now) others.now }
{
    others.iter().any(|other| set.overlaps(other))
}

// Whether two of some sets have a common address, pair by pair.
fn has_overlap(sets: &[AddressSet]) -> bool
    ensures { result ≡ spec.has_overlap sets.now }
{
    for place in 0..sets.len() {
        if overlaps_any(&sets[place], &sets[place + 1..]) {
            return true;
        }
    }
    false
}

fn ends_before(set: &AddressSet, other: &AddressSet) -> bool
    ensures { IsTrue result ↔ EndsBefore set.now other.now }
{
    set.base() + set.mask() < other.base()
}

// Whether each set ends before the next one begins.
fn stand_in_row(sets: &[AddressSet]) -> bool
    ensures { IsTrue result ↔ AllAdjacentBelow EndsBefore sets.now (length sets.now) }
{
    for place in 1..sets.len() {
        if !ends_before(&sets[place - 1], &sets[place]) {
            return false;
        }
    }
    true
}

// Whether some set has a common address with the next one.
#[tactic(auto, using(crate::proofs::Rows::neighbours_more, crate::proofs::Rows::neighbours_end))]
fn neighbours_overlap(sets: &[AddressSet]) -> bool
    ensures { result ≡ spec.neighbours_overlap sets.now }
{
    for place in 1..sets.len() {
        if sets[place - 1].overlaps(&sets[place]) {
            return true;
        }
    }
    false
}

/// Whether two of some sets have a common address.
///
/// Sorted by their bases, sets without holes either stand in a row, or some set has a common address with the
/// next one, as two equal sets have. Only where neither is so, all are compared pair by pair.
pub fn some_overlap(sets: Items<AddressSet>) -> bool
    ensures { result ≡ spec.has_overlap sets }
{
    let mut sorted = sets.into_vec();
    sorted.sort_unstable_by_key(|set| set.base());
    let sorted = sorted.as_slice();
    if stand_in_row(sorted) {
        return false;
    }
    if neighbours_overlap(sorted) {
        return true;
    }
    has_overlap(sorted)
}

// Adds sets behind others.
fn add_sets(all: &mut Items<AddressSet>, sets: &[AddressSet]) -> Result<(), Memory>
    ensures { OnOk result (all.new ≡ all.old ++ sets.now) }
{
    for set in sets {
        all.push(*set)?;
    }
    Ok(())
}

/// The address sets of some slaves.
pub fn sets_of(alloc: Global, slaves: &[Slave]) -> Result<Items<AddressSet>, Memory>
    ensures { IfOk result (λ sets. sets ≡ owners.sets_of slaves.now) }
{
    let mut sets = Items::new(alloc);
    for slave in slaves {
        add_sets(&mut sets, slave.addresses.as_slice())?;
    }
    Ok(sets)
}

// Whether a set of a slave has an alignment below its largest transfer.
fn slave_is_misaligned(slave: &Slave) -> bool
    ensures { result ≡ spec.slave_is_misaligned slave.now }
{
    let largest = u64::from(slave.supports.largest());
    slave
        .addresses
        .as_slice()
        .iter()
        .any(|set| set.alignment() < largest)
}

/// Whether a set of an edge has an alignment below its slave's largest transfer.
pub fn edge_is_misaligned(up: &UpPort) -> bool
    ensures { result ≡ spec.edge_is_misaligned up.now }
{
    up.slaves.as_slice().iter().any(slave_is_misaligned)
}
