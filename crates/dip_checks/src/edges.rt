ghost use Rattle.std.specs.Prelude.{◌≡◌, None, slice_get, IsTrue, IfOk, IfErr, OnOk, All, Any};
ghost use Rattle.std.specs.Option.{IsSomeAnd};
ghost use Rattle.std.specs.List.{list_any};
ghost use Rattle.dip_lists.specs.First.{first, first_failing};
ghost use Rattle.dip_sets.specs.Ids.{overlap_ids};
ghost use Rattle.dip_graph.specs.Faults.{IsFaultAt, IsFaultOf};
ghost use Rattle.tl_params.specs.Apart.{HasDisjointSets};
ghost use Rattle.dip_checks.specs.Checks as spec;
ghost use Rattle.dip_checks.specs.Rows.{StandAmong};

use crate::sets::{edge_is_misaligned, sets_of, some_overlap};
use dip_graph::Fault;
use dip_lists::{Items, Memory, Same};
use std::alloc::Global;
use tl_params::{DownPort, Master, Slave, UpPort};

/// The most ids on an edge.
const MOST_IDS: u32 = 1024;

fn has_wrong_ids(master: &Master) -> bool
    ensures { result ≡ spec.has_wrong_ids master.now }
{
    master.ids.end <= master.ids.start || master.ids.end > MOST_IDS
}

fn shares_ids(master: &Master, others: &[Master]) -> bool
    ensures { result ≡ list_any (λ other. overlap_ids master.now.ids other.ids) others.now }
{
    others.iter().any(|other| master.ids.overlaps(&other.ids))
}

// Whether two masters have an id in common.
fn share_ids(masters: &[Master]) -> bool
    ensures { result ≡ spec.share_ids masters.now }
{
    for place in 0..masters.len() {
        if shares_ids(&masters[place], &masters[place + 1..]) {
            return true;
        }
    }
    false
}

fn some_have_wrong_ids(masters: &[Master]) -> bool
    ensures { result ≡ list_any spec.has_wrong_ids masters.now }
{
    masters.iter().any(has_wrong_ids)
}

// Whether an edge has no masters, or ids that are none, too large, or another master's.
fn masters_are_wrong(masters: &[Master]) -> bool
    ensures { result ≡ spec.masters_are_wrong masters.now }
{
    masters.is_empty() || some_have_wrong_ids(masters) || share_ids(masters)
}

// The least edge with wrong ids.
fn wrong_edge(downs: &[DownPort]) -> Option<u64>
    ensures { result ≡ first (spec.wrong_edges downs.now) }
{
    for (edge, down) in downs.iter().enumerate() {
        if masters_are_wrong(down.masters.as_slice()) {
            return Some(edge as u64);
        }
    }
    None
}

// Check 13: each edge has masters, with ids of their own below 1,024.
fn ids_are_right(downs: &[DownPort]) -> Result<(), Fault>
    ensures passes { OnOk result (first (spec.wrong_edges downs.now) ≡ None) }
    ensures err { IfErr result (IsFaultAt 13 (spec.wrong_edges downs.now)) }
{
    match wrong_edge(downs) {
        Some(subject) => Err(Fault::Check {
            number: 13,
            subject,
        }),
        None => Ok(()),
    }
}

// Whether two address sets of an edge have a common address.
fn edge_overlaps(alloc: Global, up: &UpPort) -> Result<bool, Memory>
    ensures { IfOk result (λ overlaps. overlaps ≡ spec.edge_overlaps up.now) }
{
    let sets = sets_of(alloc, up.slaves.as_slice())?;
    Ok(some_overlap(sets))
}

// Whether some slaves stand among others in the same order.
fn stand_among(slaves: &[Slave], others: &[Slave]) -> bool
    ensures { IsTrue result → StandAmong slaves.now others.now }
{
    let mut found = 0;
    for other in others {
        if found < slaves.len() && slaves[found].same(other) {
            found += 1;
        }
    }
    found == slaves.len()
}

// Whether these slaves stand among those of an edge.
fn edge_has_slaves(ups: &[UpPort], edge: usize, slaves: &[Slave]) -> bool
    ensures { IsTrue result → IsSomeAnd (slice_get ups.now edge) (λ up. StandAmong slaves.now up.slaves) }
{
    match ups.get(edge) {
        Some(up) => stand_among(slaves, up.slaves.as_slice()),
        None => false,
    }
}

// Whether these slaves stand among those of one of some edges.
fn some_have_slaves(ups: &[UpPort], edges: &[usize], slaves: &[Slave]) -> bool
    ensures { IsTrue result → Any (λ edge. IsSomeAnd (slice_get ups.now edge) (λ up. StandAmong slaves.now
        up.slaves)) edges.now }
{
    for edge in edges {
        if edge_has_slaves(ups, *edge, slaves) {
            return true;
        }
    }
    false
}

// Check 14: no two address sets of an edge have a common address.
//
// Where slaves stand among those of an edge that was already found to be in order, they are not looked at
// again.
fn sets_are_apart(alloc: Global, ups: &[UpPort]) -> Result<(), Fault>
    ensures passes { OnOk result (first (spec.overlapping_edges ups.now) ≡ None) }
    ensures err { IfErr result (IsFaultAt 14 (spec.overlapping_edges ups.now)) }
{
    let mut apart = Items::new(alloc);
    for (edge, up) in ups.iter().enumerate() {
        if some_have_slaves(ups, apart.as_slice(), up.slaves.as_slice()) {
            continue;
        }
        if edge_overlaps(alloc, up)? {
            return Err(Fault::Check {
                number: 14,
                subject: edge as u64,
            });
        }
        apart.push(edge)?;
    }
    Ok(())
}

// The least edge with a set whose alignment is too small.
fn misaligned_edge(ups: &[UpPort]) -> Option<u64>
    ensures { result ≡ first (spec.misaligned_edges ups.now) }
{
    for (edge, up) in ups.iter().enumerate() {
        if edge_is_misaligned(up) {
            return Some(edge as u64);
        }
    }
    None
}

// Check 15: each set's alignment is at least its slave's largest transfer.
fn sets_are_aligned(ups: &[UpPort]) -> Result<(), Fault>
    ensures passes { OnOk result (first (spec.misaligned_edges ups.now) ≡ None) }
    ensures err { IfErr result (IsFaultAt 15 (spec.misaligned_edges ups.now)) }
{
    match misaligned_edge(ups) {
        Some(subject) => Err(Fault::Check {
            number: 15,
            subject,
        }),
        None => Ok(()),
    }
}

/// The first of the checks 13 to 15 that fails, if one does.
pub fn edges_are_sound(alloc: Global, downs: &[DownPort], ups: &[UpPort]) -> Result<(), Fault>
    ensures passes { OnOk result (first_failing (spec.edge_checks downs.now ups.now) ≡ None) }
    ensures apart { OnOk result (All HasDisjointSets ups.now) }
    ensures err { IfErr result (IsFaultOf (first_failing (spec.edge_checks downs.now ups.now))) }
{
    ids_are_right(downs)?;
    sets_are_apart(alloc, ups)?;
    sets_are_aligned(ups)
}
