ghost use Rattle.std.specs.Prelude.{◌≡◌, ◌↔◌, ◌+◌, ◌-◌, ◌<◌, ◌≤◌, ◌⊎◌, [], ◌∷◌, ◌++◌, All, Contains, IfOk, IsTrue, MatchOption, false, length, replicate, slice_set, true};
ghost use Rattle.net_cells.specs.Rules.{IsWellFormed, sources};
ghost use Rattle.net_cells.specs.Loops.{DependsOn, HasNoLoop};
ghost use Rattle.sim_engine.specs.Orders.{IsKnown, IsReady};
ghost use Rattle.sim_engine.specs.Ranks.{AreRanked};
ghost use Rattle.sim_engine.specs.Reached.{Extends, Finds, MayFind, HasReached};
ghost use Rattle.sim_engine.specs.Running.{IsLeastLoop};

use crate::arrange::at;
use crate::order::{first_cell, op_at};
use crate::ranks::{ranks_of, reads_below};
use crate::steps::three;
use dip_lists::Memory;
use net_cells::Netlist;
use std::alloc::Global;

/// The cells that a cell depends on, as far as they are found.
#[derive(Debug, Drop)]
pub struct Reach {
    /// Whether each cell is found.
    pub seen: Vec<bool>,
    /// The cells that are found, by their places.
    pub found: Vec<u64>,
}

// A search that has found no cell.
fn begin(alloc: Global, cells: usize) -> Result<Reach, Memory>
    ensures seen { IfOk result (λ r. r.seen.items ≡ replicate cells false) }
    ensures found { IfOk result (λ r. r.found.items ≡ []) }
{
    Ok(Reach {
        seen: vec![in alloc; false; cells]?,
        found: Vec::new(alloc),
    })
}

// Adds a cell to those that are found.
fn put(reach: &mut Reach, place: u64) -> Result<(), Memory>
    requires { place < length reach.old.seen.items }
    ensures seen { IfOk result (λ _. reach.new.seen.items ≡ slice_set reach.old.seen.items place true) }
    ensures found { IfOk result (λ _. reach.new.found.items ≡ reach.old.found.items ++ place ∷ []) }
{
    reach.seen[place as usize] = true;
    reach.found.push(place)?;
    Ok(())
}

// Finds a cell.
#[tactic(auto, using(crate::proofs::Reaching::finds_old))]
fn find_cell(netlist: &Netlist, reach: &mut Reach, start: u64, place: u64) -> Result<(), Memory>
    requires reaches { HasReached netlist.now start reach.old }
    requires exists { place < length netlist.now.cells }
    requires depends { DependsOn netlist.now (sources netlist.now + start) (sources netlist.now + place) }
    ensures { IfOk result (λ _. Finds netlist.now start reach.old reach.new place) }
{
    if reach.seen[place as usize] {
        return Ok(());
    }
    put(reach, place)?;
    Ok(())
}

// Finds the cell of a net, if it is a cell's.
fn find(netlist: &Netlist, reach: &mut Reach, start: u64, net: u64) -> Result<(), Memory>
    requires well { IsWellFormed netlist.now }
    requires reaches { HasReached netlist.now start reach.old }
    requires may { MayFind netlist.now start net }
    ensures reaches { IfOk result (λ _. HasReached netlist.now start reach.new) }
    ensures extends { IfOk result (λ _. Extends reach.old.found.items reach.new.found.items) }
    ensures known { IfOk result (λ _. IsKnown netlist.now reach.new.found.items net) }
{
    let first = first_cell(netlist);
    if net < first {
        return Ok(());
    }
    find_cell(netlist, reach, start, net - first)
}

// Finds the cells of some nets.
fn find_all(netlist: &Netlist, reach: &mut Reach, start: u64, nets: &[u64]) -> Result<(), Memory>
    requires well { IsWellFormed netlist.now }
    requires reaches { HasReached netlist.now start reach.old }
    requires may { All (MayFind netlist.now start) nets.now }
    ensures reaches { IfOk result (λ _. HasReached netlist.now start reach.new) }
    ensures extends { IfOk result (λ _. Extends reach.old.found.items reach.new.found.items) }
    ensures known { IfOk result (λ _. All (IsKnown netlist.now reach.new.found.items) nets.now) }
{
    for net in nets {
        find(netlist, reach, start, *net)?;
    }
    Ok(())
}

// Finds the cells that a cell reads.
fn expand(netlist: &Netlist, reach: &mut Reach, start: u64, place: u64) -> Result<(), Memory>
    requires well { IsWellFormed netlist.now }
    requires reaches { HasReached netlist.now start reach.old }
    requires exists { place < length netlist.now.cells }
    requires on { (place ≡ start)
        ⊎ DependsOn netlist.now (sources netlist.now + start) (sources netlist.now + place) }
    ensures reaches { IfOk result (λ _. HasReached netlist.now start reach.new) }
    ensures extends { IfOk result (λ _. Extends reach.old.found.items reach.new.found.items) }
    ensures ready { IfOk result (λ _. IsReady netlist.now reach.new.found.items place) }
{
    let nets = three(op_at(netlist, place));
    find_all(netlist, reach, start, &nets)?;
    Ok(())
}

// Whether the net of the cell at a place depends on itself through cells.
fn depends_on_itself(alloc: Global, netlist: &Netlist, start: u64) -> Result<bool, Memory>
    requires well { IsWellFormed netlist.now }
    requires exists { start < length netlist.now.cells }
    ensures { IfOk result (λ found. IsTrue found
        ↔ DependsOn netlist.now (sources netlist.now + start) (sources netlist.now + start)) }
{
    let mut reach = begin(alloc, netlist.cells.len())?;
    expand(netlist, &mut reach, start, start)?;
    let mut next = 0;
    while next < reach.found.len() {
        let place = reach.found[next];
        expand(netlist, &mut reach, start, place)?;
        next += 1;
    }
    Ok(reach.seen[start as usize])
}

// Whether the net of the cell at a place depends on itself through cells. Where the cell reads only such of
// lower ranks, this is seen from them.
#[tactic(auto, using(crate::proofs::Ranked::on_no_loop))]
fn is_on_loop(alloc: Global, netlist: &Netlist, ranks: &[u64], place: u64) -> Result<bool, Memory>
    requires well { IsWellFormed netlist.now }
    requires ranked { AreRanked netlist.now ranks.now }
    requires exists { place < length netlist.now.cells }
    ensures { IfOk result (λ found. IsTrue found
        ↔ DependsOn netlist.now (sources netlist.now + place) (sources netlist.now + place)) }
{
    if reads_below(netlist, ranks, place, at(ranks, place)) {
        return Ok(false);
    }
    depends_on_itself(alloc, netlist, place)
}

/// The least net that depends on itself through cells; `None` where there is none.
pub fn least_loop(alloc: Global, netlist: &Netlist) -> Result<Option<u64>, Memory>
    requires { IsWellFormed netlist.now }
    ensures { IfOk result (λ found. MatchOption found (HasNoLoop netlist.now) (IsLeastLoop netlist.now)) }
{
    let first = first_cell(netlist);
    let ranks = ranks_of(alloc, netlist)?;
    for place in 0..netlist.cells.len() as u64 {
        if is_on_loop(alloc, netlist, &ranks, place)? {
            return Ok(Some(first + place));
        }
    }
    Ok(None)
}
