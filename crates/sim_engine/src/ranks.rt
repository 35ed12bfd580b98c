ghost use Rattle.std.specs.Prelude.{◌≡◌, ◌↔◌, ◌+◌, ◌<◌, All, IfOk, IsTrue, length, slice_set};
ghost use Rattle.net_cells.specs.Rules.{IsWellFormed};
ghost use Rattle.sim_engine.specs.Orders.{cell_at};
ghost use Rattle.sim_engine.specs.Ranks.{AreRanked, IsBelow, ReadsBelow, rank_at};
ghost use Rattle.sim_engine.specs.Steps.{three};

use crate::arrange::at;
use crate::order::{first_cell, op_at};
use crate::steps::three;
use dip_lists::Memory;
use net_cells::Netlist;
use std::alloc::Global;

// A search for the loops, depth first (Tarjan's strongly connected components). What it gives is a
// suggestion: `ranks_of` looks whether no cell reads one of a higher rank, and nothing hangs on the search
// but time.
#[derive(Debug, Drop)]
struct Dive {
    // When the search came to each cell, from 1; 0 where it didn't yet.
    numbers: Vec<u64>,
    // The least number of a cell without a rank that each cell is known to depend on.
    lows: Vec<u64>,
    // How many of the nets that each cell reads are looked at.
    turns: Vec<u64>,
    // The rank of each cell, from 1; 0 where it has none yet.
    ranks: Vec<u64>,
    // The cells from where the search began to where it stands, each of which reads the next.
    path: Vec<u64>,
    // The cells that the search came to and that have no rank.
    unranked: Vec<u64>,
    // How many cells the search came to.
    found: u64,
    // The cell that the search begins with next.
    start: u64,
    // The greatest rank.
    greatest: u64,
}

// A search that came to no cell.
fn begin(alloc: Global, cells: usize) -> Result<Dive, Memory> {
    Ok(Dive {
        numbers: vec![in alloc; 0u64; cells]?,
        lows: vec![in alloc; 0u64; cells]?,
        turns: vec![in alloc; 0u64; cells]?,
        ranks: vec![in alloc; 0u64; cells]?,
        path: Vec::new(alloc),
        unranked: Vec::new(alloc),
        found: 0,
        start: 0,
        greatest: 0,
    })
}

// Puts a number in a place, where there is one.
fn put(numbers: &mut [u64], place: u64, number: u64)
    ensures { numbers.new ≡ slice_set numbers.old place number }
{
    if (place as usize) < numbers.len() {
        numbers[place as usize] = number;
    }
}

// Comes to a cell.
fn enter(dive: &mut Dive, place: u64) -> Result<(), Memory> {
    dive.found = dive.found.saturating_add(1);
    put(&mut dive.numbers, place, dive.found);
    put(&mut dive.lows, place, dive.found);
    dive.path.push(place)?;
    dive.unranked.push(place)?;
    Ok(())
}

// Gives one rank to all cells without one that the search came to since it came to this one.
fn rank(dive: &mut Dive, place: u64) {
    dive.greatest = dive.greatest.saturating_add(1);
    for _ in 0..dive.unranked.len() {
        let Some(other) = dive.unranked.pop() else {
            return;
        };
        put(&mut dive.ranks, other, dive.greatest);
        if other == place {
            return;
        }
    }
}

// Goes back from a cell, all of whose nets are looked at.
fn leave(dive: &mut Dive, place: u64) {
    let low = at(&dive.lows, place);
    let _ = dive.path.pop();
    if low == at(&dive.numbers, place) {
        rank(dive, place);
    }
    if let Some(reader) = dive.path.last().copied() {
        if at(&dive.ranks, place) == 0 {
            lower(dive, reader, low);
        }
    }
}

// Keeps that a cell depends on another one without a rank, that has this number.
fn lower(dive: &mut Dive, place: u64, number: u64)
    ensures { dive.new.ranks.items ≡ dive.old.ranks.items }
{
    let low = at(&dive.lows, place).min(number);
    put(&mut dive.lows, place, low);
}

// Looks at the next net that a cell reads.
fn look(dive: &mut Dive, first: u64, place: u64, net: u64) -> Result<(), Memory> {
    let Some(other) = net.checked_sub(first) else {
        return Ok(());
    };
    let number = at(&dive.numbers, other);
    if number == 0 {
        return enter(dive, other);
    }
    if at(&dive.ranks, other) == 0 {
        lower(dive, place, number);
    }
    Ok(())
}

// Of the nets that a cell reads, the one in this turn.
fn net_read(netlist: &Netlist, place: u64, turn: u64) -> Option<u64> {
    let cell = netlist.cells.as_slice().get(place as usize)?;
    three(cell.op).get(turn as usize).copied()
}

// Takes one step: looks at a net, goes back from a cell, or begins with the next one.
fn step(netlist: &Netlist, first: u64, dive: &mut Dive) -> Result<(), Memory>
    requires { IsWellFormed netlist.now }
{
    let Some(place) = dive.path.last().copied() else {
        let start = dive.start;
        dive.start = start.saturating_add(1);
        if at(&dive.numbers, start) == 0 {
            return enter(dive, start);
        }
        return Ok(());
    };
    let turn = at(&dive.turns, place);
    put(&mut dive.turns, place, turn.saturating_add(1));
    match net_read(netlist, place, turn) {
        Some(net) => look(dive, first, place, net),
        None => {
            leave(dive, place);
            Ok(())
        }
    }
}

// Ranks with which no cell should read one of a higher rank, and only cells on one loop have the same.
fn suggested_ranks(alloc: Global, netlist: &Netlist) -> Result<Vec<u64>, Memory>
    requires { IsWellFormed netlist.now }
{
    let first = first_cell(netlist);
    let mut dive = begin(alloc, netlist.cells.len())?;
    // each cell is begun with at most once, left once, and its three nets are looked at once
    for _ in 0..netlist.cells.len().saturating_mul(5) {
        step(netlist, first, &mut dive)?;
    }
    Ok(dive.ranks)
}

// Whether a net is no cell's, or one's whose rank is less than a bound.
fn is_below(first: u64, ranks: &[u64], bound: u64, net: u64) -> bool
    ensures { IsTrue result ↔ IsBelow first ranks.now bound net }
{
    net < first || at(ranks, net - first) < bound
}

/// Whether each cell that the cell at a place reads has a rank less than a bound.
pub fn reads_below(netlist: &Netlist, ranks: &[u64], place: u64, bound: u64) -> bool
    requires well { IsWellFormed netlist.now }
    requires exists { place < length netlist.now.cells }
    ensures { IsTrue result ↔ ReadsBelow netlist.now ranks.now place bound }
{
    let first = first_cell(netlist);
    let [x, y, z] = three(op_at(netlist, place));
    is_below(first, ranks, bound, x)
        && is_below(first, ranks, bound, y)
        && is_below(first, ranks, bound, z)
}

// Whether no cell reads one of a higher rank.
fn are_ranked(netlist: &Netlist, ranks: &[u64]) -> bool
    requires { IsWellFormed netlist.now }
    ensures { IsTrue result → AreRanked netlist.now ranks.now }
{
    for place in 0..netlist.cells.len() as u64 {
        let Some(bound) = at(ranks, place).checked_add(1) else {
            return false;
        };
        if !reads_below(netlist, ranks, place, bound) {
            return false;
        }
    }
    true
}

/// Ranks of the cells with which no cell reads one of a higher rank. Takes time linear in the number of
/// cells.
pub fn ranks_of(alloc: Global, netlist: &Netlist) -> Result<Vec<u64>, Memory>
    requires { IsWellFormed netlist.now }
    ensures { IfOk result (λ ranks. AreRanked netlist.now ranks.items) }
{
    let ranks = suggested_ranks(alloc, netlist)?;
    if are_ranked(netlist, &ranks) {
        return Ok(ranks);
    }
    // without ranks all are alike
    Ok(Vec::new(alloc))
}
