ghost use Rattle.std.specs.Prelude.{◌≡◌, ◌≢◌, ◌↔◌, ◌+◌, ◌-◌, ◌<◌, ◌≤◌, [], ◌∷◌, ◌++◌, All, Contains, IfOk, IsTrue, MatchBool, MatchOption, length, replicate, slice_set};
ghost use Rattle.net_cells.specs.declared.netlist.CellOp.{CellOp};
ghost use Rattle.net_cells.specs.Rules.{IsWellFormed, sources};
ghost use Rattle.net_cells.specs.Loops.{Reads};
ghost use Rattle.sim_engine.specs.Orders.{HasLoop, IsOrder, IsReady, cell_at};
ghost use Rattle.sim_engine.specs.Walks.{HasAllDone, IsIdle, WaitsFor, Visited, Goes, IsDone, IsWalk, KeepsMarks, Stands, left, mark_at};

use crate::arrange::grouped;
use crate::steps::three;
use dip_lists::Memory;
use net_cells::{Cell, CellOp, Netlist};
use std::alloc::Global;

/// How far the search has come with a cell.
#[derive(Clone, Copy, Debug, PartialEq, Eq)]
pub enum Mark {
    /// Not reached.
    New,
    /// On the stack.
    Open,
    /// In the order.
    Done,
}

/// A search through the cells, along the nets that they read.
#[derive(Debug, Drop)]
pub struct Walk {
    /// How far it has come with each cell.
    pub marks: Vec<Mark>,
    /// The cells that are done, each behind those that it reads.
    pub order: Vec<u64>,
    /// The open cells, each of which depends on those behind it.
    pub stack: Vec<u64>,
}

/// The number of the first cell's net.
pub fn first_cell(netlist: &Netlist) -> u64
    requires { IsWellFormed netlist.now }
    ensures { result ≡ sources netlist.now }
{
    netlist.inputs.len() as u64 + netlist.regs.len() as u64
}

/// The cell at a place.
pub fn cell_at(netlist: &Netlist, place: u64) -> Cell
    requires { place < length netlist.now.cells }
    ensures { result ≡ cell_at netlist.now place }
{
    netlist.cells.as_slice()[place as usize]
}

/// The operator of the cell at a place.
pub fn op_at(netlist: &Netlist, place: u64) -> CellOp
    requires { place < length netlist.now.cells }
    ensures { result ≡ (cell_at netlist.now place).op }
{
    netlist.cells.as_slice()[place as usize].op
}

// Whether the search has not come to a cell.
fn is_new(walk: &Walk, place: u64) -> bool
    requires { place < length walk.now.marks.items }
    ensures { IsTrue result ↔ (mark_at walk.now.marks.items place ≡ Mark.New) }
{
    match walk.marks[place as usize] {
        Mark::New => true,
        Mark::Open | Mark::Done => false,
    }
}

// Whether a net is an input or a register, or the net of a cell that is done.
fn is_done(first: u64, marks: &[Mark], net: u64) -> bool
    ensures { IsTrue result ↔ IsDone first marks.now net }
{
    if net < first {
        return true;
    }
    match marks.get((net - first) as usize) {
        Some(Mark::Done) => true,
        Some(Mark::New | Mark::Open) | None => false,
    }
}

// The first of some nets whose cell isn't done.
fn first_waiting(first: u64, marks: &[Mark], nets: &[u64]) -> Option<u64>
    ensures { MatchOption result (All (IsDone first marks.now) nets.now)
        (λ net. Contains nets.now net × (IsDone first marks.now net → ⊥)) }
{
    for net in nets {
        if !is_done(first, marks, *net) {
            return Some(*net);
        }
    }
    None
}

// The first cell that isn't done of those that a cell reads.
fn waits_for(netlist: &Netlist, walk: &Walk, top: u64) -> Option<u64>
    requires well { IsWellFormed netlist.now }
    requires exists { top < length netlist.now.cells }
    ensures { MatchOption result (HasAllDone netlist.now walk.now top) (WaitsFor netlist.now walk.now top) }
{
    let first = first_cell(netlist);
    let nets = three(op_at(netlist, top));
    match first_waiting(first, &walk.marks, &nets) {
        None => None,
        Some(net) => Some(net - first),
    }
}

// Puts a cell on the stack.
fn open(walk: &mut Walk, place: u64) -> Result<(), Memory>
    requires { place < length walk.old.marks.items }
    ensures marks { IfOk result (λ _. walk.new.marks.items ≡ slice_set walk.old.marks.items place Mark.Open) }
    ensures order { IfOk result (λ _. walk.new.order.items ≡ walk.old.order.items) }
    ensures stack { IfOk result (λ _. walk.new.stack.items ≡ walk.old.stack.items ++ place ∷ []) }
{
    walk.marks[place as usize] = Mark::Open;
    walk.stack.push(place)?;
    Ok(())
}

// Puts a cell at the end of the order.
fn close(walk: &mut Walk, place: u64) -> Result<(), Memory>
    requires { place < length walk.old.marks.items }
    ensures marks { IfOk result (λ _. walk.new.marks.items ≡ slice_set walk.old.marks.items place Mark.Done) }
    ensures order { IfOk result (λ _. walk.new.order.items ≡ walk.old.order.items ++ place ∷ []) }
    ensures stack { IfOk result (λ _. walk.new.stack.items ≡ walk.old.stack.items) }
{
    walk.marks[place as usize] = Mark::Done;
    walk.order.push(place)?;
    Ok(())
}

// Goes on with a cell that the one above the stack reads; false where it is open.
fn enter(netlist: &Netlist, walk: &mut Walk, top: u64, place: u64) -> Result<bool, Memory>
    requires stands { IsWalk netlist.now walk.old.marks.items walk.old.order.items
        (walk.old.stack.items ++ top ∷ []) }
    requires waits { WaitsFor netlist.now walk.old top place }
    ensures { IfOk result (λ on. MatchBool on (Goes netlist.now walk.old walk.new) (HasLoop netlist.now)) }
{
    if !is_new(walk, place) {
        return Ok(false);
    }
    walk.stack.push(top)?;
    open(walk, place)?;
    Ok(true)
}

// Takes the search one step further with the cell taken from its stack; false where that one is on a loop.
fn advance(netlist: &Netlist, walk: &mut Walk, top: u64) -> Result<bool, Memory>
    requires well { IsWellFormed netlist.now }
    requires stands { IsWalk netlist.now walk.old.marks.items walk.old.order.items
        (walk.old.stack.items ++ top ∷ []) }
    ensures { IfOk result (λ on. MatchBool on (Goes netlist.now walk.old walk.new) (HasLoop netlist.now)) }
{
    match waits_for(netlist, walk, top) {
        None => {
            close(walk, top)?;
            Ok(true)
        }
        Some(place) => enter(netlist, walk, top, place),
    }
}

// Takes the search to its end; false where there is a loop.
fn finish(netlist: &Netlist, walk: &mut Walk) -> Result<bool, Memory>
    requires well { IsWellFormed netlist.now }
    requires stands { Stands netlist.now walk.old }
    ensures { IfOk result (λ done. MatchBool done
        (Goes netlist.now walk.old walk.new × (walk.new.stack.items ≡ [])) (HasLoop netlist.now)) }
{
    while let Some(top) = walk.stack.pop() {
        if !advance(netlist, walk, top)? {
            return Ok(false);
        }
    }
    Ok(true)
}

// Walks from a cell on; false where there is a loop.
fn visit(netlist: &Netlist, walk: &mut Walk, root: u64) -> Result<bool, Memory>
    requires well { IsWellFormed netlist.now }
    requires stands { Stands netlist.now walk.old }
    requires idle { walk.old.stack.items ≡ [] }
    requires exists { root < length netlist.now.cells }
    ensures { IfOk result (λ done. MatchBool done
        (Visited netlist.now walk.old walk.new root) (HasLoop netlist.now)) }
{
    if !is_new(walk, root) {
        return Ok(true);
    }
    open(walk, root)?;
    finish(netlist, walk)
}

// A search that has found no cell.
fn start(alloc: Global, cells: usize) -> Result<Walk, Memory>
    ensures marks { IfOk result (λ s. s.marks.items ≡ replicate cells Mark.New) }
    ensures order { IfOk result (λ s. s.order.items ≡ []) }
    ensures stack { IfOk result (λ s. s.stack.items ≡ []) }
{
    Ok(Walk {
        marks: vec![in alloc; Mark::New; cells]?,
        order: Vec::new(alloc),
        stack: Vec::new(alloc),
    })
}

// Puts a cell at the end of the order, if it is new and all that it reads is done.
fn offer(netlist: &Netlist, walk: &mut Walk, place: u64) -> Result<(), Memory>
    requires well { IsWellFormed netlist.now }
    requires stands { Stands netlist.now walk.old }
    requires idle { walk.old.stack.items ≡ [] }
    ensures { IfOk result (λ _. IsIdle netlist.now walk.new) }
{
    if place >= netlist.cells.len() as u64 || !is_new(walk, place) {
        return Ok(());
    }
    match waits_for(netlist, walk, place) {
        Some(_) => Ok(()),
        None => {
            close(walk, place)?;
            Ok(())
        }
    }
}

// Puts cells into the order, as far as they are ready in turn.
fn offer_all(netlist: &Netlist, walk: &mut Walk, places: &[u64]) -> Result<(), Memory>
    requires well { IsWellFormed netlist.now }
    requires idle { IsIdle netlist.now walk.old }
    ensures { IfOk result (λ _. IsIdle netlist.now walk.new) }
{
    for place in places {
        offer(netlist, walk, *place)?;
    }
    Ok(())
}

// An order in which the cells can be evaluated, by their places; `None` where a net depends on itself
// through cells. It begins with the given cells, as far as they are ready in turn. Takes time linear in the
// number of cells.
fn order_from(alloc: Global, netlist: &Netlist, places: &[u64]) -> Result<Option<Vec<u64>>, Memory>
    requires { IsWellFormed netlist.now }
    ensures { IfOk result (λ found. MatchOption found (HasLoop netlist.now)
        (λ order. IsOrder netlist.now order.items)) }
{
    let cells = netlist.cells.len();
    let mut walk = start(alloc, cells)?;
    offer_all(netlist, &mut walk, places)?;
    for root in 0..cells as u64 {
        if !visit(netlist, &mut walk, root)? {
            return Ok(None);
        }
    }
    let Walk {
        marks: _,
        order,
        stack: _,
    } = walk;
    Ok(Some(order))
}

/// An order in which the cells can be evaluated, by their places; `None` where a net depends on itself
/// through cells. In it, cells with one operator stand together where they can. Takes time linear in the
/// number of cells.
pub fn order_of(alloc: Global, netlist: &Netlist) -> Result<Option<Vec<u64>>, Memory>
    requires { IsWellFormed netlist.now }
    ensures { IfOk result (λ found. MatchOption found (HasLoop netlist.now)
        (λ order. IsOrder netlist.now order.items)) }
{
    let Some(order) = order_from(alloc, netlist, &[])? else {
        return Ok(None);
    };
    let places = grouped(alloc, netlist, order.as_slice())?;
    order_from(alloc, netlist, places.as_slice())
}
