ghost use Rattle.std.specs.Prelude.{◌≤◌, length};
ghost use Rattle.dip_negotiate.specs.Demands.{IsLazy};

use crate::broken::Broken;
use crate::graphs::{show_refusal, small_design, solution_of};
use crate::show::{show_down, show_up};
use crate::text::{halves, number};
use dip_graph::{Design, Edges};
use dip_negotiate::{Lazy, NegFault, Solution, is_negotiable};
use dip_rule::{Rules, Stating};
use dip_stars::resolve;
use std::cell::Cell;
use std::rc::Rc;
use tl_params::{same_down, same_up};

/// How often the counting rules of two kinds were asked.
#[derive(Drop)]
pub struct Counters {
    pub one: Rc<Cell<u32>>,
    pub two: Rc<Cell<u32>>,
    /// Whether the next asking of the first kind finds no memory.
    pub short: Rc<Cell<bool>>,
    /// The same of the second kind, which always does.
    pub never: Rc<Cell<bool>>,
}

// A demand that ended otherwise than with a port.
fn show_fault(rt: &HostRuntime, fault: NegFault) -> Result<(), Broken> {
    match fault {
        NegFault::DownRefused { node, port, number } => {
            Ok(print!(rt; " {node}.{port} refuses down with {number};")?)
        }
        NegFault::UpRefused { node, port, number } => {
            Ok(print!(rt; " {node}.{port} refuses up with {number};")?)
        }
        NegFault::Memory => Ok(print!(rt; " no memory;")?),
    }
}

// What goes down an edge, on demand.
fn demand_down(rt: &HostRuntime, lazy: &mut Lazy<'_>, edge: u32) -> Result<(), Broken>
    requires is { IsLazy (⟦<Rules as Stating>⟧.stated lazy.old.rules.now) lazy.old.design.now
        lazy.old.edges.now lazy.old.down_turns lazy.old.down.items lazy.old.up_turns lazy.old.up.items }
    ensures is { IsLazy (⟦<Rules as Stating>⟧.stated lazy.new.rules.now) lazy.new.design.now
        lazy.new.edges.now lazy.new.down_turns lazy.new.down.items lazy.new.up_turns lazy.new.up.items }
{
    if edge as usize >= lazy.edge_count() {
        return Ok(());
    }
    match lazy.demand_down(rt.alloc(), edge) {
        Err(fault) => show_fault(rt, fault),
        Ok(()) => match lazy.down_port(edge) {
            Some(port) => {
                show_down(rt, port)?;
                Ok(print!(rt; ";")?)
            }
            None => Ok(()),
        },
    }
}

// What goes up an edge, on demand.
fn demand_up(rt: &HostRuntime, lazy: &mut Lazy<'_>, edge: u32) -> Result<(), Broken>
    requires is { IsLazy (⟦<Rules as Stating>⟧.stated lazy.old.rules.now) lazy.old.design.now
        lazy.old.edges.now lazy.old.down_turns lazy.old.down.items lazy.old.up_turns lazy.old.up.items }
    ensures is { IsLazy (⟦<Rules as Stating>⟧.stated lazy.new.rules.now) lazy.new.design.now
        lazy.new.edges.now lazy.new.down_turns lazy.new.down.items lazy.new.up_turns lazy.new.up.items }
{
    if edge as usize >= lazy.edge_count() {
        return Ok(());
    }
    match lazy.demand_up(rt.alloc(), edge) {
        Err(fault) => show_fault(rt, fault),
        Ok(()) => match lazy.up_port(edge) {
            Some(port) => {
                show_up(rt, port)?;
                Ok(print!(rt; ";")?)
            }
            None => Ok(()),
        },
    }
}

// Of each edge whether what goes down it and what goes up it is kept.
fn show_kept(rt: &HostRuntime, lazy: &Lazy<'_>, edges: u32) -> Result<(), Broken> {
    print!(rt; " kept")?;
    for edge in 0..edges {
        let down = if lazy.keeps_down(edge) { 'd' } else { '-' };
        let up = if lazy.keeps_up(edge) { 'u' } else { '-' };
        print!(rt; " {down}{up}")?;
    }
    Ok(print!(rt; ";")?)
}

// What was asked of the counting rules since the last time.
fn show_asked(rt: &HostRuntime, counters: &Counters) -> Result<(), Broken> {
    Ok(print!(rt;
        " asked {} {};",
        counters.one.replace(0),
        counters.two.replace(0)
    )?)
}

// A step of a line: `down.EDGE`, `up.EDGE`, `kept.EDGES`, `short` or `asked`.
fn step(
    rt: &HostRuntime,
    lazy: &mut Lazy<'_>,
    counters: &Counters,
    word: &str,
) -> Result<(), Broken>
    requires is { IsLazy (⟦<Rules as Stating>⟧.stated lazy.old.rules.now) lazy.old.design.now
        lazy.old.edges.now lazy.old.down_turns lazy.old.down.items lazy.old.up_turns lazy.old.up.items }
    ensures is { IsLazy (⟦<Rules as Stating>⟧.stated lazy.new.rules.now) lazy.new.design.now
        lazy.new.edges.now lazy.new.down_turns lazy.new.down.items lazy.new.up_turns lazy.new.up.items }
{
    let (word, edge) = halves(word, '.');
    match word {
        "down" => demand_down(rt, lazy, number(edge)),
        "up" => demand_up(rt, lazy, number(edge)),
        "kept" => show_kept(rt, lazy, number(edge)),
        "asked" => show_asked(rt, counters),
        "short" => {
            counters.short.set(true);
            Ok(())
        }
        _ => Ok(()),
    }
}

// The steps of a line on demand, and then all ports that are left.
fn walk(rt: &HostRuntime, lazy: Lazy<'_>, counters: &Counters, steps: &str) -> Result<(), Broken>
    requires is { IsLazy (⟦<Rules as Stating>⟧.stated lazy.rules.now) lazy.design.now lazy.edges.now
        lazy.down_turns lazy.down.items lazy.up_turns lazy.up.items }
{
    let mut lazy = lazy;
    for word in steps.split(' ') {
        step(rt, &mut lazy, counters, word)?;
    }
    match lazy.finish(rt.alloc()) {
        Ok(solution) => Ok(println!(rt; " {} ports", solution.down.len())?),
        Err(fault) => show_refusal(rt, fault),
    }
}

/// Demands on a design, `NODES BINDS ; STEPS`, with what each answers and what all ports are at the end.
pub fn ask_demands(
    rt: &HostRuntime,
    rules: &Rules,
    counters: &Counters,
    text: &str,
) -> Result<(), Broken> {
    let (text, steps) = text.split_once(" ; ").unwrap_or((text, ""));
    let design = small_design(rt.alloc(), text)?;
    let Ok(edges) = resolve(rt.alloc(), &design, rules) else {
        return Err(Broken::Memory);
    };
    if !is_negotiable(rt.alloc(), &design, edges.as_slice())? {
        return Err(Broken::Memory);
    }
    let lazy = Lazy::new(rt.alloc(), &design, &edges, rules)?;
    walk(rt, lazy, counters, steps)
}

// The next of some numbers that look random.
fn next(state: u32) -> u32 {
    state.wrapping_mul(1_103_515_245).wrapping_add(12_345)
}

// Demands all ports of a design with so many edges, in an order that looks random: of each number the half is
// an edge, and the rest the direction.
fn demand_all(rt: &HostRuntime, lazy: &mut Lazy<'_>, edges: u32, seed: u32) -> Result<bool, Broken>
    requires is { IsLazy (⟦<Rules as Stating>⟧.stated lazy.old.rules.now) lazy.old.design.now
        lazy.old.edges.now lazy.old.down_turns lazy.old.down.items lazy.old.up_turns lazy.old.up.items }
    ensures is { IsLazy (⟦<Rules as Stating>⟧.stated lazy.new.rules.now) lazy.new.design.now
        lazy.new.edges.now lazy.new.down_turns lazy.new.down.items lazy.new.up_turns lazy.new.up.items }
{
    let mut state = seed;
    for _turn in 0..4000u32 {
        state = next(state);
        if !demand_one(
            rt,
            lazy,
            (state / 65_536) % 2 == 0,
            (state / 131_072) % edges.max(1),
        )? {
            return Ok(false);
        }
    }
    Ok(true)
}

// Demands a port; whether it is given.
fn demand_one(rt: &HostRuntime, lazy: &mut Lazy<'_>, down: bool, edge: u32) -> Result<bool, Broken>
    requires is { IsLazy (⟦<Rules as Stating>⟧.stated lazy.old.rules.now) lazy.old.design.now
        lazy.old.edges.now lazy.old.down_turns lazy.old.down.items lazy.old.up_turns lazy.old.up.items }
    ensures is { IsLazy (⟦<Rules as Stating>⟧.stated lazy.new.rules.now) lazy.new.design.now
        lazy.new.edges.now lazy.new.down_turns lazy.new.down.items lazy.new.up_turns lazy.new.up.items }
{
    if edge as usize >= lazy.edge_count() {
        return Ok(true);
    }
    let result = if down {
        lazy.demand_down(rt.alloc(), edge)
    } else {
        lazy.demand_up(rt.alloc(), edge)
    };
    Ok(result.is_ok())
}

// Whether an edge has the ports of a solution, both kept.
fn has_ports_of(lazy: &Lazy<'_>, solution: &Solution, edge: u32) -> bool
    requires is { IsLazy (⟦<Rules as Stating>⟧.stated lazy.now.rules.now) lazy.now.design.now
        lazy.now.edges.now lazy.now.down_turns lazy.now.down.items lazy.now.up_turns lazy.now.up.items }
{
    let down = match (lazy.down_port(edge), solution.down.get(edge as usize)) {
        (Some(port), Some(other)) => same_down(port, other),
        _ => false,
    };
    let up = match (lazy.up_port(edge), solution.up.get(edge as usize)) {
        (Some(port), Some(other)) => same_up(port, other),
        _ => false,
    };
    down && up
}

// Whether all of so many edges have them.
fn all_have_ports_of(lazy: &Lazy<'_>, solution: &Solution, edges: u32) -> bool
    requires is { IsLazy (⟦<Rules as Stating>⟧.stated lazy.now.rules.now) lazy.now.design.now
        lazy.now.edges.now lazy.now.down_turns lazy.now.down.items lazy.now.up_turns lazy.now.up.items }
{
    for edge in 0..edges {
        if !has_ports_of(lazy, solution, edge) {
            return false;
        }
    }
    true
}

// Whether demands in one order give the ports of a solution.
fn gives_solution(
    rt: &HostRuntime,
    lazy: Lazy<'_>,
    solution: &Solution,
    edges: u32,
    seed: u32,
) -> Result<bool, Broken>
    requires is { IsLazy (⟦<Rules as Stating>⟧.stated lazy.rules.now) lazy.design.now lazy.edges.now
        lazy.down_turns lazy.down.items lazy.up_turns lazy.up.items }
{
    let mut lazy = lazy;
    if !demand_all(rt, &mut lazy, edges, seed)? {
        return Ok(false);
    }
    Ok(all_have_ports_of(&lazy, solution, edges))
}

// How many of ten orders give the ports of the solution.
fn orders_that_agree(
    rt: &HostRuntime,
    rules: &Rules,
    design: &Design,
    edges: &Edges,
) -> Result<u32, Broken>
    requires nodes { length design.now.nodes ≤ 2000 }
    requires edges { length edges.now ≤ 1024 }
{
    let Ok(solution) = solution_of(rt.alloc(), rules, design, edges) else {
        return Err(Broken::Memory);
    };
    if !is_negotiable(rt.alloc(), design, edges.as_slice())? {
        return Err(Broken::Memory);
    }
    let mut agree = 0u32;
    for seed in 1..11u32 {
        let lazy = Lazy::new(rt.alloc(), design, edges, rules)?;
        if gives_solution(rt, lazy, &solution, edges.len() as u32, seed)? {
            agree = agree.saturating_add(1);
        }
    }
    Ok(agree)
}

/// How many of ten orders of demands give the ports that all agree on.
pub fn ask_orders(rt: &HostRuntime, rules: &Rules, text: &str) -> Result<(), Broken> {
    let design = small_design(rt.alloc(), text)?;
    let Ok(edges) = resolve(rt.alloc(), &design, rules) else {
        return Err(Broken::Memory);
    };
    let agree = orders_that_agree(rt, rules, &design, &edges)?;
    Ok(println!(rt; " {agree} orders agree")?)
}
