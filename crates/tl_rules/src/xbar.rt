ghost use Rattle.std.specs.Prelude.{◌≡◌, ◌+◌, ◌*◌, ◌<◌, ◌≤◌, ◌^◌, ◌++◌, map, length, IfOk, OnOk, All, IsTrue};
ghost use Rattle.std.specs.List.{flat_map, list_all};
ghost use Rattle.dip_rule.specs.Stated.{Answers};
ghost use Rattle.tl_rules.specs.Crossbars as spec;

use dip_lists::{Duplicate, Items, Memory};
use dip_rule::RuleFault;
use dip_sets::{IdRange, IdRanges, assign_ranges};
use std::alloc::Global;
use tl_params::{Args, DownPort, Master, Masters, Slave, Slaves, UpPort, largest_end};

/// Whether a crossbar can give an input so many ids.
pub fn is_id_count(count: u32) -> bool
    ensures { result ≡ spec.is_id_count count }
{
    1 <= count && count <= 1024
}

// Whether each master has an id.
fn have_ids(masters: &[Master]) -> bool
    ensures { result ≡ list_all spec.has_ids masters.now }
{
    masters
        .iter()
        .all(|master| master.ids.start < master.ids.end)
}

// Whether a crossbar can use an input.
fn is_usable(port: &DownPort) -> bool
    ensures { result ≡ spec.is_usable port.now }
{
    is_id_count(largest_end(port)) && have_ids(port.masters.as_slice())
}

fn all_are_usable(ins: &[DownPort]) -> bool
    ensures { result ≡ list_all spec.is_usable ins.now }
{
    ins.iter().all(|port| is_usable(port))
}

fn are_usable(ins: &[DownPort]) -> bool
    ensures { result ≡ spec.are_usable ins.now }
{
    1 <= ins.len() && ins.len() <= 1024 && all_are_usable(ins)
}

// How many ids each input needs.
fn id_counts(alloc: Global, ins: &[DownPort]) -> Result<Items<u32>, Memory>
    ensures { IfOk result (λ counts. counts ≡ map spec.id_count ins.now) }
{
    let mut counts = Items::new(alloc);
    for port in ins {
        counts.push(largest_end(port))?;
    }
    Ok(counts)
}

// The range of ids behind the crossbar of each input.
fn input_ranges(alloc: Global, ins: &[DownPort]) -> Result<IdRanges, Memory>
    requires { IsTrue (spec.are_usable ins.now) }
    ensures value { IfOk result (λ ranges. ranges ≡ spec.input_ranges ins.now) }
    ensures long { IfOk result (λ ranges. length ranges ≡ length ins.now) }
    ensures low { IfOk result (λ ranges. All (λ range. range.start ≤ 1024 * 1024) ranges) }
{
    let counts = id_counts(alloc, ins)?;
    assign_ranges(alloc, counts.as_slice())
}

// A master with its ids moved up.
fn shifted_master(master: &Master, by: u32) -> Master
    requires start { master.now.ids.start + by < 2 ^ 32 }
    requires end { master.now.ids.end + by < 2 ^ 32 }
    ensures { result ≡ spec.shifted_master by master.now }
{
    Master {
        node: master.node,
        port: master.port,
        ids: master.ids.shift(by),
        emits: master.emits,
    }
}

// Adds the masters of an input, moved to the start of its range.
fn add_shifted(all: &mut Masters, port: &DownPort, by: u32) -> Result<(), Memory>
    requires usable { IsTrue (spec.is_usable port.now) }
    requires by { by ≤ 1024 * 1024 }
    ensures { OnOk result (all.new ≡ all.old ++ map (spec.shifted_master by) port.now.masters) }
{
    for master in port.masters.as_slice() {
        all.push_bounded(shifted_master(master, by))?;
    }
    Ok(())
}

// The masters of all inputs in order, moved to the ranges of their inputs.
fn joined_masters(alloc: Global, ins: &[DownPort], ranges: &[IdRange]) -> Result<Masters, Memory>
    requires usable { IsTrue (list_all spec.is_usable ins.now) }
    requires long { length ranges.now ≡ length ins.now }
    requires low { All (λ range. range.start ≤ 1024 * 1024) ranges.now }
    ensures { IfOk result (λ masters. masters ≡ spec.joined_masters ins.now ranges.now) }
{
    let mut masters = Items::new(alloc);
    for (place, port) in ins.iter().enumerate() {
        add_shifted(&mut masters, port, ranges[place].start)?;
    }
    Ok(masters)
}

/// What a crossbar shows below: the masters of all inputs in order, with their ids moved to a range for each
/// input. Any argument is refused with 1, and with 2: no input or more than 1,024; an input whose largest end
/// isn't 1 to 1,024; a master without ids.
pub fn xbar_down(alloc: Global, args: &Args, ins: &[DownPort]) -> Result<DownPort, RuleFault>
    ensures { Answers (spec.xbar_down args.now ins.now) result }
{
    if !args.is_empty() {
        return Err(RuleFault::Refused(1));
    }
    if !are_usable(ins) {
        return Err(RuleFault::Refused(2));
    }
    let ranges = input_ranges(alloc, ins)?;
    let masters = joined_masters(alloc, ins, ranges.as_slice())?;
    Ok(DownPort { masters })
}

// Adds copies of slaves.
fn add_slaves(alloc: Global, all: &mut Slaves, slaves: &[Slave]) -> Result<(), Memory>
    ensures { OnOk result (all.new ≡ all.old ++ slaves.now) }
{
    for slave in slaves {
        all.push_bounded(slave.duplicate(alloc)?)?;
    }
    Ok(())
}

// Copies of the slaves of all outputs in order.
fn joined_slaves(alloc: Global, outs: &[UpPort]) -> Result<Slaves, Memory>
    ensures { IfOk result (λ slaves. slaves ≡ flat_map (λ port. port.slaves) outs.now) }
{
    let mut slaves = Items::new(alloc);
    for port in outs {
        add_slaves(alloc, &mut slaves, port.slaves.as_slice())?;
    }
    Ok(slaves)
}

/// What a crossbar shows above: the slaves of all outputs in order, behind a bus as wide as that of the first
/// output. Any argument is refused with 1, no output with 2.
pub fn xbar_up(alloc: Global, args: &Args, outs: &[UpPort]) -> Result<UpPort, RuleFault>
    ensures { Answers (spec.xbar_up args.now outs.now) result }
{
    if !args.is_empty() {
        return Err(RuleFault::Refused(1));
    }
    match outs.first() {
        None => Err(RuleFault::Refused(2)),
        Some(first) => {
            let slaves = joined_slaves(alloc, outs)?;
            Ok(UpPort {
                slaves,
                beat: first.beat,
            })
        }
    }
}
