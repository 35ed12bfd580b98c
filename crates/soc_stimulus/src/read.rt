ghost use Rattle.std.specs.Prelude.{◌≡◌, ◌≢◌, ◌≤◌, length, All, AllPairs, IfOk, IfErr, None, Some, codes};
ghost use Rattle.std.specs.Option.{option_map};
ghost use Rattle.toml_shape.specs.Shapes.{number_under};
ghost use Rattle.soc_stimulus.specs.Limits.{most_cycles};
ghost use Rattle.soc_stimulus.specs.declared.passes.Pass.TheVariants.{Limits};
ghost use Rattle.toml.specs.View.{table_view};
ghost use Rattle.dip_lists.specs.First.{first, first_failing};
ghost use Rattle.dip_graph.specs.Faults.{IsFaultAt, IsFaultOf};
ghost use Rattle.soc_stimulus.specs.Entries as entries;
ghost use Rattle.soc_stimulus.specs.Requests.{IsLegalThere};
ghost use Rattle.soc_stimulus.specs.Lines.{IsLineOf};
ghost use Rattle.soc_stimulus.specs.Reading as spec;

use crate::StimFault;
use crate::devices::{placed_devices, settings_of};
use crate::limits::MOST_CYCLES;
use crate::passes::{Pass, failing_entry};
use crate::requests::legal_requests;
use crate::stalls::named_stalls;
use crate::tables::{first_device, first_stall};
use dip_graph::Fault;
use dip_lists::Memory;
use dip_names::Names;
use sim_ports::{Settings, Stalls, StimRequests};
use std::alloc::Global;
use std::str;
use tl_edge::Plan;
use tl_params::{DownPort, UpPort};
use toml::Table;
use toml_shape::{number_under, tables_in};

/// The most bytes of a stimulus file.
pub const MOST_STIMULUS_BYTES: usize = 16_777_216;

/// What is to happen in a run.
#[derive(Drop)]
pub struct Stimulus {
    /// How many cycles there are.
    pub cycles: u32,
    /// The requests of all source ports, in file order.
    pub requests: StimRequests,
    pub stalls: Stalls,
    /// A setting for each sink port.
    pub devices: Settings,
}

// The tree of a file that isn't too long, is UTF-8, and is TOML.
fn stimulus_tree(alloc: Global, bytes: &[u8]) -> Result<Option<Table>, Memory>
    ensures { IfOk result (λ tree. option_map table_view tree ≡ spec.stimulus_tree bytes.now) }
{
    if bytes.len() > MOST_STIMULUS_BYTES {
        return Ok(None);
    }
    let Ok(text) = str::from_utf8(bytes) else {
        return Ok(None);
    };
    match toml::table_from_str(alloc, text) {
        Ok(table) => Ok(Some(table)),
        Err(error) if error.is_memory() => Err(Memory),
        Err(_) => Ok(None),
    }
}

// The cycles of a tree within the limits. `Fault::Check` names rule 3 and the first entry beyond them.
fn cycles_within(table: &Table) -> Result<u32, Fault>
    ensures ok { IfOk result (λ cycles. number_under (codes "cycles") 0 most_cycles (table_view table.now) ≡
        Some cycles) }
    ensures passes { IfOk result (λ _. first_failing (entries.checks_of_pass Limits (table_view table.now)) ≡
        None) }
    ensures err { IfErr result (IsFaultOf (first_failing (entries.checks_of_pass Limits
        (table_view table.now)))) }
{
    if let Some(subject) = failing_entry(Pass::Limits, table) {
        return Err(Fault::Check { number: 3, subject });
    }
    match number_under(table, "cycles", 0, MOST_CYCLES) {
        Some(cycles) => Ok(cycles as u32),
        None => Err(Fault::Check {
            number: 3,
            subject: 0,
        }),
    }
}

// The requests of a tree. `Fault::Check` names the first of the rules 4 to 9 that one of them fails.
fn requests_of(
    alloc: Global,
    names: &Names,
    plan: &Plan,
    downs: &[DownPort],
    ups: &[UpPort],
    table: &Table,
) -> Result<StimRequests, Fault>
    requires { length plan.now.sources ≤ 1024 }
    ensures ok { IfOk result (λ requests. spec.stated_requests names.now plan.now (table_view table.now) ≡
        Some requests) }
    ensures legal { IfOk result (All (IsLegalThere plan.now.sources downs.now ups.now)) }
    ensures passes { IfOk result (λ _. first_failing (spec.rules_of_requests names.now plan.now downs.now
        ups.now (table_view table.now)) ≡ None) }
    ensures err { IfErr result (IsFaultOf (first_failing (spec.rules_of_requests names.now plan.now
        downs.now ups.now (table_view table.now)))) }
{
    let sources = plan.sources.as_slice();
    let tables = tables_in(table, "request");
    legal_requests(alloc, names, sources, downs, ups, tables)
}

// The stalls of a tree. `Fault::Check` names rule 4 and the first that names no port of a source or a sink.
fn stalls_of(alloc: Global, names: &Names, plan: &Plan, table: &Table) -> Result<Stalls, Fault>
    requires sources { length plan.now.sources ≤ 1024 }
    requires sinks { length plan.now.sinks ≤ 1024 }
    ensures ok { IfOk result (λ stalls. spec.stated_stalls names.now plan.now (table_view table.now) ≡ Some
        stalls) }
    ensures passes { IfOk result (λ _. first (spec.unnamed_stalls_in names.now plan.now
        (table_view table.now)) ≡ None) }
    ensures err { IfErr result (IsFaultAt 4 (spec.unnamed_stalls_in names.now plan.now
        (table_view table.now))) }
{
    let sources = plan.sources.as_slice();
    let sinks = plan.sinks.as_slice();
    let tables = tables_in(table, "stall");
    named_stalls(alloc, names, sources, sinks, tables, first_stall(table))
}

// The settings of a tree. `Fault::Check` names rule 4 and the first device that names no port of a sink, or
// one that an earlier one names.
fn settings_in(alloc: Global, names: &Names, plan: &Plan, table: &Table) -> Result<Settings, Fault>
    requires { length plan.now.sinks ≤ 1024 }
    ensures ok { IfOk result (λ settings. spec.stated_settings names.now plan.now (table_view table.now) ≡
        Some settings) }
    ensures passes { IfOk result (λ _. first (spec.unnamed_devices_in names.now plan.now
        (table_view table.now)) ≡ None) }
    ensures err { IfErr result (IsFaultAt 4 (spec.unnamed_devices_in names.now plan.now
        (table_view table.now))) }
{
    let sinks = plan.sinks.as_slice();
    let tables = tables_in(table, "device");
    let devices = placed_devices(alloc, names, sinks, tables, first_device(table))?;
    Ok(settings_of(alloc, devices.as_slice(), sinks.len() as u32)?)
}

// What a tree states besides its cycles. `Fault::Check` names the first of the rules 4 to 9 that fails.
fn stated_parts(
    alloc: Global,
    names: &Names,
    plan: &Plan,
    downs: &[DownPort],
    ups: &[UpPort],
    table: &Table,
) -> Result<(StimRequests, Stalls, Settings), Fault>
    requires sources { length plan.now.sources ≤ 1024 }
    requires sinks { length plan.now.sinks ≤ 1024 }
    ensures ok { IfOk result (λ parts. spec.parts_of names.now plan.now (table_view table.now) ≡ Some parts) }
    ensures legal { IfOk result (λ parts. All (IsLegalThere plan.now.sources downs.now ups.now) parts.0) }
    ensures passes { IfOk result (λ _. first_failing (spec.port_rules names.now plan.now downs.now ups.now
        (table_view table.now)) ≡ None) }
    ensures err { IfErr result (IsFaultOf (first_failing (spec.port_rules names.now plan.now downs.now
        ups.now (table_view table.now)))) }
{
    let requests = requests_of(alloc, names, plan, downs, ups, table)?;
    let stalls = stalls_of(alloc, names, plan, table)?;
    let settings = settings_in(alloc, names, plan, table)?;
    Ok((requests, stalls, settings))
}

// The stimulus that a tree states. `Fault::Check` names the first of the rules 2 to 9 that fails.
fn stimulus_in(
    alloc: Global,
    names: &Names,
    plan: &Plan,
    downs: &[DownPort],
    ups: &[UpPort],
    table: &Table,
) -> Result<Stimulus, Fault>
    requires sources { length plan.now.sources ≤ 1024 }
    requires sinks { length plan.now.sinks ≤ 1024 }
    ensures ok { IfOk result (λ stimulus. spec.stimulus_of names.now plan.now (table_view table.now) ≡ Some
        stimulus) }
    ensures legal { IfOk result (λ stimulus. All (IsLegalThere plan.now.sources downs.now ups.now)
        stimulus.requests) }
    ensures passes { IfOk result (λ _. first_failing (spec.tree_rules names.now plan.now downs.now ups.now
        (table_view table.now)) ≡ None) }
    ensures err { IfErr result (IsFaultOf (first_failing (spec.tree_rules names.now plan.now downs.now
        ups.now (table_view table.now)))) }
{
    if let Some(subject) = failing_entry(Pass::Shape, table) {
        return Err(Fault::Check { number: 2, subject });
    }
    let cycles = cycles_within(table)?;
    let (requests, stalls, devices) = stated_parts(alloc, names, plan, downs, ups, table)?;
    Ok(Stimulus {
        cycles,
        requests,
        stalls,
        devices,
    })
}

/// The stimulus that a file states, for nodes with these names, and a plan with what goes down and up its
/// edges. `StimFault::Line` names the first of the rules 1 to 9 that fails.
pub fn read_for(
    alloc: Global,
    names: &Names,
    plan: &Plan,
    downs: &[DownPort],
    ups: &[UpPort],
    bytes: &[u8],
) -> Result<Stimulus, StimFault>
    requires sources { length plan.now.sources ≤ 1024 }
    requires sinks { length plan.now.sinks ≤ 1024 }
    ensures ok { IfOk result (λ stimulus. spec.stated_stimulus names.now plan.now bytes.now ≡ Some
        stimulus) }
    ensures legal { IfOk result (λ stimulus. All (IsLegalThere plan.now.sources downs.now ups.now)
        stimulus.requests) }
    ensures passes { IfOk result (λ _. first_failing (spec.stimulus_rules names.now plan.now downs.now
        ups.now bytes.now) ≡ None) }
    ensures err { IfErr result (IsLineOf (first_failing (spec.stimulus_rules names.now plan.now downs.now
        ups.now bytes.now))) }
{
    let Some(table) = stimulus_tree(alloc, bytes)? else {
        return Err(StimFault::Line { rule: 1, entry: 0 });
    };
    Ok(stimulus_in(alloc, names, plan, downs, ups, &table)?)
}
