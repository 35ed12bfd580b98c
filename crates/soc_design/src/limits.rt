ghost use Rattle.std.specs.Prelude.{◌≡◌, ◌≤◌, ◌<◌, ◌^◌, ◌+◌, length, All, IfOk, IfErr, OnOk, Some, None};
ghost use Rattle.toml.specs.View.{table_view, items_view};
ghost use Rattle.dip_lists.specs.First.{first, first_failing};
ghost use Rattle.soc_design.specs.Stated as spec;
ghost use Rattle.dip_graph.specs.Faults.{IsFaultAt, IsFaultOf};
ghost use Rattle.toml_shape.specs.Entries.{all_of, at_top, count, failing};
ghost use Rattle.soc_design.specs.Reading.{modules_in, nodes_in, binds_in};
ghost use Rattle.soc_design.specs.Reading.{top_is_beyond, node_is_beyond, limit_checks};
ghost use Rattle.soc_design.specs.Reading.{beyond_modules, beyond_nodes, beyond_binds};

use crate::nodes::{LimitedNodes, node_of};
use crate::tables::{first_bind, first_node, named};
use dip_graph::{Fault, MOST_BINDS, MOST_MODULES, MOST_NODES};
use dip_lists::{Items, Memory};
use dip_sets::Name;
use std::alloc::Global;
use tl_params::Policy;
use toml::{Table, Value};
use toml_shape::{first_past, name_under, number_under, tables_in, under};

/// What the top table of a design file states besides its arrays.
#[derive(Drop)]
pub struct Heading {
    /// The design's name.
    pub name: Name,
    pub policy: Policy,
}

// The nodes that some tables state, the first of which is the entry `entry`. `Fault::Check` names check 3
// and the first table past the allowed number, or with a number beyond its limits.
fn limited_nodes(alloc: Global, nodes: &[Value], entry: u64) -> Result<LimitedNodes, Fault>
    requires { entry + length nodes.now < 2 ^ 64 }
    ensures ok { IfOk result (λ stated. all_of spec.node_of (items_view nodes.now) ≡ Some stated) }
    ensures passes { IfOk result (λ _. first (failing node_is_beyond 0 entry (items_view nodes.now)) ≡ None) }
    ensures few { IfOk result (λ _. length nodes.now ≤ 256) }
    ensures counted { IfOk result (λ stated. length stated ≡ length nodes.now) }
    ensures err { IfErr result (IsFaultAt 3 (failing node_is_beyond 0 entry (items_view nodes.now))) }
{
    let mut stated = Items::new(alloc);
    for (place, node) in nodes.iter().enumerate() {
        let beyond = Fault::Check {
            number: 3,
            subject: entry + place as u64,
        };
        if place >= MOST_NODES {
            return Err(beyond);
        }
        let Some(node) = node_of(alloc, node)? else {
            return Err(beyond);
        };
        stated.push(node)?;
    }
    Ok(stated)
}

// The policy of a design: the lowest input first where it is missing.
fn policy_of(table: &Table) -> Option<Policy>
    ensures { result ≡ spec.policy_in (table_view table.now) }
{
    match under(table, "policy") {
        None => Some(Policy::Lowest),
        Some(Value::String(text)) => match text.as_str() {
            "lowest" => Some(Policy::Lowest),
            "round" => Some(Policy::Round),
            _ => None,
        },
        Some(_) => None,
    }
}

// What the top table states.
fn heading_of(alloc: Global, table: &Table) -> Result<Option<Heading>, Memory>
    ensures { IfOk result (λ heading. heading ≡ spec.heading_of (table_view table.now)) }
{
    if number_under(table, "version", 1, 1).is_none() {
        return Ok(None);
    }
    let Some(text) = name_under(table, "name") else {
        return Ok(None);
    };
    let Some(policy) = policy_of(table) else {
        return Ok(None);
    };
    let name = named(alloc, text)?;
    Ok(Some(Heading { name, policy }))
}

/// What a file states within the limits.
#[derive(Drop)]
pub struct LimitedFile {
    pub heading: Heading,
    pub nodes: LimitedNodes,
}

// The heading of a file of version 1 with nodes.
fn heading_within(alloc: Global, table: &Table) -> Result<Heading, Fault>
    ensures ok { IfOk result (λ heading. spec.heading_of (table_view table.now) ≡ Some heading) }
    ensures some { IfOk result (λ _. 1 ≤ count (nodes_in (table_view table.now))) }
    ensures passes { IfOk result (λ _. first (at_top (top_is_beyond (table_view table.now))) ≡ None) }
    ensures err { IfErr result (IsFaultAt 3 (at_top (top_is_beyond (table_view table.now)))) }
{
    let beyond = Fault::Check {
        number: 3,
        subject: 0,
    };
    let Some(heading) = heading_of(alloc, table)? else {
        return Err(beyond);
    };
    if tables_in(table, "node").is_empty() {
        return Err(beyond);
    }
    Ok(heading)
}

// The nodes of a file.
fn nodes_within(alloc: Global, table: &Table) -> Result<LimitedNodes, Fault>
    ensures ok { IfOk result (λ nodes. all_of spec.node_of (nodes_in (table_view table.now)) ≡ Some
        nodes) }
    ensures few { IfOk result (λ _. count (nodes_in (table_view table.now)) ≤ 256) }
    ensures counted { IfOk result (λ nodes. length nodes ≡ count (nodes_in (table_view table.now))) }
    ensures passes { IfOk result (λ _. first (beyond_nodes (table_view table.now)) ≡ None) }
    ensures err { IfErr result (IsFaultAt 3 (beyond_nodes (table_view table.now))) }
{
    limited_nodes(alloc, tables_in(table, "node"), first_node(table))
}

// A file without a module past the allowed number.
fn modules_within(table: &Table) -> Result<(), Fault>
    ensures passes { OnOk result (first (beyond_modules (table_view table.now)) ≡ None) }
    ensures few { OnOk result (count (modules_in (table_view table.now)) ≤ 255) }
    ensures err { IfErr result (IsFaultAt 3 (beyond_modules (table_view table.now))) }
{
    match first_past(tables_in(table, "module"), MOST_MODULES, 1) {
        Some(subject) => Err(Fault::Check { number: 3, subject }),
        None => Ok(()),
    }
}

// A file without a bind past the allowed number.
fn binds_within(table: &Table) -> Result<(), Fault>
    ensures passes { OnOk result (first (beyond_binds (table_view table.now)) ≡ None) }
    ensures few { OnOk result (count (binds_in (table_view table.now)) ≤ 1024) }
    ensures err { IfErr result (IsFaultAt 3 (beyond_binds (table_view table.now))) }
{
    match first_past(tables_in(table, "bind"), MOST_BINDS, first_bind(table)) {
        Some(subject) => Err(Fault::Check { number: 3, subject }),
        None => Ok(()),
    }
}

/// The top table and the nodes of a file; `Fault::Check` names check 3 and the first entry beyond the limits.
pub fn limited(alloc: Global, table: &Table) -> Result<LimitedFile, Fault>
    ensures heading { IfOk result (λ file. spec.heading_of (table_view table.now) ≡ Some file.heading) }
    ensures nodes { IfOk result (λ file. all_of spec.node_of (nodes_in (table_view table.now)) ≡ Some
        file.nodes) }
    ensures few_modules { IfOk result (λ _. count (modules_in (table_view table.now)) ≤ 255) }
    ensures some_node { IfOk result (λ _. 1 ≤ count (nodes_in (table_view table.now))) }
    ensures few_nodes { IfOk result (λ _. count (nodes_in (table_view table.now)) ≤ 256) }
    ensures counted { IfOk result (λ file. length file.nodes ≡ count (nodes_in (table_view table.now))) }
    ensures few_binds { IfOk result (λ _. count (binds_in (table_view table.now)) ≤ 1024) }
    ensures passes { IfOk result (λ _. first_failing (limit_checks (table_view table.now)) ≡ None) }
    ensures err { IfErr result (IsFaultOf (first_failing (limit_checks (table_view table.now)))) }
{
    let heading = heading_within(alloc, table)?;
    modules_within(table)?;
    let nodes = nodes_within(alloc, table)?;
    binds_within(table)?;
    Ok(LimitedFile { heading, nodes })
}
