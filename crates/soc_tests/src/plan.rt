ghost use Rattle.dip_graph.specs.WellStated.{IsWellStated};

use dip_graph::{Design, Fault};
use dip_plan::{Accepted, check};
use soc_design::read_design;
use std::alloc::Global;
use std::io;
use tl_edge::{Leaf, PlanEdge, PlanPort};
use tl_params::{Policy, Template};
use tl_rules::boxed_standard_rules;

// What the design of a file has, by the standard rules.
fn accepted_of(alloc: Global, design: &Design) -> Result<Accepted, Fault>
    requires { IsWellStated design.now }
{
    let rules = boxed_standard_rules!(alloc);
    check(alloc, design, &rules)
}

// A template's kind.
fn kind(template: Template) -> &'static str {
    match template {
        Template::Buffer => "buffer",
        Template::Width => "width",
        Template::Fragmenter => "fragmenter",
        Template::Shrinker => "shrinker",
        Template::Xbar => "xbar",
    }
}

// Prints numbers in one line, each behind a blank.
fn show_numbers(rt: &HostRuntime, numbers: &[u32]) -> io::Result<()> {
    for number in numbers {
        print!(rt; " {number}")?;
    }
    Ok(())
}

fn show_leaf(rt: &HostRuntime, leaf: &Leaf) -> io::Result<()> {
    print!(rt; "leaf {} ins", kind(leaf.template))?;
    show_numbers(rt, leaf.ins.as_slice())?;
    print!(rt; " outs")?;
    show_numbers(rt, leaf.outs.as_slice())?;
    print!(rt; " args")?;
    show_numbers(rt, leaf.args.as_slice())?;
    println!(rt; "")
}

fn show_edge(rt: &HostRuntime, edge: &PlanEdge) -> io::Result<()> {
    let bundle = edge.bundle;
    print!(rt;
        "edge bytes {} address {}",
        bundle.data_bytes, bundle.address_bits
    )?;
    print!(rt; " source {} size {}", bundle.source_bits, bundle.size_bits)?;
    print!(rt; " ids {} slaves", edge.ids)?;
    for slave in edge.slaves.as_slice() {
        print!(rt; " {}.{}", slave.node, slave.port)?;
    }
    println!(rt; "")
}

fn show_ports(rt: &HostRuntime, word: &str, ports: &[PlanPort]) -> io::Result<()> {
    for at in ports {
        print!(rt; "{word} {} node {}", at.name.as_str(), at.node)?;
        println!(rt; " port {} edge {}", at.port, at.edge)?;
    }
    Ok(())
}

fn show_accepted(rt: &HostRuntime, accepted: &Accepted) -> io::Result<()> {
    let plan = &accepted.plan;
    let policy = match plan.policy {
        Policy::Lowest => "lowest",
        Policy::Round => "round",
    };
    println!(rt; "plan {} {policy}", plan.name.as_str())?;
    for leaf in plan.leaves.as_slice() {
        show_leaf(rt, leaf)?;
    }
    for edge in plan.edges.as_slice() {
        show_edge(rt, edge)?;
    }
    show_ports(rt, "source", plan.sources.as_slice())?;
    show_ports(rt, "sink", plan.sinks.as_slice())
}

/// Prints the plan of a design: its leaves, its edges, and the ports of its sources and sinks.
pub fn show_plan(rt: &HostRuntime, file: &[u8]) -> io::Result<()> {
    let design = match read_design(rt.alloc(), file) {
        Ok(design) => design,
        Err(_) => return println!(rt; "no design"),
    };
    match accepted_of(rt.alloc(), &design) {
        Ok(accepted) => show_accepted(rt, &accepted),
        Err(_) => println!(rt; "not accepted"),
    }
}
