use dip_graph::{Design, Fault, Star};
use soc_design::read_design;
use std::io;
use tl_params::Policy;

// How many edges a bind makes.
fn sign(star: Star) -> &'static str {
    match star {
        Star::One => ":=",
        Star::FromStar => ":=*",
        Star::ToStar => ":*=",
    }
}

// Prints the modules with their parents, and the nodes with their modules.
fn show_modules(rt: &HostRuntime, design: &Design) -> io::Result<()> {
    for module in design.modules.as_slice() {
        println!(rt; "module {} in {}", module.name.as_str(), module.parent)?;
    }
    for node in design.nodes.as_slice() {
        println!(rt; "node {} in {}", node.name.as_str(), node.module)?;
    }
    Ok(())
}

// Prints the policy and the binds.
fn show_binds(rt: &HostRuntime, design: &Design) -> io::Result<()> {
    let policy = match design.policy {
        Policy::Lowest => "lowest",
        Policy::Round => "round",
    };
    println!(rt; "policy {policy}")?;
    for bind in design.binds.as_slice() {
        println!(rt; "bind {} {} {}", bind.to, sign(bind.star), bind.from)?;
    }
    Ok(())
}

/// Prints what the map of a design doesn't show: its modules and binds, and its policy.
pub fn show_tree(rt: &HostRuntime, file: &[u8]) -> io::Result<()> {
    match read_design(rt.alloc(), file) {
        Ok(design) => {
            show_modules(rt, &design)?;
            show_binds(rt, &design)
        }
        Err(Fault::Check { number, subject }) => println!(rt; "check {number} at {subject}"),
        Err(Fault::Memory) => println!(rt; "no memory"),
    }
}
