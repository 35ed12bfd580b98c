use crate::broken::Broken;
use crate::text::name;
use dip_graph::{
    BindEntry, Binds, Design, ModuleEntry, ModuleTree, NodeEntry, NodeKind, Nodes, Star,
    is_well_stated,
};
use dip_lists::{Few, Items, Memory};
use dip_sets::{AddressSet, Name, Sizes};
use std::alloc::Global;
use std::fmt::Write;
use tl_params::{AddressLists, Addresses, Args, Ops, Policy};

// The number that stands behind a key, `KEY=NUMBER`, or another one where no word has the key.
fn value(text: &str, key: &str, other: u32) -> u32 {
    for word in text.split(' ') {
        if let Some((found, number)) = word.split_once('=') {
            if found == key {
                return number.parse::<u32>().unwrap_or(other);
            }
        }
    }
    other
}

// A name of so many bytes.
fn long_name(alloc: Global, first: &str, length: u32) -> Result<Name, Memory> {
    let mut text = String::from_str(alloc, first)?;
    for _ in first.len()..length as usize {
        text.push_str("x")?;
    }
    name(alloc, text.as_str())
}

// Gets of 1 to 8 bytes, and arithmetic up to so many.
fn ops(most: u32) -> Ops {
    let none = Sizes::none();
    Ops {
        get: Sizes::new(1, 8).unwrap_or(none),
        put_full: none,
        put_partial: none,
        arithmetic: Sizes::new(4, most).unwrap_or(none),
        logical: none,
        intent: none,
    }
}

// So many address sets.
fn sets(alloc: Global, count: u32) -> Result<Addresses, Memory> {
    let mut sets = Few::new(alloc);
    for place in 0..count {
        if let Ok(set) = AddressSet::new(u64::from(place) * 4096, 4095) {
            sets.push(set)?;
        }
    }
    Ok(sets)
}

// So many ports of a sink, each with so many address sets.
fn lists(alloc: Global, ports: u32, count: u32) -> Result<AddressLists, Memory> {
    let mut lists = Items::new(alloc);
    for _ in 0..ports {
        lists.push(sets(alloc, count)?)?;
    }
    Ok(lists)
}

fn args(alloc: Global, count: u32) -> Result<Args, Memory> {
    let mut args = Items::new(alloc);
    for argument in 0..count {
        args.push(argument)?;
    }
    Ok(args)
}

// The name of the module with a number: the design's, or `m` of so many bytes.
fn module_name(alloc: Global, text: &str, number: u32) -> Result<Name, Memory> {
    if number == 0 {
        let design = value(text, "design", 3);
        return long_name(alloc, "one", value(text, "topname", design));
    }
    long_name(alloc, "m", value(text, "module", 1))
}

// The top module and so many others within it, the last of which has this parent.
fn modules(alloc: Global, text: &str) -> Result<ModuleTree, Memory> {
    let mut modules = Items::new(alloc);
    let others = value(text, "modules", 1);
    for number in 0..others.saturating_add(value(text, "top", 1)) {
        let last = number == others && number > 0;
        modules.push(ModuleEntry {
            name: module_name(alloc, text, number)?,
            parent: if last { value(text, "parent", 0) } else { 0 },
        })?;
    }
    Ok(modules)
}

fn source(text: &str) -> NodeKind {
    NodeKind::Source {
        ports: value(text, "ports", 1),
        ids: value(text, "ids", 1),
        emits: ops(value(text, "emits", 8)),
    }
}

fn sink(alloc: Global, text: &str) -> Result<NodeKind, Memory> {
    Ok(NodeKind::Sink {
        beat: value(text, "beat", 8),
        ports: lists(alloc, value(text, "sinks", 1), value(text, "sets", 1))?,
        supports: ops(value(text, "supports", 8)),
    })
}

fn ruled(alloc: Global, text: &str) -> Result<NodeKind, Memory> {
    Ok(NodeKind::Ruled {
        kind: long_name(alloc, "k", value(text, "kind", 1))?,
        args: args(alloc, value(text, "args", 0))?,
    })
}

// The name of the node with a number: `a` of so many bytes, `b`, `c2`, `c3` and so on, or `b` again.
fn node_name(alloc: Global, text: &str, number: u32) -> Result<Name, Memory> {
    if number == 0 {
        return long_name(alloc, "a", value(text, "name", 1));
    }
    if number == 1 || value(text, "same", 0) == number {
        return name(alloc, "b");
    }
    let mut word = String::new(alloc);
    write!(word, "c{number}").map_err(|_| Memory)?;
    name(alloc, word.as_str())
}

// A source, a sink and a node with a rule, and as many more of these as are wanted.
fn nodes(alloc: Global, text: &str) -> Result<Nodes, Memory> {
    let mut nodes: Nodes = Items::new(alloc);
    for number in 0..value(text, "nodes", 3) {
        let kind = match number {
            0 => source(text),
            1 => sink(alloc, text)?,
            _ => ruled(alloc, text)?,
        };
        nodes.push(NodeEntry {
            name: node_name(alloc, text, number)?,
            module: value(text, "in", 0),
            kind,
        })?;
    }
    Ok(nodes)
}

fn binds(alloc: Global, text: &str) -> Result<Binds, Memory> {
    let mut binds = Items::new(alloc);
    for _ in 0..value(text, "binds", 1) {
        binds.push(BindEntry {
            to: value(text, "to", 1),
            from: value(text, "from", 0),
            star: Star::One,
        })?;
    }
    Ok(binds)
}

/// Whether a small design with these changes is well stated.
pub fn ask_stated(rt: &HostRuntime, text: &str) -> Result<(), Broken> {
    let alloc = rt.alloc();
    let design = Design {
        name: long_name(alloc, "one", value(text, "design", 0))?,
        policy: Policy::Lowest,
        modules: modules(alloc, text)?,
        nodes: nodes(alloc, text)?,
        binds: binds(alloc, text)?,
    };
    let answer = if is_well_stated(&design) { "yes" } else { "no" };
    Ok(println!(rt; " {answer}")?)
}
