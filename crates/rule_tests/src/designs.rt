use crate::ports::{ops, page};
use crate::text::{halves, name, number, numbers};
use dip_graph::{BindEntry, Design, NodeEntry, NodeKind, Star};
use dip_lists::{Items, Memory};
use std::alloc::Global;
use tl_params::{AddressLists, Policy};

// So many ports, each with a page of its own behind a first one.
fn pages(alloc: Global, first: u32, ports: u32) -> Result<AddressLists, Memory> {
    let mut lists = Items::new(alloc);
    for port in 0..ports {
        lists.push(page(alloc, first.saturating_add(port))?)?;
    }
    Ok(lists)
}

// What a node is: `source.PORTS.IDS`, `sink.PORTS.BEAT`, or `KIND.ARGS`.
fn kind(alloc: Global, at: u32, text: &str) -> Result<NodeKind, Memory> {
    let (word, rest) = halves(text, '.');
    let (ports, last) = halves(rest, '.');
    match word {
        "source" => Ok(NodeKind::Source {
            ports: number(ports),
            ids: number(last),
            emits: ops(1, 64),
        }),
        "sink" => Ok(NodeKind::Sink {
            beat: number(last),
            ports: pages(alloc, at, number(ports))?,
            supports: ops(1, 64),
        }),
        _ => Ok(NodeKind::Ruled {
            kind: name(alloc, word)?,
            args: numbers(alloc, if rest.is_empty() { "-" } else { rest })?,
        }),
    }
}

// A bind: `TO:=FROM`, `TO:=*FROM` or `TO:*=FROM`.
fn bind(text: &str) -> BindEntry {
    let (to, from) = text.split_once('=').unwrap_or((text, ""));
    let (to, from, star) = match (to.strip_suffix('*'), from.strip_prefix('*')) {
        (Some(to), _) => (to, from, Star::ToStar),
        (None, Some(from)) => (to, from, Star::FromStar),
        (None, None) => (to, from, Star::One),
    };
    BindEntry {
        to: number(halves(to, ':').0),
        from: number(from),
        star,
    }
}

/// A design of nodes and binds, a word each. A sink at place n has its pages behind 1,000 n.
pub fn design(alloc: Global, text: &str) -> Result<Design, Memory> {
    let mut nodes = Items::new(alloc);
    let mut binds = Items::new(alloc);
    for word in text.split(' ') {
        if word.contains('=') {
            binds.push(bind(word))?;
        } else {
            let at = u32::try_from(nodes.len()).unwrap_or(0);
            nodes.push(NodeEntry {
                name: name(alloc, "n")?,
                module: 0,
                kind: kind(alloc, at, word)?,
            })?;
        }
    }
    Ok(Design {
        name: name(alloc, "one")?,
        policy: Policy::Lowest,
        modules: Items::new(alloc),
        nodes,
        binds,
    })
}
