ghost use Rattle.std.specs.Prelude.{◌≡◌, ◌≤◌, ◌<◌, [], ◌∷◌, length, false, All, IfOk, IfErr, IfSome, None, Some};
ghost use Rattle.toml.specs.View.{table_view, view};
ghost use Rattle.std.specs.List.{list_any};
ghost use Rattle.std.specs.Str.{bytes_eq};
ghost use Rattle.dip_lists.specs.First.{first, first_failing};
ghost use Rattle.toml_shape.specs.Entries.{all_of, count};
ghost use Rattle.soc_design.specs.Stated as spec;
ghost use Rattle.dip_graph.specs.Faults.{IsFaultAt, IsFaultOf};
ghost use Rattle.soc_design.specs.Reading as reading;

use crate::limits::{Heading, LimitedFile};
use crate::nodes::{LimitedNode, LimitedNodes};
use crate::tables::{first_bind, first_node, named};
use dip_graph::{BindEntry, Binds, Design, Fault, ModuleEntry, ModuleTree, NodeEntry, Nodes, Star};
use dip_lists::{Items, Memory};
use dip_names::Names;
use dip_sets::Name;
use std::alloc::Global;
use toml::{Table, Value};
use toml_shape::{name_under, tables_in, text_under, under};

/// The modules of a design, and their names by their numbers.
#[derive(Drop)]
struct NamedModules {
    names: Names,
    tree: ModuleTree,
}

/// The nodes of a design, and their names by their numbers.
#[derive(Drop)]
struct NamedNodes {
    names: Names,
    nodes: Nodes,
}

// The number of the module that a key names, which is the top one where the key is missing.
fn module_under(modules: &Names, table: &Table, key: &str) -> Option<u32>
    requires some { 1 ≤ length modules.now }
    requires few { length modules.now ≤ 256 }
    ensures { result ≡ spec.module_under key.now modules.now (table_view table.now) }
{
    match text_under(table, key) {
        Some(name) => Some(modules.number_of(name)? as u32),
        None => Some(0),
    }
}

// The module that a table states after earlier ones.
fn module_after(
    alloc: Global,
    earlier: &Names,
    value: &Value,
) -> Result<Option<ModuleEntry>, Memory>
    requires some { 1 ≤ length earlier.now }
    requires few { length earlier.now ≤ 256 }
    ensures value { IfOk result (λ entry. entry ≡ spec.module_after earlier.now (view value.now)) }
    ensures new { IfOk result (λ found. IfSome found (λ entry. list_any (bytes_eq entry.name)
        earlier.now ≡ false)) }
    ensures named { IfOk result (λ found. IfSome found (λ entry. entry.name ≡ spec.name_at
        (view value.now))) }
{
    let Value::Table(table) = value else {
        return Ok(None);
    };
    let Some(text) = name_under(table, "name") else {
        return Ok(None);
    };
    if earlier.has(text) {
        return Ok(None);
    }
    let Some(parent) = module_under(earlier, table, "parent") else {
        return Ok(None);
    };
    let name = named(alloc, text)?;
    Ok(Some(ModuleEntry { name, parent }))
}

// The top module of a design with a name.
fn top_module(alloc: Global, top: &Name) -> Result<NamedModules, Memory>
    ensures names { IfOk result (λ modules. modules.names ≡ top.now ∷ []) }
    ensures tree { IfOk result (λ modules. modules.tree ≡ record { name = top.now; parent = 0 } ∷ []) }
{
    let mut names = Names::new(alloc);
    names.add(top.as_str())?;
    let mut tree = Items::new(alloc);
    tree.push(ModuleEntry {
        name: top.copy(alloc)?,
        parent: 0,
    })?;
    Ok(NamedModules { names, tree })
}

// The modules of a file, in a design named `top`.
fn stated_modules(alloc: Global, top: &Name, table: &Table) -> Result<NamedModules, Fault>
    requires { count (reading.modules_in (table_view table.now)) ≤ 255 }
    ensures names { IfOk result (λ modules. modules.names ≡ reading.module_names top.now
        (table_view table.now)) }
    ensures tree { IfOk result (λ modules. reading.stated_modules top.now (table_view table.now) ≡ Some
        modules.tree) }
    ensures some { IfOk result (λ modules. 1 ≤ length modules.names) }
    ensures few { IfOk result (λ modules. length modules.names ≤ 256) }
    ensures counted { IfOk result (λ modules. length modules.tree ≡ length modules.names) }
    ensures passes { IfOk result (λ _. first (reading.unnamed_modules_in top.now (table_view table.now)) ≡
        None) }
    ensures err { IfErr result (IsFaultAt 4 (reading.unnamed_modules_in top.now (table_view table.now))) }
{
    let modules = tables_in(table, "module");
    let NamedModules {
        mut names,
        mut tree,
    } = top_module(alloc, top)?;
    for (place, module) in modules.iter().enumerate() {
        let Some(module) = module_after(alloc, &names, module)? else {
            return Err(Fault::Check {
                number: 4,
                subject: 1 + place as u64,
            });
        };
        names.add(module.name.as_str())?;
        tree.push(module)?;
    }
    Ok(NamedModules { names, tree })
}

// The number of the module that a node's table names.
fn module_of(modules: &Names, value: &Value) -> Option<u32>
    requires some { 1 ≤ length modules.now }
    requires few { length modules.now ≤ 256 }
    ensures { result ≡ spec.module_of modules.now (view value.now) }
{
    let Value::Table(table) = value else {
        return None;
    };
    module_under(modules, table, "module")
}

// The nodes of a file in named modules; `limited` is what their tables state besides.
fn stated_nodes(
    alloc: Global,
    modules: &Names,
    limited: LimitedNodes,
    table: &Table,
) -> Result<NamedNodes, Fault>
    requires some { 1 ≤ length modules.now }
    requires few { length modules.now ≤ 256 }
    requires limited { all_of spec.node_of (reading.nodes_in (table_view table.now)) ≡ Some limited }
    ensures names { IfOk result (λ nodes. nodes.names ≡ reading.node_names (table_view table.now)) }
    ensures nodes { IfOk result (λ nodes. reading.stated_nodes modules.now (table_view table.now) ≡ Some
        nodes.nodes) }
    ensures counted { IfOk result (λ nodes. length nodes.nodes ≡ count
        (reading.nodes_in (table_view table.now))) }
    ensures passes { IfOk result (λ _. first (reading.unnamed_nodes_in modules.now (table_view table.now)) ≡
        None) }
    ensures err { IfErr result (IsFaultAt 4 (reading.unnamed_nodes_in modules.now
        (table_view table.now))) }
{
    let tables = tables_in(table, "node");
    let entry = first_node(table);
    let mut limited = limited.into_vec().into_iter();
    let mut names = Names::new(alloc);
    let mut nodes = Items::new(alloc);
    for (place, value) in tables.iter().enumerate() {
        let Some(node) = limited.next() else {
            unreachable!();
        };
        let unnamed = Fault::Check {
            number: 4,
            subject: entry + place as u64,
        };
        if names.has(node.name.as_str()) {
            return Err(unnamed);
        }
        let Some(module) = module_of(modules, value) else {
            return Err(unnamed);
        };
        names.add(node.name.as_str())?;
        let LimitedNode { name, kind } = node;
        nodes.push(NodeEntry { name, module, kind })?;
    }
    Ok(NamedNodes { names, nodes })
}

// The number of the node that a key names.
fn node_under(names: &Names, table: &Table, key: &str) -> Option<u32>
    requires { length names.now ≤ 256 }
    ensures { result ≡ spec.node_under key.now names.now (table_view table.now) }
{
    let number = names.number_of(name_under(table, key)?)?;
    Some(number as u32)
}

// How many edges the sign of a bind makes.
fn star_named(text: &str) -> Option<Star>
    ensures { result ≡ spec.star_named text.now }
{
    match text {
        ":=" => Some(Star::One),
        ":=*" => Some(Star::FromStar),
        ":*=" => Some(Star::ToStar),
        _ => None,
    }
}

// How many edges a bind makes: one where nothing is said.
fn star_in(table: &Table) -> Option<Star>
    ensures { result ≡ spec.star_in (table_view table.now) }
{
    match under(table, "kind") {
        None => Some(Star::One),
        Some(Value::String(text)) => star_named(text.as_str()),
        Some(_) => None,
    }
}

// The bind that a table states between named nodes.
fn bind_of(names: &Names, value: &Value) -> Option<BindEntry>
    requires { length names.now ≤ 256 }
    ensures { result ≡ spec.bind_of names.now (view value.now) }
{
    let Value::Table(table) = value else {
        return None;
    };
    let to = node_under(names, table, "to")?;
    let from = node_under(names, table, "from")?;
    let star = star_in(table)?;
    Some(BindEntry { to, from, star })
}

// The binds of a file between named nodes.
fn stated_binds(alloc: Global, names: &Names, table: &Table) -> Result<Binds, Fault>
    requires { length names.now ≤ 256 }
    ensures ok { IfOk result (λ binds. all_of (spec.bind_of names.now)
        (reading.binds_in (table_view table.now)) ≡ Some binds) }
    ensures counted { IfOk result (λ binds. length binds ≡ count
        (reading.binds_in (table_view table.now))) }
    ensures passes { IfOk result (λ _. first (reading.unnamed_binds_in names.now (table_view table.now)) ≡
        None) }
    ensures err { IfErr result (IsFaultAt 4 (reading.unnamed_binds_in names.now (table_view table.now))) }
{
    let tables = tables_in(table, "bind");
    let entry = first_bind(table);
    let mut stated = Items::new(alloc);
    for (place, bind) in tables.iter().enumerate() {
        let Some(bind) = bind_of(names, bind) else {
            return Err(Fault::Check {
                number: 4,
                subject: entry + place as u64,
            });
        };
        stated.push(bind)?;
    }
    Ok(stated)
}

/// The design of a file within the limits; `Fault::Check` names check 4 and the first module with an earlier
/// one's name or without an earlier parent, or else the first node with an earlier node's name or in an
/// unknown module, or else the first bind that names a node that isn't there.
pub fn named_design(alloc: Global, file: LimitedFile, table: &Table) -> Result<Design, Fault>
    requires nodes { all_of spec.node_of (reading.nodes_in (table_view table.now)) ≡ Some file.nodes }
    requires few_modules { count (reading.modules_in (table_view table.now)) ≤ 255 }
    requires few_nodes { count (reading.nodes_in (table_view table.now)) ≤ 256 }
    ensures ok { IfOk result (λ design. reading.design_with (table_view table.now) file.heading ≡ Some
        design) }
    ensures modules { IfOk result (λ design. length design.modules ≤ 256) }
    ensures nodes { IfOk result (λ design. length design.nodes ≡ count
        (reading.nodes_in (table_view table.now))) }
    ensures binds { IfOk result (λ design. length design.binds ≡ count
        (reading.binds_in (table_view table.now))) }
    ensures passes { IfOk result (λ _. first_failing (reading.named_checks file.heading.name
        (table_view table.now)) ≡ None) }
    ensures err { IfErr result (IsFaultOf (first_failing (reading.named_checks file.heading.name
        (table_view table.now)))) }
{
    let LimitedFile { heading, nodes } = file;
    let Heading { name, policy } = heading;
    let modules = stated_modules(alloc, &name, table)?;
    let named = stated_nodes(alloc, &modules.names, nodes, table)?;
    let binds = stated_binds(alloc, &named.names, table)?;
    let NamedModules { tree, .. } = modules;
    let NamedNodes { nodes, .. } = named;
    Ok(Design {
        name,
        policy,
        modules: tree,
        nodes,
        binds,
    })
}
