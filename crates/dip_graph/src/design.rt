use dip_lists::Items;
use dip_sets::Name;
use tl_params::{AddressLists, Args, Ops, Policy};

/// A module, which holds nodes and other modules.
#[derive(Debug, Drop)]
pub struct ModuleEntry {
    pub name: Name,
    /// The number of the module that holds it, 0 for the top one.
    pub parent: u32,
}

/// Modules by their numbers; entry 0 is the top one.
pub type ModuleTree = Items<ModuleEntry>;

/// What a node is.
#[derive(Drop)]
pub enum NodeKind {
    /// Requesters: `ports` of them, each with so many source ids and these requests.
    Source {
        ports: u32,
        ids: u32,
        emits: Ops,
    },
    /// Responders with a bus of `beat` bytes: a port for each list of address sets.
    Sink {
        beat: u32,
        ports: AddressLists,
        supports: Ops,
    },
    /// A node whose ports are what the rule of a kind answers, with these arguments.
    Ruled {
        kind: Name,
        args: Args,
    },
}

/// A node of a design.
#[derive(Drop)]
pub struct NodeEntry {
    pub name: Name,
    /// The number of the module that holds it.
    pub module: u32,
    pub kind: NodeKind,
}

/// Nodes by their numbers, in file order.
pub type Nodes = Items<NodeEntry>;

/// How many edges a bind makes.
#[derive(Clone, Copy, Debug, PartialEq, Eq)]
pub enum Star {
    /// `:=`, one.
    One,
    /// `:=*`, as many as the node `from` has left.
    FromStar,
    /// `:*=`, as many as the node `to` has left.
    ToStar,
}

/// A bind `to := from`: requests go from the node `from` to the node `to`.
#[derive(Clone, Copy, Debug, PartialEq, Eq)]
pub struct BindEntry {
    pub to: u32,
    pub from: u32,
    pub star: Star,
}

/// Binds by their numbers, in file order.
pub type Binds = Items<BindEntry>;

/// What a design file states.
#[derive(Drop)]
pub struct Design {
    pub name: Name,
    pub policy: Policy,
    pub modules: ModuleTree,
    pub nodes: Nodes,
    pub binds: Binds,
}
