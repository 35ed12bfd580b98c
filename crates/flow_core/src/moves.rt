use dip_lists::Items;
use tl_edge::{ABeat, DBeat, Tag};

/// One step of a network. A port, a leaf, an input and an output are named by their numbers in the plan.
#[derive(Clone, Copy, Debug, PartialEq, Eq)]
pub enum Move {
    /// A source port puts a beat of a request onto its edge.
    Enter {
        port: u32,
        beat: ABeat,
        tag: Tag,
    },
    /// A sink port takes a beat of a request from its edge.
    Leave {
        port: u32,
    },
    /// A sink port puts a beat of a response onto its edge.
    Reply {
        port: u32,
        beat: DBeat,
        tag: Tag,
    },
    /// A source port takes a beat of a response from its edge.
    Return {
        port: u32,
    },
    /// A leaf takes a beat of a request into its own state.
    AbsorbA {
        leaf: u32,
    },
    /// A leaf takes a beat of a response into its own state.
    AbsorbD {
        leaf: u32,
    },
    /// A leaf puts a beat of a request onto an edge towards the sinks, at a shrinker with a new id.
    ForwardA {
        leaf: u32,
        input: u32,
        output: u32,
        id: u32,
    },
    /// A leaf puts a beat of a response onto an edge towards the sources.
    ForwardD {
        leaf: u32,
        input: u32,
        output: u32,
    },
}

/// Moves, in order.
pub type Moves = Items<Move>;
