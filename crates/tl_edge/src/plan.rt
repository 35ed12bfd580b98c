ghost use Rattle.tl_edge.specs.ExamplePlan.{SomePlanIsSound};
ghost use Rattle.tl_edge.specs.PlanLaws.{EndsLaw, WaysLaw};

use crate::Bundle;
use dip_lists::Items;
use dip_sets::Name;
use tl_params::{Args, Numbers, Policy, Slaves, Template};

/// A part of the network: what is built for an adapter's port or for a nexus.
#[derive(Drop)]
pub struct Leaf {
    pub template: Template,
    /// The edges from which its requests come.
    pub ins: Numbers,
    /// The edges to which its requests go.
    pub outs: Numbers,
    /// The arguments of its node.
    pub args: Args,
}

/// The leaves of a network, by node and then by port.
pub type Leaves = Items<Leaf>;

/// An edge as the network sees it.
#[derive(Drop)]
pub struct PlanEdge {
    /// The widths of its wires.
    pub bundle: Bundle,
    /// Who answers on it.
    pub slaves: Slaves,
    /// One more than the greatest source id on it.
    pub ids: u32,
}

/// Edges by their numbers.
pub type PlanEdges = Items<PlanEdge>;

/// A port at which the network meets a source or a sink.
#[derive(Debug, Drop)]
pub struct PlanPort {
    /// The number of its edge.
    pub edge: u32,
    /// The number of its node.
    pub node: u32,
    /// Which port of that node it is.
    pub port: u32,
    /// The name of its node.
    pub name: Name,
}

/// Ports, by node and then by port.
pub type PlanPorts = Items<PlanPort>;

/// All that the network of a design is built from.
#[derive(Drop)]
pub struct Plan {
    /// The name of the design.
    pub name: Name,
    /// Whom crossbars serve first.
    pub policy: Policy,
    pub leaves: Leaves,
    pub edges: PlanEdges,
    /// Where requests enter.
    pub sources: PlanPorts,
    /// Where requests leave.
    pub sinks: PlanPorts,
}

/// A plan with a leaf of each template is sound, so that what is promised of sound plans is promised of some.
pub fn sound_plan_law()
    ensures { SomePlanIsSound }
{}

/// Each edge of a sound plan has one giver and one taker, and there are at most 1,024 leaves, sources and
/// sinks.
pub fn ends_law()
    ensures { EndsLaw }
{}

/// No edge stands twice on a way through a sound plan, so the way is no longer than the plan has edges.
pub fn ways_law()
    ensures { WaysLaw }
{}
