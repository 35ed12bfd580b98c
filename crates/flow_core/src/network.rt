ghost use Rattle.std.specs.Prelude.{◌≡◌, IsTrue, IfOk, slice_get};
ghost use Rattle.std.specs.Option.{option_copied};
ghost use Rattle.flow_core.specs.Built.{passing_down, passing_up, IsBuilt};
ghost use Rattle.flow_core.specs.Gating as gating;
ghost use Rattle.flow_core.specs.Network as spec;
ghost use Rattle.flow_core.specs.Turns as turns;
ghost use Rattle.flow_core.specs.declared.moves.Move.TheVariants.{AbsorbA, AbsorbD, Enter, ForwardA, ForwardD, Leave, Reply, Return};

use crate::carried::{carries_a, carries_d};
use crate::crossing::{AllGates, Fixed, Way};
use crate::locks::Gates;
use crate::queue::Queues;
use crate::ways::{fixed_leaves, kept_gates, passing_down as down, passing_up as up};
use crate::{Gate, Move};
use dip_lists::{Items, Memory};
use std::alloc::Global;
use std::marker::Model;
use tl_edge::{ABeat, DBeat, Plan, PlanPort, Tag};

/// The network of a plan, as it stands between two moves.
#[derive(Drop)]
pub struct Network<'a> {
    plan: &'a Plan,
    fixed: Items<Fixed>,
    gates: AllGates,
    a: Queues<(ABeat, Tag)>,
    d: Queues<(DBeat, Tag)>,
}

impl<'a> Model for Network<'a> {
    ghost use Rattle.flow_core.specs.Built.{IsNetwork, network};
    ghost use Rattle.flow_core.specs.Network.{State};

    ghost Value = { State };

    ghost view = { λ net. network net.plan.now net.a net.d net.gates };

    ghost invariant = { λ net. IsNetwork net.plan.now net.fixed net.a net.d };
}

// The edge of a port.
fn edge_of(ports: &[PlanPort], port: u32) -> Option<u32>
    ensures { result ≡ spec.edge_of_port ports.now port }
{
    match ports.get(port as usize) {
        None => None,
        Some(at) => Some(at.edge),
    }
}

// The gate at a place.
fn gate_at(gates: &Items<Gate>, place: u32) -> Option<Gate>
    ensures { result ≡ slice_get gates.now place }
{
    gates.get(place as usize).copied()
}

impl<'a> Network<'a> {
    /// The network of a plan of buffers and crossbars, with all queues empty and all gates open.
    #[tactic(auto, using(crate::proofs::Moved::started))]
    pub fn open(alloc: Global, plan: &'a Plan) -> Result<Network<'a>, Memory>
        requires { IsBuilt plan.now }
        ensures { IfOk result (λ network. network ≡ spec.network_at_start plan.now) }
    {
        let fixed = fixed_leaves(alloc, plan)?;
        let gates = AllGates::open(alloc, plan)?;
        let a = Queues::open(alloc, plan.edges.len())?;
        let d = Queues::open(alloc, plan.edges.len())?;
        Ok(Network {
            plan,
            fixed,
            gates,
            a,
            d,
        })
    }

    /// The beat that waits to leave at a sink port, if one does.
    pub fn leaving(&self, port: u32) -> Option<(ABeat, Tag)>
        ensures { result ≡ spec.leaving self.now port }
    {
        match edge_of(self.plan.sinks.as_slice(), port) {
            None => None,
            Some(edge) => self.a.first(edge),
        }
    }

    /// The beat that waits to return at a source port, if one does.
    pub fn returning(&self, port: u32) -> Option<(DBeat, Tag)>
        ensures { result ≡ spec.returning self.now port }
    {
        match edge_of(self.plan.sources.as_slice(), port) {
            None => None,
            Some(edge) => self.d.first(edge),
        }
    }
}

impl<'a> Network<'a> {
    // The gates of a leaf, if it is a crossbar.
    fn gates_of(&self, leaf: u32) -> Option<&Gates>
        ensures { option_copied result ≡ gating.gates_of self.now leaf }
    {
        kept_gates(self.plan, &self.gates, leaf)
    }

    /// The gate of a crossbar's output on channel A; `None` exactly where the leaf is no crossbar or has no
    /// such output.
    pub fn output_gate(&self, leaf: u32, output: u32) -> Option<Gate>
        ensures { result ≡ gating.output_gate self.now leaf output }
    {
        match self.gates_of(leaf) {
            None => None,
            Some(own) => gate_at(&own.outs, output),
        }
    }

    /// The gate of a crossbar's input on channel D; `None` exactly where the leaf is no crossbar or has no
    /// such input.
    pub fn input_gate(&self, leaf: u32, input: u32) -> Option<Gate>
        ensures { result ≡ gating.input_gate self.now leaf input }
    {
        match self.gates_of(leaf) {
            None => None,
            Some(own) => gate_at(&own.ins, input),
        }
    }
}

impl<'a> Network<'a> {
    // Whether a leaf may put a beat of a request onto an edge.
    #[tactic(auto, using(crate::proofs::Moved::none_enabled_a, crate::proofs::Moved::some_enabled_a))]
    fn may_forward_a(&self, leaf: u32, input: u32, output: u32, id: u32) -> bool
        ensures { result ≡ spec.is_enabled self.now (ForwardA leaf input output id) }
    {
        let way = Way { input, output, id };
        match down(self.plan, &self.fixed, &self.gates, &self.a, leaf, way) {
            None => false,
            Some(passing) => self.a.has_room(passing.to),
        }
    }

    // Whether a leaf may put a beat of a response onto an edge.
    #[tactic(auto, using(crate::proofs::Moved::none_enabled_d, crate::proofs::Moved::some_enabled_d))]
    fn may_forward_d(&self, leaf: u32, input: u32, output: u32) -> bool
        ensures { result ≡ spec.is_enabled self.now (ForwardD leaf input output) }
    {
        let way = Way {
            input,
            output,
            id: 0,
        };
        match up(self.plan, &self.fixed, &self.gates, &self.d, leaf, way) {
            None => false,
            Some(passing) => self.d.has_room(passing.to),
        }
    }

    // Whether a source port may put this beat onto its edge.
    fn may_enter(&self, port: u32, beat: ABeat, tag: Tag) -> bool
        ensures { result ≡ spec.is_enabled self.now (Enter port beat tag) }
    {
        match edge_of(self.plan.sources.as_slice(), port) {
            None => false,
            Some(edge) => carries_a(self.plan, edge, &beat) && self.a.has_room(edge),
        }
    }

    // Whether a sink port may put this beat onto its edge.
    fn may_reply(&self, port: u32, beat: DBeat, tag: Tag) -> bool
        ensures { result ≡ spec.is_enabled self.now (Reply port beat tag) }
    {
        match edge_of(self.plan.sinks.as_slice(), port) {
            None => false,
            Some(edge) => carries_d(self.plan, edge, &beat) && self.d.has_room(edge),
        }
    }

    // Whether a sink port may take a beat from its edge.
    fn may_leave(&self, port: u32) -> bool
        ensures { result ≡ spec.is_enabled self.now (Leave port) }
    {
        match edge_of(self.plan.sinks.as_slice(), port) {
            None => false,
            Some(edge) => self.a.first(edge).is_some(),
        }
    }

    // Whether a source port may take a beat from its edge.
    fn may_return(&self, port: u32) -> bool
        ensures { result ≡ spec.is_enabled self.now (Return port) }
    {
        match edge_of(self.plan.sources.as_slice(), port) {
            None => false,
            Some(edge) => self.d.first(edge).is_some(),
        }
    }

    // Whether a leaf may take a beat into its own state: no buffer and no crossbar does.
    #[tactic(auto, using(crate::proofs::Moved::enabled_absorb_a, crate::proofs::Moved::enabled_absorb_d))]
    fn may_absorb(&self, leaf: u32) -> bool
        ensures a { result ≡ spec.is_enabled self.now (AbsorbA leaf) }
        ensures d { result ≡ spec.is_enabled self.now (AbsorbD leaf) }
    {
        let _ = &self.plan;
        false
    }

    /// Whether a move may be made: it names what is there, and has the head and the room that it needs; the
    /// leaf acts on that head (by owner, lock and id), and the edge of a port carries the beat that is put
    /// there.
    pub fn enabled(&self, step: &Move) -> bool
        ensures { result ≡ spec.is_enabled self.now step.now }
    {
        match *step {
            Move::Enter { port, beat, tag } => self.may_enter(port, beat, tag),
            Move::Leave { port } => self.may_leave(port),
            Move::Reply { port, beat, tag } => self.may_reply(port, beat, tag),
            Move::Return { port } => self.may_return(port),
            Move::AbsorbA { leaf } | Move::AbsorbD { leaf } => self.may_absorb(leaf),
            Move::ForwardA {
                leaf,
                input,
                output,
                id,
            } => self.may_forward_a(leaf, input, output, id),
            Move::ForwardD {
                leaf,
                input,
                output,
            } => self.may_forward_d(leaf, input, output),
        }
    }
}

impl<'a> Network<'a> {
    // A leaf puts a beat of a request onto an edge.
    #[tactic(auto, using(crate::proofs::Moved::afterwards_a))]
    fn forward_a(&mut self, leaf: u32, input: u32, output: u32, id: u32)
        requires { IsTrue (spec.is_enabled self.old (ForwardA leaf input output id)) }
        ensures { self.new ≡ spec.state_after self.old (ForwardA leaf input output id) }
    {
        let way = Way { input, output, id };
        let passing = down(self.plan, &self.fixed, &self.gates, &self.a, leaf, way);
        if let Some(passing) = passing {
            self.a.pass(&passing);
            self.gates.pass_out(leaf, output, passing.gate);
        }
    }

    // A leaf puts a beat of a response onto an edge.
    #[tactic(auto, using(crate::proofs::Moved::afterwards_d))]
    fn forward_d(&mut self, leaf: u32, input: u32, output: u32)
        requires { IsTrue (spec.is_enabled self.old (ForwardD leaf input output)) }
        ensures { self.new ≡ spec.state_after self.old (ForwardD leaf input output) }
    {
        let way = Way {
            input,
            output,
            id: 0,
        };
        let passing = up(self.plan, &self.fixed, &self.gates, &self.d, leaf, way);
        if let Some(passing) = passing {
            self.d.pass(&passing);
            self.gates.pass_in(leaf, input, passing.gate);
        }
    }

    // A source port puts a beat onto its edge.
    fn enter(&mut self, port: u32, beat: ABeat, tag: Tag)
        requires { IsTrue (spec.is_enabled self.old (Enter port beat tag)) }
        ensures { self.new ≡ spec.state_after self.old (Enter port beat tag) }
    {
        if let Some(edge) = edge_of(self.plan.sources.as_slice(), port) {
            self.a.put(edge, (beat, tag));
        }
    }

    // A sink port puts a beat onto its edge.
    fn reply(&mut self, port: u32, beat: DBeat, tag: Tag)
        requires { IsTrue (spec.is_enabled self.old (Reply port beat tag)) }
        ensures { self.new ≡ spec.state_after self.old (Reply port beat tag) }
    {
        if let Some(edge) = edge_of(self.plan.sinks.as_slice(), port) {
            self.d.put(edge, (beat, tag));
        }
    }

    // A sink port takes a beat from its edge.
    #[tactic(auto, using(crate::proofs::Moved::after_leave))]
    fn leave(&mut self, port: u32)
        requires { IsTrue (spec.is_enabled self.old (Leave port)) }
        ensures { self.new ≡ spec.state_after self.old (Leave port) }
    {
        if let Some(edge) = edge_of(self.plan.sinks.as_slice(), port) {
            self.a.take(edge);
        }
    }

    // A source port takes a beat from its edge.
    #[tactic(auto, using(crate::proofs::Moved::after_return))]
    fn give_back(&mut self, port: u32)
        requires { IsTrue (spec.is_enabled self.old (Return port)) }
        ensures { self.new ≡ spec.state_after self.old (Return port) }
    {
        if let Some(edge) = edge_of(self.plan.sources.as_slice(), port) {
            self.d.take(edge);
        }
    }

    // A leaf takes a beat into its own state, as no buffer and no crossbar does.
    #[tactic(auto, using(crate::proofs::Moved::after_absorb_a, crate::proofs::Moved::after_absorb_d))]
    fn absorb(&mut self, leaf: u32)
        ensures a { self.new ≡ spec.state_after self.old (AbsorbA leaf) }
        ensures d { self.new ≡ spec.state_after self.old (AbsorbD leaf) }
    {
        let _ = &self.plan;
    }

    /// Makes a move that may be made, and takes no memory.
    pub fn apply(&mut self, step: &Move)
        requires { IsTrue (spec.is_enabled self.old step.now) }
        ensures { self.new ≡ spec.state_after self.old step.now }
    {
        match *step {
            Move::Enter { port, beat, tag } => self.enter(port, beat, tag),
            Move::Leave { port } => self.leave(port),
            Move::Reply { port, beat, tag } => self.reply(port, beat, tag),
            Move::Return { port } => self.give_back(port),
            Move::AbsorbA { leaf } | Move::AbsorbD { leaf } => self.absorb(leaf),
            Move::ForwardA {
                leaf,
                input,
                output,
                id,
            } => self.forward_a(leaf, input, output, id),
            Move::ForwardD {
                leaf,
                input,
                output,
            } => self.forward_d(leaf, input, output),
        }
    }
}

impl<'a> Network<'a> {
    /// The plan of the network.
    pub fn plan(&self) -> &Plan
        ensures { result.now ≡ self.now.plan }
    {
        self.plan
    }

    /// The new id of the next beat of a request at a leaf; 0 where it has no choice of an id, where none is
    /// free, and where there is no such leaf.
    pub fn next_id(&self, leaf: u32) -> u32
        ensures { result ≡ turns.next_id (turns.leaf_state self.now leaf) }
    {
        let _ = &self.plan;
        0
    }
}
