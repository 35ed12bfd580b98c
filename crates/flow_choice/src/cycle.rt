ghost use Rattle.std.specs.Prelude.{◌≡◌, ◌++◌, ◌-◌, ◌≤◌, length, find, get_or, min, None, OnOk, OnErr};
ghost use Rattle.std.specs.List.{range_with_len};
ghost use Rattle.flow_choice.specs.Numbered.{IsNumbered};
ghost use Rattle.flow_core.specs.Network as net;
ghost use Rattle.flow_core.specs.Turns as turns;
ghost use Rattle.flow_choice.specs.Choosing as spec;
ghost use Rattle.flow_choice.specs.Turns.{in_turn};

use crate::Offers;
use dip_lists::{Items, Memory};
use flow_core::{Move, Moves, Network};
use std::alloc::Global;
use tl_edge::{ABeat, DBeat, Tag};
use tl_params::Policy;

/// Moves of a leaf of which one alone is made in a cycle.
#[derive(Clone, Copy)]
pub enum Among {
    /// To an output of a leaf with an id, from each of its inputs.
    Down { leaf: u32, output: u32, id: u32 },
    /// To an input of a leaf, from each of its outputs.
    Up { leaf: u32, input: u32 },
}

impl Among {
    // The move from the input, or from the output, with a number.
    fn step(self, number: u32) -> Move
        ensures { result ≡ spec.choice_of self number }
    {
        match self {
            Among::Down { leaf, output, id } => Move::ForwardA {
                leaf,
                input: number,
                output,
                id,
            },
            Among::Up { leaf, input } => Move::ForwardD {
                leaf,
                input,
                output: number,
            },
        }
    }
}

// Adds a move where it may be made.
fn add(list: &mut Moves, network: &Network, step: Move) -> Result<(), Memory>
    ensures { OnOk result (list.new ≡ list.old ++ spec.if_enabled network.now step) }
{
    if network.enabled(&step) {
        list.push(step)?;
    }
    Ok(())
}

// Adds the beat that a source port offers.
fn add_enter(
    list: &mut Moves,
    network: &Network,
    port: u32,
    offer: Option<(ABeat, Tag)>,
) -> Result<(), Memory>
    ensures { OnOk result (list.new ≡ list.old ++ spec.entering network.now port offer) }
{
    match offer {
        None => Ok(()),
        Some((beat, tag)) => add(list, network, Move::Enter { port, beat, tag }),
    }
}

// Adds the beat that a sink port offers.
fn add_reply(
    list: &mut Moves,
    network: &Network,
    port: u32,
    offer: Option<(DBeat, Tag)>,
) -> Result<(), Memory>
    ensures { OnOk result (list.new ≡ list.old ++ spec.replying network.now port offer) }
{
    match offer {
        None => Ok(()),
        Some((beat, tag)) => add(list, network, Move::Reply { port, beat, tag }),
    }
}

// Adds what a port takes, where it takes.
fn add_taken(list: &mut Moves, network: &Network, step: Move, takes: bool) -> Result<(), Memory>
    ensures { OnOk result (list.new ≡ list.old ++ spec.taking network.now step takes) }
{
    if !takes {
        return Ok(());
    }
    add(list, network, step)
}

// Whether a port takes, by its number.
fn takes(flags: &[bool], port: u32) -> bool
    ensures { result ≡ spec.flag_at flags.now port }
{
    flags.get(port as usize).copied().unwrap_or(false)
}

// The beat that a source port offers, by its number.
fn entered(enters: &[Option<(ABeat, Tag)>], port: u32) -> Option<(ABeat, Tag)>
    ensures { result ≡ get_or enters.now port None }
{
    enters.get(port as usize).copied().unwrap_or(None)
}

// The beat that a sink port offers, by its number.
fn replied(replies: &[Option<(DBeat, Tag)>], port: u32) -> Option<(DBeat, Tag)>
    ensures { result ≡ get_or replies.now port None }
{
    replies.get(port as usize).copied().unwrap_or(None)
}

// Adds the moves of a source port.
#[tactic(auto, using(crate::proofs::Adding::both_added))]
fn add_source(list: &mut Moves, network: &Network, offers: &Offers, port: u32) -> Result<(), Memory>
    ensures { OnOk result (list.new ≡ list.old ++ spec.source_moves network.now offers.now port) }
{
    add_enter(list, network, port, entered(offers.enter.as_slice(), port))?;
    let takes = takes(offers.take_d.as_slice(), port);
    add_taken(list, network, Move::Return { port }, takes)
}

// Adds the moves of a sink port.
#[tactic(auto, using(crate::proofs::Adding::both_added))]
fn add_sink(list: &mut Moves, network: &Network, offers: &Offers, port: u32) -> Result<(), Memory>
    ensures { OnOk result (list.new ≡ list.old ++ spec.sink_moves network.now offers.now port) }
{
    let takes = takes(offers.take_a.as_slice(), port);
    add_taken(list, network, Move::Leave { port }, takes)?;
    add_reply(list, network, port, replied(offers.reply.as_slice(), port))
}

// The first number, from one up to another, whose move may be made.
fn first_between(network: &Network, among: Among, from: u32, to: u32) -> Option<u32>
    requires { from ≤ to }
    ensures { result ≡ find (λ number. net.is_enabled network.now (spec.choice_of among number))
        (range_with_len from (to - from)) }
{
    for number in from..to {
        if network.enabled(&among.step(number)) {
            return Some(number);
        }
    }
    None
}

// The first number whose move may be made, from one on up to `count`, and then from 0 on.
#[tactic(auto, using(crate::proofs::Adding::going_round))]
fn first_going_round(network: &Network, among: Among, from: u32, count: u32) -> Option<u32>
    requires { from ≤ count }
    ensures { result ≡ find (λ number. net.is_enabled network.now (spec.choice_of among number))
        (range_with_len from (count - from) ++ range_with_len 0 from) }
{
    let later = first_between(network, among, from, count);
    let earlier = first_between(network, among, 0, from);
    later.or(earlier)
}

// From where one whose turn is next is asked among so many.
fn first_asked(next: usize, count: u32) -> u32
    ensures { result ≡ min next count }
{
    if next < count as usize {
        next as u32
    } else {
        count
    }
}

// The first number in turn whose move may be made.
#[tactic(auto, using(crate::proofs::Adding::from_lowest, crate::proofs::Adding::from_turn))]
fn first_in_turn(network: &Network, among: Among, next: usize, count: u32) -> Option<u32>
    ensures { result ≡ find (λ number. net.is_enabled network.now (spec.choice_of among number))
        (in_turn network.now.plan.policy next count) }
{
    match network.plan().policy {
        Policy::Lowest => first_between(network, among, 0, count),
        Policy::Round => first_going_round(network, among, first_asked(next, count), count),
    }
}

// Adds the first of some moves in turn that may be made.
fn add_first(
    list: &mut Moves,
    network: &Network,
    among: Among,
    next: usize,
    count: u32,
) -> Result<(), Memory>
    ensures { OnOk result (list.new ≡ list.old ++ spec.first_enabled network.now (spec.choice_of among)
        (in_turn network.now.plan.policy next count)) }
{
    match first_in_turn(network, among, next, count) {
        None => Ok(()),
        Some(number) => {
            list.push(among.step(number))?;
            Ok(())
        }
    }
}

// How many inputs a leaf has.
#[tactic(auto, using(crate::proofs::Counts::few_inputs))]
fn input_count(network: &Network, leaf: u32) -> u32
    requires { IsNumbered network.now.plan }
    ensures { result ≡ spec.input_count network.now.plan leaf }
{
    match network.plan().leaves.get(leaf as usize) {
        None => 0,
        Some(at) => at.ins.len() as u32,
    }
}

// How many outputs a leaf has.
#[tactic(auto, using(crate::proofs::Counts::few_outputs))]
fn output_count(network: &Network, leaf: u32) -> u32
    requires { IsNumbered network.now.plan }
    ensures { result ≡ spec.output_count network.now.plan leaf }
{
    match network.plan().leaves.get(leaf as usize) {
        None => 0,
        Some(at) => at.outs.len() as u32,
    }
}

// Which input's turn is next at an output of a leaf.
#[tactic(auto, using(crate::proofs::Served::turn_at_output))]
fn output_turn(network: &Network, leaf: u32, output: u32) -> usize
    ensures { result ≡ turns.output_turn (turns.leaf_state network.now leaf) output }
{
    match network.output_gate(leaf, output) {
        None => 0,
        Some(gate) => gate.next,
    }
}

// Which output's turn is next at an input of a leaf.
#[tactic(auto, using(crate::proofs::Served::turn_at_input))]
fn input_turn(network: &Network, leaf: u32, input: u32) -> usize
    ensures { result ≡ turns.input_turn (turns.leaf_state network.now leaf) input }
{
    match network.input_gate(leaf, input) {
        None => 0,
        Some(gate) => gate.next,
    }
}

// How many source ports there are.
#[tactic(auto, using(crate::proofs::Counts::few_sources))]
fn source_count(network: &Network) -> u32
    requires { IsNumbered network.now.plan }
    ensures { result ≡ length network.now.plan.sources }
{
    network.plan().sources.len() as u32
}

// How many sink ports there are.
#[tactic(auto, using(crate::proofs::Counts::few_sinks))]
fn sink_count(network: &Network) -> u32
    requires { IsNumbered network.now.plan }
    ensures { result ≡ length network.now.plan.sinks }
{
    network.plan().sinks.len() as u32
}

// How many leaves there are.
#[tactic(auto, using(crate::proofs::Counts::few_leaves))]
fn leaf_count(network: &Network) -> u32
    requires { IsNumbered network.now.plan }
    ensures { result ≡ length network.now.plan.leaves }
{
    network.plan().leaves.len() as u32
}

// Adds the moves of a leaf to its outputs.
fn add_downs(list: &mut Moves, network: &Network, leaf: u32) -> Result<(), Memory>
    requires { IsNumbered network.now.plan }
    ensures { OnOk result (list.new ≡ list.old
        ++ spec.of_each (spec.output_count network.now.plan leaf) (spec.chosen_down network.now leaf)) }
{
    let inputs = input_count(network, leaf);
    let outputs = output_count(network, leaf);
    let id = network.next_id(leaf);
    for output in 0..outputs {
        let next = output_turn(network, leaf, output);
        add_first(
            list,
            network,
            Among::Down { leaf, output, id },
            next,
            inputs,
        )?;
    }
    Ok(())
}

// Adds the moves of a leaf to its inputs.
fn add_ups(list: &mut Moves, network: &Network, leaf: u32) -> Result<(), Memory>
    requires { IsNumbered network.now.plan }
    ensures { OnOk result (list.new ≡ list.old
        ++ spec.of_each (spec.input_count network.now.plan leaf) (spec.chosen_up network.now leaf)) }
{
    let inputs = input_count(network, leaf);
    let outputs = output_count(network, leaf);
    for input in 0..inputs {
        let next = input_turn(network, leaf, input);
        add_first(list, network, Among::Up { leaf, input }, next, outputs)?;
    }
    Ok(())
}

// Adds the moves of a leaf on channel A.
#[tactic(auto, using(crate::proofs::Adding::both_added))]
fn add_leaf_a(list: &mut Moves, network: &Network, leaf: u32) -> Result<(), Memory>
    requires { IsNumbered network.now.plan }
    ensures { OnOk result (list.new ≡ list.old ++ spec.leaf_moves_a network.now leaf) }
{
    add(list, network, Move::AbsorbA { leaf })?;
    add_downs(list, network, leaf)
}

// Adds the moves of a leaf on channel D.
#[tactic(auto, using(crate::proofs::Adding::both_added))]
fn add_leaf_d(list: &mut Moves, network: &Network, leaf: u32) -> Result<(), Memory>
    requires { IsNumbered network.now.plan }
    ensures { OnOk result (list.new ≡ list.old ++ spec.leaf_moves_d network.now leaf) }
{
    add(list, network, Move::AbsorbD { leaf })?;
    add_ups(list, network, leaf)
}

// Adds the moves of a leaf.
#[tactic(auto, using(crate::proofs::Adding::both_added))]
fn add_leaf(list: &mut Moves, network: &Network, leaf: u32) -> Result<(), Memory>
    requires { IsNumbered network.now.plan }
    ensures { OnOk result (list.new ≡ list.old ++ spec.leaf_moves network.now leaf) }
{
    add_leaf_a(list, network, leaf)?;
    add_leaf_d(list, network, leaf)
}

// Adds the moves of all source ports.
fn add_sources(list: &mut Moves, network: &Network, offers: &Offers) -> Result<(), Memory>
    requires { IsNumbered network.now.plan }
    ensures { OnOk result (list.new ≡ list.old
        ++ spec.of_each (length network.now.plan.sources) (spec.source_moves network.now offers.now)) }
{
    let count = source_count(network);
    for port in 0..count {
        add_source(list, network, offers, port)?;
    }
    Ok(())
}

// Adds the moves of all sink ports.
fn add_sinks(list: &mut Moves, network: &Network, offers: &Offers) -> Result<(), Memory>
    requires { IsNumbered network.now.plan }
    ensures { OnOk result (list.new ≡ list.old
        ++ spec.of_each (length network.now.plan.sinks) (spec.sink_moves network.now offers.now)) }
{
    let count = sink_count(network);
    for port in 0..count {
        add_sink(list, network, offers, port)?;
    }
    Ok(())
}

// Adds the moves of all leaves.
fn add_leaves(list: &mut Moves, network: &Network) -> Result<(), Memory>
    requires { IsNumbered network.now.plan }
    ensures { OnOk result (list.new ≡ list.old
        ++ spec.of_each (length network.now.plan.leaves) (spec.leaf_moves network.now)) }
{
    let count = leaf_count(network);
    for leaf in 0..count {
        add_leaf(list, network, leaf)?;
    }
    Ok(())
}

// Adds the moves of all ports.
#[tactic(auto, using(crate::proofs::Adding::both_added))]
fn add_ports(list: &mut Moves, network: &Network, offers: &Offers) -> Result<(), Memory>
    requires { IsNumbered network.now.plan }
    ensures { OnOk result (list.new ≡ list.old ++ spec.port_moves network.now offers.now) }
{
    add_sources(list, network, offers)?;
    add_sinks(list, network, offers)
}

/// Makes `into` the chosen moves of a cycle at whose start the network is as it stands.
///
/// They are all moves of leaves that may be made now, and those that ports offer or take, but that of those
/// to one output of a crossbar, or back to one of its inputs, one alone is chosen by the plan's policy, and
/// that the first beat of a request takes a shrinker's lowest free id and later ones that of their request:
/// source ports in order, what enters before what returns; sink ports in order, what leaves before what is
/// replied; leaves in order, on channel A by output, then on channel D by input. A port of which the offers
/// say nothing offers and takes nothing. After `Memory`, `into` is as before.
pub fn choose(
    alloc: Global,
    network: &Network,
    offers: &Offers,
    into: &mut Moves,
) -> Result<(), Memory>
    requires { IsNumbered network.now.plan }
    ensures ok { OnOk result (into.new ≡ spec.chosen_moves network.now offers.now) }
    ensures err { OnErr result (into.new ≡ into.old) }
{
    let mut list = Items::new(alloc);
    add_ports(&mut list, network, offers)?;
    add_leaves(&mut list, network)?;
    *into = list;
    Ok(())
}
