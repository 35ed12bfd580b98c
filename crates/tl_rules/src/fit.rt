ghost use Rattle.std.specs.Prelude.{◌≡◌, ◌<◌, ◌≤◌, ◌&&◌, nat_lt, length, take, None, All, IsTrue};
ghost use Rattle.tl_params.specs.Carried as carried;
ghost use Rattle.tl_rules.specs.Fits as spec;
ghost use Rattle.tl_params.specs.Arguments.{fragment_arguments, shrink_argument};

use crate::fit_xbar::{inputs_fit, outputs_fit};
use crate::fragmenter::up_to_piece;
use dip_lists::Same;
use dip_sets::Sizes;
use tl_params::{
    Args, DownPort, Master, Ops, Slave, Template, UpPort, fragment_arguments, is_width,
    shrink_argument,
};

// Sizes that are cut into pieces fit those behind the cut.
fn fits_pieces(pieces: &Sizes, sizes: &Sizes, real: &Sizes) -> bool
    ensures { result ≡ carried.fits_pieces pieces.now sizes.now real.now }
{
    sizes.meet(pieces).within(real) && (sizes.max() <= pieces.max() || real.contains(pieces.max()))
}

// Whether sizes fit those behind a cut, if there is one.
fn sizes_fit(pieces: &Option<Sizes>, sizes: &Sizes, real: &Sizes) -> bool
    ensures { result ≡ carried.sizes_fit pieces.now sizes.now real.now }
{
    match pieces {
        None => sizes.within(real),
        Some(pieces) => fits_pieces(pieces, sizes, real),
    }
}

// Whether operations fit those behind a cut; atomics and intents are never cut.
fn ops_fit(pieces: &Option<Sizes>, ops: &Ops, real: &Ops) -> bool
    ensures { result ≡ carried.ops_fit pieces.now ops.now real.now }
{
    sizes_fit(pieces, &ops.get, &real.get)
        && sizes_fit(pieces, &ops.put_full, &real.put_full)
        && sizes_fit(pieces, &ops.put_partial, &real.put_partial)
        && ops.arithmetic.within(&real.arithmetic)
        && ops.logical.within(&real.logical)
        && ops.intent.within(&real.intent)
}

fn same_addresses(slave: &Slave, real: &Slave) -> bool
    ensures { result ≡ carried.all_zip carried.is_same_set slave.now.addresses real.now.addresses }
{
    slave.addresses.same(&real.addresses)
}

fn is_same_slave(slave: &Slave, real: &Slave) -> bool
    ensures { result ≡ carried.is_same_slave slave.now real.now }
{
    slave.node == real.node && slave.port == real.port && same_addresses(slave, real)
}

fn slave_fits(pieces: &Option<Sizes>, slave: &Slave, real: &Slave) -> bool
    ensures { result ≡ carried.slave_fits pieces.now slave.now real.now }
{
    is_same_slave(slave, real) && ops_fit(pieces, &slave.supports, &real.supports)
}

// Whether slaves fit others place by place.
fn slaves_fit(pieces: &Option<Sizes>, slaves: &[Slave], real: &[Slave]) -> bool
    ensures { result ≡ carried.slaves_fit pieces.now slaves.now real.now }
{
    if slaves.len() != real.len() {
        return false;
    }
    for place in 0..slaves.len() {
        if !slave_fits(pieces, &slaves[place], &real[place]) {
            return false;
        }
    }
    true
}

/// Whether the first of some slaves fit others.
pub fn begin_with(slaves: &[Slave], real: &[Slave]) -> bool
    ensures value { result ≡ carried.slaves_fit None (take (length real.now) slaves.now) real.now }
    ensures long { IsTrue result → length real.now ≤ length slaves.now }
{
    if slaves.len() < real.len() {
        return false;
    }
    slaves_fit(&None, &slaves[..real.len()], real)
}

// Whether two masters have the same ids.
fn has_same_ids(master: &Master, other: &Master) -> bool
    ensures { result ≡ spec.has_same_ids master.now other.now }
{
    master.ids.start == other.ids.start && master.ids.end == other.ids.end
}

/// Whether some masters have the same ids as others, in the same order.
pub fn same_ids(masters: &[Master], others: &[Master]) -> bool
    ensures { result ≡ spec.same_ids masters.now others.now }
{
    if masters.len() != others.len() {
        return false;
    }
    for place in 0..masters.len() {
        if !has_same_ids(&masters[place], &others[place]) {
            return false;
        }
    }
    true
}

// Whether there is one master, with so many ids from 0 on.
fn has_only_ids(ids: u32, masters: &[Master]) -> bool
    ensures { result ≡ spec.has_only_ids ids masters.now }
{
    match masters {
        [master] => master.ids.start == 0 && master.ids.end == ids,
        _ => false,
    }
}

// What a buffer, a width adapter and a shrinker ask of the slaves of an in edge and of its out edge.
fn same_slaves(above: &UpPort, below: &UpPort) -> bool
    ensures { result ≡ carried.slaves_fit None above.now.slaves below.now.slaves }
{
    slaves_fit(&None, above.slaves.as_slice(), below.slaves.as_slice())
}

fn masters_agree(above: &DownPort, below: &DownPort) -> bool
    ensures { result ≡ spec.same_ids above.now.masters below.now.masters }
{
    same_ids(above.masters.as_slice(), below.masters.as_slice())
}

// Whether a fragmenter with these arguments fits the ports of both its edges.
fn fragments_fit(
    args: &Args,
    above_down: &DownPort,
    above_up: &UpPort,
    below_down: &DownPort,
    below_up: &UpPort,
) -> bool
    ensures { result ≡ spec.fragments_fit (fragment_arguments args.now)
        (spec.edge_ports above_down.now above_up.now) (spec.edge_ports below_down.now below_up.now) }
{
    let Some(fragments) = fragment_arguments(args) else {
        return false;
    };
    let pieces = Some(up_to_piece(&fragments));
    slaves_fit(
        &pieces,
        above_up.slaves.as_slice(),
        below_up.slaves.as_slice(),
    ) && masters_agree(above_down, below_down)
        && above_up.beat == below_up.beat
        && below_up.beat <= fragments.piece
}

// Whether a shrinker with this argument does.
fn shrinks_fit(args: &Args, above_up: &UpPort, below_down: &DownPort, below_up: &UpPort) -> bool
    ensures { (above_down : DownPort) → result ≡ spec.shrinks_fit (shrink_argument args.now)
        (spec.edge_ports above_down above_up.now) (spec.edge_ports below_down.now below_up.now) }
{
    let Some(ids) = shrink_argument(args) else {
        return false;
    };
    same_slaves(above_up, below_up)
        && has_only_ids(ids, below_down.masters.as_slice())
        && above_up.beat == below_up.beat
}

// Whether what is built between an in edge and its out edge fits the ports of both.
fn adapter_fits(
    template: Template,
    args: &Args,
    above_down: &DownPort,
    above_up: &UpPort,
    below_down: &DownPort,
    below_up: &UpPort,
) -> bool
    ensures { result ≡ spec.adapter_fits template args.now (spec.edge_ports above_down.now above_up.now)
        (spec.edge_ports below_down.now below_up.now) }
{
    match template {
        Template::Buffer => {
            same_slaves(above_up, below_up)
                && masters_agree(above_down, below_down)
                && above_up.beat == below_up.beat
        }
        Template::Width => {
            same_slaves(above_up, below_up)
                && masters_agree(above_down, below_down)
                && is_width(above_up.beat)
                && is_width(below_up.beat)
        }
        Template::Fragmenter => { fragments_fit(args, above_down, above_up, below_down, below_up) }
        Template::Shrinker => shrinks_fit(args, above_up, below_down, below_up),
        Template::Xbar => false,
    }
}

/// What goes down an edge that exists.
pub fn port_down<'a>(down: &'a [DownPort], edge: u32) -> &'a DownPort
    requires { edge < length down.now }
    ensures { result.now ≡ spec.port_down down.now edge }
{
    &down[edge as usize]
}

/// What goes up an edge that exists.
pub fn port_up<'a>(up: &'a [UpPort], edge: u32) -> &'a UpPort
    requires { edge < length up.now }
    ensures { result.now ≡ spec.port_up up.now edge }
{
    &up[edge as usize]
}

fn is_edge(edge: u32, down: &[DownPort], up: &[UpPort]) -> bool
    ensures { result ≡ (nat_lt edge (length down.now) && nat_lt edge (length up.now)) }
{
    (edge as usize) < down.len() && (edge as usize) < up.len()
}

// Whether each edge has ports.
fn are_edges(edges: &[u32], down: &[DownPort], up: &[UpPort]) -> bool
    ensures value { result ≡ spec.are_edges down.now up.now edges.now }
    ensures down { IsTrue result → All (λ edge. edge < length down.now) edges.now }
    ensures up { IsTrue result → All (λ edge. edge < length up.now) edges.now }
{
    for edge in edges {
        if !is_edge(*edge, down, up) {
            return false;
        }
    }
    true
}

// Whether what is built between two edges fits their ports.
fn edges_fit(
    template: Template,
    args: &Args,
    above: u32,
    below: u32,
    down: &[DownPort],
    up: &[UpPort],
) -> bool
    requires above_down { above < length down.now }
    requires above_up { above < length up.now }
    requires below_down { below < length down.now }
    requires below_up { below < length up.now }
    ensures { result ≡ spec.adapter_fits template args.now (spec.ports_at down.now up.now above)
        (spec.ports_at down.now up.now below) }
{
    adapter_fits(
        template,
        args,
        port_down(down, above),
        port_up(up, above),
        port_down(down, below),
        port_up(up, below),
    )
}

// Whether it does between each in edge and the out edge at its place.
fn adapters_fit(
    template: Template,
    args: &Args,
    ins: &[u32],
    outs: &[u32],
    down: &[DownPort],
    up: &[UpPort],
) -> bool
    requires ins_down { All (λ edge. edge < length down.now) ins.now }
    requires ins_up { All (λ edge. edge < length up.now) ins.now }
    requires outs_down { All (λ edge. edge < length down.now) outs.now }
    requires outs_up { All (λ edge. edge < length up.now) outs.now }
    ensures { result ≡ carried.all_zip (λ above below. spec.adapter_fits template args.now
        (spec.ports_at down.now up.now above) (spec.ports_at down.now up.now below)) ins.now outs.now }
{
    if ins.len() != outs.len() {
        return false;
    }
    for place in 0..ins.len() {
        if !edges_fit(template, args, ins[place], outs[place], down, up) {
            return false;
        }
    }
    true
}

/// Whether what is built for a node fits the ports of its edges, which are given by their numbers: edge e has
/// the ports `down[e]` and `up[e]`. False where a number has no ports.
///
/// It fits where both sides show the same slaves in the same order, the in side promises no sizes that
/// the out side lacks, the out side has the ids that the template makes, the widths of the buses are
/// those that it takes, and so are its arguments. An adapter has as many in edges as out edges, and
/// stands between each two of them; a crossbar shows the slaves of all out edges at each in edge, and
/// the ids of all in edges at each out edge.
pub fn fits(
    template: Template,
    args: &Args,
    ins: &[u32],
    outs: &[u32],
    down: &[DownPort],
    up: &[UpPort],
) -> bool
    ensures { result ≡ spec.fits template args.now ins.now outs.now down.now up.now }
{
    if !are_edges(ins, down, up) || !are_edges(outs, down, up) {
        return false;
    }
    if template.is_nexus() {
        return inputs_fit(ins, outs, up) && outputs_fit(ins, outs, down);
    }
    adapters_fit(template, args, ins, outs, down, up)
}
