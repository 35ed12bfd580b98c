ghost use Rattle.std.specs.Prelude.{◌≡◌, map, IfOk};
ghost use Rattle.dip_rule.specs.Stated.{Answers};
ghost use Rattle.dip_sets.specs.SizeRanges.{size_range, IsSizePair};
ghost use Rattle.tl_params.specs.Arguments as arguments;
ghost use Rattle.tl_rules.specs.Fragments as spec;

use crate::ports::only;
use dip_lists::{Duplicate, Items, Memory};
use dip_rule::RuleFault;
use dip_sets::Sizes;
use std::alloc::Global;
use tl_params::{
    Args, DownPort, Fragments, Master, Masters, Ops, Slave, Slaves, UpPort, fragment_arguments,
};

// The sizes from a least to a greatest one.
fn sizes_between(least: u32, greatest: u32) -> Sizes
    requires { IsSizePair least greatest }
    ensures { result ≡ size_range least greatest }
{
    match Sizes::new(least, greatest) {
        Some(sizes) => sizes,
        None => Sizes::none(),
    }
}

/// The sizes that need no cutting: those from 1 to a piece.
pub fn up_to_piece(fragments: &Fragments) -> Sizes
    requires { arguments.AreFragments fragments.now }
    ensures { result ≡ size_range 1 fragments.now.piece }
{
    sizes_between(1, fragments.piece)
}

// Sizes behind the fragmenter.
fn cut(fragments: &Fragments, sizes: &Sizes) -> Sizes
    requires { arguments.AreFragments fragments.now }
    ensures { result ≡ spec.cut fragments.now.piece sizes.now }
{
    if sizes.max() == 0 {
        return *sizes;
    }
    if fragments.piece < sizes.min() {
        return sizes_between(fragments.piece, fragments.piece);
    }
    sizes.meet(&up_to_piece(fragments))
}

// Sizes before the fragmenter.
fn widened(fragments: &Fragments, sizes: &Sizes) -> Sizes
    requires { arguments.AreFragments fragments.now }
    ensures { result ≡ spec.widened fragments.now sizes.now }
{
    if sizes.contains(fragments.piece) {
        return sizes.cover(&sizes_between(fragments.piece, fragments.largest));
    }
    sizes.meet(&up_to_piece(fragments))
}

// Operations behind the fragmenter: gets and puts are cut, atomics and intents pass whole.
fn cut_ops(fragments: &Fragments, ops: &Ops) -> Ops
    requires { arguments.AreFragments fragments.now }
    ensures { result ≡ spec.cut_ops fragments.now.piece ops.now }
{
    Ops {
        get: cut(fragments, &ops.get),
        put_full: cut(fragments, &ops.put_full),
        put_partial: cut(fragments, &ops.put_partial),
        ..*ops
    }
}

// Operations before the fragmenter: gets and puts are widened, atomics and intents stay.
fn widened_ops(fragments: &Fragments, ops: &Ops) -> Ops
    requires { arguments.AreFragments fragments.now }
    ensures { result ≡ spec.widened_ops fragments.now ops.now }
{
    Ops {
        get: widened(fragments, &ops.get),
        put_full: widened(fragments, &ops.put_full),
        put_partial: widened(fragments, &ops.put_partial),
        ..*ops
    }
}

// The masters behind the fragmenter.
fn cut_masters(alloc: Global, fragments: &Fragments, masters: &[Master]) -> Result<Masters, Memory>
    requires { arguments.AreFragments fragments.now }
    ensures { IfOk result (λ cut. cut ≡ map (spec.cut_master fragments.now.piece) masters.now) }
{
    let mut cut = Items::new(alloc);
    for master in masters {
        cut.push(Master {
            node: master.node,
            port: master.port,
            ids: master.ids,
            emits: cut_ops(fragments, &master.emits),
        })?;
    }
    Ok(cut)
}

// A slave as it shows before the fragmenter.
fn widened_slave(alloc: Global, fragments: &Fragments, slave: &Slave) -> Result<Slave, Memory>
    requires { arguments.AreFragments fragments.now }
    ensures { IfOk result (λ wide. wide ≡ spec.widened_slave fragments.now slave.now) }
{
    Ok(Slave {
        node: slave.node,
        port: slave.port,
        addresses: slave.addresses.copy(alloc)?,
        supports: widened_ops(fragments, &slave.supports),
    })
}

// The slaves as they show before the fragmenter.
fn widened_slaves(alloc: Global, fragments: &Fragments, slaves: &[Slave]) -> Result<Slaves, Memory>
    requires { arguments.AreFragments fragments.now }
    ensures { IfOk result (λ wide. wide ≡ map (spec.widened_slave fragments.now) slaves.now) }
{
    let mut wide = Items::new(alloc);
    for slave in slaves {
        wide.push(widened_slave(alloc, fragments, slave)?)?;
    }
    Ok(wide)
}

// What goes down behind the fragmenter.
fn cut_port(alloc: Global, fragments: &Fragments, port: &DownPort) -> Result<DownPort, Memory>
    requires { arguments.AreFragments fragments.now }
    ensures { IfOk result (λ cut. cut ≡ spec.cut_port fragments.now.piece port.now) }
{
    let masters = cut_masters(alloc, fragments, port.masters.as_slice())?;
    Ok(DownPort { masters })
}

// What goes up before the fragmenter.
fn widened_port(alloc: Global, fragments: &Fragments, port: &UpPort) -> Result<UpPort, Memory>
    requires { arguments.AreFragments fragments.now }
    ensures { IfOk result (λ wide. wide ≡ spec.widened_port fragments.now port.now) }
{
    let slaves = widened_slaves(alloc, fragments, port.slaves.as_slice())?;
    Ok(UpPort {
        slaves,
        beat: port.beat,
    })
}

/// What a fragmenter shows below: the masters above it, whose gets and puts arrive as pieces. Arguments other
/// than the bytes of a piece and of the largest transfer, powers of two in order and at most 256, are refused
/// with 1, another number of ports than one with 2.
pub fn fragmenter_down(alloc: Global, args: &Args, ins: &[DownPort]) -> Result<DownPort, RuleFault>
    ensures { Answers (spec.fragmenter_down args.now ins.now) result }
{
    let Some(fragments) = fragment_arguments(args) else {
        return Err(RuleFault::Refused(1));
    };
    match only(ins) {
        Some(port) => Ok(cut_port(alloc, &fragments, port)?),
        None => Err(RuleFault::Refused(2)),
    }
}

/// What a fragmenter shows above: the slaves below it, which take gets and puts up to the largest transfer
/// where they take a piece. Arguments other than the bytes of a piece and of the largest transfer, powers of
/// two in order and at most 256, are refused with 1, another number of ports than one with 2.
pub fn fragmenter_up(alloc: Global, args: &Args, outs: &[UpPort]) -> Result<UpPort, RuleFault>
    ensures { Answers (spec.fragmenter_up args.now outs.now) result }
{
    let Some(fragments) = fragment_arguments(args) else {
        return Err(RuleFault::Refused(1));
    };
    match only(outs) {
        Some(port) => Ok(widened_port(alloc, &fragments, port)?),
        None => Err(RuleFault::Refused(2)),
    }
}
