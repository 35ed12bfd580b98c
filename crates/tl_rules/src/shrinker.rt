ghost use Rattle.std.specs.Prelude.{◌≡◌};
ghost use Rattle.dip_rule.specs.Stated.{Answers};
ghost use Rattle.tl_rules.specs.Shrinks as spec;

use crate::ports::only;
use dip_lists::Items;
use dip_rule::RuleFault;
use dip_sets::IdRange;
use std::alloc::Global;
use tl_params::{Args, DownPort, Master, Ops, UpPort, copy_up, shrink_argument};

// Of each operation the least range that has the sizes of both.
fn cover_ops(a: &Ops, b: &Ops) -> Ops
    ensures { result ≡ spec.cover_ops a.now b.now }
{
    Ops {
        get: a.get.cover(&b.get),
        put_full: a.put_full.cover(&b.put_full),
        put_partial: a.put_partial.cover(&b.put_partial),
        arithmetic: a.arithmetic.cover(&b.arithmetic),
        logical: a.logical.cover(&b.logical),
        intent: a.intent.cover(&b.intent),
    }
}

// The cover of some operations and of what further masters emit.
fn cover_emits(ops: &Ops, masters: &[Master]) -> Ops
    ensures { result ≡ spec.cover_emits ops.now masters.now }
{
    let mut cover = *ops;
    for master in masters {
        cover = cover_ops(&cover, &master.emits);
    }
    cover
}

// One master in place of all: the first one's node and port, so many ids from 0 on, the cover of what all
// emit.
fn shrunk_port(alloc: Global, ids: u32, masters: &[Master]) -> Result<DownPort, RuleFault>
    ensures { Answers (spec.shrunk_port ids masters.now) result }
{
    match masters {
        [] => Err(RuleFault::Refused(2)),
        [first, others @ ..] => {
            let mut masters = Items::new(alloc);
            masters.push(Master {
                node: first.node,
                port: first.port,
                ids: IdRange { start: 0, end: ids },
                emits: cover_emits(&first.emits, others),
            })?;
            Ok(DownPort { masters })
        }
    }
}

/// What a shrinker shows below: one master with so many ids as the argument says, which emits what the
/// masters above it do. Arguments other than one from 1 to 64 are refused with 1, and with 2 another
/// number of ports than one and a port without masters.
pub fn shrinker_down(alloc: Global, args: &Args, ins: &[DownPort]) -> Result<DownPort, RuleFault>
    ensures { Answers (spec.shrinker_down args.now ins.now) result }
{
    let Some(ids) = shrink_argument(args) else {
        return Err(RuleFault::Refused(1));
    };
    match only(ins) {
        Some(port) => shrunk_port(alloc, ids, port.masters.as_slice()),
        None => Err(RuleFault::Refused(2)),
    }
}

/// What a shrinker shows above: the port below it. Arguments other than one from 1 to 64 are refused with 1,
/// another number of ports than one with 2.
pub fn shrinker_up(alloc: Global, args: &Args, outs: &[UpPort]) -> Result<UpPort, RuleFault>
    ensures { Answers (spec.shrinker_up args.now outs.now) result }
{
    let Some(_) = shrink_argument(args) else {
        return Err(RuleFault::Refused(1));
    };
    match only(outs) {
        Some(port) => Ok(copy_up(alloc, port)?),
        None => Err(RuleFault::Refused(2)),
    }
}
