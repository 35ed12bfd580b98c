ghost use Rattle.std.specs.Prelude.{◌≡◌, IfOk};
ghost use Rattle.dip_sets.specs.SizeRanges.{size_range};
ghost use Rattle.soc_tests.specs.NarrowPorts as spec;

use dip_lists::{Items, Memory};
use dip_rule::{Rule, RuleFault};
use dip_sets::Sizes;
use std::alloc::Global;
use tl_params::{Args, DownPort, Ops, Slave, Slaves, UpPort, copy_down};

/// Gives on what comes down, and narrows the reads of what comes up to 4 bytes.
#[derive(Drop)]
pub struct Narrow {
    pub alloc: Global,
}

// The same operations with reads of at most 4 bytes.
fn narrow_ops(ops: &Ops, reads: Sizes) -> Ops
    requires { reads ≡ size_range 1 4 }
    ensures { result ≡ spec.narrow_ops ops.now }
{
    Ops {
        get: ops.get.meet(&reads),
        put_full: ops.put_full,
        put_partial: ops.put_partial,
        arithmetic: ops.arithmetic,
        logical: ops.logical,
        intent: ops.intent,
    }
}

// The same slave with reads of at most 4 bytes.
fn narrow_slave(alloc: Global, slave: &Slave, reads: Sizes) -> Result<Slave, Memory>
    requires { reads ≡ size_range 1 4 }
    ensures { IfOk result (λ narrow. narrow ≡ spec.narrow_slave slave.now) }
{
    Ok(Slave {
        node: slave.node,
        port: slave.port,
        addresses: slave.addresses.copy(alloc)?,
        supports: narrow_ops(&slave.supports, reads),
    })
}

// The same slaves with reads of at most 4 bytes.
fn narrow_slaves(alloc: Global, slaves: &[Slave], reads: Sizes) -> Result<Slaves, Memory>
    requires { reads ≡ size_range 1 4 }
    ensures { IfOk result (λ narrow. narrow ≡ spec.narrow_slaves slaves.now) }
{
    let mut narrow = Items::new(alloc);
    for slave in slaves {
        narrow.push(narrow_slave(alloc, slave, reads)?)?;
    }
    Ok(narrow)
}

impl Rule for Narrow {
    ghost says_down = { λ s. spec.first_down };

    ghost says_up = { λ s. spec.narrow_up };

    fn down(&self, _args: &Args, ins: &[DownPort]) -> Result<DownPort, RuleFault> {
        match ins.first() {
            Some(port) => Ok(copy_down(self.alloc, port)?),
            None => Err(RuleFault::Refused(9)),
        }
    }

    fn up(&self, _args: &Args, outs: &[UpPort]) -> Result<UpPort, RuleFault> {
        let Some(reads) = Sizes::new(1, 4) else {
            return Err(RuleFault::Memory);
        };
        match outs.first() {
            Some(port) => Ok(UpPort {
                slaves: narrow_slaves(self.alloc, port.slaves.as_slice(), reads)?,
                beat: port.beat,
            }),
            None => Err(RuleFault::Refused(9)),
        }
    }
}
