ghost use Rattle.net_build.specs.Built.{IsBit};
ghost use Rattle.net_build.specs.Values.{Adds};
ghost use Rattle.std.specs.Prelude.{true, false, IfOk};
ghost use Rattle.net_turns.specs.Turns.{IsFlow};

use crate::types::Flow;
use dip_lists::Memory;
use net_build::{Builder, Wire};
use net_widget::{pass_narrowing, pass_widening};

// To a narrower bus.
fn narrow(builder: &mut Builder, valid: Wire, room: Wire, last: Wire) -> Result<Flow, Memory>
    requires bits { IsBit builder.old valid × IsBit builder.old room × IsBit builder.old last }
    ensures adds { IfOk result (λ _. Adds builder.old builder.new) }
    ensures bits { IfOk result
        (λ f. IsBit builder.new f.made × IsBit builder.new f.take × IsBit builder.new f.put) }
    ensures flow { IfOk result (λ f. IsFlow builder.new false valid room last f) }
{
    let passing = pass_narrowing(builder, valid, room, last)?;
    Ok(Flow {
        made: passing.put,
        take: passing.take,
        put: passing.put,
    })
}

// To a wider bus.
fn widen(builder: &mut Builder, valid: Wire, room: Wire, last: Wire) -> Result<Flow, Memory>
    requires bits { IsBit builder.old valid × IsBit builder.old room × IsBit builder.old last }
    ensures adds { IfOk result (λ _. Adds builder.old builder.new) }
    ensures bits { IfOk result
        (λ f. IsBit builder.new f.made × IsBit builder.new f.take × IsBit builder.new f.put) }
    ensures flow { IfOk result (λ f. IsFlow builder.new true valid room last f) }
{
    let passing = pass_widening(builder, valid, room, last)?;
    Ok(Flow {
        made: passing.take,
        take: passing.take,
        put: passing.put,
    })
}

/// What is done with a head, by whether there is one and room, and whether it is used up.
pub fn pass(
    builder: &mut Builder,
    widens: bool,
    valid: Wire,
    room: Wire,
    last: Wire,
) -> Result<Flow, Memory>
    requires bits { IsBit builder.old valid × IsBit builder.old room × IsBit builder.old last }
    ensures adds { IfOk result (λ _. Adds builder.old builder.new) }
    ensures bits { IfOk result
        (λ f. IsBit builder.new f.made × IsBit builder.new f.take × IsBit builder.new f.put) }
    ensures flow { IfOk result (λ f. IsFlow builder.new widens valid room last f) }
{
    if widens {
        widen(builder, valid, room, last)
    } else {
        narrow(builder, valid, room, last)
    }
}
