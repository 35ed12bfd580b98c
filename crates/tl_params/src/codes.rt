ghost use Rattle.std.specs.Prelude.{◌≡◌};
ghost use Rattle.tl_params.specs.Codes as spec;

use crate::{Ack, Op};

/// The code of an operation on channel A.
pub fn code_of_op(op: Op) -> u64
    ensures { result ≡ spec.code_of_op op }
{
    match op {
        Op::PutFull => 0,
        Op::PutPartial => 1,
        Op::Arithmetic => 2,
        Op::Logical => 3,
        Op::Get => 4,
        Op::Intent => 5,
    }
}

/// The operation with a code; `None` exactly where no operation has it.
pub fn op_of_code(code: u64) -> Option<Op>
    ensures { result ≡ spec.op_of_code code }
{
    match code {
        0 => Some(Op::PutFull),
        1 => Some(Op::PutPartial),
        2 => Some(Op::Arithmetic),
        3 => Some(Op::Logical),
        4 => Some(Op::Get),
        5 => Some(Op::Intent),
        _ => None,
    }
}

/// The code of an answer on channel D.
pub fn code_of_ack(ack: Ack) -> u64
    ensures { result ≡ spec.code_of_ack ack }
{
    match ack {
        Ack::Ack => 0,
        Ack::AckData => 1,
        Ack::HintAck => 2,
    }
}

/// The answer with a code; `None` exactly where no answer has it.
pub fn ack_of_code(code: u64) -> Option<Ack>
    ensures { result ≡ spec.ack_of_code code }
{
    match code {
        0 => Some(Ack::Ack),
        1 => Some(Ack::AckData),
        2 => Some(Ack::HintAck),
        _ => None,
    }
}
