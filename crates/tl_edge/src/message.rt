ghost use Rattle.std.specs.Prelude.{◌≡◌};
ghost use Rattle.tl_edge.specs.Messages as spec;

use dip_lists::{Bytes, Items};
use tl_params::{Ack, Op};

/// A flag for each byte of a message.
pub type Flags = Items<bool>;

/// A whole message of channel A.
#[derive(Debug, Drop)]
pub struct Request {
    pub op: Op,
    /// Which arithmetic or logical operation, or which intent; 0 for the others.
    pub param: u32,
    /// The base-2 logarithm of the number of bytes.
    pub size: u32,
    /// The id of the requester.
    pub source: u32,
    /// The address of the first byte, a multiple of the number of bytes.
    pub address: u64,
    /// Which bytes are written: a flag for each where the op is `PutPartial`, and none otherwise.
    pub mask: Flags,
    /// The data: all bytes where the op has data, and none otherwise.
    pub payload: Bytes,
}

/// Requests, in order.
pub type Requests = Items<Request>;

/// A whole message of channel D.
#[derive(Debug, Drop)]
pub struct Response {
    pub op: Ack,
    /// The size of the request.
    pub size: u32,
    /// The id of the requester.
    pub source: u32,
    /// Whether the request wasn't done.
    pub denied: bool,
    /// The data: all bytes where the op is `AckData`, and none otherwise.
    pub payload: Bytes,
}

/// Responses, in order.
pub type Responses = Items<Response>;

/// Whether a request may have this param: 0 to 4 for arithmetic, 0 to 3 for logical operations, 0 and 1 for
/// intents, and 0 for the others.
pub fn has_param(op: Op, param: u32) -> bool
    ensures { result ≡ spec.has_param op param }
{
    match op {
        Op::Arithmetic => param < 5,
        Op::Logical => param < 4,
        Op::Intent => param < 2,
        Op::PutFull | Op::PutPartial | Op::Get => param == 0,
    }
}

/// Whether a request carries data.
pub fn has_data(op: Op) -> bool
    ensures { result ≡ spec.has_data op }
{
    !matches!(op, Op::Get | Op::Intent)
}

/// Whether a request says which of its bytes are written.
pub fn has_flags(op: Op) -> bool
    ensures { result ≡ spec.has_flags op }
{
    matches!(op, Op::PutPartial)
}

/// The op of the response to a request.
pub fn ack_of(op: Op) -> Ack
    ensures { result ≡ spec.ack_of op }
{
    match op {
        Op::PutFull | Op::PutPartial => Ack::Ack,
        Op::Arithmetic | Op::Logical | Op::Get => Ack::AckData,
        Op::Intent => Ack::HintAck,
    }
}

/// Whether a response carries data.
pub fn brings_data(op: Ack) -> bool
    ensures { result ≡ spec.brings_data op }
{
    matches!(op, Ack::AckData)
}
