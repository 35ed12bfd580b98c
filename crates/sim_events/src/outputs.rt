ghost use Rattle.std.specs.Prelude.{◌≡◌, ◌≤◌, length};
ghost use Rattle.sim_events.specs.Reading as spec;

use crate::types::{SinkView, SourceView};
use tl_edge::{ABeat, DBeat};
use tl_params::{Ack, Op, ack_of_code, op_of_code};

// A number that has at most 32 bits.
fn short_number(value: u64) -> Option<u32>
    ensures { result ≡ spec.short_number value }
{
    u32::try_from(value).ok()
}

// The beat of a request with an operation, by its other fields.
fn request_with(fields: &[u64], op: Op) -> Option<ABeat>
    requires { 7 ≤ length fields.now }
    ensures { result ≡ spec.request_with fields.now op }
{
    let param = short_number(fields[1])?;
    let size = short_number(fields[2])?;
    let source = short_number(fields[3])?;
    Some(ABeat {
        op,
        param,
        size,
        source,
        address: fields[4],
        mask: fields[5],
        payload: fields[6],
    })
}

// The beat of a request with these fields, if its operation has a code and its numbers are numbers of a beat.
fn request_of_fields(fields: &[u64]) -> Option<ABeat>
    requires { 7 ≤ length fields.now }
    ensures { result ≡ spec.request_of_fields fields.now }
{
    let op = op_of_code(fields[0])?;
    request_with(fields, op)
}

// The beat of a response with an operation, by its other fields.
fn response_with(fields: &[u64], op: Ack) -> Option<DBeat>
    requires { 5 ≤ length fields.now }
    ensures { result ≡ spec.response_with fields.now op }
{
    let size = short_number(fields[1])?;
    let source = short_number(fields[2])?;
    Some(DBeat {
        op,
        size,
        source,
        denied: fields[3] == 1,
        payload: fields[4],
    })
}

// The beat of a response with these fields.
fn response_of_fields(fields: &[u64]) -> Option<DBeat>
    requires { 5 ≤ length fields.now }
    ensures { result ≡ spec.response_of_fields fields.now }
{
    let op = ack_of_code(fields[0])?;
    response_with(fields, op)
}

// The beat of a request that waits, by whether one does and its fields.
fn waiting_request(outputs: &[u64]) -> Option<ABeat>
    requires { 8 ≤ length outputs.now }
    ensures { result ≡ spec.waiting_request outputs.now }
{
    if outputs[0] == 1 {
        request_of_fields(&outputs[1..])
    } else {
        None
    }
}

// The beat of a response that waits.
fn waiting_response(outputs: &[u64]) -> Option<DBeat>
    requires { 6 ≤ length outputs.now }
    ensures { result ≡ spec.waiting_response outputs.now }
{
    if outputs[0] == 1 {
        response_of_fields(&outputs[1..])
    } else {
        None
    }
}

/// What a source port sees, whose outputs stand first. A beat is none where its operation has no code, or
/// where its size or id has more than 32 bits.
pub fn source_view(outputs: &[u64]) -> SourceView
    requires { spec.source_outputs_count ≤ length outputs.now }
    ensures { result ≡ spec.source_view outputs.now }
{
    SourceView {
        room: outputs[0] == 1,
        head: waiting_response(&outputs[1..]),
    }
}

/// What a sink port sees, whose outputs stand first.
pub fn sink_view(outputs: &[u64]) -> SinkView
    requires { spec.sink_outputs_count ≤ length outputs.now }
    ensures { result ≡ spec.sink_view outputs.now }
{
    SinkView {
        head: waiting_request(outputs),
        room: outputs[8] == 1,
    }
}
