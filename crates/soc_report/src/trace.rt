ghost use Rattle.std.specs.Prelude.{◌≡◌, ◌≤◌, ◌+◌, ◌++◌, length, take};
ghost use Rattle.soc_report.specs.TraceLines as spec;

use crate::line::{add, add_hexadecimal, add_number, add_short};
use tl_edge::{ABeat, DBeat, Event, What};
use tl_params::{code_of_ack, code_of_op};

/// What a run comes to.
#[derive(Clone, Copy, Debug, PartialEq, Eq)]
pub struct Totals {
    /// How many cycles have run.
    pub cycles: u32,
    /// How many requests have entered their first beat.
    pub begun: u32,
    /// How many requests have given back the last beat of their response.
    pub returned: u32,
    /// The sum of the bytes of the data of all beats of responses that have returned, modulo 2^64.
    pub sum: u64,
    /// The sum of what the registers hold, modulo 2^64.
    pub state: u64,
}

// Puts a space and a number of 32 bits behind what stands in a line, and answers where it ends.
fn add_spaced(into: &mut [u8], at: usize, number: u32) -> usize
    requires { at + 11 ≤ length into.now }
    ensures end { result ≤ at + 11 }
    ensures text { take result into.new ≡ take at into.old ++ spec.spaced number }
    ensures room { length into.new ≡ length into.old }
{
    let end = add(into, at, b" ");
    add_short(into, end, number)
}

// Puts a space and an opcode behind what stands in a line, and answers where it ends.
fn add_opcode(into: &mut [u8], at: usize, opcode: u64) -> usize
    requires { at + 21 ≤ length into.now }
    ensures end { result ≤ at + 21 }
    ensures text { take result into.new ≡ take at into.old ++ spec.spaced opcode }
    ensures room { length into.new ≡ length into.old }
{
    let end = add(into, at, b" ");
    add_number(into, end, opcode)
}

// Puts a space and a number in hexadecimal behind what stands in a line, and answers where it ends.
fn add_spaced_hexadecimal(into: &mut [u8], at: usize, number: u64) -> usize
    requires { at + 17 ≤ length into.now }
    ensures end { result ≤ at + 17 }
    ensures text { take result into.new ≡ take at into.old ++ spec.spaced_hexadecimal number }
    ensures room { length into.new ≡ length into.old }
{
    let end = add(into, at, b" ");
    add_hexadecimal(into, end, number)
}

// Writes what stands first in a line, and answers where it ends.
#[tactic(auto, unfolding(crate::specs::TraceLines::line_head))]
fn write_head(into: &mut [u8], cycle: u32, word: &[u8], port: u32) -> usize
    requires { length word.now + 22 ≤ length into.now }
    ensures end { result ≤ length word.now + 22 }
    ensures text { take result into.new ≡ spec.line_head cycle word.now port }
    ensures room { length into.new ≡ length into.old }
{
    let end = add_short(into, 0, cycle);
    let end = add(into, end, b" ");
    let end = add(into, end, word);
    add_spaced(into, end, port)
}

// Puts the fields of a beat of a request behind what stands in a line, and answers where it ends.
#[tactic(auto, unfolding(crate::specs::TraceLines::request_text))]
fn add_request(into: &mut [u8], at: usize, beat: &ABeat) -> usize
    requires { at + 106 ≤ length into.now }
    ensures end { result ≤ at + 106 }
    ensures text { take result into.new ≡ take at into.old ++ spec.request_text beat.now }
    ensures room { length into.new ≡ length into.old }
{
    let end = add_opcode(into, at, code_of_op(beat.op));
    let end = add_spaced(into, end, beat.param);
    let end = add_spaced(into, end, beat.size);
    let end = add_spaced(into, end, beat.source);
    let end = add_spaced_hexadecimal(into, end, beat.address);
    let end = add_spaced_hexadecimal(into, end, beat.mask);
    let end = add_spaced_hexadecimal(into, end, beat.payload);
    add(into, end, b"\n")
}

// Puts the fields of a beat of a response behind what stands in a line, and answers where it ends.
#[tactic(auto, unfolding(crate::specs::TraceLines::response_text))]
fn add_response(into: &mut [u8], at: usize, beat: &DBeat) -> usize
    requires { at + 72 ≤ length into.now }
    ensures end { result ≤ at + 72 }
    ensures text { take result into.new ≡ take at into.old ++ spec.response_text beat.now }
    ensures room { length into.new ≡ length into.old }
{
    let end = add_opcode(into, at, code_of_ack(beat.op));
    let end = add_spaced(into, end, beat.size);
    let end = add_spaced(into, end, beat.source);
    let end = add_spaced(into, end, u32::from(beat.denied));
    let end = add_spaced_hexadecimal(into, end, beat.payload);
    add(into, end, b"\n")
}

// Writes the line of a beat of a request, and answers where it ends.
fn write_request(into: &mut [u8; 160], event: &Event, word: &[u8], beat: &ABeat) -> usize
    requires { length word.now ≤ 6 }
    ensures within { result ≤ 160 }
    ensures text { take result into.new
        ≡ spec.line_head event.now.cycle word.now event.now.port ++ spec.request_text beat.now }
{
    let end = write_head(into, event.cycle, word, event.port);
    add_request(into, end, beat)
}

// Writes the line of a beat of a response, and answers where it ends.
fn write_response(into: &mut [u8; 160], event: &Event, word: &[u8], beat: &DBeat) -> usize
    requires { length word.now ≤ 6 }
    ensures within { result ≤ 160 }
    ensures text { take result into.new
        ≡ spec.line_head event.now.cycle word.now event.now.port ++ spec.response_text beat.now }
{
    let end = write_head(into, event.cycle, word, event.port);
    add_response(into, end, beat)
}

/// Writes the line of an event to the front of `into`, and answers how many bytes it has: the cycle, what
/// happens, the port, and the fields of the beat; addresses, masks and data in hexadecimal. It takes no
/// memory.
pub fn trace_line(event: &Event, into: &mut [u8; 160]) -> usize
    ensures within { result ≤ 160 }
    ensures text { take result into.new ≡ spec.trace_line event.now }
{
    match &event.what {
        What::Enter(beat) => write_request(into, event, b"enter", beat),
        What::Return(beat) => write_response(into, event, b"return", beat),
        What::Leave(beat) => write_request(into, event, b"leave", beat),
        What::Reply(beat) => write_response(into, event, b"reply", beat),
    }
}

/// Writes the last line of a trace to the front of `into`, and answers how many bytes it has: how many cycles
/// have run, how many requests have begun, and how many have returned. It takes no memory.
#[tactic(auto, unfolding(crate::specs::TraceLines::end_text))]
pub fn end_line(totals: &Totals, into: &mut [u8; 128]) -> usize
    ensures within { result ≤ 128 }
    ensures text { take result into.new ≡ spec.end_line totals.now }
{
    let end = add(into, 0, b"end");
    let end = add_spaced(into, end, totals.cycles);
    let end = add_spaced(into, end, totals.begun);
    let end = add_spaced(into, end, totals.returned);
    add(into, end, b"\n")
}
