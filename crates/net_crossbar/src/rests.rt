ghost use Rattle.std.specs.Prelude.{◌≡◌, ◌<◌, ◌≤◌, ◌^◌, IfOk, IsTrue, length, slice_index_or, if◌then◌else◌};
ghost use Rattle.tl_params.specs.Arguments.{is_width};
ghost use Rattle.net_build.specs.Bits.{wire_values};
ghost use Rattle.net_build.specs.Built.{IsBit, IsWire};
ghost use Rattle.net_build.specs.Columns.{no_wire};
ghost use Rattle.net_build.specs.Registers.{AreWires};
ghost use Rattle.net_build.specs.Values.{Adds, Means, high};
ghost use Rattle.net_queue.specs.Rows.{row_widths};
ghost use Rattle.net_crossbar.specs.Rests.{AreRests, HaveOpcodes, IsRestTable, beats_behind_head, data_behind, request_behind, response_behind};

use crate::channel::Channel;
use dip_lists::{Items, Memory};
use net_build::{Builder, Wire, Wires};
use net_queue::fit_wire;
use net_table::read_entry;
use std::alloc::Global;
use tl_edge::beats;
use tl_params::Op;

// The sizes that a message may have: from 0 to 8.
const SIZES: u32 = 9;

// The bits in which it is told how many beats follow one.
const REST_BITS: u32 = 8;

// How many beats of data follow the first.
fn beats_behind(size: u32, bytes: u32) -> u64
    requires size { size < 9 }
    requires bytes { IsTrue (is_width bytes) }
    ensures value { result ≡ data_behind bytes size }
    ensures small { result < 2 ^ 8 }
{
    u64::from(beats(Op::PutFull, size, bytes) - 1)
}

/// For each size that a message may have a wire that tells how many beats follow the first, on a bus of so
/// many bytes.
#[tactic(auto, using(net_build::proofs::Steps::steps))]
pub fn rest_table(alloc: Global, builder: &mut Builder, bytes: u32) -> Result<Wires, Memory>
    requires { IsTrue (is_width bytes) }
    ensures adds { IfOk result (λ _. Adds builder.old builder.new) }
    ensures table { IfOk result (λ ws. IsRestTable builder.new bytes ws) }
{
    let mut out: Wires = Items::new(alloc);
    for size in 0..SIZES {
        let wire = builder.constant(REST_BITS, beats_behind(size, bytes))?;
        out.push(wire)?;
    }
    Ok(out)
}

// How many beats follow one with data, or without.
#[tactic(auto, using(net_build::proofs::Steps::steps))]
fn rest_of(
    builder: &mut Builder,
    table: &[Wire],
    bytes: u32,
    carries: Wire,
    size: Wire,
) -> Result<Wire, Memory>
    requires table { IsRestTable builder.old bytes table.now }
    requires carries { IsBit builder.old carries }
    requires size { IsWire builder.old size }
    ensures adds { IfOk result (λ _. Adds builder.old builder.new) }
    ensures wire { IfOk result (λ w. IsWire builder.new w × (w.width ≡ 8)) }
    ensures value { IfOk result (λ w. Means builder.new w
        (λ v. if high v carries then data_behind bytes (v size.number) else 0)) }
{
    let index = fit_wire(builder, size, size.width.max(4))?;
    let told = read_entry(builder, table, REST_BITS, index)?;
    let none = builder.constant(REST_BITS, 0)?;
    let wire = builder.mux(carries, told, none)?;
    Ok(wire)
}

// How many beats follow a request with these fields.
#[tactic(auto, using(net_build::proofs::Steps::steps, net_build::proofs::Steps::bit_made))]
fn request_rest(
    builder: &mut Builder,
    table: &[Wire],
    bytes: u32,
    row: &[Wire],
) -> Result<Wire, Memory>
    requires table { IsRestTable builder.old bytes table.now }
    requires long { 3 ≤ length row.now }
    requires wires { AreWires builder.old (row_widths row.now) row.now }
    requires op { 4 < 2 ^ (slice_index_or row.now 0 no_wire).width }
    ensures adds { IfOk result (λ _. Adds builder.old builder.new) }
    ensures wire { IfOk result (λ w. IsWire builder.new w × (w.width ≡ 8)) }
    ensures value { IfOk result (λ w. Means builder.new w
        (λ v. request_behind bytes (wire_values v row.now))) }
{
    let op = row[0];
    let four = builder.constant(op.width, 4)?;
    let carries = builder.less(op, four)?;
    let wire = rest_of(builder, table, bytes, carries, row[2])?;
    Ok(wire)
}

// How many beats follow a response with these fields.
#[tactic(auto, using(net_build::proofs::Steps::steps, net_build::proofs::Steps::bit_made))]
fn response_rest(
    builder: &mut Builder,
    table: &[Wire],
    bytes: u32,
    row: &[Wire],
) -> Result<Wire, Memory>
    requires table { IsRestTable builder.old bytes table.now }
    requires long { 3 ≤ length row.now }
    requires wires { AreWires builder.old (row_widths row.now) row.now }
    requires op { 4 < 2 ^ (slice_index_or row.now 0 no_wire).width }
    ensures adds { IfOk result (λ _. Adds builder.old builder.new) }
    ensures wire { IfOk result (λ w. IsWire builder.new w × (w.width ≡ 8)) }
    ensures value { IfOk result (λ w. Means builder.new w
        (λ v. response_behind bytes (wire_values v row.now))) }
{
    let op = row[0];
    let one = builder.constant(op.width, 1)?;
    let carries = builder.eq(op, one)?;
    let wire = rest_of(builder, table, bytes, carries, row[1])?;
    Ok(wire)
}

// How many beats follow a head of a channel with these fields.
fn rest_on(
    builder: &mut Builder,
    channel: Channel,
    table: &[Wire],
    bytes: u32,
    row: &[Wire],
) -> Result<Wire, Memory>
    requires table { IsRestTable builder.old bytes table.now }
    requires long { 3 ≤ length row.now }
    requires wires { AreWires builder.old (row_widths row.now) row.now }
    requires op { 4 < 2 ^ (slice_index_or row.now 0 no_wire).width }
    ensures adds { IfOk result (λ _. Adds builder.old builder.new) }
    ensures wire { IfOk result (λ w. IsWire builder.new w × (w.width ≡ 8)) }
    ensures value { IfOk result (λ w. Means builder.new w
        (λ v. beats_behind_head channel bytes (wire_values v row.now))) }
{
    match channel {
        Channel::A => request_rest(builder, table, bytes, row),
        Channel::D => response_rest(builder, table, bytes, row),
    }
}

// For each head of a channel a wire that tells how many beats follow it, by the table of their sizes.
fn rests_by(
    alloc: Global,
    builder: &mut Builder,
    channel: Channel,
    table: &[Wire],
    bytes: u32,
    rows: &[Wires],
) -> Result<Wires, Memory>
    requires table { IsRestTable builder.old bytes table.now }
    requires rows { HaveOpcodes builder.old rows.now }
    ensures adds { IfOk result (λ _. Adds builder.old builder.new) }
    ensures rests { IfOk result (λ ws. AreRests builder.new (beats_behind_head channel bytes) rows.now ws) }
{
    let mut out: Wires = Items::new(alloc);
    for place in 0..rows.len() {
        let row = rows[place].as_slice();
        let wire = rest_on(builder, channel, table, bytes, row)?;
        out.push(wire)?;
    }
    Ok(out)
}

/// For each head of a channel a wire that tells how many beats follow it, on a bus of so many bytes.
pub fn build_rests(
    alloc: Global,
    builder: &mut Builder,
    channel: Channel,
    bytes: u32,
    rows: &[Wires],
) -> Result<Wires, Memory>
    requires bytes { IsTrue (is_width bytes) }
    requires rows { HaveOpcodes builder.old rows.now }
    ensures adds { IfOk result (λ _. Adds builder.old builder.new) }
    ensures rests { IfOk result (λ ws. AreRests builder.new (beats_behind_head channel bytes) rows.now ws) }
{
    let table = rest_table(alloc, builder, bytes)?;
    let rests = rests_by(alloc, builder, channel, table.as_slice(), bytes, rows)?;
    Ok(rests)
}
