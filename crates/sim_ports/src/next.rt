ghost use Rattle.std.specs.Prelude.{◌≡◌, ◌↔◌, ◌≤◌, ◌<◌, ◌+◌, ◌^◌, ◌%◌, IsTrue};
ghost use Rattle.tl_params.specs.Arguments.{is_width};
ghost use Rattle.tl_edge.specs.Beats.{first_lane, lane_count};
ghost use Rattle.tl_edge.specs.Messages.{bytes_of};
ghost use Rattle.sim_ports.specs.Devices.{is_atomic as atomic_is};
ghost use Rattle.sim_ports.specs.Nexts as spec;
ghost use Rattle.sim_ports.specs.Prepared.{AreRising};

use tl_edge::{ABeat, active_lanes, has_data, has_flags, has_param};
use tl_params::Op;

// Whether an operation is atomic.
fn is_atomic(op: Op) -> bool
    ensures { result ≡ atomic_is op }
{
    matches!(op, Op::Arithmetic | Op::Logical)
}

// The lowest lane of a bus on which a message stands.
fn lowest_lane(width: u32, size: u32, address: u64) -> u32
    requires width { IsTrue (is_width width) }
    requires size { size ≤ 8 }
    ensures is { result ≡ first_lane width size address }
    ensures few { result < 8 }
{
    if width <= 1 << size {
        0
    } else {
        (address % u64::from(width)) as u32
    }
}

// On how many lanes of a bus a message stands.
fn count_of_lanes(width: u32, size: u32) -> u32
    requires width { IsTrue (is_width width) }
    requires size { size ≤ 8 }
    ensures is { result ≡ lane_count width size }
    ensures few { result ≤ 8 }
{
    width.min(1 << size)
}

// Whether a number has something on lanes of so many bits from a first one on, so many, and nothing on other
// ones.
fn stands_on(bits: u32, first: u32, count: u32, number: u64) -> bool
    requires bits { bits ≤ 8 }
    requires first { first < 8 }
    requires count { count ≤ 8 }
    ensures { result ≡ spec.stands_on bits first count number }
{
    let below = bits * first;
    number % (1 << below) == 0 && u128::from(number >> below) < 1 << (bits * count)
}

// Whether the mask of a beat is one that a beat of its operation may have.
fn has_mask(width: u32, beat: &ABeat) -> bool
    requires width { IsTrue (is_width width) }
    requires size { beat.now.size ≤ 8 }
    requires aligned { beat.now.address % bytes_of beat.now.size ≡ 0 }
    ensures { result ≡ spec.has_mask width beat.now }
{
    if !has_flags(beat.op) {
        return beat.mask == active_lanes(width, beat.size, beat.address);
    }
    let first = lowest_lane(width, beat.size, beat.address);
    stands_on(1, first, count_of_lanes(width, beat.size), beat.mask)
}

// Whether the data of a beat are some that a beat of its operation may have.
fn has_bytes(width: u32, beat: &ABeat) -> bool
    requires width { IsTrue (is_width width) }
    requires size { beat.now.size ≤ 8 }
    ensures { result ≡ spec.has_bytes width beat.now }
{
    if !has_data(beat.op) {
        return beat.payload == 0;
    }
    let first = lowest_lane(width, beat.size, beat.address);
    stands_on(8, first, count_of_lanes(width, beat.size), beat.payload)
}

// Whether a device may be asked a request with the control fields of a beat, if it has the addresses.
fn has_legal_fields(beat: &ABeat) -> bool
    ensures { result ≡ spec.has_legal_fields beat.now }
{
    beat.size <= 8
        && (!is_atomic(beat.op) || beat.size <= 3)
        && has_param(beat.op, beat.param)
        && beat.source < 1024
        && beat.address < 1 << 48
        && beat.address % (1 << beat.size) == 0
}

// Whether a beat has the control fields of another one.
fn has_fields_of(head: &ABeat, beat: &ABeat) -> bool
    ensures { IsTrue result ↔ spec.HasFieldsOf head.now beat.now }
{
    beat.op == head.op
        && beat.param == head.param
        && beat.size == head.size
        && beat.source == head.source
        && beat.address == head.address
}

// Whether among addresses that rise are so many in a row: where the first one of them stands, the last one
// has to stand as many places behind it.
fn has_row(addresses: &[u64], address: u64, count: u32) -> bool
    requires rising { AreRising addresses.now }
    requires low { address < 2 ^ 48 }
    requires some { 1 ≤ count }
    ensures { IsTrue result ↔ spec.HasRow addresses.now address count }
{
    let Ok(place) = addresses.binary_search(&address) else {
        return false;
    };
    let behind = count - 1;
    match addresses.get(place + behind as usize) {
        Some(last) => *last == address + u64::from(behind),
        None => false,
    }
}

/// Whether a beat follows those that have left of a request: it has their control fields; or there are none,
/// and all bytes of its own request are among the addresses of the device.
pub(crate) fn follows(addresses: &[u64], taken: &[ABeat], beat: &ABeat) -> bool
    requires rising { AreRising addresses.now }
    requires legal { IsTrue (spec.has_legal_fields beat.now) }
    ensures { IsTrue result ↔ spec.CarriesOn addresses.now taken.now beat.now }
{
    match taken.first() {
        Some(head) => has_fields_of(head, beat),
        None => has_row(addresses, beat.address, 1 << beat.size),
    }
}

/// Whether the fields, the mask and the data of a beat are some that the next one of a request may have which
/// a device with these addresses may be asked, when some beats of it have left.
pub(crate) fn passes_test(addresses: &[u64], width: u32, taken: &[ABeat], beat: &ABeat) -> bool
    requires rising { AreRising addresses.now }
    requires width { IsTrue (is_width width) }
    ensures { IsTrue result ↔ spec.PassesTest addresses.now width taken.now beat.now }
{
    has_legal_fields(beat)
        && follows(addresses, taken, beat)
        && has_mask(width, beat)
        && has_bytes(width, beat)
}
