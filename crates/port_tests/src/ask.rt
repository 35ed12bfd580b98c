ghost use Rattle.std.specs.Prelude.{◌≡◌, ◌≤◌, ◌<◌, ◌^◌, true, cond, IsTrue};
ghost use Rattle.tl_edge.specs.Messages.{IsRequest, bytes_of};
ghost use Rattle.sim_ports.specs.Devices as devices;
ghost use Rattle.port_tests.specs.Known as spec;

use sim_ports::Device;
use tl_edge::{Request, ack_of, brings_data, has_data, has_flags, has_param};
use tl_params::Op;

// Whether each of so many addresses from one on is among some.
fn has_all(addresses: &[u64], first: u64, count: u64) -> bool
    requires first { first < 2 ^ 48 }
    requires count { count ≤ 256 }
    ensures { IsTrue result → spec.AllStand addresses.now first count }
{
    for more in 0..count {
        if !addresses.contains(&(first + more)) {
            return false;
        }
    }
    true
}

/// How many items a part of a message of a size has: one for each byte, or none.
pub fn due(has: bool, size: u32) -> usize
    requires { size ≤ 8 }
    ensures { result ≡ cond has (bytes_of size) 0 }
{
    if has { 1 << size } else { 0 }
}

/// Whether a request has the fields and the lengths that it may have.
pub fn is_shaped(request: &Request) -> bool
    ensures { IsTrue result → IsRequest request.now }
{
    if request.size > 8 {
        return false;
    }
    if request.address % (1 << request.size) != 0 {
        return false;
    }
    if request.mask.len() != due(has_flags(request.op), request.size) {
        return false;
    }
    request.payload.len() == due(has_data(request.op), request.size)
}

// Whether a request is within the limits.
fn is_small(request: &Request) -> bool
    ensures { IsTrue result → spec.IsWithinLimits request.now }
{
    if matches!(request.op, Op::Arithmetic | Op::Logical) && request.size > 3 {
        return false;
    }
    if request.address >= 1 << 48 {
        return false;
    }
    if request.source >= 1024 {
        return false;
    }
    has_param(request.op, request.param)
}

/// Whether a request may be asked of a device that has these addresses.
pub fn may_be_asked(addresses: &[u64], request: &Request, room: usize) -> bool
    ensures { IsTrue result → spec.MayBeAskedAt addresses.now request.now room }
{
    if !is_shaped(request) {
        return false;
    }
    if !is_small(request) {
        return false;
    }
    if room != due(brings_data(ack_of(request.op)), request.size) {
        return false;
    }
    has_all(addresses, request.address, 1 << request.size)
}

/// Asks a device that was prepared at some addresses a request that it may be asked; `None` for another.
pub fn ask<D: Device>(
    device: &mut D,
    addresses: &[u64],
    request: &Request,
    payload: &mut [u8],
) -> Option<bool>
    requires prepared { (D.meaning device.old).prepared ≡ true }
    requires just { devices.HasJust addresses.now (D.meaning device.old).held }
    ensures prepared { (D.meaning device.new).prepared ≡ true }
    ensures just { devices.HasJust addresses.now (D.meaning device.new).held }
{
    if !may_be_asked(addresses, request, payload.len()) {
        return None;
    }
    Some(device.answer(request, payload))
}
