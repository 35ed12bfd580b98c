ghost use Rattle.std.specs.Prelude.{ℕ, ◌≡◌, ◌≤◌, IsTrue, IfNone, IfSome, Contains};
ghost use Rattle.std.specs.Option.{option_map};
ghost use Rattle.dip_lists.specs.First.{first_failing, failure_of};
ghost use Rattle.dip_sets.specs.Ids.{HasId};
ghost use Rattle.dip_sets.specs.SizeRanges.{HasSize};
ghost use Rattle.tl_params.specs.Operations.{sizes_of};
ghost use Rattle.tl_edge.specs.Legal.{IsLegal, IsOwned};
ghost use Rattle.tl_edge.specs.Messages as messages;
ghost use Rattle.tl_edge.specs.Messages.{AreBytes};
ghost use Rattle.soc_stimulus.specs.Requests as spec;

use tl_edge::{Request, has_data, has_flags, has_param};
use tl_params::{Master, Slave, owner_among};

// The number of bytes of a size.
fn bytes_of(size: u32) -> u32
    requires { size ≤ 8 }
    ensures { result ≡ messages.bytes_of size }
{
    1 << size
}

// Whether the param is one that the operation has, and there are as many flags and bytes as it needs.
fn has_whole_load(request: &Request) -> bool
    requires { request.now.size ≤ 8 }
    ensures { result ≡ spec.has_whole_load request.now }
{
    let bytes = bytes_of(request.size) as usize;
    let flags = if has_flags(request.op) { bytes } else { 0 };
    let data = if has_data(request.op) { bytes } else { 0 };
    has_param(request.op, request.param)
        && request.mask.len() == flags
        && request.payload.len() == data
}

// Whether the address is a multiple of the number of bytes.
fn is_aligned(request: &Request) -> bool
    requires { request.now.size ≤ 8 }
    ensures { result ≡ spec.is_aligned_request request.now }
{
    request.address % u64::from(bytes_of(request.size)) == 0
}

// The first master in whose range an id is.
fn master_with(masters: &[Master], id: u32) -> Option<Master>
    ensures value { result ≡ spec.master_with masters.now id }
    ensures ids { IfSome result (λ master. HasId master.ids id) }
    ensures listed { IfSome result (Contains masters.now) }
{
    for master in masters {
        if master.ids.contains(id) {
            return Some(*master);
        }
    }
    None
}

// Whether the slave that owns the address is there, and supports the operation at the size.
fn is_supported(slaves: &[Slave], request: &Request) -> bool
    requires { request.now.size ≤ 8 }
    ensures value { result ≡ spec.is_supported slaves.now request.now }
    ensures owned { IsTrue result → IsOwned slaves.now request.now }
{
    let Some(place) = owner_among(slaves, request.address) else {
        return false;
    };
    match slaves.get(place) {
        Some(slave) => slave
            .supports
            .of(request.op)
            .contains(bytes_of(request.size)),
        None => false,
    }
}

// Whether a master emits the operation at the size.
fn emits_request(master: &Master, request: &Request) -> bool
    requires { request.now.size ≤ 8 }
    ensures value { result ≡ spec.emits_request request.now master.now }
    ensures sizes { IsTrue result → HasSize (sizes_of master.now.emits request.now.op)
        (messages.bytes_of request.now.size) }
{
    master.emits.of(request.op).contains(bytes_of(request.size))
}

/// The first of the rules 5 to 9 that a request fails on an edge with these masters and slaves. A request
/// that fails none is legal there.
pub fn failing_rule(masters: &[Master], slaves: &[Slave], request: &Request) -> Option<u16>
    requires size { request.now.size ≤ 8 }
    requires bytes { AreBytes request.now.payload }
    ensures rules { (entry : ℕ) → first_failing (spec.edge_rules masters.now slaves.now entry request.now)
        ≡ option_map (λ rule. failure_of rule entry) result }
    ensures legal { IfNone result (IsLegal masters.now slaves.now request.now) }
{
    if !has_whole_load(request) {
        return Some(5);
    }
    if !is_aligned(request) {
        return Some(6);
    }
    let Some(master) = master_with(masters, request.source) else {
        return Some(7);
    };
    if !is_supported(slaves, request) {
        return Some(8);
    }
    if !emits_request(&master, request) {
        return Some(9);
    }
    None
}
