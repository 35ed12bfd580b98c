ghost use Rattle.std.specs.Prelude.{◌≡◌, ◌^◌, nat_lt};
ghost use Rattle.tl_edge.specs.Plans.{edge_at};
ghost use Rattle.flow_core.specs.Carried as spec;

use tl_edge::{ABeat, DBeat, Plan, PlanEdge};

// Whether a number has at most so many bits.
#[tactic(auto, using(crate::proofs::Limits::has_many_bits, crate::proofs::Limits::has_few_bits))]
fn has_bits(value: u64, bits: u64) -> bool
    ensures { result ≡ nat_lt value (2 ^ bits) }
{
    if bits >= 64 {
        return true;
    }
    value < 1 << bits
}

// Whether an edge carries a beat of a request.
#[tactic(auto, unfolding(crate::specs::Carried::carries_a))]
fn edge_carries_a(edge: &PlanEdge, beat: &ABeat) -> bool
    ensures { result ≡ spec.carries_a edge.now beat.now }
{
    let width = u64::from(edge.bundle.data_bytes);
    beat.size <= 8
        && beat.source < edge.ids
        && beat.address < 1 << 48
        && beat.address % (1 << beat.size) == 0
        && has_bits(beat.mask, width)
        && has_bits(beat.payload, 8 * width)
}

// Whether an edge carries a beat of a response.
#[tactic(auto, unfolding(crate::specs::Carried::carries_d))]
fn edge_carries_d(edge: &PlanEdge, beat: &DBeat) -> bool
    ensures { result ≡ spec.carries_d edge.now beat.now }
{
    let width = u64::from(edge.bundle.data_bytes);
    beat.size <= 8 && beat.source < edge.ids && has_bits(beat.payload, 8 * width)
}

/// Whether the edge with a number carries a beat of a request.
#[tactic(auto, using(crate::proofs::Limits::none_carries_a, crate::proofs::Limits::some_carries_a))]
pub(crate) fn carries_a(plan: &Plan, edge: u32, beat: &ABeat) -> bool
    ensures { result ≡ spec.carries_a (edge_at plan.now edge) beat.now }
{
    match plan.edges.get(edge as usize) {
        None => false,
        Some(on) => edge_carries_a(on, beat),
    }
}

/// Whether the edge with a number carries a beat of a response.
#[tactic(auto, using(crate::proofs::Limits::none_carries_d, crate::proofs::Limits::some_carries_d))]
pub(crate) fn carries_d(plan: &Plan, edge: u32, beat: &DBeat) -> bool
    ensures { result ≡ spec.carries_d (edge_at plan.now edge) beat.now }
{
    match plan.edges.get(edge as usize) {
        None => false,
        Some(on) => edge_carries_d(on, beat),
    }
}
