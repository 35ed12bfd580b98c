ghost use Rattle.std.specs.Prelude.{◌≡◌, ◌≤◌};
ghost use Rattle.tl_edge.specs.Beats.{most_lanes};
ghost use Rattle.tl_edge.specs.Wires as spec;

use crate::{ABeat, Bundle, DBeat};
use tl_params::{code_of_ack, code_of_op};

/// What a beat of channel A puts on its wires, in the order of the ports: opcode, param, size, source,
/// address, mask and data.
pub fn a_fields(beat: ABeat) -> [u64; 7]
    ensures { result ≡ spec.a_fields beat }
{
    [
        code_of_op(beat.op),
        u64::from(beat.param),
        u64::from(beat.size),
        u64::from(beat.source),
        beat.address,
        beat.mask,
        beat.payload,
    ]
}

/// How many bits these fields have on the wires of a bundle.
pub fn a_widths(bundle: Bundle) -> [u32; 7]
    requires { bundle.data_bytes ≤ most_lanes }
    ensures { result ≡ spec.a_widths bundle }
{
    [
        3,
        3,
        bundle.size_bits,
        bundle.source_bits,
        bundle.address_bits,
        bundle.data_bytes,
        8 * bundle.data_bytes,
    ]
}

/// What a beat of channel D puts on its wires, in the order of the ports: opcode, size, source, denied
/// and data.
pub fn d_fields(beat: DBeat) -> [u64; 5]
    ensures { result ≡ spec.d_fields beat }
{
    [
        code_of_ack(beat.op),
        u64::from(beat.size),
        u64::from(beat.source),
        u64::from(beat.denied),
        beat.payload,
    ]
}

/// How many bits these fields have on the wires of a bundle.
pub fn d_widths(bundle: Bundle) -> [u32; 5]
    requires { bundle.data_bytes ≤ most_lanes }
    ensures { result ≡ spec.d_widths bundle }
{
    [
        3,
        bundle.size_bits,
        bundle.source_bits,
        1,
        8 * bundle.data_bytes,
    ]
}
