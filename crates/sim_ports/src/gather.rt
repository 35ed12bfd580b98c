ghost use Rattle.std.specs.Prelude.{◌≡◌, ◌<◌, length, map, IsTrue};
ghost use Rattle.std.specs.List.{range_with_len};
ghost use Rattle.tl_params.specs.Arguments.{is_width};
ghost use Rattle.tl_edge.specs.BeatLaws.{lane_of};
ghost use Rattle.sim_ports.specs.Rooms as spec;

use tl_edge::ABeat;

// The lane of a bus on which the byte of a message at an address with a number stands.
fn lane_at(width: u32, address: u64, number: usize) -> usize
    requires { IsTrue (is_width width) }
    ensures is { result ≡ spec.lane_at width address number }
    ensures below { result < width }
{
    let bus = width as usize;
    (address as usize % bus + number % bus) % bus
}

// The byte on a lane of eight.
fn byte_on(lanes: u64, lane: usize) -> u8
    requires { lane < 8 }
    ensures { result ≡ lane_of 256 lane lanes }
{
    ((lanes >> (8 * lane)) % 256) as u8
}

// The byte of a message with a number, found in its beats; 0 where they are too few.
fn byte_in(width: u32, beats: &[ABeat], number: usize) -> u8
    requires { IsTrue (is_width width) }
    ensures { result ≡ spec.gathered_byte width beats.now number }
{
    let Some(beat) = beats.get(number / width as usize) else {
        return 0;
    };
    let lane = lane_at(width, beat.address, number);
    byte_on(beat.payload, lane)
}

// The flag of a message with a number, found in its beats; not set where they are too few.
fn flag_in(width: u32, beats: &[ABeat], number: usize) -> bool
    requires { IsTrue (is_width width) }
    ensures { result ≡ spec.gathered_flag width beats.now number }
{
    let Some(beat) = beats.get(number / width as usize) else {
        return false;
    };
    let lane = lane_at(width, beat.address, number);
    (beat.mask >> lane) % 2 == 1
}

/// Fills a list with the first bytes of a message, found in its beats on a bus of `width` bytes.
pub(crate) fn gather_bytes(width: u32, beats: &[ABeat], into: &mut [u8])
    requires { IsTrue (is_width width) }
    ensures { into.new ≡ map (spec.gathered_byte width beats.now) (range_with_len 0 (length into.old)) }
{
    for number in 0..into.len() {
        into[number] = byte_in(width, beats, number);
    }
}

/// Fills a list with the first flags of a message, found in its beats on a bus of `width` bytes.
pub(crate) fn gather_flags(width: u32, beats: &[ABeat], into: &mut [bool])
    requires { IsTrue (is_width width) }
    ensures { into.new ≡ map (spec.gathered_flag width beats.now) (range_with_len 0 (length into.old)) }
{
    for number in 0..into.len() {
        into[number] = flag_in(width, beats, number);
    }
}
