ghost use Rattle.std.specs.Prelude.{◌≡◌, ◌≤◌, ◌+◌, ◌++◌, length, replicate, take, drop, true, cond, Some};
ghost use Rattle.sim_ports.specs.Layout as spec;
ghost use Rattle.sim_ports.specs.Memories.{bytes_from, after_write};

use crate::runs::{Run, place_in_runs};

// Where some bytes from an address on stand, among those of all runs.
fn start_of(runs: &[Run], end: usize, address: u64, count: usize) -> usize
    requires runs { spec.AreByteRuns runs.now end }
    requires some { 1 ≤ count }
    requires has { spec.HasPlaces runs.now address count }
    ensures place { spec.place_in_runs runs.now address ≡ Some result }
    ensures within { result + count ≤ end }
{
    place_in_runs(runs, address, end).unwrap_or(0)
}

/// Fills a list with the bytes from an address on.
pub(crate) fn read(runs: &[Run], bytes: &[u8], address: u64, into: &mut [u8])
    requires runs { spec.AreByteRuns runs.now (length bytes.now) }
    requires some { 1 ≤ length into.old }
    requires has { spec.HasPlaces runs.now address (length into.old) }
    ensures { into.new ≡ bytes_from (spec.kept runs.now bytes.now) address (length into.old) }
{
    let start = start_of(runs, bytes.len(), address, into.len());
    let end = start + into.len();
    into.copy_from_slice(&bytes[start..end]);
}

// Replaces the bytes from a place on.
fn replace(bytes: &mut [u8], start: usize, others: &[u8])
    requires { start + length others.now ≤ length bytes.old }
    ensures { bytes.new ≡ take start bytes.old ++ others.now ++ drop (start + length others.now) bytes.old }
{
    let end = start + others.len();
    bytes[start..end].copy_from_slice(others);
}

/// Writes bytes from an address on.
pub(crate) fn write(runs: &[Run], bytes: &mut [u8], address: u64, others: &[u8])
    requires runs { spec.AreByteRuns runs.now (length bytes.old) }
    requires some { 1 ≤ length others.now }
    requires has { spec.HasPlaces runs.now address (length others.now) }
    ensures { spec.kept runs.now bytes.new
        ≡ after_write (spec.kept runs.now bytes.old) address (replicate (length others.now) true) others.now }
{
    let start = start_of(runs, bytes.len(), address, others.len());
    replace(bytes, start, others);
}

// The first of two bytes if a flag is set, and else the other one.
fn chosen(flag: bool, byte: u8, other: u8) -> u8
    ensures { result ≡ cond flag byte other }
{
    if flag { byte } else { other }
}

// Replaces the flagged ones of the bytes from a place on.
fn replace_flagged(bytes: &mut [u8], start: usize, flags: &[bool], others: &[u8])
    requires flags { length flags.now ≡ length others.now }
    requires room { start + length others.now ≤ length bytes.old }
    ensures { spec.IsReplaced start (length others.now) flags.now others.now bytes.old bytes.new }
{
    for (place, byte) in others.iter().enumerate() {
        bytes[start + place] = chosen(flags[place], *byte, bytes[start + place]);
    }
}

/// Writes the flagged ones of some bytes from an address on.
pub(crate) fn write_flagged(
    runs: &[Run],
    bytes: &mut [u8],
    address: u64,
    flags: &[bool],
    others: &[u8],
)
    requires runs { spec.AreByteRuns runs.now (length bytes.old) }
    requires some { 1 ≤ length others.now }
    requires flags { length flags.now ≡ length others.now }
    requires has { spec.HasPlaces runs.now address (length others.now) }
    ensures { spec.kept runs.now bytes.new
        ≡ after_write (spec.kept runs.now bytes.old) address flags.now others.now }
{
    let start = start_of(runs, bytes.len(), address, others.len());
    replace_flagged(bytes, start, flags, others);
}
