ghost use Rattle.std.specs.Prelude.{◌≡◌, ◌+◌, ◌^◌, ◌%◌, ◌≤◌, ◌<◌, length, replicate, IsTrue};
ghost use Rattle.tl_params.specs.Arguments.{is_width};
ghost use Rattle.tl_edge.specs.Beats as spec;
ghost use Rattle.tl_edge.specs.Messages.{bytes_of};

/// The lanes of the bus on which a message stands.
#[derive(Clone, Copy)]
pub(crate) struct Lanes {
    /// The lowest of them.
    pub first: u32,
    /// How many there are.
    pub count: u32,
}

impl Lanes {
    /// The active lanes of a message of a size at an address.
    pub fn of(width: u32, size: u32, address: u64) -> Lanes
        requires width { IsTrue (is_width width) }
        requires size { size ≤ 8 }
        ensures first { result.first ≡ spec.first_lane width size address }
        ensures count { result.count ≡ spec.lane_count width size }
    {
        let bytes = 1 << size;
        let first = if width <= bytes {
            0
        } else {
            (address % u64::from(width)) as u32
        };
        let count = width.min(bytes);
        Lanes { first, count }
    }

    /// A bit for each of the lanes.
    pub fn mask(&self) -> u64
        requires { self.now.first + self.now.count ≤ spec.most_lanes }
        ensures { result ≡ spec.on_lanes 2 self.now.first (replicate self.now.count 1) }
    {
        ((1 << self.count) - 1) << self.first
    }
}

/// The mask of the lanes of a bus of `width` bytes on which a message of `2^size` bytes at an address stands:
/// a bit for each lane, the lowest for lane 0.
pub fn active_lanes(width: u32, size: u32, address: u64) -> u64
    requires width { IsTrue (is_width width) }
    requires size { size ≤ 8 }
    requires aligned { address % bytes_of size ≡ 0 }
    ensures { result ≡ spec.active_mask width size address }
{
    Lanes::of(width, size, address).mask()
}

/// How many beats data of a size takes.
pub(crate) fn data_beats(size: u32, width: u32) -> u32
    requires size { size ≤ 8 }
    requires width { IsTrue (is_width width) }
    ensures { result ≡ spec.data_beats size width }
{
    ((1 << size) / width).max(1)
}

/// The part of a list with a number, from 0, of `width` items: what the beat with that number carries, or
/// what the piece with it has.
pub fn part<T>(items: &[T], width: u32, number: u32) -> &[T]
    requires width { width ≤ 256 }
    requires number { number ≤ 256 }
    requires few { length items.now ≤ 256 }
    ensures { result.now ≡ spec.part width number items.now }
{
    let start = ((number * width) as usize).min(items.len());
    let end = (start + width as usize).min(items.len());
    &items[start..end]
}

/// The number with these bytes on the lanes from a first one on.
pub(crate) fn on_bytes(first: u32, bytes: &[u8]) -> u64
    requires { first + length bytes.now ≤ spec.most_lanes }
    ensures { result ≡ spec.on_bytes first bytes.now }
{
    let mut lanes = 0;
    for (place, byte) in bytes.iter().enumerate() {
        lanes += u64::from(*byte) << (8 * (first as usize + place));
    }
    lanes
}

/// The number with these flags on the lanes from a first one on.
pub(crate) fn on_bits(first: u32, flags: &[bool]) -> u64
    requires { first + length flags.now ≤ spec.most_lanes }
    ensures { result ≡ spec.on_bits first flags.now }
{
    let mut lanes = 0;
    for (place, flag) in flags.iter().enumerate() {
        lanes += u64::from(*flag) << (first as usize + place);
    }
    lanes
}
