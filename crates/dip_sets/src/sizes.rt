ghost use Rattle.std.specs.Prelude.{◌≡◌, ◌↔◌, Some, None, if◌then◌else◌, IsTrue, IsSome};
ghost use Rattle.dip_sets.specs.SizeRanges.{size_range, is_size_pair, is_size_range, IsSizePair, HasSize, has_size};
ghost use Rattle.dip_sets.specs.SizeRanges.{IsWithin, is_within, IsMeet, meet, IsCover, cover};

use dip_lists::Same;
use std::marker::Model;

/// The transfer sizes, in bytes, that an operation may have: none, or the powers of two from a least to a
/// greatest one, at most 256.
#[derive(Clone, Copy, Debug, PartialEq, Eq)]
pub struct Sizes {
    min: u32,
    max: u32,
}

impl Model for Sizes {
    ghost use Rattle.std.specs.Prelude.{IsTrue};
    ghost use Rattle.dip_sets.specs.SizeRanges.{SizeRange, is_size_range};

    ghost Value = { SizeRange };

    ghost view = { λ s. record { min = s.min; max = s.max } };

    ghost invariant = { λ s. IsTrue (is_size_range (record { min = s.min; max = s.max })) };

    ghost inverse = { λ s. record { min = s.min; max = s.max } };
}

impl Sizes {
    /// The powers of two from `min` to `max` bytes; `None` exactly unless both are powers of two and
    /// `1 <= min <= max <= 256`.
    pub fn new(min: u32, max: u32) -> Option<Sizes>
        ensures value { result ≡ (if is_size_pair min max then Some (size_range min max) else None) }
        ensures pair { IsSome result ↔ IsSizePair min max }
    {
        if min.is_power_of_two() && max.is_power_of_two() && min <= max && max <= 256 {
            Some(Sizes { min, max })
        } else {
            None
        }
    }

    /// No size.
    pub fn none() -> Sizes
        ensures { result ≡ record { min = 0; max = 0 } }
    {
        Sizes { min: 0, max: 0 }
    }

    /// The least size in bytes, 0 where there is none. Callers learn here what every range keeps.
    pub fn min(&self) -> u32
        ensures value { result ≡ self.now.min }
        ensures range { IsTrue (is_size_range self.now) }
    {
        self.min
    }

    /// The greatest size in bytes, 0 where there is none. Callers learn here what every range keeps.
    pub fn max(&self) -> u32
        ensures value { result ≡ self.now.max }
        ensures range { IsTrue (is_size_range self.now) }
    {
        self.max
    }

    /// Whether so many bytes are one of the sizes.
    pub fn contains(&self, bytes: u32) -> bool
        ensures members { IsTrue result ↔ HasSize self.now bytes }
        ensures test { result ≡ has_size self.now bytes }
    {
        bytes.is_power_of_two() && self.min <= bytes && bytes <= self.max
    }

    /// Whether each of the sizes is one of the other's.
    pub fn within(&self, other: &Sizes) -> bool
        ensures members { IsTrue result ↔ IsWithin self.now other.now }
        ensures test { result ≡ is_within self.now other.now }
    {
        self.max == 0 || (other.min <= self.min && self.max <= other.max)
    }

    /// The sizes that are in both; none where no size is.
    pub fn meet(&self, other: &Sizes) -> Sizes
        ensures members { IsMeet self.now other.now result }
        ensures value { result ≡ meet self.now other.now }
    {
        let min = self.min.max(other.min);
        let max = self.max.min(other.max);
        if min <= max {
            Sizes { min, max }
        } else {
            Sizes::none()
        }
    }

    /// The least range that holds the sizes of both; the other one where one is none.
    pub fn cover(&self, other: &Sizes) -> Sizes
        ensures members { IsCover self.now other.now result }
        ensures value { result ≡ cover self.now other.now }
    {
        if self.max == 0 {
            return *other;
        }
        if other.max == 0 {
            return *self;
        }
        Sizes {
            min: self.min.min(other.min),
            max: self.max.max(other.max),
        }
    }
}

impl Same for Sizes {
    fn same(&self, other: &Sizes) -> bool {
        self.min == other.min && self.max == other.max
    }
}
