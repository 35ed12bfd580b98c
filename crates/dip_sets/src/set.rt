ghost use Rattle.std.specs.Prelude.{ℕ, ◌≡◌, ◌≢◌, ◌+◌, ◌%◌, ◌<◌, ◌≤◌, ◌^◌, ◌⊎◌, ◌↔◌, bit_and};
ghost use Rattle.std.specs.Prelude.{IsTrue, IfOk, OnErr, IsNone, IfSome, AllPairs};
ghost use Rattle.std.specs.Int.{IsPowerOfTwo};
ghost use Rattle.dip_sets.specs.Regions.{block_set};
ghost use Rattle.dip_sets.specs.Differences.{cut_bits, piece, pieces, ArePieces, difference, InDifference};
ghost use Rattle.dip_sets.specs.Sets.{In, InSome, Overlap, Disjoint, Covers, IsCommon, IsLowestClear, IsSet};
ghost use Rattle.dip_sets.specs.Sets.{is_in, overlap, common, alignment};

use dip_lists::{Items, Memory, Same};
use std::alloc::Global;
use std::marker::Model;
use thiserror::Error;

/// A base and a mask share a bit, or one of them is 2^48 or more.
#[derive(Clone, Copy, Debug, PartialEq, Eq, Error)]
#[error("a base and a mask share a bit or exceed 48 bits")]
pub struct BadSet;

/// Address sets, in order.
pub type AddressSets = Items<AddressSet>;

/// The addresses below 2^48 whose bits outside the mask are those of the base.
#[derive(Clone, Copy, Debug, PartialEq, Eq)]
pub struct AddressSet {
    base: u64,
    mask: u64,
}

impl Model for AddressSet {
    ghost use Rattle.std.specs.Prelude.{◌≡◌, ◌<◌, ◌^◌, bit_and};
    ghost use Rattle.dip_sets.specs.Sets.{Pattern};

    ghost Value = { Pattern };

    ghost view = { λ s. record { base = s.base; mask = s.mask } };

    ghost invariant = { λ s. (bit_and s.base s.mask ≡ 0) × (s.base < 2 ^ 48) × (s.mask < 2 ^ 48) };

    ghost inverse = { λ p. record { base = p.base; mask = p.mask } };
}

impl AddressSet {
    /// The set with this base and mask; `BadSet` exactly where they share a bit or either is 2^48 or more.
    pub fn new(base: u64, mask: u64) -> Result<AddressSet, BadSet>
        ensures ok { IfOk result (λ s. (s.base ≡ base) × (s.mask ≡ mask)) }
        ensures set { IfOk result (λ s. IsSet s) }
        ensures err { OnErr result ((bit_and base mask ≢ 0) ⊎ (2 ^ 48 ≤ base) ⊎ (2 ^ 48 ≤ mask)) }
    {
        if base >= 1 << 48 || mask >= 1 << 48 || base & mask != 0 {
            return Err(BadSet);
        }
        Ok(AddressSet { base, mask })
    }

    /// The bits that each address of the set has outside the mask. Callers learn here what every set keeps.
    pub fn base(&self) -> u64
        ensures value { result ≡ self.now.base }
        ensures set { IsSet self.now }
    {
        self.base
    }

    /// The bits in which the addresses of the set differ. Callers learn here what every set keeps.
    pub fn mask(&self) -> u64
        ensures value { result ≡ self.now.mask }
        ensures set { IsSet self.now }
    {
        self.mask
    }

    /// Whether the address is in the set.
    pub fn contains(&self, x: u64) -> bool
        ensures members { IsTrue result ↔ In self.now x }
        ensures test { result ≡ is_in self.now x }
    {
        (x & self.mask) | self.base == x
    }

    /// Whether some address is in both sets.
    pub fn overlaps(&self, other: &AddressSet) -> bool
        ensures members { IsTrue result ↔ Overlap self.now other.now }
        ensures test { result ≡ overlap self.now other.now }
    {
        let differing = self.base ^ other.base;
        differing & (self.mask | other.mask) == differing
    }

    /// Whether each address of the other set is in this one.
    pub fn covers(&self, other: &AddressSet) -> bool
        ensures { IsTrue result ↔ Covers self.now other.now }
    {
        let differing = self.base ^ other.base;
        (differing | other.mask) & !self.mask == 0
    }

    /// The set of the addresses that are in both sets; `None` exactly where none is.
    pub fn intersect(&self, other: &AddressSet) -> Option<AddressSet>
        ensures none { IsNone result ↔ Disjoint self.now other.now }
        ensures some { IfSome result (λ both. IsCommon self.now other.now both) }
        ensures value { IfSome result (λ both. both ≡ common self.now other.now) }
    {
        if !self.overlaps(other) {
            return None;
        }
        Some(AddressSet {
            base: self.base | other.base,
            mask: self.mask & other.mask,
        })
    }

    /// Disjoint sets that together hold the addresses of this set that aren't in the other one: this set
    /// itself where the two don't overlap, and else a set for each bit that is in this mask alone, the
    /// highest first.
    pub fn subtract(&self, alloc: Global, other: &AddressSet) -> Result<AddressSets, Memory>
        ensures list { IfOk result (λ sets. sets ≡ difference self.now other.now) }
        ensures pieces { Overlap self.now other.now → IfOk result (ArePieces self.now other.now) }
        ensures members { IfOk result (λ sets. (x : ℕ) → InSome sets x ↔ InDifference self.now other.now x) }
        ensures disjoint { IfOk result (AllPairs Disjoint) }
    {
        if self.overlaps(other) {
            return self.pieces(alloc, other);
        }
        let mut sets = Items::new(alloc);
        sets.push(*self)?;
        Ok(sets)
    }

    /// The lowest power of two that isn't a bit of the mask: blocks of so many bytes lie whole in the set or
    /// whole outside it.
    pub fn alignment(&self) -> u64
        ensures lowest { IsLowestClear self.now.mask result }
        ensures value { result ≡ alignment self.now }
    {
        1 << self.mask.trailing_ones()
    }
}

impl AddressSet {
    // The addresses of a block that begins at a multiple of its size.
    pub(crate) fn block(start: u64, block: u64) -> AddressSet
        requires power { IsPowerOfTwo block }
        requires divides { start % block ≡ 0 }
        requires fits { start + block ≤ 2 ^ 48 }
        ensures { result ≡ block_set start block }
    {
        AddressSet {
            base: start,
            mask: block - 1,
        }
    }

    // The bits that are in this mask alone. Callers learn here what both sets keep.
    fn cut_bits(&self, other: &AddressSet) -> u64
        ensures bits { result ≡ cut_bits self.now other.now }
        ensures this { IsSet self.now }
        ensures that { IsSet other.now }
    {
        self.mask & !other.mask
    }

    // The addresses whose bit at this place differs from the other set's, and whose higher cut bits agree.
    fn piece(&self, other: &AddressSet, place: u32) -> AddressSet
        requires { place < 48 }
        ensures { result ≡ piece self.now other.now place }
    {
        let fixed = self.cut_bits(other) >> place << place;
        AddressSet {
            base: self.base | ((other.base ^ (1 << place)) & fixed),
            mask: self.mask & !fixed,
        }
    }

    // The pieces of this set, for each bit that is in this mask alone.
    fn pieces(&self, alloc: Global, other: &AddressSet) -> Result<AddressSets, Memory>
        requires { Overlap self.now other.now }
        ensures list { IfOk result (λ sets. sets ≡ pieces self.now other.now) }
        ensures pieces { IfOk result (ArePieces self.now other.now) }
        ensures members { IfOk result (λ sets. (x : ℕ) → InSome sets x ↔ InDifference self.now other.now x) }
        ensures disjoint { IfOk result (AllPairs Disjoint) }
    {
        let cut = self.cut_bits(other);
        let mut sets = Items::new(alloc);
        let mut place = 48;
        while place > 0 {
            place -= 1;
            if cut >> place & 1 == 1 {
                sets.push(self.piece(other, place))?;
            }
        }
        Ok(sets)
    }
}

impl Default for AddressSet {
    ghost is_default = { λ s. s ≡ record { base = 0; mask = 0 } };

    /// The set of address 0 alone.
    fn default() -> AddressSet {
        AddressSet { base: 0, mask: 0 }
    }
}

impl Same for AddressSet {
    fn same(&self, other: &AddressSet) -> bool {
        self.base == other.base && self.mask == other.mask
    }
}
