ghost use Rattle.std.specs.Prelude.{ℕ, ◌≡◌, ◌↔◌, ◌+◌, ◌<◌, ◌^◌, IsTrue};
ghost use Rattle.dip_sets.specs.Ids.{HasId, has_id, OverlapIds, overlap_ids};

use dip_lists::{Items, Same};

/// The ids from a start to before an end; none where the end isn't above the start.
#[derive(Clone, Copy, Debug, PartialEq, Eq)]
pub struct IdRange {
    /// The first id.
    pub start: u32,
    /// The first number after the ids.
    pub end: u32,
}

/// Ranges of ids, in order.
pub type IdRanges = Items<IdRange>;

impl IdRange {
    /// Whether some id is in both ranges.
    pub fn overlaps(&self, other: &IdRange) -> bool
        ensures members { IsTrue result ↔ OverlapIds self.now other.now }
        ensures test { result ≡ overlap_ids self.now other.now }
    {
        self.start.max(other.start) < self.end.min(other.end)
    }

    /// Whether the id is in the range.
    pub fn contains(&self, id: u32) -> bool
        ensures members { IsTrue result ↔ HasId self.now id }
        ensures test { result ≡ has_id self.now id }
    {
        self.start <= id && id < self.end
    }

    /// The range with `by` added to each id.
    pub fn shift(&self, by: u32) -> IdRange
        requires start { self.now.start + by < 2 ^ 32 }
        requires end { self.now.end + by < 2 ^ 32 }
        ensures value { result ≡ record { start = self.now.start + by; end = self.now.end + by } }
        ensures members { (id : ℕ) → HasId result (id + by) ↔ HasId self.now id }
    {
        IdRange {
            start: self.start + by,
            end: self.end + by,
        }
    }
}

impl Same for IdRange {
    fn same(&self, other: &IdRange) -> bool {
        self.start == other.start && self.end == other.end
    }
}
