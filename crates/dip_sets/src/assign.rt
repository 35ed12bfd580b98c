ghost use Rattle.std.specs.Prelude.{◌≡◌, ◌≤◌, ◌*◌, length, map, IfOk, All, AllPairs};
ghost use Rattle.std.specs.List.{AllZip};
ghost use Rattle.dip_sets.specs.Ids.{DisjointIds};
ghost use Rattle.dip_sets.specs.Assignments.{rounded, goes_first, sum_before, ranges_from, assigned};
ghost use Rattle.dip_sets.specs.Assignments.{BeginsAtMultiple, IsRounded, HasRoom};

use crate::ids::{IdRange, IdRanges};
use dip_lists::{Items, Memory};
use std::alloc::Global;

/// The least power of two that isn't below the count: 1 for 0 and for 1.
pub fn rounded_up(count: u32) -> u32
    requires { count ≤ 1024 }
    ensures value { result ≡ rounded count }
    ensures small { result ≤ 1024 }
{
    count.next_power_of_two()
}

// Each count rounded up.
fn rounded_counts(alloc: Global, counts: &[u32]) -> Result<Items<u32>, Memory>
    requires { All (λ count. count ≤ 1024) counts.now }
    ensures value { IfOk result (λ list. list ≡ map rounded counts.now) }
    ensures small { IfOk result (λ list. All (λ count. count ≤ 1024) list) }
{
    let mut list = Items::new(alloc);
    for count in counts {
        list.push(rounded_up(*count))?;
    }
    Ok(list)
}

/// Whether the range of a rounded count goes before that of another one: it is the larger of the two, or
/// they are equal and it stands earlier. `own` and `place` are of the range that is placed, `other` and `at`
/// of the one that may go before it.
pub fn goes_first(own: u32, place: usize, other: u32, at: usize) -> bool
    ensures { result ≡ goes_first own place other at }
{
    own < other || (own == other && at < place)
}

// The sum of those that go before the one at a place.
fn sum_before(rounded: &[u32], own: u32, place: usize) -> u32
    requires few { length rounded.now ≤ 1024 }
    requires small { All (λ count. count ≤ 1024) rounded.now }
    ensures value { result ≡ sum_before own place 0 rounded.now }
    ensures bound { result ≤ 1024 * 1024 }
{
    let mut total = 0;
    for (at, other) in rounded.iter().enumerate() {
        if goes_first(own, place, *other, at) {
            total += *other;
        }
    }
    total
}

// A range for each rounded count: it begins after all that go before it.
fn ranges_of(alloc: Global, rounded: &[u32]) -> Result<IdRanges, Memory>
    requires few { length rounded.now ≤ 1024 }
    requires small { All (λ count. count ≤ 1024) rounded.now }
    ensures { IfOk result (λ ranges. ranges ≡ ranges_from 0 rounded.now rounded.now) }
{
    let mut ranges = Items::new(alloc);
    for (place, own) in rounded.iter().enumerate() {
        let start = sum_before(rounded, *own, place);
        let end = start + *own;
        ranges.push(IdRange { start, end })?;
    }
    Ok(ranges)
}

/// A range for each count, in the order of the counts. Each count is rounded up to a power of two, and the
/// ranges are placed from 0 upward by decreasing size, the earlier of equal ones first.
pub fn assign_ranges(alloc: Global, counts: &[u32]) -> Result<IdRanges, Memory>
    requires few { length counts.now ≤ 1024 }
    requires small { All (λ count. count ≤ 1024) counts.now }
    ensures ranges { IfOk result (λ ranges. ranges ≡ assigned counts.now) }
    ensures rounded { IfOk result (AllZip IsRounded counts.now) }
    ensures room { IfOk result (AllZip HasRoom counts.now) }
    ensures disjoint { IfOk result (AllPairs DisjointIds) }
    ensures aligned { IfOk result (All BeginsAtMultiple) }
{
    let rounded = rounded_counts(alloc, counts)?;
    ranges_of(alloc, rounded.as_slice())
}
