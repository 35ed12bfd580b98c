ghost use Rattle.std.specs.Prelude.{◌≤◌, IfOk, All};

use crate::words::{say, say_number, say_whether};
use dip_lists::{Items, Memory};
use dip_sets::{IdRange, assign_ranges, goes_first, rounded_up};
use std::alloc::Global;
use std::fmt::Write;

// A count, at most 1,024.
fn count_of(number: u64) -> u32
    ensures { result ≤ 1024 }
{
    number.min(1024) as u32
}

// The counts that numbers are.
fn counts_of(alloc: Global, numbers: &[u64]) -> Result<Items<u32>, Memory>
    ensures { IfOk result (λ counts. All (λ count. count ≤ 1024) counts) }
{
    let mut counts = Items::new(alloc);
    for number in numbers {
        counts.push(count_of(*number))?;
    }
    Ok(counts)
}

// Adds a range to an answer.
fn add_range(text: &mut String, range: &IdRange) -> Result<(), Memory> {
    Ok(write!(text, " {}-{}", range.start, range.end)?)
}

// Adds up to eight ranges to an answer, or where there are more how many there are and the last one.
fn add_ranges(text: &mut String, ranges: &[IdRange]) -> Result<(), Memory> {
    if ranges.len() > 8 {
        say_number(text, ranges.len() as u64)?;
        if let Some(range) = ranges.last() {
            add_range(text, range)?;
        }
        return Ok(());
    }
    for range in ranges {
        add_range(text, range)?;
    }
    Ok(())
}

/// The ranges of counts.
pub fn ranges(alloc: Global, numbers: &[u64], text: &mut String) -> Result<(), Memory> {
    let counts = counts_of(alloc, numbers)?;
    if counts.len() > 1024 {
        return say(text, "too many");
    }
    let ranges = assign_ranges(alloc, counts.as_slice())?;
    add_ranges(text, ranges.as_slice())
}

// An id of 31 bits.
fn id_of(number: u64) -> u32
    ensures { result ≤ 2147483647 }
{
    number.min(2_147_483_647) as u32
}

/// A range and an id: whether it is in it, whether the range from the id to 100 overlaps it, the range
/// moved up by the id, the id rounded up, and whether a count of it at place 1 goes before the start at
/// place 0.
pub fn ids(numbers: &[u64], text: &mut String) -> Result<(), Memory> {
    let [start, end, id] = numbers else {
        return say(text, "not three numbers");
    };
    let id = id_of(*id);
    let range = IdRange {
        start: id_of(*start),
        end: id_of(*end),
    };
    say_whether(text, range.contains(id))?;
    say_whether(
        text,
        range.overlaps(&IdRange {
            start: id,
            end: 100,
        }),
    )?;
    add_range(text, &range.shift(id))?;
    say_number(text, u64::from(rounded_up(count_of(u64::from(id)))))?;
    say_whether(text, goes_first(range.start, 0, id, 1))
}
