use crate::ranges;
use crate::words::{numbers, say, say_number, say_whether};
use dip_lists::{Duplicate, Memory, Same};
use dip_sets::{AddressSet, Name, Sizes, split_region};
use std::alloc::Global;
use std::fmt::Write;

/// Writes the answer to a case of names, sets, sizes and ranges.
pub fn answer(alloc: Global, word: &str, rest: &str, text: &mut String) -> Result<(), Memory> {
    if word == "name" {
        return name(alloc, rest, text);
    }
    let numbers = numbers(alloc, rest)?;
    let numbers = numbers.as_slice();
    match word {
        "set" => set(numbers, text),
        "pair" => pair(alloc, numbers, text),
        "less" => less(alloc, numbers, text),
        "region" => region(alloc, numbers, text),
        "sizes" => sizes(numbers, text),
        "two_sizes" => two_sizes(numbers, text),
        "ids" => ranges::ids(numbers, text),
        "ranges" => ranges::ranges(alloc, numbers, text),
        _ => say(text, "no such case"),
    }
}

// Whether a text is a name, and its copies are the same.
fn name(alloc: Global, rest: &str, text: &mut String) -> Result<(), Memory> {
    let Some(name) = Name::new(alloc, rest)? else {
        return say(text, "no");
    };
    let same = name.copy(alloc)?.same(&name) && name.duplicate(alloc)?.as_str() == rest;
    say_whether(text, same)
}

// The numbers below 16 that are in one of the sets, as bits.
fn members(sets: &[AddressSet]) -> u16 {
    let mut bits = 0;
    for x in 0..16u64 {
        if sets.iter().any(|set| set.contains(x)) {
            bits |= 1u16 << x;
        }
    }
    bits
}

// The set of a base and a mask, with its alignment.
fn set(numbers: &[u64], text: &mut String) -> Result<(), Memory> {
    let [base, mask] = numbers else {
        return say(text, "not two numbers");
    };
    match AddressSet::new(*base, *mask) {
        Ok(set) => Ok(write!(
            text,
            " {:x}/{:x} aligned {:x}",
            set.base(),
            set.mask(),
            set.alignment()
        )?),
        Err(_) => say(text, "bad"),
    }
}

// Two sets: the numbers below 16 that are in both and in the first alone, and whether it covers the second.
fn of_two(
    alloc: Global,
    set: &AddressSet,
    other: &AddressSet,
    text: &mut String,
) -> Result<(), Memory> {
    let common = match set.intersect(other) {
        Some(both) => members(&[both]),
        None => 0,
    };
    let left = set.subtract(alloc, other)?;
    write!(
        text,
        " both {common:x} alone {:x}",
        members(left.as_slice())
    )?;
    say_whether(text, set.overlaps(other))?;
    say_whether(text, set.covers(other))
}

// The two sets of four numbers.
fn two_of(numbers: &[u64]) -> Option<(AddressSet, AddressSet)> {
    let [base, mask, other_base, other_mask] = numbers else {
        return None;
    };
    let set = AddressSet::new(*base, *mask).ok()?;
    let other = AddressSet::new(*other_base, *other_mask).ok()?;
    Some((set, other))
}

// Two sets, where the numbers are sets'.
fn pair(alloc: Global, numbers: &[u64], text: &mut String) -> Result<(), Memory> {
    match two_of(numbers) {
        Some((set, other)) => of_two(alloc, &set, &other, text),
        None => say(text, "not two sets"),
    }
}

// Adds the bases and masks of sets to an answer.
fn add_sets(text: &mut String, sets: &[AddressSet]) -> Result<(), Memory> {
    for set in sets {
        write!(text, " {:x}/{:x}", set.base(), set.mask())?;
    }
    Ok(())
}

// The sets that are left of one without another.
fn less(alloc: Global, numbers: &[u64], text: &mut String) -> Result<(), Memory> {
    match two_of(numbers) {
        Some((set, other)) => add_sets(text, set.subtract(alloc, &other)?.as_slice()),
        None => say(text, "not two sets"),
    }
}

// The sets of a region, and how many they are.
fn region(alloc: Global, numbers: &[u64], text: &mut String) -> Result<(), Memory> {
    let [start, size] = numbers else {
        return say(text, "not two numbers");
    };
    if *start > 1 << 48 || *size > (1 << 48) - *start {
        return say(text, "too far");
    }
    let sets = split_region(alloc, *start, *size)?;
    say_number(text, sets.len() as u64)?;
    if sets.len() <= 8 {
        return add_sets(text, sets.as_slice());
    }
    Ok(())
}

// Adds a range of sizes to an answer.
fn add_sizes(text: &mut String, sizes: &Sizes) -> Result<(), Memory> {
    Ok(write!(text, " {}-{}", sizes.min(), sizes.max())?)
}

// The sizes from a least to a greatest one, and no size where both are 0.
fn sizes_of(least: u64, greatest: u64) -> Option<Sizes> {
    if least == 0 && greatest == 0 {
        return Some(Sizes::none());
    }
    Sizes::new(u32::try_from(least).ok()?, u32::try_from(greatest).ok()?)
}

// Whether there are such sizes, and which of 1, 3, 4 and 256 are among them.
fn sizes(numbers: &[u64], text: &mut String) -> Result<(), Memory> {
    let [least, greatest] = numbers else {
        return say(text, "not two numbers");
    };
    let Some(sizes) = sizes_of(*least, *greatest) else {
        return say(text, "none");
    };
    add_sizes(text, &sizes)?;
    say_whether(text, sizes.contains(1))?;
    say_whether(text, sizes.contains(3))?;
    say_whether(text, sizes.contains(4))?;
    say_whether(text, sizes.contains(256))
}

// What two ranges of sizes have in common, the least one that has both, and whether the first is within
// the second.
fn two_sizes(numbers: &[u64], text: &mut String) -> Result<(), Memory> {
    let [least, greatest, other_least, other_greatest] = numbers else {
        return say(text, "not four numbers");
    };
    let Some(sizes) = sizes_of(*least, *greatest) else {
        return say(text, "none");
    };
    let Some(other) = sizes_of(*other_least, *other_greatest) else {
        return say(text, "none");
    };
    add_sizes(text, &sizes.meet(&other))?;
    add_sizes(text, &sizes.cover(&other))?;
    say_whether(text, sizes.within(&other))
}
