use crate::words::{number, numbers, say, say_number, say_some, say_whether};
use dip_lists::{Bytes, Duplicate, Few, Items, Memory, Same};
use dip_names::Names;
use dip_text::Text;
use std::alloc::Global;
use std::fmt::Write;

// The numbers from 1 to a last one.
fn counted(alloc: Global, last: u64) -> Result<Items<u32>, Memory> {
    let mut items = Items::new(alloc);
    for number in 0..last {
        items.push((number % 1000) as u32 + 1)?;
    }
    Ok(items)
}

/// So many items: their length, the sixth, one past the last, and whether a copy is the same.
pub fn items(alloc: Global, rest: &str, text: &mut String) -> Result<(), Memory> {
    let items = counted(alloc, number(rest))?;
    say_number(text, items.len() as u64)?;
    say_some(text, items.get(5).map(|item| u64::from(*item)))?;
    say_whether(text, items.get(items.len()).is_none())?;
    let copy = items.copy(alloc)?;
    say_whether(text, copy.same(&items))
}

// So many ones.
fn ones(alloc: Global, count: usize) -> Result<Items<u32>, Memory> {
    let mut ones = Items::new(alloc);
    for _ in 0..count {
        ones.push(1)?;
    }
    Ok(ones)
}

/// So many items with ones in place of all, and then 9 in place of the last: the first and the last.
pub fn replaced(alloc: Global, rest: &str, text: &mut String) -> Result<(), Memory> {
    let mut items = counted(alloc, number(rest))?;
    let ones = ones(alloc, items.len())?;
    if ones.len() == items.len() {
        items.refill(ones.as_slice());
    }
    let last = items.len().saturating_sub(1);
    if last < items.len() {
        items.set(last, 9);
    }
    say_some(text, items.get(0).map(|item| u64::from(*item)))?;
    say_some(text, items.get(last).map(|item| u64::from(*item)))
}

// So many bytes in a list that keeps four in place.
fn few_of(alloc: Global, count: u64) -> Result<Few<u8>, Memory> {
    let mut bytes = Few::new(alloc);
    for byte in 0..count {
        bytes.push((byte % 256) as u8)?;
    }
    Ok(bytes)
}

/// A list of two lists that keep four items in place, with so many bytes and none: whether a copy is the
/// same, and the length and the fifth byte of its first list.
pub fn few(alloc: Global, rest: &str, text: &mut String) -> Result<(), Memory> {
    let mut lists = Items::new(alloc);
    lists.push(few_of(alloc, number(rest))?)?;
    lists.push(Few::new(alloc))?;
    let copy = lists.duplicate(alloc)?;
    say_whether(text, copy.same(&lists))?;
    if let Some(first) = copy.get(0) {
        say_number(text, first.len() as u64)?;
        say_some(text, first.get(4).map(|byte| u64::from(*byte)))?;
    }
    Ok(())
}

/// How many of so many bytes a bounded list takes, and whether it refuses the next.
pub fn bounded(alloc: Global, rest: &str, text: &mut String) -> Result<(), Memory> {
    let mut bytes: Bytes = Items::new(alloc);
    let mut refused = false;
    for _ in 0..number(rest) {
        refused = bytes.push_bounded(0).is_err();
    }
    say_number(text, bytes.len() as u64)?;
    say_whether(text, refused)
}

/// Numbers as a text that grows prints them.
pub fn decimals(alloc: Global, rest: &str, text: &mut String) -> Result<(), Memory> {
    let mut grown = Text::new(alloc);
    for number in numbers(alloc, rest)?.iter() {
        grown.add(b" ")?;
        grown.add_number(*number)?;
    }
    add_bytes(text, grown.as_slice())
}

/// Numbers as a text that grows prints them in hexadecimal digits.
pub fn hexadecimals(alloc: Global, rest: &str, text: &mut String) -> Result<(), Memory> {
    let mut grown = Text::new(alloc);
    for number in numbers(alloc, rest)?.iter() {
        grown.add_byte(b' ')?;
        grown.add_hexadecimal(*number)?;
    }
    add_bytes(text, grown.into_bytes().as_slice())
}

/// Adds bytes to an answer, each as the character with its number.
pub fn add_bytes(text: &mut String, bytes: &[u8]) -> Result<(), Memory> {
    for byte in bytes {
        text.push(char::from(*byte))?;
    }
    Ok(())
}

/// Names in the order of adding: `+` behind a new one, and the number of one that is there.
pub fn names(alloc: Global, rest: &str, text: &mut String) -> Result<(), Memory> {
    let mut names = Names::new(alloc);
    for name in rest.split(' ') {
        if names.has(name) {
            let place = names.number_of(name).unwrap_or(usize::MAX);
            write!(text, " {name}:{place}")?;
        } else {
            names.add(name)?;
            write!(text, " {name}+")?;
        }
    }
    say_whether(text, names.number_of("other").is_none())?;
    say(text, "other")
}
