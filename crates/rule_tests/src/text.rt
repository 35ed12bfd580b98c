use dip_graph::Numbers;
use dip_lists::{Items, Memory};
use dip_sets::Name;
use std::alloc::Global;

/// The number that a text is, a large one where it is none.
pub fn number(text: &str) -> u32 {
    text.parse::<u32>().unwrap_or(4_000_000_000)
}

/// Numbers between commas, none for `-`.
pub fn numbers(alloc: Global, text: &str) -> Result<Numbers, Memory> {
    let mut all = Items::new(alloc);
    if text == "-" {
        return Ok(all);
    }
    for part in text.split(',') {
        all.push(number(part))?;
    }
    Ok(all)
}

/// What stands before the first such character and behind it.
pub fn halves(text: &str, between: char) -> (&str, &str) {
    text.split_once(between).unwrap_or((text, ""))
}

/// The name that a text is.
pub fn name(alloc: Global, text: &str) -> Result<Name, Memory> {
    Name::new(alloc, text)?.ok_or(Memory)
}
