//! Lists that contracts see as the list of their items, equality and copies of them, and want of memory.
#![tactic(auto)]

mod duplicate;
mod few;
mod first;
mod items;
mod memory;
mod same;

pub use duplicate::{Duplicate, duplicate_items};
pub use few::Few;
pub use first::{first_failing_law, places_law};
pub use items::{Bytes, Items, MOST_ITEMS};
pub use memory::Memory;
pub use same::{Same, same_items};
