//! Names, address sets, transfer sizes and id ranges.
#![tactic(auto)]

mod assign;
mod ids;
mod laws;
mod name;
mod region;
mod set;
mod sizes;

pub use assign::{assign_ranges, goes_first, rounded_up};
pub use ids::{IdRange, IdRanges};
pub use laws::{members_law, whole_blocks_law};
pub use name::{Name, is_name};
pub use region::split_region;
pub use set::{AddressSet, AddressSets, BadSet};
pub use sizes::Sizes;
