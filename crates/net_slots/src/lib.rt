//! The slots of a shrinker in wires: which new ids are free, the old id of each, and how many beats of a
//! message are left.
#![tactic(auto)]

mod constants;
mod counter;
mod lengths;
mod lowest;
mod slots;
mod types;

pub use counter::{count_left, is_none, next_left};
pub use lengths::beats_after;
pub use lowest::lowest_free;
pub use slots::{BuiltSlots, build_slots};
pub use types::{Counter, Lowest, SlotMoves, SlotWires, Slots};
