//! Lanes of buses of two widths in wires: the lanes of a narrow beat in a wide one, narrow beats counted, and
//! addresses kept for ids.
#![tactic(auto)]

mod bits;
mod counts;
mod kept;
mod lanes;
mod masks;
mod places;

pub use bits::{equals, low_bits};
pub use counts::{Number, bytes_of_bus, last_number, next_number, numbered};
pub use kept::{Kept, entry_of, kept_at};
pub use lanes::{collect, pick_lane, place_lane};
pub use masks::active_lanes_of;
pub use places::{Buses, Place, here, lane_index, place_of, turns};
