//! What the program prints: the line of each answer, the map of a design, the line of a netlist, and the
//! lines of a trace.
#![tactic(auto)]

mod hexadecimal;
mod line;
mod map;
mod netlist;
mod ports;
mod slaves;
mod status;
mod trace;

pub use map::map_text;
pub use netlist::netlist_line;
pub use status::{Status, fault_text};
pub use trace::{Totals, end_line, trace_line};
