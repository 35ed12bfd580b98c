//! The text of netlists, in a subset of Verilog (IEEE 1364-2005): a netlist's text, and the netlist that
//! a text spells.
#![tactic(auto)]

mod digits;
mod due;
mod fault;
mod fits;
mod grammar;
mod kind;
mod laws;
mod named;
mod part;
mod printer;
mod progress;
mod reader;
mod scan;
mod syntax;
mod token;
mod writing;

pub use fault::TextFault;
pub use laws::{parts_law, print_law, spelling_law, syntax_law, tests_law};
pub use printer::print;
pub use reader::read;
