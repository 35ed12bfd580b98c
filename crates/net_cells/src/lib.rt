//! Netlists: what they are made of, which are well formed, and what values their nets have.
#![tactic(auto)]

mod laws;
mod name_table;
mod netlist;
mod rules;

pub use laws::{runs_law, values_law};
pub use name_table::NameTable;
pub use netlist::{
    Cell, CellList, CellOp, Netlist, OutPort, OutPorts, Port, Ports, Reg, Regs, WIDTH_LIMIT,
};
pub use rules::well_formed;
