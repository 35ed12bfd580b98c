//! The parameters of TileLink's ports: operations, masters and slaves, and who owns an address.
#![tactic(auto)]

mod arguments;
mod codes;
mod laws;
mod ops;
mod ports;

pub use arguments::{Fragments, fragment_arguments, is_width, shrink_argument};
pub use codes::{ack_of_code, code_of_ack, code_of_op, op_of_code};
pub use laws::{
    carried_law, codes_law, joined_owners_law, one_owner_law, only_owner_law, owner_law,
    transfers_law,
};
pub use ops::{Ack, Args, Numbers, Op, Ops, Policy, Template};
pub use ports::{
    AddressLists, Addresses, DownPort, DownPorts, Master, Masters, Slave, Slaves, UpPort, UpPorts,
    copy_down, copy_up, largest_end, owner, owner_among, same_down, same_up,
};
