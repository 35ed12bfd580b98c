use dip_lists::Memory;
use thiserror::Error;
use tl_params::{DownPorts, UpPorts};

/// The parameters on which the ports of a design agree: what goes down and what goes up each edge.
#[derive(Drop)]
pub struct Solution {
    pub down: DownPorts,
    pub up: UpPorts,
}

/// Why there is no solution.
#[derive(Clone, Copy, Debug, PartialEq, Eq, Error)]
pub enum NegFault {
    /// A rule refuses what comes down to it, with a number of its own; a nexus has port 0.
    #[error("node {node} refuses down at port {port} with {number}")]
    DownRefused { node: u32, port: u32, number: u16 },
    /// A rule refuses what comes up to it.
    #[error("node {node} refuses up at port {port} with {number}")]
    UpRefused { node: u32, port: u32, number: u16 },
    #[error("out of memory")]
    Memory,
}

impl From<Memory> for NegFault {
    ghost use Rattle.std.specs.Prelude.{◌≡◌};
    ghost use Rattle.dip_negotiate.specs.declared.solution.NegFault.TheVariants as fault;

    ghost from_gives = { λ _ e. e ≡ fault.Memory };

    fn from(_: Memory) -> NegFault {
        NegFault::Memory
    }
}
