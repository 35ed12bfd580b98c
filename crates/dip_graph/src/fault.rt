use dip_lists::Memory;
use thiserror::Error;

/// Why there is no result.
#[derive(Clone, Copy, Debug, PartialEq, Eq, Error)]
pub enum Fault {
    /// The first check that fails, and the number of what it fails on.
    #[error("check {number} fails at {subject}")]
    Check { number: u16, subject: u64 },
    #[error("out of memory")]
    Memory,
}

impl From<Memory> for Fault {
    ghost use Rattle.std.specs.Prelude.{◌≡◌};
    ghost use Rattle.dip_graph.specs.declared.fault.Fault.TheVariants as fault;

    ghost from_gives = { λ _ e. e ≡ fault.Memory };

    fn from(_: Memory) -> Fault {
        Fault::Memory
    }
}
