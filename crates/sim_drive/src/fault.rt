use dip_lists::Memory;
use thiserror::Error;

/// Why no run was opened.
#[derive(Clone, Copy, Debug, PartialEq, Eq, Error)]
pub enum RunFault {
    /// There are fewer devices than sink ports.
    #[error("{needed} devices are needed, and {given} were given")]
    NoDevice {
        /// How many sink ports there are.
        needed: u64,
        /// How many devices were given.
        given: u64,
    },
    /// Want of memory.
    #[error("out of memory")]
    Memory,
}

impl From<Memory> for RunFault {
    ghost use Rattle.std.specs.Prelude.{◌≡◌};
    ghost use Rattle.sim_drive.specs.declared.fault.RunFault.TheVariants as fault;

    ghost from_gives = { λ _ e. e ≡ fault.Memory };

    fn from(_: Memory) -> RunFault {
        RunFault::Memory
    }
}
