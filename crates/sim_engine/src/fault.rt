use dip_lists::Memory;
use thiserror::Error;

/// Why there is no engine for a netlist.
#[derive(Clone, Copy, Debug, PartialEq, Eq, Error)]
pub enum EngineFault {
    /// A net depends on itself through cells.
    #[error("net {net} depends on itself through cells")]
    Loop {
        /// The least such net.
        net: u64,
    },
    /// Want of memory.
    #[error("out of memory")]
    Memory,
}

impl From<Memory> for EngineFault {
    ghost use Rattle.std.specs.Prelude.{◌≡◌};
    ghost use Rattle.sim_engine.specs.declared.fault.EngineFault.TheVariants as fault;

    ghost from_gives = { λ _ e. e ≡ fault.Memory };

    fn from(_: Memory) -> EngineFault {
        EngineFault::Memory
    }
}
